// What is written for a key of type 1, into buffers of the right length: the secret record, which is read back too, and the public key.
// Uses the trees and what lies below them.
// Signatures and the operations use it.

#![tactic(auto)]

ghost use Rattle.std.specs.Prelude.{◌≡◌, ◌++◌, length};
ghost use Rattle.lists.specs.Bytes.{to_byte};
ghost use Rattle.keyed.specs.Sha2.{sha2};
ghost use Rattle.records.specs.Records.{record_bytes, record_from};
ghost use Rattle.records.specs.Keys.{made_record};
ghost use Rattle.records.specs.Contents.{contents};

use rfc8391::Hash;
use tree::Tree;

// What a secret record holds.
#[derive(Clone, Copy)]
pub struct SecretKey {
    pub kind: u32,
    pub secret: [u8; 32],
    pub prfkey: [u8; 32],
    pub public: [u8; 32],
    pub root: [u8; 32],
}

impl SecretKey {
    // The key that seed material gives, with the root of its tree. Type 1 alone is made: RFC 8391's number, which record and public key hold as
    // it is.
    pub fn made(material: &[u8]) -> Self
        requires { length material.now ≡ 96 }
        ensures { contents result ≡ made_record sha2 material.now }
    {
        let (values, _) = material.as_chunks::<32>();
        let (secret, prfkey, public) = (values[0], values[1], values[2]);
        Self {
            kind: 1,
            secret,
            prfkey,
            public,
            root: Tree::single(Hash::Sha2, secret, public).node(10, 0),
        }
    }

    // What the bytes of a record hold.
    pub fn read(bytes: &[u8]) -> Self
        requires { length bytes.now ≡ 132 }
        ensures { contents result ≡ record_from 32 bytes.now }
    {
        let (values, _) = bytes[4..].as_chunks::<32>();
        Self {
            kind: lists::big_endian(bytes, 0),
            secret: values[0],
            prfkey: values[1],
            public: values[2],
            root: values[3],
        }
    }

    pub fn write(&self, out: &mut [u8])
        requires { length out.old ≡ 132 }
        ensures { out.new ≡ record_bytes (contents self.now) }
    {
        let (kind, values) = out.split_at_mut(4);
        lists::write_number(kind, self.kind);
        values.copy_from_slice([self.secret, self.prfkey, self.public, self.root].as_flattened());
    }
}

pub fn write_key(out: &mut [u8], root: [u8; 32], public: [u8; 32])
    requires { length out.old ≡ 68 }
    ensures { out.new ≡ to_byte 1 4 ++ (root ++ public) }
{
    let (kind, values) = out.split_at_mut(4);
    lists::write_number(kind, 1);
    values.copy_from_slice([root, public].as_flattened());
}
