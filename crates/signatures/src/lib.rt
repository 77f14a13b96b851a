// Signatures in bytes: one is written with what a secret record holds, and one is read to the root to which it leads.
// Uses records, trees and what lies below them. Where chain values and path lie in a signature is known here alone.
// The operations add the refusals and use it.

#![tactic(auto)]

ghost use Rattle.std.specs.Prelude.{◌≡◌, ◌++◌, ◌*◌, ◌<◌, ◌≤◌, length, take};
ghost use Rattle.lists.specs.Lists.{flat};
ghost use Rattle.lists.specs.Bytes.{to_byte};
ghost use Rattle.rfc8391.specs.Wots.{len, wots_sign};
ghost use Rattle.rfc8391.specs.Formats.{value_length, key_length, signature_length, signature_bytes};
ghost use Rattle.keyed.specs.Sha2.{sha2};
ghost use Rattle.keyed.specs.Seeds.{suite_of, held, seed_of};
ghost use Rattle.onetime.specs.Secrets.{value_of};
ghost use Rattle.records.specs.Records.{record_from};
ghost use Rattle.records.specs.Keys.{signed_by};
ghost use Rattle.signatures.specs.Recomputed.{recomputed};

use keyed::Seed;
use onetime::Secrets;
use records::SecretKey;
use rfc8391::{Address, Hash};
use tree::Tree;

// A signature's first 36 bytes: its index, and r.
fn write_head(out: &mut [u8], index: u32, r: [u8; 32])
    requires { length out.old ≡ 36 }
    ensures { out.new ≡ to_byte index 4 ++ r }
{
    let (number, value) = out.split_at_mut(4);
    lists::write_number(number, index);
    value.copy_from_slice(&r);
}

// The chain values of the value m, by a leaf's secret values: each walk gets the part alone that it writes.
fn write_values(out: &mut [u8], x: Secrets, m: [u8; 32])
    requires { length out.old ≡ (suite_of x.seed).n * len (suite_of x.seed) }
    ensures { out.new ≡ flat (wots_sign (suite_of x.seed) (seed_of x.seed) x.at (held x.seed m) (value_of x)) }
{
    let n = x.seed.value_length();
    let d = onetime::digits_of(m, 2 * n);
    // By places, and not by `chunks_exact_mut`: after such a loop nothing is known of what it wrote into the buffer. Chains are counted by a
    // usize, and an address takes a u32: std has no `From` for that.
    for c in 0..2 * n + 3 {
        let k = c as u32;
        let at = n * c;
        onetime::walk_into(
            &mut out[at..at + n],
            x.seed,
            x.at.set_chain_address(k),
            x.value(k),
            u32::from(d[c]),
        );
    }
}

// r of an index: every signature has its own.
fn randomiser(prfkey: [u8; 32], index: u32) -> [u8; 32]
    ensures { result ≡ sha2.PRF prfkey (to_byte index 32) }
{
    Seed::prepare(Hash::Sha2, prfkey).prf(rfc8391::to_bytes(index))
}

// The signature of a message by an index, with what a secret record holds. Keys of type 1 alone sign: their trees have height 10.
pub fn write_signature(secret: &[u8], index: u32, message: &[u8], out: &mut [u8])
    requires { (length secret.now ≡ 132) × (index < 1024) × (length out.old ≡ 2500) }
    ensures { out.new ≡ signature_bytes (signed_by sha2 (record_from 32 secret.now) index message.now) }
{
    let key = SecretKey::read(secret);
    let tree = Tree::single(Hash::Sha2, key.secret, key.public);
    let r = randomiser(key.prfkey, index);
    let m = keyed::message_digest(Hash::Sha2, r, key.root, index, message);
    let n = tree.seed.value_length();
    let (head, rest) = out.split_at_mut(4 + n);
    let (values, path) = rest.split_at_mut(n * (2 * n + 3));
    write_head(head, index, r);
    write_values(values, tree.secrets(index), m);
    tree.write_path(path, 10, index);
}

// The root to which a signature of a message leads, by the hash and the height of the key's type.
#[tactic(auto, unfolding(rfc8391::specs::Formats::key_length, rfc8391::specs::Formats::path_start, rfc8391::specs::Formats::signature_length))]
pub fn recomputed_root(
    hash: Hash,
    height: u32,
    key: &[u8],
    message: &[u8],
    signature: &[u8],
) -> [u8; 32]
    requires { (length key.now ≡ key_length (value_length hash))
        × (length signature.now ≡ signature_length (value_length hash) height) }
    ensures { take (value_length hash) result
        ≡ recomputed hash height key.now message.now signature.now }
{
    let n = keyed::value_length(hash);
    // A key's type and a signature's index have four bytes.
    let (root, seed) = key[4..].split_at(n);
    let (r, rest) = signature[4..].split_at(n);
    let (values, path) = rest.split_at(n * (2 * n + 3));
    let seed = Seed::prepare(hash, rfc8391::value_of(seed));
    let index = lists::big_endian(signature, 0);
    let digest = keyed::message_digest(
        hash,
        rfc8391::value_of(r),
        rfc8391::value_of(root),
        index,
        message,
    );
    tree::root_from_signature(
        seed,
        Address::single_tree(),
        height,
        index,
        values,
        path,
        digest,
    )
}
