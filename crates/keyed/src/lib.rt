// F, H, PRF and the message hash of RFC 8391 by the hash of a key type, a file a suite, and seeds that are prepared once.
// Uses sha256 and rfc8391.
// Everything that hashes uses it. A seed carries its hash, and contracts above speak of suite_of a seed: another hash changes nothing there.
// Five functions match on the hash, which a key's type picks while the program runs. A trait would have one instance, and make Seed and
// every function above generic.

#![tactic(auto)]

ghost use Rattle.std.specs.Prelude.{◌≡◌, ◌++◌, ◌≤◌};
ghost use Rattle.rfc8391.specs.Xmss.{message_digest};
ghost use Rattle.rfc8391.specs.Formats.{value_length};
ghost use Rattle.lists.specs.Bytes.{to_byte};
ghost use Rattle.sha256.specs.Sha256.{H₀, hashed};
ghost use Rattle.keyed.specs.Suites.{suite};
ghost use Rattle.keyed.specs.Held.{held_by};

use rfc8391::{Address, Hash};
use sha2::Function;
use sha256::State;

mod sha2;

// How many bytes a value has: of the 32 in which it is held, the first so many count.
pub fn value_length(hash: Hash) -> usize
    ensures { (result ≡ value_length hash) × (result ≤ 32) }
{
    match hash {
        Hash::Sha2 => 32,
    }
}

pub fn f(hash: Hash, key: [u8; 32], input: [u8; 32]) -> [u8; 32]
    ensures { held_by hash result ≡ (suite hash).F (held_by hash key) (held_by hash input) }
{
    match hash {
        Hash::Sha2 => sha2::f(key, input),
    }
}

pub fn h(hash: Hash, key: [u8; 32], left: [u8; 32], right: [u8; 32]) -> [u8; 32]
    ensures { held_by hash result ≡ (suite hash).H (held_by hash key) (held_by hash left ++ held_by hash right) }
{
    match hash {
        Hash::Sha2 => sha2::h(key, left, right),
    }
}

// The value that is signed for a message.
pub fn message_digest(
    hash: Hash,
    r: [u8; 32],
    root: [u8; 32],
    index: u32,
    message: &[u8],
) -> [u8; 32]
    ensures { held_by hash result ≡ message_digest (suite hash) (held_by hash r) (held_by hash root) index message.now }
{
    match hash {
        Hash::Sha2 => sha2::message_digest(r, root, index, message),
    }
}

// A seed, with the hash value after the block that every PRF of it begins with: one compression less for every key and mask. It is
// prepared alike for every hash.
#[derive(Clone, Copy)]
pub struct Seed {
    pub hash: Hash,
    pub bytes: [u8; 32],
    pub mid: State,
    pub ghost prepared: { mid ≡ hashed 1 H₀ (to_byte 3 32 ++ bytes) },
}

impl Seed {
    ghost use Rattle.rfc8391.specs.Wots.{prf_at};
    ghost use Rattle.keyed.specs.Seeds.{suite_of, held, seed_of};

    pub fn prepare(hash: Hash, bytes: [u8; 32]) -> Self
        ensures { (result.bytes ≡ bytes) × (result.hash ≡ hash) }
    {
        let mid = sha2::keyed_by(Function::Prf, bytes);
        Seed { hash, bytes, mid }
    }

    // Another seed of the same hash.
    pub fn like(self, bytes: [u8; 32]) -> Self
        ensures { (result.bytes ≡ bytes) × (result.hash ≡ self.hash) }
    {
        Self::prepare(self.hash, bytes)
    }

    // How many bytes of a value count in the suite of the seed.
    pub fn value_length(self) -> usize
        ensures { (result ≡ (suite_of self).n) × (result ≤ 32) }
    {
        value_length(self.hash)
    }

    pub fn prf(self, input: [u8; 32]) -> [u8; 32]
        ensures { held self result ≡ (suite_of self).PRF (seed_of self) input }
    {
        match self.hash {
            Hash::Sha2 => sha256::finish_half(self.mid, 1, input),
        }
    }

    // A key or a mask: PRF over an address.
    pub fn prf_at(self, a: Address) -> [u8; 32]
        ensures { held self result ≡ prf_at (suite_of self) (seed_of self) a }
    {
        self.prf(a.encode())
    }
}
