// RFC 8391's definitions over any hash suite and their laws, in specs/ and proofs/; here its addresses and key types, and what is done with a
// value, which is the first bytes of an array of 32.
// Uses lists.
// Everything above uses it.

#![tactic(auto)]

ghost use Rattle.std.specs.Prelude.{◌≡◌, ◌≤◌, length, take};
ghost use Rattle.lists.specs.Bytes.{to_byte};
ghost use Rattle.rfc8391.specs.Suite.{xor};
ghost use Rattle.rfc8391.specs.Address.{set_type, set_ots_address, set_chain_address, set_hash_address, set_ltree_address, set_tree_height, set_tree_index, set_key_and_mask, address_bytes};
ghost use Rattle.rfc8391.specs.Xmss.{ots_at, ltree_at, tree_at};
ghost use Rattle.rfc8391.specs.Formats.{key_type, single_tree};

// Eight words. What w4, w5 and w6 mean is the type's to say, so that they have two names each below: those of RFC 8391, section 2.5, which
// its algorithms, our definitions and the contracts use.
#[derive(Clone, Copy, Default)]
pub struct Address {
    pub layer: u32,
    pub treehigh: u32,
    pub treelow: u32,
    pub kind: u32,
    pub w4: u32,
    pub w5: u32,
    pub w6: u32,
    pub w7: u32,
}

impl Address {
    // Of the one tree of XMSS: layer 0, tree 0.
    pub fn single_tree() -> Self
        ensures { result ≡ single_tree }
    {
        Self::default()
    }

    // A word that is left from another type would change every key and mask below. The type is a number and no enum: RFC 8391
    // hashes it, and the contract holds for any.
    pub fn set_type(self, x: u32) -> Self
        ensures { result ≡ set_type self x }
    {
        Self {
            kind: x,
            w4: 0,
            w5: 0,
            w6: 0,
            w7: 0,
            ..self
        }
    }

    pub fn set_ots_address(mut self, x: u32) -> Self
        ensures { result ≡ set_ots_address self x }
    {
        self.w4 = x;
        self
    }

    pub fn set_chain_address(mut self, x: u32) -> Self
        ensures { result ≡ set_chain_address self x }
    {
        self.w5 = x;
        self
    }

    pub fn set_hash_address(mut self, x: u32) -> Self
        ensures { result ≡ set_hash_address self x }
    {
        self.w6 = x;
        self
    }

    pub fn set_ltree_address(self, x: u32) -> Self
        ensures { result ≡ set_ltree_address self x }
    {
        self.set_ots_address(x)
    }

    pub fn set_tree_height(self, x: u32) -> Self
        ensures { result ≡ set_tree_height self x }
    {
        self.set_chain_address(x)
    }

    pub fn set_tree_index(self, x: u32) -> Self
        ensures { result ≡ set_tree_index self x }
    {
        self.set_hash_address(x)
    }

    pub fn set_key_and_mask(mut self, x: u32) -> Self
        ensures { result ≡ set_key_and_mask self x }
    {
        self.w7 = x;
        self
    }

    // The addresses of a key, of a mask, and of the right one of two masks: RFC 8391's selectors, which are hashed as numbers.
    pub fn for_key(self) -> Self
        ensures { result ≡ set_key_and_mask self 0 }
    {
        self.set_key_and_mask(0)
    }

    pub fn for_mask(self) -> Self
        ensures { result ≡ set_key_and_mask self 1 }
    {
        self.set_key_and_mask(1)
    }

    pub fn for_right_mask(self) -> Self
        ensures { result ≡ set_key_and_mask self 2 }
    {
        self.set_key_and_mask(2)
    }

    // The chains of a leaf. `ltree_at` differs by a number alone, but stands beside it: the contract of each names its own definition.
    pub fn ots_at(self, leaf: u32) -> Self
        ensures { result ≡ ots_at self leaf }
    {
        self.set_type(0).set_ots_address(leaf)
    }

    // The L-tree of a leaf.
    pub fn ltree_at(self, leaf: u32) -> Self
        ensures { result ≡ ltree_at self leaf }
    {
        self.set_type(1).set_ltree_address(leaf)
    }

    // The join of two nodes of a height into the one at a position above them.
    pub fn tree_at(self, height: u32, position: u32) -> Self
        ensures { result ≡ tree_at self height position }
    {
        self.set_type(2)
            .set_tree_height(height)
            .set_tree_index(position)
    }

    pub fn encode(self) -> [u8; 32]
        ensures { result ≡ address_bytes self }
    {
        lists::eight_words([
            self.layer,
            self.treehigh,
            self.treelow,
            self.kind,
            self.w4,
            self.w5,
            self.w6,
            self.w7,
        ])
    }
}

// The hash of a key type, with the length of its values: SHA-256 and 32 bytes.
#[derive(Clone, Copy)]
pub enum Hash {
    Sha2,
}

// What a type number stands for: a hash, a tree's height and the length of its signatures.
#[derive(Clone, Copy)]
pub struct KeyType {
    pub hash: Hash,
    pub height: u32,
    pub length: usize,
}

// The type with a number, where we know one. The numbers are those of RFC 8391's registry; a key that is checked has its
// number read here alone.
pub fn key_type(number: u32) -> Option<KeyType>
    ensures { result ≡ key_type number }
{
    match number {
        1 => Some(KeyType {
            hash: Hash::Sha2,
            height: 10,
            length: 2500,
        }),
        2 => Some(KeyType {
            hash: Hash::Sha2,
            height: 16,
            length: 2692,
        }),
        3 => Some(KeyType {
            hash: Hash::Sha2,
            height: 20,
            length: 2820,
        }),
        _ => None,
    }
}

// In place: by `array::from_fn` the proof would have to follow what its closure holds through all 32 calls.
pub fn xored(mut x: [u8; 32], y: [u8; 32]) -> [u8; 32]
    ensures { result ≡ xor 32 x y }
{
    for (i, b) in x.iter_mut().enumerate() {
        *b ^= y[i];
    }
    x
}

// A number in 32 bytes.
pub fn to_bytes(x: u32) -> [u8; 32]
    ensures { result ≡ to_byte x 32 }
{
    let mut out = [0u8; 32];
    out[28..].copy_from_slice(&x.to_be_bytes());
    out
}

// The bytes of a part, as the first of 32.
pub fn value_of(part: &[u8]) -> [u8; 32]
    requires { length part.now ≤ 32 }
    ensures { take (length part.now) result ≡ part.now }
{
    let mut out = [0u8; 32];
    out[..part.len()].copy_from_slice(part);
    out
}

// As many bytes of a value as a lent part has.
pub fn write_value(out: &mut [u8], value: [u8; 32])
    requires { length out.old ≤ 32 }
    ensures { out.new ≡ take (length out.old) value }
{
    let n = out.len();
    out.copy_from_slice(&value[..n]);
}
