// The inner layers that the benchmarks time, exported on byte slices: SHA-256 and a leaf.
// Uses the layers that it shows.
// bench/ links it beside the library; no customer does.

#![tactic(auto)]

ghost use Rattle.std.specs.Prelude.{◌≡◌, take};
ghost use Rattle.sha256.specs.Sha256.{sha256};
ghost use Rattle.keyed.specs.Sha2.{sha2};
ghost use Rattle.rfc8391.specs.House.{secrets};
ghost use Rattle.rfc8391.specs.Xmss.{leaf_of};
ghost use Rattle.rfc8391.specs.Formats.{single_tree};

use rfc8391::Hash;
use tree::Tree;

#[unsafe(no_mangle)]
pub extern "C" fn zab_probe_sha256(m: &[u8], out: &mut [u8; 32])
    ensures { out.new ≡ sha256 m.now }
{
    *out = sha256::hash(m);
}

// One leaf of a key.
#[unsafe(no_mangle)]
pub extern "C" fn zab_probe_leaf(secret: &[u8; 32], public: &[u8; 32], i: u32, out: &mut [u8; 32])
    ensures { out.new
        ≡ leaf_of sha2 (take 32 public.now) single_tree
        (secrets sha2 (take 32 secret.now) (take 32 public.now) single_tree) i }
{
    *out = Tree::single(Hash::Sha2, *secret, *public).leaf(i);
}
