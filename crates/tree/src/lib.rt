// The trees of RFC 8391: L-tree, leaf, node, path, and the root from a signature.
// Uses onetime and what lies below it.
// The records and the signatures use it.

#![tactic(auto)]

ghost use Rattle.std.specs.Prelude.{◌≡◌, ◌+◌, ◌*◌, ◌/◌, ◌%◌, ◌^◌, ◌<◌, ◌≤◌, length};
ghost use Rattle.lists.specs.Lists.{flat};
ghost use Rattle.rfc8391.specs.Wots.{len};
ghost use Rattle.rfc8391.specs.Xmss.{ots_at, tree_at, sibling, rand_hash, ltree_round, ltree, node, auth_path, climb, root_from_path, root_from_sig};
ghost use Rattle.rfc8391.specs.Formats.{single_tree};
ghost use Rattle.keyed.specs.Seeds.{suite_of, held, held_first, held_all, values_in, seed_of};
ghost use Rattle.tree.specs.Keys.{leaves};

use keyed::Seed;
use onetime::Secrets;
use rfc8391::{Address, Hash};

// Two values joined. The selector is set for each key and mask, so that none is left over. Seed and address are two arguments here and
// below, for the reason that onetime gives: calls change the address alone.
fn join(s: Seed, a: Address, left: [u8; 32], right: [u8; 32]) -> [u8; 32]
    ensures { held s result ≡ rand_hash (suite_of s) (seed_of s) a (held s left) (held s right) }
{
    let key = s.prf_at(a.for_key());
    let left_mask = s.prf_at(a.for_mask());
    let right_mask = s.prf_at(a.for_right_mask());
    keyed::h(
        s.hash,
        key,
        rfc8391::xored(left, left_mask),
        rfc8391::xored(right, right_mask),
    )
}

// One round over the first w values, in place: a pair's join is stored where no later pair reads. The array is as long as the longest, as
// that of onetime's digits.
fn ltree_round(s: Seed, a: Address, height: u32, mut v: [[u8; 32]; 67], w: usize) -> [[u8; 32]; 67]
    requires { w ≤ 67 }
    ensures { held_first s ((w + 1) / 2) result ≡ ltree_round (suite_of s) (seed_of s) a height (held_first s w v) }
{
    for i in 0..w / 2 {
        let at = a.set_tree_height(height).set_tree_index(i as u32);
        v[i] = join(s, at, v[2 * i], v[2 * i + 1]);
    }
    if w % 2 == 1 {
        v[w / 2] = v[w - 1];
    }
    v
}

// The L-tree over the chain ends: rounds until one value is left. How many there are is not known before, so that the loop ends by the width
// and counts them beside it. `next` is for the borrow checker, as in a walk of onetime.
fn ltree_root(s: Seed, a: Address, ends: [[u8; 32]; 67]) -> [u8; 32]
    ensures { held s result ≡ ltree (suite_of s) (seed_of s) a (held_all s ends) }
{
    let mut v = ends;
    let mut w = 2 * s.value_length() + 3;
    let mut height: u32 = 0;
    while 1 < w {
        let next = ltree_round(s, a, height, v, w);
        v = next;
        w -= w / 2;
        height += 1;
    }
    v[0]
}

// A join on the way up carries the height of the two nodes and the position of the one above them.
fn join_at(
    s: Seed,
    a: Address,
    height: u32,
    above: u32,
    left: [u8; 32],
    right: [u8; 32],
) -> [u8; 32]
    ensures { held s result ≡ rand_hash (suite_of s) (seed_of s) (tree_at a height above) (held s left) (held s right) }
{
    join(s, a.tree_at(height, above), left, right)
}

// One key's tree: the secret seed of its leaves, the public seed, and the address, which carries layer and tree.
#[derive(Clone, Copy)]
pub struct Tree {
    pub secret: [u8; 32],
    pub seed: Seed,
    pub at: Address,
}

impl Tree {
    // The one tree of a key of XMSS.
    pub fn single(hash: Hash, secret: [u8; 32], public: [u8; 32]) -> Self
        ensures { (result.secret ≡ secret) × (result.seed.bytes ≡ public) × (result.seed.hash ≡ hash) × (result.at ≡ single_tree) }
    {
        Self {
            secret,
            seed: Seed::prepare(hash, public),
            at: Address::single_tree(),
        }
    }

    // What the secret values of leaf i need.
    pub fn secrets(self, i: u32) -> Secrets
        ensures { (result.secret ≡ self.secret) × (result.seed ≡ self.seed) × (result.at ≡ ots_at self.at i) }
    {
        Secrets::prepare(self.secret, self.seed, self.at.ots_at(i))
    }

    pub fn leaf(self, i: u32) -> [u8; 32]
        ensures { held self.seed result ≡ leaves self i }
    {
        ltree_root(self.seed, self.at.ltree_at(i), self.secrets(i).ends())
    }

    // The node of a height at a position, from its two nodes of the height below.
    pub fn node(self, height: u32, position: u32) -> [u8; 32]
        requires { (position + 1) * 2 ^ height ≤ 1048576 }
        ensures { held self.seed result ≡ node (suite_of self.seed) (seed_of self.seed) self.at (leaves self) height position }
    {
        if height == 0 {
            self.leaf(position)
        } else {
            let k = height - 1;
            let left = self.node(k, 2 * position);
            let right = self.node(k, 2 * position + 1);
            join_at(self.seed, self.at, k, position, left, right)
        }
    }

    // The path of a leaf into a lent part: at each height the sibling of the leaf's ancestor, from the leaf up.
    pub fn write_path(self, out: &mut [u8], height: u32, index: u32)
        requires { (height ≤ 20) × (index < 2 ^ height) × (length out.old ≡ (suite_of self.seed).n * height) }
        ensures { out.new ≡ flat (auth_path (suite_of self.seed) (seed_of self.seed) self.at (leaves self) height index) }
    {
        let n = self.seed.value_length();
        // By places, and not by `chunks_exact_mut`: after such a loop nothing is known of what it wrote into the buffer. A height goes to usize
        // by `as`, and in `ltree_round` an index to u32: std has no `From` for either.
        for k in 0..height {
            let at = n * (k as usize);
            let other = self.node(k, (index >> k) ^ 1);
            rfc8391::write_value(&mut out[at..at + n], other);
        }
    }
}

// From a node of height k at a position to the one above, by its sibling: an even position is a left one.
fn climb_by(s: Seed, a: Address, k: u32, position: u32, v: [u8; 32], other: [u8; 32]) -> [u8; 32]
    ensures { held s result ≡ climb (suite_of s) (seed_of s) a k position (held s v) (held s other) }
{
    if position % 2 == 0 {
        join_at(s, a, k, position / 2, v, other)
    } else {
        join_at(s, a, k, position / 2, other, v)
    }
}

// The root that a leaf and its path of `height` nodes lead to. That a path has so many, of the suite's n bytes each, is asked here and below:
// a type of such slices would hold seed and height too.
fn root_from_path(
    s: Seed,
    a: Address,
    height: u32,
    index: u32,
    start: [u8; 32],
    path: &[u8],
) -> [u8; 32]
    requires { length path.now ≡ (suite_of s).n * height }
    ensures { held s result ≡ root_from_path (suite_of s) (seed_of s) a height index (held s start) (values_in s height path.now) }
{
    let n = s.value_length();
    // `next` is as in `ltree_root`. Each node is split off: of a `zip` of the heights and `chunks_exact(n)` a proof knows the pairs so far, and
    // not that a node is that of k.
    let mut rest = path;
    let mut v = start;
    let mut position = index;
    for k in 0..height {
        let (node, after) = rest.split_at(n);
        let next = climb_by(s, a, k, position, v, rfc8391::value_of(node));
        v = next;
        position /= 2;
        rest = after;
    }
    v
}

// The root from a signature of the value m: its chain values lead to a leaf, and its path to the root. Where the two parts lie is the
// caller's to know: a signature may have several layers.
pub fn root_from_signature(
    s: Seed,
    a: Address,
    height: u32,
    index: u32,
    values: &[u8],
    path: &[u8],
    m: [u8; 32],
) -> [u8; 32]
    requires { (length values.now ≡ (suite_of s).n * len (suite_of s)) × (length path.now ≡ (suite_of s).n * height) }
    ensures { held s result
        ≡ root_from_sig (suite_of s) (seed_of s) a height index
        (values_in s (len (suite_of s)) values.now) (values_in s height path.now) (held s m) }
{
    let ends = onetime::ends_from(values, s, a.ots_at(index), m);
    let start = ltree_root(s, a.ltree_at(index), ends);
    root_from_path(s, a, height, index, start, path)
}
