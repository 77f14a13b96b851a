// WOTS+, the one-time scheme of RFC 8391: digits, chains, secret values by our rule.
// Uses keyed and what lies below it.
// The trees and the signatures use it.
// SEED and ADRS are two inputs of each algorithm of RFC 8391, and so of each function here. A struct of both would be no plainer: calls change
// the address alone, and walk(s, a.set_chain_address(c), ..) would be walk(p.at(p.a.set_chain_address(c)), ..).

#![tactic(auto)]

ghost use Rattle.std.specs.Prelude.{All, ◌≡◌, ◌++◌, ◌+◌, ◌-◌, ◌*◌, ◌/◌, ◌%◌, ◌^◌, ◌<◌, ◌≤◌, ℕ, length, get_or, take};
ghost use Rattle.lists.specs.Bytes.{to_byte};
ghost use Rattle.rfc8391.specs.Wots.{base_w, checksum, digits, len, step, chain, wots_pk, wots_pk_from_sig};
ghost use Rattle.keyed.specs.Seeds.{suite_of, held, held_all, values_in, seed_of};

use keyed::Seed;
use rfc8391::Address;

// Digit i of bytes, two a byte, the high half first. It takes an index, since two digits share a byte.
fn digit_at(x: &[u8], i: usize) -> u8
    requires { i < 2 * length x.now }
    ensures { result ≡ get_or x.now (i / 2) 0 / 16 ^ (1 - i % 2) % 16 }
{
    let b = x[i / 2];
    if i % 2 == 0 { b / 16 } else { b % 16 }
}

// Digits of bytes, as many as a lent part has: RFC 8391's base_w.
fn write_digits(out: &mut [u8], x: &[u8])
    requires { length out.old ≤ 2 * length x.now }
    ensures { out.new ≡ base_w x.now (length out.old) }
{
    for (i, d) in out.iter_mut().enumerate() {
        *d = digit_at(x, i);
    }
}

// How much the digits leave of 15 each. That a digit is at most 15 is asked here and of each walk: a type of such digits would be taken apart
// wherever one is used, as a number of steps.
fn checksum_of(digits: &[u8]) -> u16
    requires { (All (λ d. d ≤ 15) digits.now) × (length digits.now ≤ 64) }
    ensures { (result ≡ checksum digits.now) × (result ≤ 960) }
{
    digits.iter().map(|&d| u16::from(15 - d)).sum()
}

// How far the signer walks each chain for the value m: k digits of m, and three of their checksum. The array is as long as the longest,
// since k goes with the suite of a seed, and an array's length cannot be computed from a const argument.
pub fn digits_of(m: [u8; 32], k: usize) -> [u8; 67]
    requires { k ≤ 64 }
    ensures { take (k + 3) result ≡ digits k m }
{
    let mut out = [0u8; 67];
    write_digits(&mut out[..k], &m);
    let shifted = checksum_of(&out[..k]) * 16;
    write_digits(&mut out[k..k + 3], &shifted.to_be_bytes());
    out
}

// One step of a chain, at position j. The selector is set for each key and mask, so that none is left over.
fn chain_step(s: Seed, a: Address, j: u32, x: [u8; 32]) -> [u8; 32]
    ensures { held s result ≡ step (suite_of s) (seed_of s) a j (held s x) }
{
    let at = a.set_hash_address(j);
    let key = s.prf_at(at.for_key());
    let mask = s.prf_at(at.for_mask());
    keyed::f(s.hash, key, rfc8391::xored(x, mask))
}

// What a walk along a chain gives: a count of its steps may join the value.
#[derive(Clone, Copy)]
pub struct Walked {
    pub value: [u8; 32],
}

// The steps from a position on, one after the other. `next` stands between, as the borrow checker covers no call that takes an array by value
// and whose result takes that array's place. A `fold` over the positions would do without it, but was not proved: the search finds nothing in
// its closure's calls.
pub fn walk(s: Seed, a: Address, x: [u8; 32], from: u32, steps: u32) -> Walked
    requires { from + steps ≤ 15 }
    ensures { held s result.value ≡ chain (suite_of s) (seed_of s) a (held s x) from steps }
{
    let mut value = x;
    for j in from..from + steps {
        let next = chain_step(s, a, j, value);
        value = next;
    }
    Walked { value }
}

// A walk from a secret value that writes what it reaches into a lent part of a value's length.
#[tactic(auto, using(keyed::proofs::Suites::seed_fits))]
pub fn walk_into(out: &mut [u8], s: Seed, a: Address, x: [u8; 32], steps: u32) -> Walked
    requires { (length out.old ≡ (suite_of s).n) × (steps ≤ 15) }
    ensures { (held s result.value ≡ chain (suite_of s) (seed_of s) a (held s x) 0 steps) × (out.new ≡ held s result.value) }
{
    let walked = walk(s, a, x, 0, steps);
    rfc8391::write_value(out, walked.value);
    walked
}

// Walks on from a signature's value to the chain's end. The digit says how far the signer came.
#[tactic(auto, using(keyed::proofs::Suites::seed_fits))]
fn walk_on(part: &[u8], s: Seed, a: Address, digit: u32) -> Walked
    requires { (length part.now ≡ (suite_of s).n) × (digit ≤ 15) }
    ensures { held s result.value ≡ chain (suite_of s) (seed_of s) a part.now digit (15 - digit) }
{
    walk(s, a, rfc8391::value_of(part), digit, 15 - digit)
}

// The chain ends to which the chain values of a signature lead, at the one-time address a. How long the values are together goes with the
// suite of the seed: a type of such slices would hold the seed too, so that it is asked, here and where they are handed on. The loop of
// `Secrets::ends` is its like, but goes over no values: a closure for the turns of both would need a contract of its own in both.
pub fn ends_from(values: &[u8], s: Seed, a: Address, m: [u8; 32]) -> [[u8; 32]; 67]
    requires { length values.now ≡ (suite_of s).n * len (suite_of s) }
    ensures { held_all s result ≡ wots_pk_from_sig (suite_of s) (seed_of s) a (held s m) (values_in s (len (suite_of s)) values.now) }
{
    let n = s.value_length();
    let d = digits_of(m, 2 * n);
    // Chains are counted by a usize, and an address takes a u32: std has no `From` for that, here and below.
    // Each value is split off: of a loop over `chunks_exact(n)` a proof knows the parts so far, and not that a part is the value of chain c.
    let mut rest = values;
    let mut ends = [[0u8; 32]; 67];
    for c in 0..2 * n + 3 {
        let (part, after) = rest.split_at(n);
        let Walked { value } = walk_on(part, s, a.set_chain_address(c as u32), u32::from(d[c]));
        ends[c] = value;
        rest = after;
    }
    ends
}

// All that the secret values of one leaf need: secret seed, public seed, the leaf's one-time address, and the leaf's own seed, prepared.
#[derive(Clone, Copy)]
pub struct Secrets {
    pub secret: [u8; 32],
    pub seed: Seed,
    pub at: Address,
    pub leaf: Seed,
    pub ghost same_hash: { leaf.hash ≡ seed.hash },
    pub ghost leaf_seed: { seed_of leaf ≡ (suite_of seed).PRF (held seed secret) (to_byte at.w4 32) },
}

impl Secrets {
    ghost use Rattle.onetime.specs.Secrets.{value_of};

    pub fn prepare(secret: [u8; 32], seed: Seed, at: Address) -> Self
        ensures { (result.secret ≡ secret) × (result.seed ≡ seed) × (result.at ≡ at) }
    {
        let leaf = seed.like(seed.like(secret).prf(rfc8391::to_bytes(at.w4)));
        Self {
            secret,
            seed,
            at,
            leaf,
        }
    }

    // The secret value of chain c.
    pub fn value(self, c: u32) -> [u8; 32]
        ensures { held self.seed result ≡ value_of self c }
    {
        self.leaf.prf(rfc8391::to_bytes(c))
    }

    // The chain ends of the secret values.
    pub fn ends(self) -> [[u8; 32]; 67]
        ensures { held_all self.seed result ≡ wots_pk (suite_of self.seed) (seed_of self.seed) self.at (value_of self) }
    {
        let mut ends = [[0u8; 32]; 67];
        for c in 0..2 * self.seed.value_length() + 3 {
            let k = c as u32;
            let Walked { value } = walk(
                self.seed,
                self.at.set_chain_address(k),
                self.value(k),
                0,
                15,
            );
            ends[c] = value;
        }
        ends
    }
}
