// SHA-256 of FIPS 180-4: whole messages, and a hash that is taken up after whole blocks (a midstate).
// Uses lists. Every public contract is an equation to specs/, which keeps the document's names and order.
// Keyed hashing uses it.

#![tactic(auto)]

ghost use Rattle.std.specs.Prelude.{◌≡◌, ◌+◌, ◌-◌, ◌*◌, ◌/◌, ◌%◌, ◌^◌, ◌<◌, ◌≤◌, ◌∷◌, ◌++◌, length, take, replicate, slice_index};
ghost use Rattle.lists.specs.Lists.{turns};
ghost use Rattle.lists.specs.Bytes.{to_byte};
ghost use Rattle.sha256.specs.Sha256.{plus, Ch, Maj, Σ₀, Σ₁, σ₀, σ₁, padding, block, H₀, schedule, round, rounds, added, compressed, hashed, digest, sha256};
ghost use Rattle.sha256.specs.Midstate.{finished};

// FIPS 180-4, 4.2.2.
const K: [u32; 64] = [
    0x428a_2f98,
    0x7137_4491,
    0xb5c0_fbcf,
    0xe9b5_dba5,
    0x3956_c25b,
    0x59f1_11f1,
    0x923f_82a4,
    0xab1c_5ed5,
    0xd807_aa98,
    0x1283_5b01,
    0x2431_85be,
    0x550c_7dc3,
    0x72be_5d74,
    0x80de_b1fe,
    0x9bdc_06a7,
    0xc19b_f174,
    0xe49b_69c1,
    0xefbe_4786,
    0x0fc1_9dc6,
    0x240c_a1cc,
    0x2de9_2c6f,
    0x4a74_84aa,
    0x5cb0_a9dc,
    0x76f9_88da,
    0x983e_5152,
    0xa831_c66d,
    0xb003_27c8,
    0xbf59_7fc7,
    0xc6e0_0bf3,
    0xd5a7_9147,
    0x06ca_6351,
    0x1429_2967,
    0x27b7_0a85,
    0x2e1b_2138,
    0x4d2c_6dfc,
    0x5338_0d13,
    0x650a_7354,
    0x766a_0abb,
    0x81c2_c92e,
    0x9272_2c85,
    0xa2bf_e8a1,
    0xa81a_664b,
    0xc24b_8b70,
    0xc76c_51a3,
    0xd192_e819,
    0xd699_0624,
    0xf40e_3585,
    0x106a_a070,
    0x19a4_c116,
    0x1e37_6c08,
    0x2748_774c,
    0x34b0_bcb5,
    0x391c_0cb3,
    0x4ed8_aa4a,
    0x5b9c_ca4f,
    0x682e_6ff3,
    0x748f_82ee,
    0x78a5_636f,
    0x84c8_7814,
    0x8cc7_0208,
    0x90be_fffa,
    0xa450_6ceb,
    0xbef9_a3f7,
    0xc671_78f2,
];

// The eight working variables, and the eight words of a hash value.
#[derive(Clone, Copy)]
pub struct State {
    pub a: u32,
    pub b: u32,
    pub c: u32,
    pub d: u32,
    pub e: u32,
    pub f: u32,
    pub g: u32,
    pub h: u32,
}

// FIPS 180-4, 4.1.2: six functions by the document's names. One function with three constants for the four sigmas would hide them.
fn choose(x: u32, y: u32, z: u32) -> u32
    ensures { result ≡ Ch x y z }
{
    (x & y) ^ (!x & z)
}

fn majority(x: u32, y: u32, z: u32) -> u32
    ensures { result ≡ Maj x y z }
{
    (x & y) ^ (x & z) ^ (y & z)
}

fn big_sigma0(x: u32) -> u32
    ensures { result ≡ Σ₀ x }
{
    x.rotate_right(2) ^ x.rotate_right(13) ^ x.rotate_right(22)
}

fn big_sigma1(x: u32) -> u32
    ensures { result ≡ Σ₁ x }
{
    x.rotate_right(6) ^ x.rotate_right(11) ^ x.rotate_right(25)
}

fn small_sigma0(x: u32) -> u32
    ensures { result ≡ σ₀ x }
{
    x.rotate_right(7) ^ x.rotate_right(18) ^ (x >> 3)
}

fn small_sigma1(x: u32) -> u32
    ensures { result ≡ σ₁ x }
{
    x.rotate_right(17) ^ x.rotate_right(19) ^ (x >> 10)
}

// The 16 words of a block.
fn words_of(bytes: &[u8; 64]) -> [u32; 16]
    ensures { result ≡ block 0 bytes.now }
{
    let mut w = [0u32; 16];
    for (j, word) in w.iter_mut().enumerate() {
        *word = lists::big_endian(bytes, 4 * j);
    }
    w
}

fn next_word(p: u32, q: u32, r: u32, s: u32) -> u32
    ensures { result ≡ plus (plus (plus (σ₁ p) q) (σ₀ r)) s }
{
    small_sigma1(p)
        .wrapping_add(q)
        .wrapping_add(small_sigma0(r))
        .wrapping_add(s)
}

// A block's 16 words, and the 48 that follow.
fn message_schedule(b: [u32; 16]) -> [u32; 64]
    ensures { result ≡ schedule 48 b }
{
    let mut w = [0u32; 64];
    w[..16].copy_from_slice(&b);
    for t in 16..64 {
        w[t] = next_word(w[t - 2], w[t - 7], w[t - 15], w[t - 16]);
    }
    w
}

fn one_round(s: State, k: u32, w: u32) -> State
    ensures { result ≡ round s k w }
{
    let t1 = s
        .h
        .wrapping_add(big_sigma1(s.e))
        .wrapping_add(choose(s.e, s.f, s.g))
        .wrapping_add(k)
        .wrapping_add(w);
    let t2 = big_sigma0(s.a).wrapping_add(majority(s.a, s.b, s.c));
    State {
        a: t1.wrapping_add(t2),
        b: s.a,
        c: s.b,
        d: s.c,
        e: s.d.wrapping_add(t1),
        f: s.e,
        g: s.f,
        h: s.g,
    }
}

// Four a turn, so that the variables change their roles: a loop of single rounds moves all eight words each time and is a sixth slower.
fn four_rounds(v: State, k: &[u32; 4], w: &[u32; 4]) -> State
    ensures { result ≡ turns 4 (λ i x. round x (slice_index k.now i) (slice_index w.now i)) v }
{
    let v1 = one_round(v, k[0], w[0]);
    let v2 = one_round(v1, k[1], w[1]);
    let v3 = one_round(v2, k[2], w[2]);
    one_round(v3, k[3], w[3])
}

fn all_rounds(s: State, w: [u32; 64]) -> State
    ensures { result ≡ rounds 64 s w }
{
    let (constants, _) = K.as_chunks::<4>();
    let (words, _) = w.as_chunks::<4>();
    let mut v = s;
    for (k, four) in constants.iter().zip(words) {
        v = four_rounds(v, k, four);
    }
    v
}

fn sum(s: State, t: State) -> State
    ensures { result ≡ added s t }
{
    State {
        a: s.a.wrapping_add(t.a),
        b: s.b.wrapping_add(t.b),
        c: s.c.wrapping_add(t.c),
        d: s.d.wrapping_add(t.d),
        e: s.e.wrapping_add(t.e),
        f: s.f.wrapping_add(t.f),
        g: s.g.wrapping_add(t.g),
        h: s.h.wrapping_add(t.h),
    }
}

fn compress(s: State, b: [u32; 16]) -> State
    ensures { result ≡ compressed s b }
{
    sum(all_rounds(s, message_schedule(b)), s)
}

// The hash value before the first block.
pub fn start() -> State
    ensures { result ≡ H₀ }
{
    State {
        a: 0x6a09_e667,
        b: 0xbb67_ae85,
        c: 0x3c6e_f372,
        d: 0xa54f_f53a,
        e: 0x510e_527f,
        f: 0x9b05_688c,
        g: 0x1f83_d9ab,
        h: 0x5be0_cd19,
    }
}

// The hash value after the whole blocks of m, from s on; bytes behind the last whole block are left out.
#[tactic(auto, using(lists::proofs::Turns::turns_start), unfolding(crate::specs::Sha256::hashed))]
pub fn absorb(s: State, m: &[u8]) -> State
    ensures { result ≡ hashed (length m.now / 64) s m.now }
{
    let (blocks, _) = m.as_chunks::<64>();
    let mut v = s;
    for bytes in blocks {
        v = compress(v, words_of(bytes));
    }
    v
}

// The length of n bytes in bits, modulo 2^64.
fn bit_length(n: usize) -> [u8; 8]
    ensures { result ≡ to_byte (8 * n) 8 }
{
    n.wrapping_mul(8).to_be_bytes()
}

// The last block or two of a padded message, of which the bytes m are left.
fn ending<const N: usize>(m: &[u8], bits: [u8; 8]) -> [u8; N]
    requires { length m.now + 9 ≤ N }
    ensures { result ≡ m.now ++ (0x80 ∷ (replicate (N - 9 - length m.now) 0 ++ bits)) }
{
    let mut p = [0u8; N];
    let out = &mut p[..];
    out[..m.len()].copy_from_slice(m);
    out[m.len()] = 0x80;
    out[N - 8..].copy_from_slice(&bits);
    p
}

fn digest_of(s: State) -> [u8; 32]
    ensures { result ≡ digest s }
{
    lists::eight_words([s.a, s.b, s.c, s.d, s.e, s.f, s.g, s.h])
}

// The hash of a message whose first `before` blocks led to the hash value s, and of which m is left. A count of blocks is cast by `as`: std has
// no `From` of a u32 for usize.
pub fn finish(s: State, before: u32, m: &[u8]) -> [u8; 32]
    ensures { result ≡ finished s before m.now }
{
    let v = absorb(s, m);
    let (_, rest) = m.as_chunks::<64>();
    let bits = bit_length((64 * (before as usize)).wrapping_add(m.len()));
    if rest.len() < 56 {
        let p = ending::<64>(rest, bits);
        digest_of(absorb(v, &p))
    } else {
        let p = ending::<128>(rest, bits);
        digest_of(absorb(v, &p))
    }
}

// One block of two halves.
pub fn joined(a: [u8; 32], b: [u8; 32]) -> [u8; 64]
    ensures { result ≡ a ++ b }
{
    let mut m = [0u8; 64];
    m[..32].copy_from_slice(&a);
    m[32..].copy_from_slice(&b);
    m
}

// What finish gives where half a block is left, as with chain steps and addresses: with its ending it fills one block.
pub fn finish_half(s: State, before: u32, m: [u8; 32]) -> [u8; 32]
    ensures { result ≡ finished s before m }
{
    let last = ending::<64>(&m, bit_length(64 * (before as usize) + 32));
    digest_of(absorb(s, &last))
}

// The hash of a message of any length.
pub fn hash(m: &[u8]) -> [u8; 32]
    ensures { result ≡ sha256 m.now }
{
    finish(start(), 0, m)
}
