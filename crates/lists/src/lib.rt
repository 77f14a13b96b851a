// Lists as loops make them, by a rule on the index, part after part, turn after turn; and numbers in bytes.
// Uses nothing. Definitions are in specs/, their laws in proofs/.
// Every crate but outcomes stands on it.

#![tactic(auto)]

ghost use Rattle.std.specs.Prelude.{◌≡◌, ◌+◌, ◌≤◌, length, slice_index};
ghost use Rattle.lists.specs.Lists.{tab, flat};
ghost use Rattle.lists.specs.Bytes.{to_byte, number};

// Eight words in 32 bytes: a digest, and an address.
pub fn eight_words(words: [u32; 8]) -> [u8; 32]
    ensures { result ≡ flat (tab 8 (λ i. to_byte (slice_index words i) 4)) }
{
    let mut out = [0u8; 32];
    for (i, word) in words.iter().enumerate() {
        write_number(&mut out[4 * i..4 * i + 4], *word);
    }
    out
}

// The number in the four bytes of m from place at on: a word of a block, a key type, an index. It takes a place, since what it reads stands
// among other bytes.
#[tactic(auto, using(crate::proofs::Methods::from_be_number))]
pub fn big_endian(m: &[u8], at: usize) -> u32
    requires { at + 4 ≤ length m.now }
    ensures { result ≡ number m.now at 4 }
{
    u32::from_be_bytes([m[at], m[at + 1], m[at + 2], m[at + 3]])
}

// The four bytes of a number into a lent part.
#[tactic(auto, using(crate::proofs::Methods::to_byte_is))]
pub fn write_number(out: &mut [u8], x: u32)
    requires { length out.old ≡ 4 }
    ensures { out.new ≡ to_byte x 4 }
{
    out.copy_from_slice(&x.to_be_bytes());
}
