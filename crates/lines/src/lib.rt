// Lines of hexadecimal digits as they come in, and of decimal numbers as they go out; the law of chunks, over any answer to a line.
// Uses lists, and the kit's io.
// Programs that answer lines stand on it.

#![tactic(auto)]

ghost use Rattle.std.specs.Prelude.{◌≡◌, [], ◌∷◌, ◌++◌, ◌+◌, ◌*◌, ◌≤◌, length, take, IfSome, option_copied};
ghost use Rattle.lines.specs.Lines.{hex_digit};
ghost use Rattle.lines.specs.Decimal.{decimal, numbers_line};

use std::marker::Model;

// Half a byte. In a clause it is its value.
#[derive(Clone, Copy)]
pub struct Half {
    pub value: u8,
}

impl Model for Half {
    ghost use Rattle.std.specs.Prelude.{ℕ, ◌<◌};

    ghost Value = { ℕ };

    ghost view = { λ h. h.value };

    ghost invariant = { λ h. h.value < 16 };

    ghost inverse = { λ n. record { value = n } };
}

// A capital letter is no digit: one text has one spelling.
#[tactic(auto, unfolding(crate::specs::Lines::hex_digit))]
fn digit(c: u8) -> Option<Half>
    ensures { result ≡ hex_digit c }
{
    match c {
        b'0'..=b'9' => Some(Half { value: c - b'0' }),
        b'a'..=b'f' => Some(Half {
            value: c - b'a' + 10,
        }),
        _ => None,
    }
}

// The byte of two halves.
fn byte(high: Half, low: Half) -> u8
    ensures { result ≡ 16 * high + low }
{
    16 * high.value + low.value
}

// The line so far: len bytes at the front of a buffer that the caller keeps, a high half that waits for its low half, and
// whether it can no longer be read. So a line of any length needs no more than the buffer, where a Vec would need a heap; and
// it stays a value that can be copied, since the buffer is lent to each call.
// `bad` is a field of its own: by the definition `put_of` a line that went bad keeps its bytes and the half that waits.
#[derive(Clone, Copy)]
pub struct Line {
    pub len: usize,
    pub high: Option<Half>,
    pub bad: bool,
}

impl Line {
    ghost use Rattle.lines.specs.Reading.{fresh_line, read, put_of, held};

    pub fn new() -> Line
        ensures { result ≡ fresh_line }
    {
        Line {
            len: 0,
            high: None,
            bad: false,
        }
    }

    // Begins a new line.
    pub fn clear(&mut self)
        ensures { self.new ≡ fresh_line }
    {
        self.len = 0;
        self.high = None;
        self.bad = false;
    }

    // One character more.
    #[tactic(auto, unfolding(crate::specs::Reading::put_of, crate::specs::Reading::with_digit, crate::specs::Reading::joined))]
    pub fn put(&mut self, frame: &mut [u8], c: u8)
        ensures value { read frame.new self.new ≡ put_of (length frame.old) (read frame.old self.old) c }
        ensures len_in_bounds { self.old.len ≤ length frame.old → self.new.len ≤ length frame.old }
    {
        if self.bad || frame.len() <= self.len {
            self.bad = true;
            return;
        }
        let Some(half) = digit(c) else {
            self.bad = true;
            return;
        };
        match self.high {
            None => self.high = Some(half),
            Some(high) => {
                frame[self.len] = byte(high, half);
                self.len += 1;
                self.high = None;
            }
        }
    }

    // What the line holds, if it ends here and can be read. A caller may have built it with any len.
    #[tactic(auto, unfolding(crate::specs::Reading::held))]
    pub fn held<'a>(&self, frame: &'a [u8]) -> Option<&'a [u8]>
        ensures value { option_copied result ≡ held (read frame.now self.now) }
        ensures fits { IfSome result (λ b. (length b.now ≤ length frame.now) × (length b.now ≤ self.now.len)) }
    {
        if self.bad || self.high.is_some() {
            return None;
        }
        Some(&frame[..self.len.min(frame.len())])
    }
}

// Puts n in decimal and a last byte at the front of out, and answers where they end: by the kit's io, which allocates nothing.
pub fn write_number(out: &mut [u8], n: u64, last: u8) -> usize
    requires { 21 ≤ length out.old }
    ensures out_after { take result out.new ≡ decimal n ++ (last ∷ []) }
    ensures upper_bound { result ≤ 21 }
{
    let mut text = [0u8; 20];
    let k = io::decimal(n, &mut text);
    out[..k].copy_from_slice(&text[..k]);
    out[k] = last;
    k + 1
}

// A line of two numbers. Room is asked of each call, since out is the caller's.
pub fn write_two(out: &mut [u8], n: u64, m: u64) -> usize
    requires { 42 ≤ length out.old }
    ensures out_after { take result out.new ≡ numbers_line (n ∷ m ∷ []) }
    ensures upper_bound { result ≤ 42 }
{
    let first = write_number(out, n, b' ');
    first + write_number(&mut out[first..], m, b'\n')
}
