// The checking program between reading and writing: a step on characters, over buffers that the caller lends.
// Uses the operations and lines. What it prints for a whole input stands in specs/Frames.antt, line by line.
// The program check_frames stands on it.

#![tactic(auto)]

ghost use Rattle.std.specs.Prelude.{◌≡◌, List, [], ◌++◌, ℕ, ◌+◌, ◌*◌, ◌≤◌, ◌<◌, ◌^◌, length, take, drop, min, IfSome, option_copied};
ghost use Rattle.lists.specs.Lists.{flat};
ghost use Rattle.lines.specs.Steps.{stepped, run_of};
ghost use Rattle.lines.specs.Reading.{start, closed, char_step, end_input, written};
ghost use Rattle.frames.specs.Frames.{latest, answer, output_of};
ghost use Rattle.frames.specs.Buffers.{latest_in, sess, start_state, says, Holds, Ready, SameBuffers};

use lines::Line;
use std::marker::Model;

// What a line that is no frame is answered.
const NO_FRAME: u32 = 12;

// How many bytes at the front of their buffers the latest key and message take: a Vec would need a heap, which this project has not.
#[derive(Clone, Copy)]
pub struct Kept {
    pub key: usize,
    pub message: usize,
}

impl Kept {
    // A key or a message is kept, and a signature or what is no frame has an outcome. The numbers of the kinds are read here alone.
    #[tactic(auto, unfolding(crate::specs::Frames::answer, crate::specs::Frames::framed))]
    fn answer(&mut self, line: Option<&[u8]>, key: &mut [u8], message: &mut [u8]) -> Option<u32>
        requires room { IfSome line (λ l. (length l.now ≤ length key.old) × (length l.now ≤ length message.old)) }
        requires holds { Holds key.old message.old self.old }
        ensures holds { Holds key.new message.new self.new }
        ensures by_index { (n : ℕ) → stepped (latest_in key.new message.new self.new) (says n result)
            ≡ answer (latest_in key.old message.old self.old) n (option_copied line.entry) }
    {
        match line {
            Some([1, rest @ ..]) => {
                self.key = keep(rest, key);
                None
            }
            Some([2, rest @ ..]) => {
                self.message = keep(rest, message);
                None
            }
            Some([3, rest @ ..]) => {
                let checked = operations::check(&key[..self.key], &message[..self.message], rest);
                Some(checked.outcome)
            }
            _ => Some(NO_FRAME),
        }
    }
}

// Copies a text to the front of a buffer that has room for it, and answers how long it is.
fn keep(text: &[u8], buffer: &mut [u8]) -> usize
    requires { length text.now ≤ length buffer.old }
    ensures len { result ≡ length text.now }
    ensures after { buffer.new ≡ text.now ++ drop (length text.now) buffer.old }
{
    buffer[..text.len()].copy_from_slice(text);
    text.len()
}

// The run so far: the line so far, whether one has begun, how many ended, and what they left. Its buffers are the caller's, and are lent
// to each call, so that a state can be copied. `begun` is a field beside the line, as in the definition's `Session`.
#[derive(Clone, Copy)]
pub struct State {
    pub line: Line,
    pub begun: bool,
    pub number: u64,
    pub kept: Kept,
}

impl State {
    pub fn start() -> State
        ensures { result ≡ start_state }
    {
        State {
            line: Line::new(),
            begun: false,
            number: 0,
            kept: Kept { key: 0, message: 0 },
        }
    }

    // The end of a line, with what is told of it. That it can still be counted is asked of each step: no state by itself is the last.
    #[tactic(auto, unfolding(lines::specs::Reading::closed))]
    fn close_line(&mut self, frame: &[u8], key: &mut [u8], message: &mut [u8]) -> Option<u32>
        requires ready { Ready frame.now key.old message.old self.old }
        requires few { self.old.number + 1 < 2 ^ 64 }
        ensures stays_ready { Ready frame.now key.new message.new self.new }
        ensures result_after { stepped (sess frame.now key.new message.new self.new) (says self.new.number result)
            ≡ closed answer (sess frame.now key.old message.old self.old) }
        ensures n_bound { self.new.number ≤ self.old.number + 1 }
    {
        let told = self.kept.answer(self.line.held(frame), key, message);
        self.line.clear();
        self.begun = false;
        self.number += 1;
        told
    }

    // One character of the input, with what is told of a line that it ends.
    #[tactic(auto, unfolding(lines::specs::Reading::char_step))]
    fn advance(
        &mut self,
        c: u8,
        frame: &mut [u8],
        key: &mut [u8],
        message: &mut [u8],
    ) -> Option<u32>
        requires ready { Ready frame.old key.old message.old self.old }
        requires few { self.old.number + 1 < 2 ^ 64 }
        ensures stays_ready { Ready frame.new key.new message.new self.new }
        ensures result_after { stepped (sess frame.new key.new message.new self.new) (says self.new.number result)
            ≡ char_step (length frame.old) answer (sess frame.old key.old message.old self.old) c }
        ensures n_bound { self.new.number ≤ self.old.number + 1 }
    {
        if c == b'\n' {
            return self.close_line(frame, key, message);
        }
        self.line.put(frame, c);
        self.begun = true;
        None
    }

    // Puts what is told of the line that ended last at the front of out. Room is asked of each call: out is the caller's, not the state's.
    fn write_told(&self, told: Option<u32>, out: &mut [u8]) -> usize
        requires { 42 ≤ length out.old }
        ensures out_after { take result out.new ≡ says self.now.number told }
        ensures upper_bound { result ≤ 42 }
    {
        match told {
            Some(outcome) => lines::write_two(out, self.number, u64::from(outcome)),
            None => 0,
        }
    }

    // A chunk of the input, with all of its output from the start of out. A line of output has at most 42 bytes, and a
    // character ends at most one line.
    #[tactic(auto, using(crate::proofs::Sessions::turn_next, lines::proofs::Runs::turn_end))]
    pub fn take_chunk(
        &mut self,
        chunk: &[u8],
        frame: &mut [u8],
        key: &mut [u8],
        message: &mut [u8],
        out: &mut [u8],
    ) -> usize
        requires ready { Ready frame.old key.old message.old self.old }
        requires chunk_in_bounds { (42 * length chunk.now ≤ length out.old) × (self.old.number + length chunk.now < 2 ^ 64) }
        requires frame_len { length frame.old ≡ 16384 }
        ensures stays_ready { Ready frame.new key.new message.new self.new }
        ensures result_after { stepped (sess frame.new key.new message.new self.new) (take result out.new)
            ≡ run_of (char_step 16384 answer) (sess frame.old key.old message.old self.old) chunk.now }
        ensures n_in_bounds { (result ≤ length out.old) × (self.new.number ≤ self.old.number + length chunk.now) }
    {
        let mut n = 0;
        for &c in chunk {
            let told = self.advance(c, frame, key, message);
            n += self.write_told(told, &mut out[n..]);
        }
        n
    }

    // The end of the input, which ends a line that has begun.
    #[tactic(auto, unfolding(lines::specs::Reading::end_input))]
    pub fn end_input(
        &mut self,
        frame: &[u8],
        key: &mut [u8],
        message: &mut [u8],
        out: &mut [u8],
    ) -> usize
        requires ready { Ready frame.now key.old message.old self.old }
        requires in_bounds { (42 ≤ length out.old) × (self.old.number + 1 < 2 ^ 64) }
        requires frame_len { length frame.now ≡ 16384 }
        ensures stays_ready { Ready frame.now key.new message.new self.new }
        ensures result_after { stepped (sess frame.now key.new message.new self.new) (take result out.new)
            ≡ end_input answer (sess frame.now key.old message.old self.old) }
        ensures n_in_bounds { result ≤ length out.old }
    {
        if self.begun {
            let told = self.close_line(frame, key, message);
            self.write_told(told, out)
        } else {
            0
        }
    }
}

// A run with its buffers, which the caller lends once: what a state asks of them at each call stands in the type.
#[derive(Drop)]
pub struct Checker<'a> {
    pub frame: &'a mut [u8],
    pub key: &'a mut [u8],
    pub message: &'a mut [u8],
    pub state: State,
}

impl<'a> Model for Checker<'a> {
    ghost use Rattle.frames.specs.Buffers.{Run, Ready, sess};

    ghost Value = { Run };

    ghost view = { λ c. record {
      frame = c.frame.now;
      key = c.key;
      message = c.message;
      session = sess c.frame.now c.key.now c.message.now c.state;
    } };

    ghost invariant = { λ c. Ready c.frame.now c.key.now c.message.now c.state };
}

impl<'a> Checker<'a> {
    // A frame may be kept as key or as message, so none is longer than the shortest of the buffers.
    pub fn start(frame: &'a mut [u8], key: &'a mut [u8], message: &'a mut [u8]) -> Checker<'a>
        ensures frame { length result.frame ≡ min (length frame.old) (min (length key.old) (length message.old)) }
        ensures session { result.session ≡ start (latest [] []) }
        ensures buffers { (result.key ≡ key.entry) × (result.message ≡ message.entry) }
    {
        let room = frame.len().min(key.len().min(message.len()));
        Checker {
            frame: &mut frame[..room],
            key,
            message,
            state: State::start(),
        }
    }

    // A chunk of the input, as `State::take_chunk` takes it.
    pub fn take_chunk(&mut self, chunk: &[u8], out: &mut [u8]) -> usize
        requires chunk_in_bounds { (42 * length chunk.now ≤ length out.old) × (self.old.session.number + length chunk.now < 2 ^ 64) }
        requires frame_len { length self.old.frame ≡ 16384 }
        ensures result_after { stepped self.new.session (take result out.new) ≡ run_of (char_step 16384 answer) self.old.session chunk.now }
        ensures frame { length self.new.frame ≡ length self.old.frame }
        ensures buffers { SameBuffers self.old self.new }
        ensures n_in_bounds { (result ≤ length out.old) × (self.new.session.number ≤ self.old.session.number + length chunk.now) }
    {
        self.state
            .take_chunk(chunk, self.frame, self.key, self.message, out)
    }

    // The end of the input, as `State::end_input` has it.
    pub fn end_input(&mut self, out: &mut [u8]) -> usize
        requires in_bounds { (42 ≤ length out.old) × (self.old.session.number + 1 < 2 ^ 64) }
        requires frame_len { length self.old.frame ≡ 16384 }
        ensures result_after { stepped self.new.session (take result out.new) ≡ end_input answer self.old.session }
        ensures frame { self.new.frame ≡ self.old.frame }
        ensures buffers { SameBuffers self.old self.new }
        ensures n_in_bounds { result ≤ length out.old }
    {
        // The borrow checker lends fields side by side as `&mut` alone, and a state takes a `&` of the frame here.
        let frame = &mut *self.frame;
        self.state.end_input(frame, self.key, self.message, out)
    }
}

// In whatever chunks an input comes, what `take_chunk` writes for them and `end_input` at the end is what its lines print.
#[tactic(auto, using(lines::proofs::Answers::as_answered), unfolding(crate::specs::Frames::output_of))]
pub fn any_chunks()
    ensures { (chunks : List (List ℕ)) → written 16384 answer (latest [] []) chunks ≡ output_of (flat chunks) }
{}
