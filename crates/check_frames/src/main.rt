// Checks frames from standard input, a line each, and prints the outcomes: it only reads, hands over and writes.
// Uses frames, which says what an input prints, and the kit's io.
// The customer runs it; the files stdin and stdout here hold the whole run of the customer's paper.

#![tactic(auto)]

use frames::Checker;

const STDIN: i32 = 0;

const STDOUT: i32 = 1;

// The longest frame, which may be kept as key or as message (frames/specs/Frames.antt).
const FRAME: usize = 16384;

// A line of output, of at most 42 bytes, for each of the 4,096 characters of a chunk.
const OUT: usize = 42 * 4096;

// Turns of 4,096 bytes, so that every run ends: 2^52 bytes, and never more lines than a u64 counts.
const TURNS: u64 = 0x100_0000_0000;

fn main() {
    let mut frame = [0u8; FRAME];
    let mut key = [0u8; FRAME];
    let mut message = [0u8; FRAME];
    let mut out = [0u8; OUT];
    let mut chunk = io::buffer();
    let mut checker = Checker::start(&mut frame, &mut key, &mut message);
    for _ in 0..TURNS {
        let got = io::read_full(STDIN, &mut chunk);
        if got == 0 {
            break;
        }
        let n = checker.take_chunk(&chunk[..got], &mut out);
        io::write_all(STDOUT, &out[..n]);
    }
    let n = checker.end_input(&mut out);
    io::write_all(STDOUT, &out[..n]);
}
