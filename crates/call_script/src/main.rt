// Runs a script of calls on the operations and on SHA-256; a line a call: its name, the answer, each buffer lent for writing.
// Uses the operations and what lies below them, and the kit's io.
// tests/reference/calls.py writes the script: the bytes from which every message is the first so many, and then the calls.

#![tactic(auto)]

ghost use Rattle.std.specs.Prelude.{◌≡◌, ◌<◌, ◌≤◌, length, IfSome};

const STDIN: i32 = 0;

const STDOUT: i32 = 1;

const LONGEST: usize = 65537;
// More than any type's signature, so that a buffer can be too long.
const ROOM: usize = 2900;

// What is printed goes by the kit's io, which allocates nothing, and a write that fails ends nothing (docs/DECISIONS.md).
fn print_bytes(bytes: &[u8]) {
    io::write_all(STDOUT, b" ");
    for byte in bytes {
        io::print_hex(STDOUT, u64::from(*byte), 2);
    }
}

// A long buffer by its digest, so that the output stays short.
fn print_buffer(bytes: &[u8]) {
    if bytes.len() <= 200 {
        print_bytes(bytes);
    } else {
        print_bytes(&sha256::hash(bytes));
    }
}

fn print_number(number: u32) {
    io::write_all(STDOUT, b" ");
    io::print_decimal(STDOUT, u64::from(number));
}

// The Monte Carlo test of NIST's SHAVS: a thousand times the digest of the last three digests.
fn monte_carlo(seed: [u8; 32]) -> [u8; 32] {
    let mut digests = [seed; 3];
    for _ in 0..1000 {
        digests = [digests[1], digests[2], sha256::hash(digests.as_flattened())];
    }
    digests[2]
}

// Which call it is.
#[derive(Clone, Copy)]
enum Which {
    Make,
    Reserve,
    Mark,
    Sign,
    Check,
    Hash,
    HashOften,
}

// A number that stands for nothing else stands for a check.
impl From<u32> for Which {
    fn from(number: u32) -> Self {
        match number {
            1 => Which::Make,
            2 => Which::Reserve,
            3 => Which::Mark,
            4 => Which::Sign,
            6 => Which::Hash,
            7 => Which::HashOften,
            _ => Which::Check,
        }
    }
}

// The eight numbers of 4 bytes with which a call begins: which call, its type or session, what fills the out buffers (its last byte
// alone), and the lengths of the message, of two out buffers and of the two inputs that follow.
#[derive(Clone, Copy)]
struct Head {
    which: Which,
    number: u32,
    fill: u8,
    message_len: usize,
    out_len: usize,
    other_out_len: usize,
    first_len: usize,
    second_len: usize,
}

impl From<&[u8; 32]> for Head {
    fn from(head: &[u8; 32]) -> Self {
        let numbers: [u32; 8] = std::array::from_fn(|i| lists::big_endian(head, 4 * i));
        let [which, number, _, message, out, other_out, first, second] = numbers;
        // Lengths by `as`, since std has no `From` of a u32 for usize.
        Self {
            which: Which::from(which),
            number,
            fill: head[11],
            message_len: message as usize,
            out_len: out as usize,
            other_out_len: other_out as usize,
            first_len: first as usize,
            second_len: second as usize,
        }
    }
}

// A call with its inputs, and the text from which messages are taken. Marking alone writes, into the first input, where it stands.
#[derive(Drop)]
struct Call<'a> {
    head: Head,
    text: &'a [u8],
    first: &'a mut [u8],
    second: &'a [u8],
}

impl<'a> Call<'a> {
    // The call with which a script begins, and the rest of the script; none where less than a head is left. An input that the script
    // cuts short ends with it.
    fn read(text: &'a [u8], script: &'a mut [u8]) -> Option<(Self, &'a mut [u8])>
        ensures { IfSome result (λ p. length p.1.now < length script.old) }
    {
        let (head, inputs) = script.split_first_chunk_mut()?;
        let head = Head::from(&*head);
        let n = head.first_len.min(inputs.len());
        let (first, inputs) = inputs.split_at_mut(n);
        let n = head.second_len.min(inputs.len());
        let (second, rest) = inputs.split_at_mut(n);
        let call = Call {
            head,
            text,
            first,
            second,
        };
        Some((call, rest))
    }

    fn message(&self) -> &[u8] {
        &self.text[..self.head.message_len.min(self.text.len())]
    }

    fn make(&self) {
        let mut secret = [self.head.fill; ROOM];
        let mut key = [self.head.fill; ROOM];
        let secret = &mut secret[..self.head.out_len.min(ROOM)];
        let key = &mut key[..self.head.other_out_len.min(ROOM)];
        let made = operations::make(self.head.number, self.first, secret, key);
        io::write_all(STDOUT, b"make");
        print_number(made.outcome);
        print_buffer(secret);
        print_buffer(key);
    }

    fn reserve(&self) {
        let reserved = marks::reserve(self.first, self.head.number);
        io::write_all(STDOUT, b"reserve");
        print_number(reserved.outcome);
        print_number(reserved.session);
        print_number(reserved.place);
        print_number(u32::from(reserved.value));
    }

    fn mark(&mut self) {
        let marked = marks::mark(self.first, self.head.number);
        io::write_all(STDOUT, b"mark");
        print_number(marked.outcome);
        print_number(marked.session);
        print_buffer(self.first);
    }

    fn sign(&self) {
        let mut out = [self.head.fill; ROOM];
        let out = &mut out[..self.head.out_len.min(ROOM)];
        let signed = operations::sign(
            self.first,
            self.second,
            self.head.number,
            self.message(),
            out,
        );
        io::write_all(STDOUT, b"sign");
        print_number(signed.outcome);
        print_number(signed.session);
        if signed.outcome == 0 {
            print_bytes(out);
        } else {
            print_buffer(out);
        }
    }

    fn check(&self) {
        let checked = operations::check(self.first, self.message(), self.second);
        io::write_all(STDOUT, b"check");
        print_number(checked.outcome);
    }

    fn hash(&self) {
        io::write_all(STDOUT, b"hash");
        print_bytes(&sha256::hash(self.first));
    }

    // Of any other length than a digest's there is nothing to print.
    fn hash_often(&self) {
        io::write_all(STDOUT, b"hash_often");
        if let Some(seed) = self.first.as_array() {
            print_bytes(&monte_carlo(*seed));
        }
    }

    fn answer(&mut self) {
        match self.head.which {
            Which::Make => self.make(),
            Which::Reserve => self.reserve(),
            Which::Mark => self.mark(),
            Which::Sign => self.sign(),
            Which::Check => self.check(),
            Which::Hash => self.hash(),
            Which::HashOften => self.hash_often(),
        }
        io::write_all(STDOUT, b"\n");
    }
}

// A text is as long as the longest message and a byte more, so that a message can be too long.
fn answer_all(text: &[u8], script: &mut [u8])
    requires { (65537 ≤ length text.now) × (length text.now ≤ 65537) }
{
    let mut rest = script;
    while let Some((mut call, behind)) = Call::read(text, rest) {
        call.answer();
        rest = behind;
    }
}

// A script's text, and its calls to the end. One that is shorter than its text has none.
fn answer_script(script: &mut [u8]) {
    if let Some((text, calls)) = script.split_at_mut_checked(LONGEST) {
        answer_all(text, calls);
    }
}

// Zeros, of any number: the check can't go one by one through as many as the script has.
fn zeros<const N: usize>() -> [u8; N]
    ensures { N ≡ length result }
{
    [0; N]
}

fn main() {
    let mut input = zeros::<524288>();
    let end = io::read_full(STDIN, &mut input);
    answer_script(&mut input[..end]);
}
