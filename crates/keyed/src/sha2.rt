// The suite of the types with SHA-256 and values of 32 bytes: all 32 bytes of every value count.
ghost use Rattle.std.specs.Prelude.{◌≡◌, ◌++◌};
ghost use Rattle.lists.specs.Bytes.{to_byte};
ghost use Rattle.sha256.specs.Sha256.{H₀, hashed};
ghost use Rattle.keyed.specs.Keyed.{keyed};
ghost use Rattle.keyed.specs.Functions.{function_number};

use sha256::State;

// The hash value after one block of two halves.
fn after(s: State, a: [u8; 32], b: [u8; 32]) -> State
    ensures { result ≡ hashed 1 s (a ++ b) }
{
    let block = sha256::joined(a, b);
    sha256::absorb(s, &block)
}

// The keyed functions, by their numbers in RFC 8391, section 5.1, which `as` gives.
#[derive(Clone, Copy)]
pub enum Function {
    F = 0,
    H = 1,
    Hmsg = 2,
    Prf = 3,
}

// The hash value after a function's number and its key.
pub fn keyed_by(function: Function, key: [u8; 32]) -> State
    ensures { result ≡ hashed 1 H₀ (to_byte (function_number function) 32 ++ key) }
{
    after(sha256::start(), rfc8391::to_bytes(function as u32), key)
}

pub fn f(key: [u8; 32], input: [u8; 32]) -> [u8; 32]
    ensures { result ≡ keyed 0 key input }
{
    sha256::finish_half(keyed_by(Function::F, key), 1, input)
}

pub fn h(key: [u8; 32], left: [u8; 32], right: [u8; 32]) -> [u8; 32]
    ensures { result ≡ keyed 1 key (left ++ right) }
{
    let mid = after(keyed_by(Function::H, key), left, right);
    sha256::finish(mid, 2, b"")
}

// The message is hashed straight from the caller's slice.
pub fn message_digest(r: [u8; 32], root: [u8; 32], index: u32, message: &[u8]) -> [u8; 32]
    ensures { result ≡ keyed 2 (r ++ (root ++ to_byte index 32)) message.now }
{
    let mid = after(keyed_by(Function::Hmsg, r), root, rfc8391::to_bytes(index));
    sha256::finish(mid, 2, message)
}
