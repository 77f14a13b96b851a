// Making, signing and checking: the answer for every input, and every byte of every buffer. Parameters are those of the functions that C
// calls, one by one, and a type, a session and an outcome are C's numbers. Type 1 alone is made and signs.
// Uses the refusals of outcomes, the page of marks, records and signatures.
// The promises, the checking program and the library for C and C++ use it.

#![tactic(auto)]

ghost use Rattle.std.specs.Prelude.{◌≡◌, ◌-◌, IfOk};
ghost use Rattle.outcomes.specs.Outcome.{outcome_of};
ghost use Rattle.outcomes.specs.Refused.{number_of};
ghost use Rattle.keyed.specs.Sha2.{sha2};
ghost use Rattle.keyed.specs.Suites.{suite};
ghost use Rattle.operations.specs.Check.{check_refusals, check_of};
ghost use Rattle.operations.specs.Make.{made, make_end, make_of};
ghost use Rattle.operations.specs.Sign.{sign_refusals, sign_end, sign_of};

use outcomes::Refusal;
use records::SecretKey;

// What checking answers. A struct of its own: a later request adds a count of steps, and the promises of checking speak of it.
#[derive(Clone, Copy)]
pub struct Checked {
    pub outcome: u32,
}

// What making answers. A struct of its own, of which the promises of making speak.
#[derive(Clone, Copy)]
pub struct Made {
    pub outcome: u32,
}

// What signing answers, with the session that the caller goes on with. C reads the outcome as a number, 0 where it signed.
#[repr(C)]
#[derive(Clone, Copy)]
pub struct Signed {
    pub outcome: u32,
    pub session: u32,
}

// Writes both buffers of a key pair, or neither.
fn write_pair(kind: u32, material: &[u8], secret: &mut [u8], key: &mut [u8]) -> Result<(), Refusal>
    ensures { make_end (made (number_of result)) secret.new key.new ≡ make_of kind material.now secret.old key.old }
{
    if material.len() != 96 {
        return Err(Refusal::InputLength);
    }
    if kind != 1 {
        return Err(Refusal::TypeNotServed);
    }
    if secret.len() != 132 || key.len() != 68 {
        return Err(Refusal::OutLength);
    }
    let made = SecretKey::made(material);
    made.write(secret);
    records::write_key(key, made.root, made.public);
    Ok(())
}

// Makes a key pair of 96 bytes of seed material: the secret record and the public key, into two lent buffers.
pub fn make(kind: u32, material: &[u8], secret: &mut [u8], key: &mut [u8]) -> Made
    ensures { make_end result secret.new key.new ≡ make_of kind material.now secret.old key.old }
{
    Made {
        outcome: outcomes::outcome(write_pair(kind, material, secret, key)),
    }
}

// The pending index, where a message may be signed with it. The out buffer is only measured.
fn pending_index(
    secret: &[u8],
    page: &[u8],
    session: u32,
    message: &[u8],
    out: &[u8],
) -> Result<u32, Refusal>
    ensures outcome { number_of result ≡ outcome_of (sign_refusals sha2 secret.now page.now session message.now out.now) }
    ensures index { IfOk result (λ i. i ≡ session - 1) }
{
    if secret.len() != 132 {
        return Err(Refusal::InputLength);
    }
    let other_type = lists::big_endian(secret, 0) != 1;
    if other_type {
        return Err(Refusal::TypeNotServed);
    }
    if 65536 < message.len() {
        return Err(Refusal::MessageTooLong);
    }
    if out.len() != 2500 {
        return Err(Refusal::OutLength);
    }
    let used = marks::count(page).ok_or(Refusal::PageDamaged)?;
    let index = session.checked_sub(1).ok_or(Refusal::SessionDoesNotFit)?;
    let not_marked = used != session;
    if not_marked {
        return Err(Refusal::SessionDoesNotFit);
    }
    Ok(index)
}

// Signs a message with the pending index, whose mark must be stored in the page. The session ends with the signature.
pub fn sign(secret: &[u8], page: &[u8], session: u32, message: &[u8], out: &mut [u8]) -> Signed
    ensures { sign_end result out.new ≡ sign_of secret.now page.now session message.now out.old }
{
    match pending_index(secret, page, session, message, out) {
        Ok(index) => {
            signatures::write_signature(secret, index, message, out);
            Signed {
                outcome: 0,
                session: 0,
            }
        }
        Err(refusal) => Signed {
            outcome: refusal.number(),
            session,
        },
    }
}

// Whether the signature leads to the key's root. Nothing of a signature is read before the key's type is known.
fn accept(key: &[u8], message: &[u8], signature: &[u8]) -> Result<(), Refusal>
    ensures { number_of result ≡ outcome_of (check_refusals suite key.now message.now signature.now) }
{
    if key.len() != 68 {
        return Err(Refusal::InputLength);
    }
    let kind = rfc8391::key_type(lists::big_endian(key, 0)).ok_or(Refusal::TypeNotServed)?;
    if signature.len() != kind.length {
        return Err(Refusal::SignatureLength);
    }
    if 65536 < message.len() {
        return Err(Refusal::MessageTooLong);
    }
    if 2u32.pow(kind.height) <= lists::big_endian(signature, 0) {
        return Err(Refusal::IndexTooLarge);
    }
    let n = keyed::value_length(kind.hash);
    let root = signatures::recomputed_root(kind.hash, kind.height, key, message, signature);
    if root[..n] != key[4..4 + n] {
        return Err(Refusal::RootDiffers);
    }
    Ok(())
}

// Checks the signature of a message under a public key.
#[tactic(auto, unfolding(crate::specs::Check::check_of))]
pub fn check(key: &[u8], message: &[u8], signature: &[u8]) -> Checked
    ensures { result ≡ check_of key.now message.now signature.now }
{
    Checked {
        outcome: outcomes::outcome(accept(key, message, signature)),
    }
}
