// What C and C++ link: the five operations on numbers and byte slices, each by the contract that it has in Rattle.
// Uses the page of marks and the operations alone.
// include/zabrintoly.h declares these functions and is their manual; tests hold the two to each other.

#![tactic(auto)]

ghost use Rattle.std.specs.Prelude.{◌≡◌};
ghost use Rattle.marks.specs.Marking.{reserve_of, mark_end, mark_of};
ghost use Rattle.operations.specs.Check.{check_of};
ghost use Rattle.operations.specs.Make.{made, make_end, make_of};
ghost use Rattle.operations.specs.Sign.{sign_end, sign_of};

use marks::{Marked, Reserved};
use operations::Signed;

#[unsafe(no_mangle)]
pub extern "C" fn zab_make(kind: u32, material: &[u8], secret: &mut [u8], key: &mut [u8]) -> u32
    ensures { make_end (made result) secret.new key.new ≡ make_of kind material.now secret.old key.old }
{
    operations::make(kind, material, secret, key).outcome
}

#[unsafe(no_mangle)]
pub extern "C" fn zab_reserve(page: &[u8], session: u32) -> Reserved
    ensures { result ≡ reserve_of 0 1024 page.now session }
{
    marks::reserve(page, session)
}

#[unsafe(no_mangle)]
pub extern "C" fn zab_mark(page: &mut [u8], session: u32) -> Marked
    ensures { mark_end result page.new ≡ mark_of page.old session }
{
    marks::mark(page, session)
}

#[unsafe(no_mangle)]
pub extern "C" fn zab_sign(
    secret: &[u8],
    page: &[u8],
    session: u32,
    message: &[u8],
    out: &mut [u8],
) -> Signed
    ensures { sign_end result out.new ≡ sign_of secret.now page.now session message.now out.old }
{
    operations::sign(secret, page, session, message, out)
}

#[unsafe(no_mangle)]
pub extern "C" fn zab_check(key: &[u8], message: &[u8], signature: &[u8]) -> u32
    ensures { result ≡ (check_of key.now message.now signature.now).outcome }
{
    operations::check(key, message, signature).outcome
}
