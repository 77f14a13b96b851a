// The page of marks: which indices of a key are used, the next one reserved, and its mark stored before signing.
// Uses the numbered outcomes and the laws of lists.
// Signing counts marks by it; reserving and marking are exported as they are: outcomes are C's numbers, and so are sessions, 0 or the
// pending index plus one.

#![tactic(auto)]

ghost use Rattle.std.specs.Prelude.{◌≡◌, false, ◌-◌, ◌^◌, ◌<◌, IfOk};
ghost use Rattle.outcomes.specs.Outcome.{outcome_of};
ghost use Rattle.outcomes.specs.Refused.{number_of};
ghost use Rattle.marks.specs.Page.{bit_used, used, cleared};
ghost use Rattle.marks.specs.Marking.{byte_count, count_of, reserve_refusals, reserve_of, marked, mark_end, mark_of};

use outcomes::Refusal;

// What reserving answers: the session for the first unused index, the place of its byte and the byte's new value. C reads the
// outcome as a number, 0 where an index is reserved.
#[repr(C)]
#[derive(Clone, Copy)]
pub struct Reserved {
    pub outcome: u32,
    pub session: u32,
    pub place: u32,
    pub value: u8,
}

// What marking answers, the outcome as C's number; the page is changed in place.
#[repr(C)]
#[derive(Clone, Copy)]
pub struct Marked {
    pub outcome: u32,
    pub session: u32,
}

// The used marks of a byte, where it is in order: where ones alone follow its leading zeros.
fn byte_marks(b: u8) -> Option<u32>
    ensures { result ≡ byte_count b }
{
    let z = b.leading_zeros();
    if u32::from(b) == 255 >> z {
        Some(z)
    } else {
        None
    }
}

// The used marks of a page, where it is well formed: where a byte has some only if every byte before it is used up. Here and below places are
// cast by `as`: std has no `From` between usize and u32.
pub fn count(page: &[u8]) -> Option<u32>
    ensures { result ≡ count_of page.now }
{
    if page.len() != 128 {
        return None;
    }
    let mut n = 0;
    for (i, &b) in page.iter().enumerate() {
        let z = byte_marks(b)?;
        if z != 0 && n != 8 * i as u32 {
            return None;
        }
        n += z;
    }
    Some(n)
}

// Marks are counted from the most significant bit.
fn bit_of(mark: u32) -> u8
    requires { mark < 8 }
    ensures { result ≡ 2 ^ (7 - mark) }
{
    128u8 >> mark
}

// A byte with one more mark used.
fn cleared(b: u8, mark: u32) -> u8
    requires { (mark < 8) × (bit_used b mark ≡ false) }
    ensures { result ≡ cleared b mark }
{
    b - bit_of(mark)
}

// The first unused index, where reserving gives one.
fn free_index(page: &[u8], session: u32) -> Result<u32, Refusal>
    ensures outcome { number_of result ≡ outcome_of (reserve_refusals 0 1024 page.now session) }
    ensures index { IfOk result (λ i. i ≡ used page.now) }
{
    let n = count(page).ok_or(Refusal::PageDamaged)?;
    if session != 0 {
        return Err(Refusal::SessionPending);
    }
    let full = 1024 <= n;
    if full {
        return Err(Refusal::PageFull);
    }
    Ok(n)
}

// Reserves the first unused index. Nothing is written: its mark counts once the caller has stored the byte.
pub fn reserve(page: &[u8], session: u32) -> Reserved
    ensures { result ≡ reserve_of 0 1024 page.now session }
{
    match free_index(page, session) {
        Ok(n) => {
            let place = n / 8;
            Reserved {
                outcome: 0,
                session: n + 1,
                place,
                value: cleared(page[place as usize], n % 8),
            }
        }
        Err(refusal) => Reserved {
            outcome: refusal.number(),
            session,
            place: 0,
            value: 0,
        },
    }
}

// Stores the pending index's mark where it is the first unused one. Storing it again changes nothing.
#[tactic(auto, using(crate::proofs::Counting::counted_place))]
fn store(page: &mut [u8], session: u32) -> Result<(), Refusal>
    ensures { mark_end (marked (number_of result) session) page.new ≡ mark_of page.old session }
{
    let n = count(page).ok_or(Refusal::PageDamaged)?;
    if session == 0 || 1024 < session {
        return Err(Refusal::SessionDoesNotFit);
    }
    let i = session - 1;
    if n == i {
        let place = (i / 8) as usize;
        let byte = page[place];
        let value = cleared(byte, i % 8);
        page[place] = value;
        return Ok(());
    }
    if n == session {
        Ok(())
    } else {
        Err(Refusal::SessionDoesNotFit)
    }
}

// Marks the pending index used where it is the first unused one. Marking again changes nothing.
pub fn mark(page: &mut [u8], session: u32) -> Marked
    ensures { mark_end result page.new ≡ mark_of page.old session }
{
    Marked {
        outcome: outcomes::outcome(store(page, session)),
        session,
    }
}
