// What is promised of each operation: a function takes its arguments, calls it, and ensures the customer's sentence on what came back; one
// without arguments states a law of all pages or histories, or the table. Functions that make the same call differ in what they promise, and
// docs/PROMISES.md lists each by its name. Parameters are those of the exported function, which C hands over one by one.
// Uses the operations and the page of marks.
// It is the door by which a reader comes in (docs/PROMISES.md); the shams use it.

#![tactic(auto)]

ghost use Rattle.std.specs.Prelude.{◌≡◌, List, ◌↔◌, ℕ, ◌+◌, ◌-◌, ◌/◌, ◌<◌, ◌≤◌, length};
ghost use Rattle.lists.specs.Bytes.{number};
ghost use Rattle.keyed.specs.Sha2.{sha2};
ghost use Rattle.keyed.specs.Suites.{suite};
ghost use Rattle.rfc8391.specs.Formats.{signature_bytes};
ghost use Rattle.records.specs.Records.{record_from};
ghost use Rattle.records.specs.Keys.{signed_by};
ghost use Rattle.marks.specs.Page.{used, WellFormed, Ordered};
ghost use Rattle.marks.specs.Marking.{MarkEnd, reserve_of, mark_end, mark_of};
ghost use Rattle.marks.specs.Shown.{ReserveNumbers, MarkNumbers, OneMark, StoredByte};
ghost use Rattle.operations.specs.Check.{check_of};
ghost use Rattle.operations.specs.Make.{MakeEnd, make_end, make_of};
ghost use Rattle.operations.specs.Sign.{SignEnd, sign_end, sign_of};
ghost use Rattle.promises.specs.Checking.{CheckNumbers, Accepted};
ghost use Rattle.promises.specs.Making.{MakeNumbers, KeyPair};
ghost use Rattle.promises.specs.Signing.{SignNumbers, signature_for};
ghost use Rattle.promises.specs.Table.{Table};
ghost use Rattle.promises.specs.History.{honest, Step};
ghost use Rattle.promises.specs.Kept.{secret_for, key_for, AlwaysKept, Restarted};
ghost use Rattle.promises.specs.Call.{Called, Ran};

use marks::{Marked, Reserved};
use operations::{Checked, Made, Signed};

// Demand 1: each number of making exactly when its condition holds and none earlier does.
pub fn making_gives_each_number_exactly(
    kind: u32,
    material: &[u8],
    secret: &mut [u8],
    key: &mut [u8],
) -> Made
    ensures { MakeNumbers kind material.now secret.old key.old result.outcome }
{
    operations::make(kind, material, secret, key)
}

// Demand 1: "A refused call leaves each buffer lent to it as it found it."
pub fn refused_making_changes_nothing(
    kind: u32,
    material: &[u8],
    secret: &mut [u8],
    key: &mut [u8],
) -> Made
    ensures { (result.outcome ≡ 0 → ⊥) → (secret.new ≡ secret.old) × (key.new ≡ key.old) }
{
    operations::make(kind, material, secret, key)
}

// Demand 2: "Key pairs .. made for height 10 are, byte for byte, those of RFC 8391 with our written rule for the secret values."
pub fn made_keys_are_those_of_rfc_8391(
    kind: u32,
    material: &[u8],
    secret: &mut [u8],
    key: &mut [u8],
) -> Made
    ensures { result.outcome ≡ 0 → KeyPair material.now secret.new key.new }
{
    operations::make(kind, material, secret, key)
}

// The statement of making allows one answer alone, and one content of each buffer.
pub fn making_has_one_answer(kind: u32, material: &[u8], secret: &mut [u8], key: &mut [u8]) -> Made
    ensures { (e : MakeEnd) → e ≡ make_of kind material.now secret.old key.old → e ≡ make_end result secret.new key.new }
{
    operations::make(kind, material, secret, key)
}

// 7 is for a page that is "not 128 bytes, or a used mark after an unused one": a well formed page is what is neither.
pub fn well_formed_pages_are_those_of_the_paper()
    ensures { (page : List ℕ) → WellFormed page ↔ ((length page ≡ 128) × Ordered page 1024) }
{}

// Demand 1: each number of reserving exactly when its condition holds and none earlier does. Nothing is written.
pub fn reserving_gives_each_number_exactly(page: &[u8], session: u32) -> Reserved
    ensures { ReserveNumbers 0 1024 page.now session result.outcome }
{
    marks::reserve(page, session)
}

// Refused, reserving hands out nothing: the session as given, place and value 0.
pub fn refused_reserving_hands_out_nothing(page: &[u8], session: u32) -> Reserved
    ensures { (result.outcome ≡ 0 → ⊥) → (result.session ≡ session) × (result.place ≡ 0) × (result.value ≡ 0) }
{
    marks::reserve(page, session)
}

// Else the session for the first unused index, and the place of its page byte.
pub fn reserving_hands_out_the_first_unused_index(page: &[u8], session: u32) -> Reserved
    ensures { result.outcome ≡ 0 → (result.session ≡ used page.now + 1) × (result.place ≡ used page.now / 8) }
{
    marks::reserve(page, session)
}

// The byte that reserving hands out is what marking stores: a caller may store it itself, and marking then changes nothing.
pub fn byte_handed_out_is_what_marking_stores(page: &[u8], session: u32) -> Reserved
    ensures { result.outcome ≡ 0 → StoredByte page.now result }
{
    marks::reserve(page, session)
}

// The statement of reserving allows one answer alone.
pub fn reserving_has_one_answer(page: &[u8], session: u32) -> Reserved
    ensures { (e : Reserved) → e ≡ reserve_of 0 1024 page.now session → e ≡ result }
{
    marks::reserve(page, session)
}

// Demand 1: each number of marking exactly when its condition holds and none earlier does.
pub fn marking_gives_each_number_exactly(page: &mut [u8], session: u32) -> Marked
    ensures { MarkNumbers page.old session result.outcome }
{
    marks::mark(page, session)
}

// Demand 1: "A refused call leaves each buffer lent to it as it found it". The session is handed back as given, refused or not.
pub fn refused_marking_changes_nothing(page: &mut [u8], session: u32) -> Marked
    ensures { (result.session ≡ session) × ((result.outcome ≡ 0 → ⊥) → page.new ≡ page.old) }
{
    marks::mark(page, session)
}

// A mark that is stored already is left as it is.
pub fn marking_again_changes_nothing(page: &mut [u8], session: u32) -> Marked
    ensures { used page.old ≡ session → page.new ≡ page.old }
{
    marks::mark(page, session)
}

// The marking rule: the pending mark is made used, and no other bit changes.
pub fn marking_uses_one_mark(page: &mut [u8], session: u32) -> Marked
    ensures { result.outcome ≡ 0 → used page.old ≡ session - 1 → OneMark (session - 1) page.old page.new }
{
    marks::mark(page, session)
}

// The statement of marking allows one answer alone, and one page.
pub fn marking_has_one_answer(page: &mut [u8], session: u32) -> Marked
    ensures { (e : MarkEnd) → e ≡ mark_of page.old session → e ≡ mark_end result page.new }
{
    marks::mark(page, session)
}

// Demand 1: each number of signing exactly when its condition holds and none earlier does.
pub fn signing_gives_each_number_exactly(
    secret: &[u8],
    page: &[u8],
    session: u32,
    message: &[u8],
    out: &mut [u8],
) -> Signed
    ensures { SignNumbers secret.now page.now session message.now out.old result.outcome }
{
    operations::sign(secret, page, session, message, out)
}

// Demand 1: "A refused call leaves each buffer lent to it as it found it", and the session stays as given.
pub fn refused_signing_changes_nothing(
    secret: &[u8],
    page: &[u8],
    session: u32,
    message: &[u8],
    out: &mut [u8],
) -> Signed
    ensures { (result.outcome ≡ 0 → ⊥) → (out.new ≡ out.old) × (result.session ≡ session) }
{
    operations::sign(secret, page, session, message, out)
}

// Demand 2: "signatures made for height 10 are, byte for byte, those of RFC 8391 with our written rule for the secret values": with the
// record that making wrote for some seed material.
pub fn signatures_are_those_of_rfc_8391(
    secret: &[u8],
    page: &[u8],
    session: u32,
    message: &[u8],
    out: &mut [u8],
) -> Signed
    ensures { (material key : List ℕ) → length material ≡ 96 → KeyPair material secret.now key → result.outcome ≡ 0 → out.new ≡ signature_for material (session - 1) message.now }
{
    operations::sign(secret, page, session, message, out)
}

// With any record that is not refused: "It writes all 2,500 bytes and returns session 0", by the seeds and the root that the record holds.
pub fn signing_ends_the_session(
    secret: &[u8],
    page: &[u8],
    session: u32,
    message: &[u8],
    out: &mut [u8],
) -> Signed
    ensures { result.outcome ≡ 0 → (result.session ≡ 0) × (out.new ≡ signature_bytes (signed_by sha2 (record_from 32 secret.now) (session - 1) message.now)) }
{
    operations::sign(secret, page, session, message, out)
}

// The statement of signing allows one answer alone, and one content of its buffer.
pub fn signing_has_one_answer(
    secret: &[u8],
    page: &[u8],
    session: u32,
    message: &[u8],
    out: &mut [u8],
) -> Signed
    ensures { (e : SignEnd) → e ≡ sign_of secret.now page.now session message.now out.old → e ≡ sign_end result out.new }
{
    operations::sign(secret, page, session, message, out)
}

// Demand 1: "Every input gets one of the fixed numbered refusals or a result", each exactly when its condition holds.
pub fn checking_gives_each_number_exactly(key: &[u8], message: &[u8], signature: &[u8]) -> Checked
    ensures { CheckNumbers suite key.now message.now signature.now result.outcome }
{
    operations::check(key, message, signature)
}

// Demand 1: "An unknown key type is refused as unknown, before any signature is read": every number but 1, 2 and 3, whatever message and
// signature are.
pub fn unknown_type_is_refused_as_unknown(key: &[u8], message: &[u8], signature: &[u8]) -> Checked
    ensures { length key.now ≡ 68 → (number key.now 0 4 ≡ 1 → ⊥) → (number key.now 0 4 ≡ 2 → ⊥) → (number key.now 0 4 ≡ 3 → ⊥) → result.outcome ≡ 2 }
{
    operations::check(key, message, signature)
}

// A key of wrong length has no type: it is answered 1, and not 2.
pub fn key_of_wrong_length_is_refused_as_such(
    key: &[u8],
    message: &[u8],
    signature: &[u8],
) -> Checked
    ensures { (length key.now ≡ 68 → ⊥) → result.outcome ≡ 1 }
{
    operations::check(key, message, signature)
}

// Demand 2: "the checker accepts a signature exactly when RFC 8391 does", inside the limits on message and index.
pub fn checking_accepts_what_rfc_8391_accepts(
    key: &[u8],
    message: &[u8],
    signature: &[u8],
) -> Checked
    ensures { (result.outcome ≡ 0) ↔ Accepted suite key.now message.now signature.now }
{
    operations::check(key, message, signature)
}

// Demands 2 and 3 meet: what was signed with a key that making wrote is accepted for its message, for every index of the tree.
pub fn honest_signature_is_accepted(key: &[u8], message: &[u8], signature: &[u8]) -> Checked
    ensures { (material secret : List ℕ) (i : ℕ) → length material ≡ 96 → i < 1024 → length message.now ≤ 65536 → KeyPair material secret key.now → signature.now ≡ signature_for material i message.now → result.outcome ≡ 0 }
{
    operations::check(key, message, signature)
}

// The statement of checking allows one answer alone.
pub fn checking_has_one_answer(key: &[u8], message: &[u8], signature: &[u8]) -> Checked
    ensures { (s : Checked) → s ≡ check_of key.now message.now signature.now → s ≡ result }
{
    operations::check(key, message, signature)
}

// Which operation a step of a history calls.
#[derive(Clone, Copy)]
pub enum Kind {
    Reserving,
    Marking,
    Signing,
}

// What a call of a history answers, whichever operation it is: the structs for C that have the same fields keep their names. A
// `From` for each of the three would name the two fields once more than the arms of `call` do.
#[derive(Clone, Copy)]
pub struct Answer {
    pub outcome: u32,
    pub session: u32,
}

// Runs one call of a history on real buffers: this ties histories to the code. The three calls take different arguments, so that closures in
// place of the kind would have to take all of them.
pub fn call(
    kind: Kind,
    secret: &[u8],
    page: &mut [u8],
    session: u32,
    message: &[u8],
    out: &mut [u8],
) -> Answer
    ensures { Called secret.now kind message.now page.old out.old session result page.new out.new }
{
    match kind {
        Kind::Reserving => {
            let Reserved {
                outcome,
                session,
                ..
            } = marks::reserve(page, session);
            Answer { outcome, session }
        }
        Kind::Marking => {
            let Marked { outcome, session } = marks::mark(page, session);
            Answer { outcome, session }
        }
        Kind::Signing => {
            let Signed { outcome, session } = operations::sign(secret, page, session, message, out);
            Answer { outcome, session }
        }
    }
}

// The same by a history's step, from any state that has this page and this session.
pub fn a_call_is_a_step(
    kind: Kind,
    secret: &[u8],
    page: &mut [u8],
    session: u32,
    message: &[u8],
    out: &mut [u8],
) -> Answer
    ensures { Ran secret.now kind message.now page.old out.old session result page.new out.new }
{
    call(kind, secret, page, session, message, out)
}

// Demand 3: "Let calls to reserve an index, store its mark and sign come in any sequence, cut by restarts anywhere. .. Then signing such
// a message for a pending index with its mark stored, into 2,500 bytes, gives a signature, and every one given is accepted for its message.
// No two carry the same index. Marks used never exceed signatures given plus restarts plus one. Reserving with no index pending is refused
// for want of indices exactly when all 1,024 marks are used."
pub fn every_history_keeps_demand_three()
    ensures { (material : List ℕ) → length material ≡ 96 → AlwaysKept (honest (secret_for material)) (key_for material) }
{}

// Demand 3 begins: "Take a key pair made by demand 2": whatever making writes into the two lent buffers keeps the rest.
pub fn a_made_key_keeps_demand_three(
    kind: u32,
    material: &[u8],
    secret: &mut [u8],
    key: &mut [u8],
) -> Made
    ensures { result.outcome ≡ 0 → AlwaysKept (honest secret.new) key.new }
{
    operations::make(kind, material, secret, key)
}

// A mark used stays used. "A mark used but not signed for before the restart is lost. A reserved index whose mark was never stored is given again."
pub fn every_restart_does_what_is_said()
    ensures { (secret : List ℕ) (xs ys : List Step) → Restarted (honest secret) xs ys }
{}

// The customer's table of examples, in one statement over its twelve rows.
pub fn every_row_of_the_table_holds()
    ensures { Table }
{}
