// Refusals as a list of conditions in the customer's order, and the outcome: the number of the first that holds. And a refusal as the
// code hands it up, with the number by which it is answered.
// Uses nothing. Definitions are in specs/, laws in proofs/.
// The page of marks and the operations state their answers by it.

#![tactic(auto)]

ghost use Rattle.std.specs.Prelude.{◌≡◌};
ghost use Rattle.outcomes.specs.Refused.{refusal_number, number_of};

// Why a call is refused, by the customer's numbers. 12 is the checking program's own.
#[derive(Clone, Copy, Debug, PartialEq, Eq)]
pub enum Refusal {
    InputLength = 1,
    TypeNotServed = 2,
    SignatureLength = 3,
    MessageTooLong = 4,
    IndexTooLarge = 5,
    RootDiffers = 6,
    PageDamaged = 7,
    PageFull = 8,
    SessionPending = 9,
    SessionDoesNotFit = 10,
    OutLength = 11,
}

impl Refusal {
    // The variant's own number, which `as` gives.
    pub fn number(self) -> u32
        ensures { result ≡ refusal_number self }
    {
        self as u32
    }
}

// What a call that is done or refused is answered: 0 where it is done.
pub fn outcome(answer: Result<(), Refusal>) -> u32
    ensures { result ≡ number_of answer }
{
    match answer {
        Ok(()) => 0,
        Err(refusal) => refusal.number(),
    }
}
