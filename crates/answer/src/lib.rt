// What the calls of the engine answer alike: why they refuse, and at which place.
#![tactic(auto)]

// Why a call refuses. Documents name each cause by a number (`Cause::number`).
#[derive(Clone, Copy, Debug, PartialEq, Eq)]
pub enum Cause {
    TooLong = 1,
    CutShort = 2,
    UnknownTag = 3,
    HeaderMisplaced = 4,
    BadLength = 5,
    TooManyClauses = 6,
    OutOfRange = 7,
    NotRising = 8,
    BytesAfterEnd = 9,
    GroupLacking = 10,
    SpaceTooSmall = 11,
    Unended = 12,
    SecondHead = 13,
    BadRecord = 14,
    SeveralHeads = 20,
    WrongClauseCount = 21,
    Formless = 22,
}

impl Cause {
    ghost use Rattle.std.specs.Prelude.{◌≡◌};
    ghost use Rattle.answer.specs.Refusals.{number_of};

    // The number by which documents name it.
    pub fn number(self) -> u8
        ensures { result ≡ number_of self }
    {
        self as u8
    }

    // The refusal for it, at a place.
    pub fn at(self, place: usize) -> Refusal
        ensures { (result.cause ≡ self) × (result.place ≡ place) }
    {
        Refusal { cause: self, place }
    }
}

// A refusal: why, and at which place.
#[derive(Clone, Copy, Debug, PartialEq, Eq)]
pub struct Refusal {
    pub cause: Cause,
    pub place: usize,
}
