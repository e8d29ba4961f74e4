// The answers of document 01: accepted with a value, or refused by one row of its table.
#![tactic(auto)]

ghost use Rattle.std.specs.Prelude.{◌≡◌};
ghost use Rattle.answers.specs.Answers.{number_of, outcome_number, outcome_value};

// 01, "Answers": a case for each row of the table, with its number.
#[derive(Clone, Copy, Debug, PartialEq, Eq)]
pub enum Refusal {
    GeometryOrMode = 1,
    StoreLength = 2,
    MarksLength = 3,
    MarkAboveTwo = 4,
    TupleBufferLength = 5,
    NoRegister = 6,
    SpaceSilent = 7,
    HeldBySreset = 8,
    WidthOrValue = 9,
    IndexAboveThree = 10,
    HalfMoved = 11,
    NotWellMade = 12,
    ChainBroken = 13,
    TuplesTooLong = 14,
    TupleBad = 15,
    ListTooShort = 16,
    SessionBroken = 17,
}

// What an access, an opening, the reader or the writer comes to: accepted with a value, or refused by a row.
pub type Outcome = Result<u16, Refusal>;

impl Refusal {
    // The number of the row.
    pub fn number(self) -> u8
        ensures { result ≡ number_of self }
    {
        self as u8
    }
}

// 01: an accepted access is 0, a refused one has the number of its row.
pub fn number(outcome: Outcome) -> u8
    ensures { result ≡ outcome_number outcome }
{
    match outcome {
        Ok(_) => 0,
        Err(refusal) => refusal.number(),
    }
}

// 01: every refusal gives value 0.
pub fn value(outcome: Outcome) -> u16
    ensures { result ≡ outcome_value outcome }
{
    outcome.unwrap_or(0)
}
