// What an operation answers: one case for each row of document 01's table, in its order. 14 is retired (W-208).
#![tactic(auto)]

ghost use Rattle.std.specs.Prelude.{◌≡◌};
ghost use Rattle.answers.specs.Numbers.{number_of};
ghost use Rattle.answers.specs.Outcomes.{answer_in};

#[derive(Clone, Copy, Debug, PartialEq, Eq)]
pub enum Answer {
    Done,
    Held,
    WrongLength,
    OutOfRange,
    Bad,
    NoEntry,
    NotReady,
    NotAllowed,
    ZeroVector,
    NotNow,
    BadMask,
    Already,
    Full,
    TooMany,
    Malformed,
    PastLimit,
    BadName,
}

impl Answer {
    // The answer's number in document 01.
    pub fn number(self) -> u8
        ensures { result ≡ number_of self }
    {
        match self {
            Answer::Done => 0,
            Answer::Held => 1,
            Answer::WrongLength => 2,
            Answer::OutOfRange => 3,
            Answer::Bad => 4,
            Answer::NoEntry => 5,
            Answer::NotReady => 6,
            Answer::NotAllowed => 7,
            Answer::ZeroVector => 8,
            Answer::NotNow => 9,
            Answer::BadMask => 10,
            Answer::Already => 11,
            Answer::Full => 12,
            Answer::TooMany => 13,
            Answer::Malformed => 15,
            Answer::PastLimit => 16,
            Answer::BadName => 17,
        }
    }
}

// The answer that a Result stands for: done, or the refusal.
impl From<Result<(), Answer>> for Answer {
    ghost from_gives = { λ outcome answer. answer ≡ answer_in outcome };

    fn from(outcome: Result<(), Answer>) -> Answer {
        match outcome {
            Ok(()) => Answer::Done,
            Err(refusal) => refusal,
        }
    }
}
