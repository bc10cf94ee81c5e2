// What a call can say: document 01's table.
ghost use Rattle.std.specs.Prelude.{◌≡◌};
ghost use Rattle.outcome.specs.Answers.{refusal_number};

#[derive(Clone, Copy, Debug, PartialEq, Eq)]
pub enum Refusal {
    OutOfRange,
    BadState,
    InvalidArgs,
    NoMemory,
    NotSupported,
    Unavailable,
    BadPool,
    NoObject,
    NoNode,
    NoRoom,
    Stopped,
    PinLedger,
}

// A call's value, or why it is refused.
pub type Answer = Result<u64, Refusal>;

impl From<Refusal> for u32 {
    ghost from_gives = { λ why n. n ≡ refusal_number why };

    fn from(why: Refusal) -> u32 {
        match why {
            Refusal::OutOfRange => 1,
            Refusal::BadState => 2,
            Refusal::InvalidArgs => 3,
            Refusal::NoMemory => 4,
            Refusal::NotSupported => 5,
            Refusal::Unavailable => 6,
            Refusal::BadPool => 7,
            Refusal::NoObject => 8,
            Refusal::NoNode => 9,
            Refusal::NoRoom => 10,
            Refusal::Stopped => 11,
            Refusal::PinLedger => 12,
        }
    }
}
