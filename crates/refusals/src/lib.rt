//! Why a call is refused: an enum inside, the paper's numbers at the door.
#![tactic(auto)]

ghost use Rattle.std.specs.Prelude.{◌≡◌};
ghost use Rattle.refusals.specs.Numbers.{number_of, refused_alone};

/// Why a call is refused; as a number, what C is told.
#[derive(Clone, Copy, Debug, PartialEq, Eq)]
pub enum Refusal {
    NoRegister = 1,
    ReservedBit = 2,
    NoMode = 3,
    NoItem = 4,
    NoWindow = 5,
    NoState = 6,
    PastRecord = 7,
    ModeChange = 8,
    MaskedTenBits = 9,
}

impl Refusal {
    pub fn number(self) -> u8
        ensures { result ≡ number_of self }
    {
        self as u8
    }
}

/// A refusal, and beside it the number of the first bad item, or 0.
#[derive(Clone, Copy, Debug, PartialEq, Eq)]
pub struct Refused {
    pub why: Refusal,
    pub item: u64,
}

impl From<Refusal> for Refused {
    ghost from_gives = { λ why refused. refused ≡ refused_alone why };

    fn from(why: Refusal) -> Self {
        Refused { why, item: 0 }
    }
}
