// What all who use a lent table share: the layout of its records, counts and words that no number can overflow, and 01's refusals.
#![tactic(auto)]

ghost use Rattle.std.specs.Prelude.{◌≡◌};
ghost use Rattle.tables.specs.Refusal.{number_of};
ghost use Rattle.tables.specs.Answers.{refusal_of};

pub mod layout; // where each word of a record stands
pub mod record; // the count fits, the words of a record, its flags

// 01's table "Numbers given back", row by row, and the numbers that document 02's requests add.
#[derive(Clone, Copy)]
pub enum Refusal {
    TextTooLong = 1,
    NotUtf8 = 2,
    NoHeader = 3,
    IsMaster = 4,
    LeftOutTag = 5,
    TooManyDigits = 6,
    ClipTableShort = 7,
    TagTableShort = 8,
    BrokenTable = 9,
    OutputShort = 10,
    TotalTooLong = 11,
    BadRate = 12,
    TurnTooLate = 13,
    NoSuchClip = 14,
    WindowTooFar = 15,
    NoRangeBefore = 16,
    NothingPlays = 17,
    TickTooLate = 18,
    FileTooShort = 19,
    OtherVersion = 20,
    NotExact = 21,
    BadStart = 22,
    TooWide = 33,
}

impl Refusal {
    // The number of its row.
    pub fn number(self) -> u64
        ensures { result ≡ number_of (refusal_of self) }
    {
        self as u64
    }
}

// A refusal, and the place in the text where it was met.
#[derive(Clone, Copy)]
pub struct Refused {
    pub refusal: Refusal,
    pub place: usize,
}

impl From<Refusal> for Refused {
    ghost from_gives = { λ r e. e ≡ record { refusal = r; place = 0 } };

    // One that has no place of its own.
    fn from(refusal: Refusal) -> Refused {
        Refused { refusal, place: 0 }
    }
}
