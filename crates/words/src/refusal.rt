// Why a call is refused.
ghost use Rattle.std.specs.Prelude.{◌≡◌};
ghost use Rattle.words.specs.Refusal.{number_of, code_of};

// Document 01's numbers of a refused call, from 14 on document 02's.
#[derive(Clone, Copy, PartialEq, Eq)]
pub enum Refusal {
    ArenaLength = 1,
    BookTooShort = 2,
    HostWord = 3,
    Class = 4,
    ListTooShort = 5,
    RunLength = 6,
    EmptyList = 7,
    Chunks = 8,
    WrongKind = 9,
    NotOut = 10,
    OtherPage = 11,
    NotHeld = 12,
    BookWord = 13,
    Plan = 14,
    Repeated = 15,
    Stopped = 16,
    NoRow = 17,
    TwoRows = 18,
    Rows = 19,
    Listing = 20,
    Game = 21,
    Growth = 22,
    Top = 23,
    Slots = 24,
}

impl Refusal {
    pub fn number(self) -> u32
        ensures { result ≡ number_of self }
    {
        self as u32
    }
}

// What a call returns to C: 0, or its refusal's number.
pub fn code_of(outcome: Result<(), Refusal>) -> u32
    ensures { result ≡ code_of outcome }
{
    match outcome {
        Ok(()) => 0,
        Err(refusal) => refusal.number(),
    }
}
