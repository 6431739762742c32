// A rule row: the classes that it speaks of, and their limits.
ghost use Rattle.std.specs.Prelude.{◌≡◌};
ghost use Rattle.rules.specs.Rules.{spans, good_row, row_limits};
ghost use Rattle.rules.specs.way.Rows.{row_of};

use super::Limits;
use classes::CLASS_COUNT;
use words::limits::MAX_PARKED;

// Four numbers: the first and the last class, the empty and the cold limit.
#[derive(Clone, Copy)]
pub struct RuleRow {
    pub first: u32,
    pub last: u32,
    pub empty: u32,
    pub cold: u32,
}

impl From<[u32; 4]> for RuleRow {
    ghost from_gives = { λ words row. row ≡ row_of words };

    fn from(words: [u32; 4]) -> RuleRow {
        let [first, last, empty, cold] = words;
        RuleRow {
            first,
            last,
            empty,
            cold,
        }
    }
}

impl RuleRow {
    // No limit is too large, and the classes are in order and known.
    pub fn is_good(self) -> bool
        ensures { result ≡ good_row self }
    {
        self.empty <= MAX_PARKED
            && self.cold <= MAX_PARKED
            && self.first <= self.last
            && self.last < CLASS_COUNT
    }

    // The row is one of class c.
    pub fn spans(self, c: u32) -> bool
        ensures { result ≡ spans self c }
    {
        self.first <= c && c <= self.last
    }

    pub fn limits(self) -> Limits
        ensures { result ≡ row_limits self }
    {
        Limits {
            empty: self.empty,
            cold: self.cold,
        }
    }
}
