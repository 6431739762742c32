// The class of a size by the lookup tables, for whoever looks up many sizes.
ghost use Rattle.std.specs.Prelude.{◌≡◌};
ghost use Rattle.classes.specs.Lookup.{SmallLut, MediumLut, size_class};

use super::Sized;
use super::class_lut::CLASS_LUT;
use super::medium_lut::MEDIUM_LUT;
use super::sizes::{MAX_MEDIUM_SIZE, MAX_SMALL_SIZE};

// Both tables. A read of a constant array builds it anew, so they are made once and lent: in place, from the constants, since what a function returns would be
// copied by C's `memcpy`, which the archive does without.
#[derive(Drop)]
pub struct LookupTables {
    small: [u8; 1025],
    medium: [u8; 3069],
    ghost small_lut: { SmallLut small },
    ghost medium_lut: { MediumLut medium },
}

impl LookupTables {
    pub fn new() -> LookupTables
        ensures small { SmallLut result.small }
        ensures medium { MediumLut result.medium }
    {
        LookupTables {
            small: CLASS_LUT,
            medium: MEDIUM_LUT,
        }
    }

    pub fn class_of(&self, size: u32) -> Sized
        ensures { result ≡ size_class size }
    {
        if size <= MAX_SMALL_SIZE {
            let place = ((size + 15) / 16) as usize;
            Sized::Small(u32::from(self.small[place]))
        } else if size <= MAX_MEDIUM_SIZE {
            let place = ((size - 16385) / 16) as usize;
            Sized::Medium(u32::from(self.medium[place]))
        } else {
            Sized::TooLarge
        }
    }
}
