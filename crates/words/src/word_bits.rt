// Block words, made and taken apart, and chunk words, which the editor makes, taken apart.
ghost use Rattle.std.specs.Prelude.{◌≡◌, ◌+◌, ◌%◌, ◌^◌};
ghost use Rattle.words.specs.Word.{kind_of, granule_of, count_of, page_of, pack_block, word_bits};

use super::Word;

// The places of the parts, as specs/Word.antt has them: the kind above KIND_BITS, a chunk's count above PAGE_BITS.
const KIND_BITS: u64 = 62;

const PAGE_BITS: u64 = 50;

const KIND_MASK: u64 = 3;

const GRANULE_MASK: u64 = (1 << KIND_BITS) - 1;

const COUNT_MASK: u64 = (1 << (KIND_BITS - PAGE_BITS)) - 1;

const PAGE_MASK: u64 = (1 << PAGE_BITS) - 1;

impl Word {
    // The kinds.
    pub const NONE: u32 = 0;

    pub const SMALL: u32 = 1;

    pub const MEDIUM: u32 = 2;

    pub const CHUNK: u32 = 3;

    // The word as the editor gives it.
    pub fn of(bits: u64) -> Word
        ensures { result.bits ≡ bits }
    {
        Word { bits }
    }

    // The word of a block, by its kind and first granule; what does not fit is cut off.
    pub fn block(kind: u32, granule: u64) -> Word
        ensures { result.bits ≡ pack_block kind granule }
    {
        Word {
            bits: (kind as u64 & KIND_MASK) << KIND_BITS | granule & GRANULE_MASK,
        }
    }

    pub fn kind(self) -> u32
        ensures { result ≡ kind_of self.bits }
    {
        (self.bits >> KIND_BITS) as u32
    }

    // A block's first granule.
    pub fn granule(self) -> u64
        ensures { result ≡ granule_of self.bits }
    {
        self.bits & GRANULE_MASK
    }

    // How far a word lies behind another, wrapped: in granules, where they are of one kind.
    pub fn behind(self, first: Word) -> u64
        ensures { (result + first.bits) % 2 ^ word_bits ≡ self.bits }
    {
        std::num::wrapping_sub_u64(self.bits, first.bits)
    }

    // A chunk's count and page.
    pub fn count(self) -> u32
        ensures { result ≡ count_of self.bits }
    {
        ((self.bits >> PAGE_BITS) & COUNT_MASK) as u32
    }

    pub fn page(self) -> u64
        ensures { result ≡ page_of self.bits }
    {
        self.bits & PAGE_MASK
    }
}
