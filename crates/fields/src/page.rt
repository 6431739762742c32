// A page's header.
#![tactic(auto, unfolding(crate::specs::Field::get, crate::specs::Field::put))]

ghost use Rattle.std.specs.Prelude.{◌≡◌, ◌+◌, ◌*◌, ◌^◌, ◌<◌};
ghost use Rattle.fields.specs.Field.{pair, page, word, Has, get, put};
ghost use Rattle.fields.specs.way.Names.{page_name};

// Word k of page p.
pub fn page_word(p: u32, k: usize) -> usize
    requires { k < 2 ^ 40 }
    ensures { result ≡ 40000 + 4112 * p + k }
{
    40000 + 4112 * (p as usize) + k
}

// Word k of page p's pair. A group's pairs take 512 words, and 2 × 526,080 more lead to the next group's.
fn pair_word(p: u32, k: usize) -> usize
    requires { k < 2 }
    ensures { result ≡ pair p + k }
{
    43344 + 2 * ((p as usize) + 526080 * ((p as usize) / 256)) + k
}

// What a page's header holds, in the order of its words.
#[derive(Clone, Copy)]
pub enum PageField {
    Owner,
    First,
    Next,
    Prev,
    Free,
    Carved,
    Listed,
    Virgin,
    Tally,
}

impl PageField {
    // The word of a page's field: OWNER and FIRST are in its pair, the others in the page's own words.
    #[inline(always)]
    fn word(self, p: u32) -> usize
        ensures { result ≡ word (page (page_name self) p) }
    {
        match self {
            Self::Owner | Self::First => pair_word(p, self as usize),
            _ => page_word(p, self as usize),
        }
    }

    #[inline(always)]
    pub fn get(self, meta: &[u32], p: u32) -> u32
        requires { Has meta.now (page (page_name self) p) }
        ensures { result ≡ get meta.now (page (page_name self) p) }
    {
        meta[self.word(p)]
    }

    #[inline(always)]
    pub fn set(self, meta: &mut [u32], p: u32, v: u32)
        requires { Has meta.old (page (page_name self) p) }
        ensures { meta.new ≡ put meta.old (page (page_name self) p) v }
    {
        let at = self.word(p);
        meta[at] = v;
    }
}
