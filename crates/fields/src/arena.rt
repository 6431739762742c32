// The arena's words: its length, the reservation, the frontier, how many holes and pages in them, three counts, the pages held.
#![tactic(auto, unfolding(crate::specs::Field::get, crate::specs::Field::put))]

ghost use Rattle.std.specs.Prelude.{◌≡◌};
ghost use Rattle.fields.specs.Field.{arena, word, Has, get, put};
ghost use Rattle.fields.specs.way.Names.{arena_name, low_of, high_of};
ghost use Rattle.fields.specs.Wide.{get_wide, put_wide};

// The words of the arena in their order: `Size` is LENGTH, its length in pages.
#[derive(Clone, Copy)]
pub enum ArenaField {
    Size,
    State,
    Frontier,
    Holes,
    HolePages,
    Commits,
    CommitsHigh,
    Reuses,
    ReusesHigh,
    Abandoned,
    AbandonedHigh,
    Held,
    Format,
}

impl ArenaField {
    #[inline(always)]
    fn word(self) -> usize
        ensures { result ≡ word (arena (arena_name self)) }
    {
        self as usize
    }

    #[inline(always)]
    pub fn get(self, meta: &[u32]) -> u32
        requires { Has meta.now (arena (arena_name self)) }
        ensures { result ≡ get meta.now (arena (arena_name self)) }
    {
        meta[self.word()]
    }

    #[inline(always)]
    pub fn set(self, meta: &mut [u32], v: u32)
        requires { Has meta.old (arena (arena_name self)) }
        ensures { meta.new ≡ put meta.old (arena (arena_name self)) v }
    {
        let at = self.word();
        meta[at] = v;
    }
}

// What is counted in 64 bits, so in two words.
#[derive(Clone, Copy)]
pub enum Counter {
    Commits,
    Reuses,
    Abandoned,
}

impl Counter {
    #[inline(always)]
    fn low(self) -> ArenaField
        ensures { arena_name result ≡ low_of self }
    {
        match self {
            Self::Commits => ArenaField::Commits,
            Self::Reuses => ArenaField::Reuses,
            Self::Abandoned => ArenaField::Abandoned,
        }
    }

    #[inline(always)]
    fn high(self) -> ArenaField
        ensures { arena_name result ≡ high_of self }
    {
        match self {
            Self::Commits => ArenaField::CommitsHigh,
            Self::Reuses => ArenaField::ReusesHigh,
            Self::Abandoned => ArenaField::AbandonedHigh,
        }
    }

    #[inline(always)]
    pub fn get(self, meta: &[u32]) -> u64
        requires { Has meta.now (arena (high_of self)) }
        ensures { result ≡ get_wide meta.now (low_of self) (high_of self) }
    {
        u64::from(self.low().get(meta)) + u64::from(self.high().get(meta)) * 4_294_967_296
    }

    #[inline(always)]
    pub fn set(self, meta: &mut [u32], v: u64)
        requires { Has meta.old (arena (high_of self)) }
        ensures { meta.new ≡ put_wide meta.old (low_of self) (high_of self) v }
    {
        self.low().set(meta, (v % 4_294_967_296) as u32);
        self.high().set(meta, (v / 4_294_967_296) as u32);
    }
}
