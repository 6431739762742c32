// Where a page is once its blocks came back.
ghost use Rattle.std.specs.Prelude.{◌≡◌, ◌+◌};
ghost use Rattle.release.specs.way.Fate.{fate_number};

// A page with some out is kept, and so is one in the empty store and a cold span; a cold page is in the cold store; a run of the arena has left the class.
#[derive(Clone, Copy, PartialEq, Eq)]
pub enum Fate {
    Kept = 0,
    Cold = 1,
    Arena = 2,
}

impl Fate {
    pub fn number(self) -> u32
        ensures { result ≡ fate_number self }
    {
        self as u32
    }

    // The same where the page was retired.
    pub fn retired(self) -> u32
        ensures { result ≡ 4 + fate_number self }
    {
        4 + self.number()
    }
}
