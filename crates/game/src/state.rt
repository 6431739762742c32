// Which pages are live, and where runs start.
ghost use Rattle.std.specs.Prelude.{◌≡◌, ◌<◌, ◌≤◌};
ghost use Rattle.game.specs.Game.{live, is_free, place};

// For each page the length of the run that starts there, or 0.
#[derive(Clone, Copy)]
pub struct State {
    pub lengths: [u8; 6],
}

impl State {
    pub const EMPTY: State = State { lengths: [0; 6] };

    // Live pages.
    pub fn live(self) -> usize
        ensures same { result ≡ live self.lengths }
        ensures small { result ≤ 1530 }
    {
        let mut sum = 0;
        for length in self.lengths {
            sum += usize::from(length);
        }
        sum
    }

    // Is a page in no run?
    pub fn is_free(self, x: usize) -> bool
        requires { x < 6 }
        ensures { result ≡ is_free self.lengths x }
    {
        for start in 0..x + 1 {
            if x < start + usize::from(self.lengths[start]) {
                return false;
            }
        }
        true
    }

    // The state with a run of so many pages from page q on; with 0, the run from q released.
    pub fn with_run(self, q: usize, pages: u8) -> State
        requires { q < 6 }
        ensures { result.lengths ≡ place pages q self.lengths }
    {
        let mut next = self;
        next.lengths[q] = pages;
        next
    }
}
