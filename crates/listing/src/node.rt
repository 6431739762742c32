// A history's calls so far, and what they leave: one call more.
ghost use Rattle.std.specs.Prelude.{◌≡◌, ◌<◌};
ghost use Rattle.listing.specs.Node.{start, commit_node, release_node, noted, may_call, after_call};

// The most pages of an arena.
pub const MOST_PAGES: usize = 3;

// Up to MOST_PAGES a number is a commit of so many pages; from here on, the release of the run from an earlier call.
const FIRST_RELEASE: usize = 4;

// The calls so far, and the arena after them by lengths alone: within four calls a commit never finds more than one hole, and where
// runs lie shows in no history.
#[derive(Clone, Copy)]
pub struct Node {
    // The calls as they are written.
    pub numbers: [u32; 4],
    pub calls: usize,
    // For each call the pages of the run from it, while it is held; else 0.
    pub runs: [usize; 4],
    pub hole: usize,
    // Pages never given out.
    pub fresh: usize,
}

impl Node {
    // Before any call.
    pub fn start(n: usize) -> Node
        ensures { result ≡ start n }
    {
        Node {
            numbers: [0; 4],
            calls: 0,
            runs: [0; 4],
            hole: 0,
            fresh: n,
        }
    }

    // A commit, whether it succeeds or not.
    fn commit(self, p: usize) -> Node
        requires { self.calls < 4 }
        ensures { result ≡ commit_node self p }
    {
        let mut next = self;
        if p <= self.hole {
            next.runs[self.calls] = p;
            next.hole -= p;
            return next;
        }
        if p <= self.fresh {
            next.runs[self.calls] = p;
            next.fresh -= p;
        }
        next
    }

    // The release of the run from call j, which leaves its pages as the hole.
    fn release(self, j: usize) -> Node
        requires { j < 4 }
        ensures { result ≡ release_node self j }
    {
        let mut next = self;
        next.hole = self.runs[j];
        next.runs[j] = 0;
        next
    }

    // Puts down the number of call i.
    fn note(self, i: usize, number: usize) -> Node
        requires i_bound { i < 4 }
        requires number_bound { number < 8 }
        ensures { result ≡ noted i number self }
    {
        let mut next = self;
        next.numbers[i] = number as u32;
        next.calls = i + 1;
        next
    }

    // May the call that a number stands for come next?
    pub fn may_call(self, n: usize, number: usize) -> bool
        requires { number < 8 }
        ensures { result ≡ may_call n self number }
    {
        if number <= MOST_PAGES {
            return number <= n;
        }
        self.runs[number - FIRST_RELEASE] != 0
    }

    // The calls and the arena after one call more.
    pub fn after_call(self, number: usize) -> Node
        requires number_bound { number < 8 }
        requires calls_bound { self.calls < 4 }
        ensures { result ≡ after_call self number }
    {
        if number <= MOST_PAGES {
            return self.commit(number).note(self.calls, number);
        }
        self.release(number - FIRST_RELEASE)
            .note(self.calls, number)
    }
}
