// Can an asker break a small arena (document 02, A.12)?
#![tactic(auto)]

mod state;

ghost use Rattle.std.specs.Prelude.{◌≡◌, ◌+◌, ◌<◌, ◌≤◌};
ghost use Rattle.game.specs.Game.{may_stand, every_placing, wins, bad_game, asker_wins};
ghost use Rattle.game.specs.way.Told.{told};

use state::State;
use words::refusal::Refusal;

const GAME_PAGES: u64 = 6;

const GAME_MOVES: u64 = 8;

// The arena's pages, and the most that may be live.
#[derive(Clone, Copy)]
struct Game {
    pages: usize,
    limit: usize,
    ghost pages_bound: { pages ≤ 6 },
    ghost limit_bound: { limit ≤ 6 },
}

impl Game {
    // May p pages stand from page q on?
    fn may_stand(self, s: State, p: usize, q: usize) -> bool
        requires p_bound { p ≤ 6 }
        requires q_bound { q < 6 }
        ensures { result ≡ may_stand self.pages s.lengths p q }
    {
        if self.pages < q + p {
            return false;
        }
        for i in 0..p {
            if !s.is_free(q + i) {
                return false;
            }
        }
        true
    }

    // The placer's turn: does each placing of p pages leave a state from which the asker wins? It and `asker` call each other, as
    // document 01 has it.
    #[cycle(asker_placer)]
    fn placer(self, s: State, p: usize, moves: usize) -> bool
        requires p_bound { p ≤ 6 }
        requires moves_bound { moves ≤ 8 }
        ensures { result ≡ every_placing self.pages p (wins self.pages self.limit moves) s.lengths }
    {
        for q in 0..self.pages {
            if self.may_stand(s, p, q) && !self.asker(s.with_run(q, p as u8), moves) {
                return false;
            }
        }
        true
    }

    // The asker's turn: is there an ask or a release that wins within the moves left?
    #[cycle(asker_placer)]
    fn asker(self, s: State, moves: usize) -> bool
        requires { moves ≤ 8 }
        ensures { result ≡ wins self.pages self.limit moves s.lengths }
    {
        if moves == 0 {
            return false;
        }
        for more in 0..self.limit.saturating_sub(s.live()) {
            if self.placer(s, more + 1, moves - 1) {
                return true;
            }
        }
        for q in 0..self.pages {
            if s.lengths[q] != 0 && self.asker(s.with_run(q, 0), moves - 1) {
                return true;
            }
        }
        false
    }
}

// Does number 21 apply?
fn bad_game(pages: u64, live: u64, moves: u64) -> bool
    ensures { result ≡ bad_game pages live moves }
{
    pages == 0 || GAME_PAGES < pages || live == 0 || pages < live || GAME_MOVES < moves
}

// Can the asker force the win within so many moves?
pub fn asker_wins(pages: u64, live: u64, moves: u64) -> Result<bool, Refusal>
    ensures { told result ≡ asker_wins pages live moves }
{
    if bad_game(pages, live, moves) {
        return Err(Refusal::Game);
    }
    let game = Game {
        pages: pages as usize,
        limit: live as usize,
    };
    Ok(game.asker(State::EMPTY, moves as usize))
}
