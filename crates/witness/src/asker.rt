// The game of an asker against any placing.
ghost use Rattle.demands.specs.Game.{ThreeYes};
ghost use Rattle.witness.specs.Observed.{GameObserved};

pub fn asker_wins(pages: u64, live: u64, moves: u64, wins: &mut u32) -> u32
    ensures { GameObserved pages live moves result wins.old wins.new }
{
    vigbuso::asker::vigbuso_asker_wins(pages, live, moves, wins)
}

pub fn asker_wins_three(wins: &mut u32) -> u32
    ensures { ThreeYes result wins.new }
{
    vigbuso::asker::vigbuso_asker_wins(3, 3, 6, wins)
}
