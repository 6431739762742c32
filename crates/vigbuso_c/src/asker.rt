// Can an asker break a small arena? For C.
ghost use Rattle.game.specs.Game.{asker_wins, GameEnds};

#[unsafe(no_mangle)]
pub extern "C" fn vigbuso_asker_wins(pages: u64, live: u64, moves: u64, wins: &mut u32) -> u32
    ensures { GameEnds (asker_wins pages live moves) result wins.old wins.new }
{
    vigbuso::asker::vigbuso_asker_wins(pages, live, moves, wins)
}
