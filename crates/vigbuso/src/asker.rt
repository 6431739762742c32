// Can an asker break a small arena? No book is lent.
ghost use Rattle.game.specs.Game.{asker_wins, GameEnds};

#[unsafe(no_mangle)]
pub extern "C" fn vigbuso_asker_wins(pages: u64, live: u64, moves: u64, wins: &mut u32) -> u32
    ensures { GameEnds (asker_wins pages live moves) result wins.old wins.new }
{
    match game::asker_wins(pages, live, moves) {
        Ok(won) => {
            *wins = u32::from(won);
            0
        }
        Err(refusal) => refusal.number(),
    }
}
