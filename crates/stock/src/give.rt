// One block back to the heap.
ghost use Rattle.std.specs.Prelude.{[], ◌∷◌};
ghost use Rattle.words.specs.Refusal.{code_of};
ghost use Rattle.classes.specs.Shape.{shape_of, pool_id};
ghost use Rattle.calls.specs.Release.{release_blocks};
ghost use Rattle.stock.specs.way.Ends.{ReleasedOne};
ghost use Rattle.stock.specs.way.Pre.{PoolPre};

use classes::pool_id;
use words::refusal::Refusal;

// The release of one block. A list is made only where `release_one` does not carry it out.
pub fn give(meta: &mut [u32], n: u32, c: u32, host: u32, w: u64) -> Result<(), Refusal>
    requires { PoolPre n meta.old c }
    ensures { ReleasedOne (code_of result) meta.new (release_blocks n meta.old (pool_id c) (shape_of (pool_id c)) host (w ∷ [])) }
{
    let id = pool_id(c);
    if release::release_one(meta, n, id, w) {
        return Ok(());
    }
    release::release_list(meta, n, id, host, &[w])?;
    Ok(())
}
