// The test over both lists, with room for what stood in TALLY and for the counts.
ghost use Rattle.std.specs.Prelude.{◌≤◌, length};
ghost use Rattle.model.specs.Chunks.{chunks_max};
ghost use Rattle.chunks.specs.way.Match.{MatchPre, Matched};
ghost use Rattle.chunks.specs.way.TallyPre.{RoomPre};

use super::counts::tallies_agree;
use super::naming::{all_pages, name_chunks, unname_chunks};

// Room for so many chunks is there (document 01's limit), or for a few.
pub const MAX_CHUNKS: usize = 2056;

const FEW_CHUNKS: usize = 32;

// A page past the arena has no listed block, and a count of 0 is a mismatch.
fn match_with(
    meta: &mut [u32],
    n: u32,
    list: &[u64],
    chunks: &[u64],
    saved: &mut [u32],
    counts: &mut [usize],
) -> bool
    requires cases { MatchPre n meta.old chunks.now }
    requires room_pre { RoomPre chunks.now saved.old counts.old }
    ensures { Matched result meta.new n meta.old list.now chunks.now }
{
    if !all_pages(n, chunks) {
        return false;
    }
    name_chunks(meta, chunks, saved);
    let agree = tallies_agree(meta, n, list, chunks, counts);
    unname_chunks(meta, chunks, saved);
    agree
}

// With room for N chunks. Two arrays and not one of structs: a chunk would take 16 bytes for 12, and each call clears them all.
fn match_in<const N: usize>(meta: &mut [u32], n: u32, list: &[u64], chunks: &[u64]) -> bool
    requires cases { MatchPre n meta.old chunks.now }
    requires chunks_len_bound { length chunks.now ≤ N }
    requires small { N ≤ chunks_max }
    ensures { Matched result meta.new n meta.old list.now chunks.now }
{
    let mut saved = [0u32; N];
    let mut counts = [0usize; N];
    match_with(meta, n, list, chunks, &mut saved, &mut counts)
}

pub fn chunks_match(meta: &mut [u32], n: u32, list: &[u64], chunks: &[u64]) -> bool
    requires { MatchPre n meta.old chunks.now }
    ensures { Matched result meta.new n meta.old list.now chunks.now }
{
    if chunks.len() <= FEW_CHUNKS {
        match_in::<FEW_CHUNKS>(meta, n, list, chunks)
    } else {
        match_in::<MAX_CHUNKS>(meta, n, list, chunks)
    }
}
