// Number 13 on a page's stack: the entries that a take will pop, tested two a turn, with no way out of the loop.
ghost use Rattle.std.specs.Prelude.{◌&&◌, ◌≡◌, ◌+◌, ◌-◌, ◌*◌, ◌≤◌, ltb};
ghost use Rattle.facts.specs.Lists.{every};
ghost use Rattle.fields.specs.Field.{slot, get};
ghost use Rattle.pages.specs.Stack.{top_entries};
ghost use Rattle.take.specs.way.TakePlan.{TopEntriesPre};

// Both entries of word x of the stack are below `carved`, and those before them were.
fn pair_below(meta: &[u32], q: u32, x: u32, carved: u32, before: bool) -> bool
    requires { TopEntriesPre meta.now q (2 * x + 2) }
    ensures { result ≡ ((ltb (get meta.now (slot q (2 * x + 1))) carved && ltb (get meta.now (slot q (2 * x))) carved) && before) }
{
    let low = fields::slot::entry(meta, q, 2 * x) < carved;
    let high = fields::slot::entry(meta, q, 2 * x + 1) < carved;
    high & low & before
}

// The entries of words x to y - 1 are below `carved`.
fn pairs_below(meta: &[u32], q: u32, x: u32, y: u32, carved: u32) -> bool
    requires top_entries_pre { TopEntriesPre meta.now q (2 * y) }
    requires x_le_y { x ≤ y }
    ensures { result ≡ every (λ i. ltb i carved) (top_entries meta.now q (2 * y - 2 * x) (2 * y)) }
{
    let mut below = true;
    for z in x..y {
        below = pair_below(meta, q, z, carved, below);
    }
    below
}

// The entry from `from` on below `top`, if there is one, is below `carved`.
fn end_below(meta: &[u32], q: u32, from: u32, top: u32, carved: u32) -> bool
    requires top_entries_pre { TopEntriesPre meta.now q top }
    requires from_le_top { (from ≤ top) × (top ≤ from + 1) }
    ensures { result ≡ every (λ i. ltb i carved) (top_entries meta.now q (top - from) top) }
{
    from == top || fields::slot::entry(meta, q, from) < carved
}

// The entries from `from` on below `top` are below `carved`: whole words, and what is left at either end.
fn entries_below(meta: &[u32], q: u32, from: u32, top: u32, carved: u32) -> bool
    requires top_entries_pre { TopEntriesPre meta.now q top }
    requires from_le_top { from ≤ top }
    ensures { result ≡ every (λ i. ltb i carved) (top_entries meta.now q (top - from) top) }
{
    let x = (from + 1) / 2;
    let y = top / 2;
    y < x
        || (end_below(meta, q, from, 2 * x, carved)
            && end_below(meta, q, 2 * y, top, carved)
            && pairs_below(meta, q, x, y, carved))
}

// Of a stack of `top`, each of the topmost m entries is below `carved`.
pub fn top_entries_below(meta: &[u32], q: u32, m: u32, top: u32, carved: u32) -> bool
    requires { TopEntriesPre meta.now q top }
    ensures { result ≡ every (λ i. ltb i carved) (top_entries meta.now q m top) }
{
    entries_below(meta, q, top.saturating_sub(m), top, carved)
}
