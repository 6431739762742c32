// Number 13 for a release of m blocks of the run at q: the words that the act reads.
ghost use Rattle.std.specs.Prelude.{◌≡◌, ◌<◌, ◌≤◌, true};
ghost use Rattle.classes.specs.way.Sound.{Sound};
ghost use Rattle.fields.specs.Ranges.{max_parked};
ghost use Rattle.pages.specs.way.Pre.{PagePre, RowPre};
ghost use Rattle.pages.specs.Valid.{limits_at, limits_valid};
ghost use Rattle.model.specs.Destination.{keeps_empty, destination_of};
ghost use Rattle.calls.specs.Release.{page_valid, row_valid, destination_at, destination_valid, release_valid};
ghost use Rattle.release.specs.way.Valid.{DestinationPre, ValidPre, DestinationValidPre};

use classes::Shape;
use fields::arena::ArenaField;
use fields::class::ClassField;
use fields::page::PageField;
use model::Destination;
use pages::Park;
use rules::Limits;
use words::limits::MAX_PARKED;

// The page to which m blocks come back.
pub fn page_valid(meta: &[u32], shape: Shape, m: usize, q: u32) -> bool
    requires { PagePre meta.now q }
    ensures { result ≡ page_valid meta.now shape m q }
{
    if lists::header_valid(meta, shape, m, q) {
        if PageField::Listed.get(meta, q) <= 1 {
            return lists::links_valid(meta, q);
        }
    }
    false
}

pub fn row_valid(meta: &[u32], c: u32) -> bool
    requires { RowPre meta.now c }
    ensures { result ≡ row_valid meta.now c }
{
    if ClassField::Partial.get(meta, c) > ArenaField::Frontier.get(meta) {
        return false;
    }
    if lists::store_valid(meta, c, Park::Empty) {
        if lists::store_valid(meta, c, Park::Cold) {
            return limits_valid(meta, c);
        }
    }
    false
}

// The class's limits.
fn limits_valid(meta: &[u32], c: u32) -> bool
    requires { RowPre meta.now c }
    ensures { result ≡ limits_valid meta.now c }
{
    if ClassField::EmptyLimit.get(meta, c) > MAX_PARKED {
        return false;
    }
    ClassField::ColdLimit.get(meta, c) <= MAX_PARKED
}

pub fn limits_at(meta: &[u32], c: u32) -> Limits
    requires { RowPre meta.now c }
    ensures { result ≡ limits_at meta.now c }
{
    Limits {
        empty: ClassField::EmptyLimit.get(meta, c),
        cold: ClassField::ColdLimit.get(meta, c),
    }
}

// The empty store has room for one more run.
fn keeps_empty(shape: Shape, limits: Limits, empties: u32) -> bool
    requires sound { Sound shape }
    requires empties_le_max_parked { empties ≤ max_parked }
    ensures { result ≡ keeps_empty shape limits empties }
{
    if empties >= limits.empty {
        return false;
    }
    (empties + 1) * shape.pages <= shape.emptypages
}

// Where a page with none out goes, by the class's limits and the counts of its two stores.
pub fn destination_of(shape: Shape, limits: Limits, empties: u32, colds: u32) -> Destination
    requires sound { Sound shape }
    requires empties_le_max_parked { empties ≤ max_parked }
    ensures { result ≡ destination_of shape limits empties colds }
{
    if keeps_empty(shape, limits, empties) {
        return Destination::ToEmpty;
    }
    if colds < limits.cold {
        Destination::ToCold
    } else {
        Destination::ToArena
    }
}

pub fn destination_at(meta: &[u32], c: u32, shape: Shape) -> Destination
    requires { DestinationPre meta.now c shape }
    ensures { result ≡ destination_at meta.now c shape }
{
    destination_of(
        shape,
        limits_at(meta, c),
        lists::store_count(meta, c, Park::Empty),
        lists::store_count(meta, c, Park::Cold),
    )
}

// Where the page would go to the arena, the words that giving reads.
fn destination_valid(meta: &[u32], n: u32, c: u32, shape: Shape, m: usize, q: u32) -> bool
    requires { DestinationValidPre meta.now c shape m q }
    ensures { result ≡ destination_valid n meta.now c shape m q }
{
    let out = PageField::Carved.get(meta, q) - PageField::Free.get(meta, q);
    if out as usize != m {
        return true;
    }
    match destination_at(meta, c, shape) {
        Destination::ToEmpty => true,
        Destination::ToCold => true,
        Destination::ToArena => runs::give::give_valid(meta, n, shape.pages),
    }
}

pub fn release_valid(meta: &[u32], n: u32, c: u32, shape: Shape, m: usize, q: u32) -> bool
    requires { ValidPre meta.now c shape q }
    ensures { result ≡ release_valid n meta.now c shape m q }
{
    if !fields::fault::head_valid(meta, n) {
        return false;
    }
    if page_valid(meta, shape, m, q) {
        if row_valid(meta, c) {
            return destination_valid(meta, n, c, shape, m, q);
        }
    }
    false
}
