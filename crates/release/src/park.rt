// What becomes of a page whose blocks came back. Every word that is read here has passed its test.
ghost use Rattle.std.specs.Prelude.{◌≡◌, map};
ghost use Rattle.model.specs.Destination.{fate_of};
ghost use Rattle.pages.specs.way.Pre.{LinkPre};
ghost use Rattle.pages.specs.Stack.{index_of};
ghost use Rattle.calls.specs.Release.{unlisted, relisted, park_cold, parked_in, park_at, last_step};
ghost use Rattle.release.specs.way.Fate.{fate_number};
ghost use Rattle.release.specs.way.Act.{cold_virgin, settle_at, ParkingPre, ColdPre, StorePre, BackPre, SettlePre, Parked};

use super::Fate;
use super::valid::destination_at;
use classes::Shape;
use fields::page::PageField;
use model::Destination;
use pages::Park;
use words::{Host, Word};

// A page with none out leaves the partial list.
fn unlist(meta: &mut [u32], c: u32, shape: Shape, q: u32)
    requires { ParkingPre meta.old c shape q }
    ensures { meta.new ≡ unlisted meta.old c q }
{
    if PageField::Listed.get(meta, q) == 1 {
        lists::unlink_partial(meta, c, q);
    }
}

// One with some out heads it if absent.
pub fn relist(meta: &mut [u32], c: u32, q: u32)
    requires { LinkPre meta.old c q }
    ensures { meta.new ≡ relisted meta.old c q }
{
    if PageField::Listed.get(meta, q) == 0 {
        lists::link_partial(meta, c, q);
    }
}

// A cold small page is virgin if its discard zeroed it.
fn cold_virgin(shape: Shape, host: u32) -> bool
    ensures { result ≡ cold_virgin shape host }
{
    if shape.kind == Word::MEDIUM {
        return false;
    }
    Host::of(host).discard_zeroed()
}

// A cold span counts as kept.
fn fate_of(shape: Shape, destination: Destination) -> Fate
    ensures { fate_number result ≡ fate_of shape destination }
{
    match destination {
        Destination::ToEmpty => Fate::Kept,
        Destination::ToCold => {
            if shape.kind == Word::MEDIUM {
                Fate::Kept
            } else {
                Fate::Cold
            }
        }
        Destination::ToArena => Fate::Arena,
    }
}

// A parked cold page is kept as it will come back: carved anew.
fn park_cold(meta: &mut [u32], c: u32, shape: Shape, host: u32, q: u32)
    requires { ColdPre meta.old c shape q }
    ensures { meta.new ≡ park_cold meta.old c shape host q }
{
    lists::carve_anew(meta, shape, q, cold_virgin(shape, host));
    lists::park_run(meta, c, Park::Cold, q);
}

// By the destination; a page for the arena stays in no list.
fn park_at_destination(
    meta: &mut [u32],
    c: u32,
    shape: Shape,
    host: u32,
    q: u32,
    destination: Destination,
)
    requires { StorePre meta.old c shape q }
    ensures { meta.new ≡ parked_in meta.old c shape host q destination }
{
    match destination {
        Destination::ToEmpty => lists::park_run(meta, c, Park::Empty, q),
        Destination::ToCold => park_cold(meta, c, shape, host, q),
        Destination::ToArena => {}
    }
}

// Parks a page with none out; its fate.
pub fn park_empty_page(meta: &mut [u32], c: u32, shape: Shape, host: u32, q: u32) -> Fate
    requires { ParkingPre meta.old c shape q }
    ensures { Parked (fate_number result) meta.new (park_at meta.old c shape host q) }
{
    let destination = destination_at(meta, c, shape);
    unlist(meta, c, shape, q);
    park_at_destination(meta, c, shape, host, q, destination);
    fate_of(shape, destination)
}

// The listed blocks, whose out bits are cleared, come back to their page.
fn release_inner(meta: &mut [u32], c: u32, shape: Shape, host: u32, q: u32, list: &[u64]) -> Fate
    requires { BackPre meta.old c shape q list.now }
    ensures { Parked (fate_number result) meta.new (settle_at meta.old c shape host q (map (index_of shape q) list.now)) }
{
    lists::push_list(meta, shape, q, list);
    if PageField::Carved.get(meta, q) == PageField::Free.get(meta, q) {
        return park_empty_page(meta, c, shape, host, q);
    }
    relist(meta, c, q);
    Fate::Kept
}

// The arena is the last step.
pub fn settle(
    meta: &mut [u32],
    n: u32,
    c: u32,
    shape: Shape,
    host: u32,
    q: u32,
    list: &[u64],
) -> Fate
    requires { SettlePre n meta.old c shape q list.now }
    ensures { Parked (fate_number result) meta.new (last_step shape q (settle_at meta.old c shape host q (map (index_of shape q) list.now))) }
{
    let fate = release_inner(meta, c, shape, host, q, list);
    if fate == Fate::Arena {
        runs::give::give(meta, n, q, shape.pages);
    }
    fate
}
