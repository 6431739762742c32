// All short histories of the direct calls on a small arena.
ghost use Rattle.demands.specs.Listing.{OnePageTwoCalls};
ghost use Rattle.witness.specs.Observed.{ListingObserved};

pub fn short_histories(pages: u64, calls: u64, list: &mut [u32], written: &mut u64) -> u32
    ensures { ListingObserved pages calls result list.old list.new written.old written.new }
{
    vigbuso::short_histories::vigbuso_short_histories(pages, calls, list, written)
}

pub fn one_page_two_calls(list: &mut [u32], written: &mut u64) -> u32
    ensures { OnePageTwoCalls result list.old list.new written.new }
{
    vigbuso::short_histories::vigbuso_short_histories(1, 2, list, written)
}
