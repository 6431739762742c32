// All short histories of the direct calls on a small arena. No book is lent.
ghost use Rattle.listing.specs.Listing.{short_histories, ListingEnds};

#[unsafe(no_mangle)]
pub extern "C" fn vigbuso_short_histories(
    pages: u64,
    calls: u64,
    list: &mut [u32],
    written: &mut u64,
) -> u32
    ensures { ListingEnds (short_histories pages calls list.old) result list.new written.old written.new }
{
    match listing::short_histories(pages, calls, list) {
        Ok(many) => {
            *written = many;
            0
        }
        Err(refusal) => refusal.number(),
    }
}
