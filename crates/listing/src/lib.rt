// All short histories of the direct calls on a small arena (document 02, A.10).
#![tactic(auto)]

mod node;

ghost use Rattle.std.specs.Prelude.{◌≡◌, false, ◌+◌, ◌≤◌, length, set};
ghost use Rattle.listing.specs.Listing.{most_numbers, so_far, list_from, listing, bad_bounds, Wrote, short_histories};
ghost use Rattle.listing.specs.way.Told.{told};

use node::{MOST_PAGES, Node};
use words::refusal::Refusal;

const MOST_CALLS: u64 = 4;

// Writes a number where the list has a place for it. Not by `get_mut`: after it the proof knows the list's length alone.
fn write(out: &mut [u32], at: usize, number: u32)
    ensures { out.new ≡ set out.old at number }
{
    if at < out.len() {
        out[at] = number;
    }
}

// Writes the calls so far; answers the place after them.
fn write_history(node: Node, out: &mut [u32], at: usize) -> usize
    requires calls_bound { node.calls ≤ 4 }
    requires node_bound { at + length (so_far node) ≤ most_numbers }
    ensures { Wrote (so_far node) at result out.old out.new }
{
    for i in 0..node.calls {
        write(out, at + i, node.numbers[i]);
    }
    at + node.calls
}

// Writes all histories that go on by so many calls; answers the place after them. It calls itself, as document 01 has it.
fn list_from(n: usize, left: usize, node: Node, out: &mut [u32], at: usize) -> usize
    requires left_bound { node.calls + left ≤ 4 }
    requires node_bound { at + length (list_from n left node) ≤ most_numbers }
    ensures { Wrote (list_from n left node) at result out.old out.new }
{
    if left == 0 {
        return write_history(node, out, at);
    }
    let mut to = at;
    for number in 1..MOST_PAGES + node.calls + 1 {
        if node.may_call(n, number) {
            to = list_from(n, left - 1, node.after_call(number), out, to);
        }
    }
    to
}

// Does number 20 apply, whatever the list?
fn bad_bounds(pages: u64, calls: u64) -> bool
    ensures { result ≡ bad_bounds pages calls }
{
    pages == 0 || (MOST_PAGES as u64) < pages || MOST_CALLS < calls
}

// How many numbers a listing has: it is made once on a list that keeps none of them.
fn listing_size(n: usize, k: usize) -> usize
    requires { bad_bounds n k ≡ false }
    ensures { result ≡ length (listing n k) }
{
    list_from(n, k, Node::start(n), &mut [], 0)
}

// Lists all histories of so many calls; answers how many numbers were written.
pub fn short_histories(pages: u64, calls: u64, list: &mut [u32]) -> Result<u64, Refusal>
    ensures { told result list.new ≡ short_histories pages calls list.old }
{
    if bad_bounds(pages, calls) {
        return Err(Refusal::Listing);
    }
    let n = pages as usize;
    let k = calls as usize;
    let size = listing_size(n, k);
    if list.len() < size {
        return Err(Refusal::Listing);
    }
    list_from(n, k, Node::start(n), list, 0);
    Ok(size as u64)
}
