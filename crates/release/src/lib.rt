// Releases by list: the tests in their order, each over the whole list, and then the act.
#![tactic(auto)]

mod blocks;
mod fates;
mod kinds;
mod marks;
mod one;
mod park;
mod release;
mod tests;
mod valid;

pub use blocks::find_out;
pub use fates::Fate;
pub use kinds::all_of_kind;
pub use marks::{clear_marks, mark_run, marks_of, no_marks, take_marks};
pub use one::release_one;
pub use park::{park_empty_page, relist};
pub use release::{release_blocks, release_list};
pub use tests::out_fault;
pub use valid::{destination_of, limits_at, page_valid, row_valid};

// The run that has all listed blocks, and in how many words of its marks they are marked, 0 for none: what passed the tests before 13's last.
#[derive(Clone, Copy)]
struct Marked {
    run: u32,
    marks: u32,
}

// A block, by its run's first page and its index there.
#[derive(Clone, Copy)]
pub struct Place {
    pub run: u32,
    pub index: u32,
}
