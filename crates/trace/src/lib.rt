// A trace (document 02, A.7): an opening, then its words one by one, each carried out by the calls that are there.
#![tactic(auto)]

pub mod acts;
pub mod course;
pub mod say;
pub mod steps;
pub mod tally;
mod word_lists;
