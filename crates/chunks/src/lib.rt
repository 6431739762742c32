// Group releases of small classes. Number 11, that every listed block's page has one chunk and the chunks' counts are the list's: TALLY of each
// chunk's page is made the chunk's index, so that a block finds its chunk in one step, and is set back before the answer.
#![tactic(auto)]

mod call;
mod counts;
mod gives;
mod marks;
mod matching;
mod naming;
mod place;
mod push;
mod quick;
mod valid;

pub use call::release_chunks;
