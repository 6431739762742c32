// A class's pages on the words: the lists and stores that they are in, whose each page of a run is, carving; and a page's blocks: their words, the
// stack of the free ones, and those given out and taken back.
#![tactic(auto)]

mod batch;
mod blocks;
mod carve;
mod draw;
mod links;
mod pop;
mod push;
mod runs;
mod stores;
mod valid;

pub use blocks::{has_more, index_of, word_of};
pub use carve::{carve_anew, new_run};
pub use draw::draw_blocks;
pub use links::{link_partial, unlink_partial};
pub use push::{push_entries, push_list, push_one};
pub use runs::whole;
pub use stores::{park_run, store_count, store_top, unpark_run};
pub use valid::{header_valid, links_valid, store_valid};
