// The pool's code: a stock of blocks for each class, and one block out or back over the heap's calls. c is a class's number; the heap knows the class by
// its id (`pool_id`).
#![tactic(auto)]

pub mod alloc;
mod cells;
pub mod free;
mod give;
mod out;
mod places;
pub mod query;
mod room;
mod top;
pub mod trim;
