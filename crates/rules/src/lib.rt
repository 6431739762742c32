// Parking rules (document 02, A.9): how many runs each class parks, and the rule rows that an opening is given.
#![tactic(auto)]

mod row;
mod rows;

pub use rows::{limits_of, rows_fault};

// How many runs a class parks: empty ones, cold ones.
#[derive(Clone, Copy)]
pub struct Limits {
    pub empty: u32,
    pub cold: u32,
}
