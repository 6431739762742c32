// The code of takes: planned, with every test, and then filled.
#![tactic(auto)]

pub mod call;
mod take_fill;
mod take_plan;
mod top_entries;
