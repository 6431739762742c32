// The calls that go straight to the arena: its direct calls, and opening.
#![tactic(auto)]

pub mod calls;
pub mod figures;
pub mod open;
