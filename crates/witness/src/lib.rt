// The exported functions, called, do what the demands say: each function here is one call of an exported one, and its contract is the
// demands' words for that call. It adds nothing to the library.
#![tactic(auto)]

pub mod arena_calls;
pub mod asker;
pub mod chunk_calls;
pub mod class_table;
pub mod lookup;
pub mod plan_call;
pub mod pool_calls;
pub mod release_calls;
pub mod short_histories;
pub mod take_calls;
pub mod trace_call;
