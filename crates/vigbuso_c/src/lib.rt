// The exported C functions. Each calls the function of its name in crate `vigbuso` and states its clause again: a library exports nothing itself.
#![tactic(auto)]

pub mod abi;
pub mod arena_calls;
pub mod asker;
pub mod chunk_calls;
pub mod class_table;
pub mod lookup;
pub mod plan_call;
pub mod pool_calls;
pub mod release_calls;
pub mod short_histories;
pub mod take_calls;
pub mod trace_call;
