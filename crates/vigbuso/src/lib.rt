// The calls that `vigbuso_c` exports. Numbers and slices only; each is thin over a proved function.
#![tactic(auto)]

pub mod abi;
pub mod arena_calls;
pub mod asker;
pub mod chunk_calls;
pub mod class_table;
mod faults;
pub mod lookup;
pub mod plan_call;
pub mod pool_calls;
pub mod release_calls;
pub mod short_histories;
pub mod take_calls;
pub mod trace_call;
