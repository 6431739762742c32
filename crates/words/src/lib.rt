// The words that pass between the editor and the heap: block words and chunk words (`word_bits`), and the host word (`host_bits`).
// Shifts and masks make them and take them apart; the contracts say what that gives in plain arithmetic, for every number.
#![tactic(auto)]

mod host_bits;
pub mod limits;
pub mod refusal;
mod word_bits;

// A word with its kind in the top two bits: none, a small block, a medium block or a chunk.
#[derive(Clone, Copy)]
pub struct Word {
    pub bits: u64,
}

// The host word: the system's answers for one call.
#[derive(Clone, Copy)]
pub struct Host {
    pub bits: u32,
}
