// The heap on plain values: definitions in specs/, theorems in proofs/.
// The types here are what the model shares with the code above it.
#![tactic(auto)]

// A run of free pages below the frontier.
#[derive(Clone, Copy)]
pub struct Hole {
    pub first: u32,
    pub pages: u32,
}

// Where a run with no block out goes: to its class's empty or cold store, or to the arena.
#[derive(Clone, Copy)]
pub enum Destination {
    ToEmpty,
    ToCold,
    ToArena,
}

// A report's figures: three counts, pages held, idle pages, and how many pages are both.
#[derive(Clone, Copy)]
pub struct Figures {
    pub commits: u64,
    pub reuses: u64,
    pub abandoned: u64,
    pub held: u64,
    pub idle: u64,
    pub overlap: u64,
}
