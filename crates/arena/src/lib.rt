// The arena on the words, as definitions. There is no code here.
#![tactic(auto)]

// OWNER of a page that the direct calls hold.
pub const DIRECT: u32 = 153;
