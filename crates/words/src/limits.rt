// Document 01's limits, as specs/Limits.antt has them.

// The longest arena, in pages.
pub const MAX_PAGES: u64 = 1_048_576;

// The holes that are stored, and the pages in them.
pub const HOLE_SLOTS: u32 = 4_096;

pub const HOLE_PAGES_MAX: u32 = 65_536;

// FORMAT of a book that an opening of this layout made.
pub const BOOK_FORMAT: u32 = 1_447_642_935;

// No store, empty or cold, has more runs.
pub const MAX_PARKED: u32 = 256;
