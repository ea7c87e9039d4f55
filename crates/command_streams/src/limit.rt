//! How long a history may be.

/// The most entries that a history may have, and the limit where none is given.
pub const MOST_ENTRIES: u32 = 1_000_000;
