//! The functions that spawns name.

/// A function that is spawned or called.
#[derive(Clone, Copy)]
pub struct Target {
    /// Its number.
    pub function: u32,
    /// What its parameter takes.
    pub argument: u64,
}
