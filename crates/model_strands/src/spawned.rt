//! What a spawn begins.

/// What a spawn began: the child, the next strand of the spawner, and the join of their block.
#[derive(Debug, Clone, Copy, PartialEq, Eq)]
pub struct Spawned {
    pub child: u32,
    pub next: u32,
    pub join: u32,
    /// Whether the spawn opened the block.
    pub first: bool,
}
