//! The kinds of access.

/// What an access does to its location.
#[derive(Clone, Copy, Debug, PartialEq, Eq)]
pub enum AccessKind {
    /// A plain read.
    Read,
    /// An atomic load.
    Load,
    /// An atomic store, or an atomic read-modify-write.
    Update,
    /// A plain write.
    Write,
}
