//! What a refusal names.

use crate::kind::Kind;

/// An earlier access that races with a new one.
#[derive(Debug, Clone, Copy, PartialEq, Eq)]
pub struct Witness {
    /// The number of its entry in the history.
    pub entry: u32,
    pub strand: u32,
    pub kind: Kind,
}
