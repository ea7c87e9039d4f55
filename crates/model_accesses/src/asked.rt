//! What is asked of a cell or a reducer.

use crate::kind::Kind;

/// What an act that is an access asks of a cell or a reducer.
#[derive(Clone, Copy)]
pub struct Asked {
    /// What is done there.
    pub kind: Kind,
    /// The number of the cell or, where the kind is of reducers, of the reducer.
    pub place: u32,
}
