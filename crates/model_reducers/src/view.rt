//! What strands gather of reducers.

/// What a strand has gathered of a reducer. Every number of a view in hand is below 2^64.
#[derive(Debug, Clone, Copy, PartialEq, Eq)]
pub enum View {
    /// No value, of the monoid `last` alone.
    Nothing,
    /// A value, of every monoid but `digits`.
    One(u64),
    /// A multiplier and the number that it has gathered, of `digits` alone.
    Pair(u64, u64),
}
