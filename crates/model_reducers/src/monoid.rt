//! The monoids of reducers.

/// How the values of a reducer are combined.
#[derive(Clone, Copy, Debug, PartialEq, Eq)]
pub enum Monoid {
    /// The sum modulo 2^64, from 0 on.
    Sum,
    /// The least value, from 2^64 - 1 on.
    Min,
    /// The greatest value, from 0 on.
    Max,
    /// The rightmost value, where there is one.
    Last,
    /// The values as digits to the base 31, modulo 2^64. Version 2 alone has it.
    Digits,
}
