//! Receipts and entries, kept in 16 or 32 bytes each where they can be.
//!
//! [`Receipts`] is a list of receipts for contracts: what was pushed is what [`Receipts::get`] gives, whole and in its order. [`Entries`] is
//! one of entries, each kept as its receipt is, and [`Entries::is_of`] holds the one against the other as both are kept.
//!
//! A receipt is kept in 16 bytes where no access was refused, a spawner's next strand has the number behind its child's, values are below
//! 2^32, its own number is below 2^20, its strand's below 2^22 and its line's below 2^17. That of a refused access is kept in 16 bytes and 16
//! more beside, for its value, rule and witness. Any other receipt is kept beside as it is. A history of the model, of at most a million
//! entries, has no greater numbers and strands.
#![tactic(auto)]

mod deed;
mod entries;
mod list;
mod packed;
mod refusal;

pub use deed::is_same_answer;
pub use entries::Entries;
pub use list::Receipts;
