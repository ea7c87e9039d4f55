//! The addresses of strands, and their laws.
//!
//! The address of a strand is a list of the words child, next and join: those that lead to it from the first
//! strand of the program, which has the empty address. It does not depend on the schedule, and it determines
//! which strand reaches which, the English and the Hebrew order (Bender, Fineman, Gilbert and Leiserson 2004),
//! the order of a serial run, and the peers of a strand (Lee and Schardl 2015). The crate has definitions and
//! proofs alone. Its theorems are the contracts of the functions of [`laws`], which do nothing: reach is 'before
//! in both orders' and parallel is 'the orders disagree' ([`laws::reach_law`]), two strands of any number tell
//! whether one of them is parallel to a running one ([`laws::extremes_law`]), and a branch decides the peers
//! ([`laws::address_branch_law`]).
#![tactic(auto)]

pub mod laws;
