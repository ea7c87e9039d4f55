//! From one clean and finished run of a program to all of its runs: nothing is refused in any of them, and at each address each does the
//! same. What one clean history says of others stands in `law_interleavings`; here is that a run asks what the clean one did. `specs/` has
//! the agreement of dialogues. There is no code but the functions of `laws`, which do nothing: each has one law as its contract, and
//! [`laws::clean_law`] has the theorem.
#![tactic(auto)]

pub mod laws;
