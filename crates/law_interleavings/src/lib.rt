//! One clean history speaks for every interleaving of its strands: whatever is judged and asks at no address more than it does, is clean,
//! is given the same values, and leaves the same memory. No program stands here. `specs/` has what is asked at an address, the laws, worked
//! histories, and where the frames of a history stand. There is no code but the functions of `laws`, which do nothing: each has one law as
//! its contract, and [`laws::interleaving_law`] has the theorem.
#![tactic(auto)]

pub mod laws;
