//! The laws of control histories: what all legal histories of `model_strands` have. `specs/` has the other ways to say reach, peers, orders
//! and views, by which code can decide them, and the statements of the laws that tie these to the dag: the two orders of addresses, the two
//! lists that grow with the spawns, branches, counts of children, views, and what a join gathers. There is no code but the functions of
//! `laws`, which do nothing: each has one law as its contract. The theorem that carries the rest is that of `laws::address_law`: addresses
//! decide which strand reaches which.
#![tactic(auto)]

pub mod laws;
