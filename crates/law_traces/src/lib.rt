//! What a judged history asks of one location, and what a recorder may leave out of a trace.
//!
//! A cell has a race where some access of it is refused: exactly where two accesses of it, granted or not, conflict and are of parallel
//! strands ([`laws::location_law`]). A reducer has one exactly where two of its puts and gets are of strands with other peers
//! ([`laws::reducer_law`]). So the addresses and the kinds of its accesses decide whether a cell has a race ([`laws::set_law`]), and much may
//! be left out: accesses that repeat one ([`laws::a_repeated_access`]) or that a write covers ([`laws::a_read_beside_a_write`]), those of
//! other locations ([`laws::other_locations`]), of one of two equal ones ([`laws::equal_locations`]) and of all but one to which the same is
//! done in other calls of a function ([`laws::a_moved_location`]), and spawns of functions in which nothing is accessed
//! ([`laws::an_empty_spawn`]). Pairs of accesses may be written as cells of their own, where no access between the two conflicts with both
//! ([`laws::near_pairs`]). Where no block is open, a location may go on as another one ([`laws::an_epoch`]). A trace in which nothing is
//! refused speaks for each order in which its strands can come ([`laws::a_clean_trace`]). The crate has definitions and proofs alone, over the
//! model crates.
#![tactic(auto)]

pub mod laws;
