//! The strands of a spawn-sync program as it runs, and which of them are parallel (series-parallel maintenance by two order
//! lists: Bender, Fineman, Gilbert and Leiserson 2004).
//!
//! A `Strands` is told of each spawn, sync, call and return, and answers it. The contracts tie the value to the control
//! histories that it follows (`Follows`): `new` follows the empty one, and after a `spawn`, `sync`, `call` or `ret` the
//! history goes on with the event as answered, and is legal. In each history that is followed, `is_running` and `is_begun`
//! tell how a strand stands, `english_before` and `hebrew_before` are the two orders, `precedes` is a path between two
//! strands of the dag, and `parallel` is no path either way. The laws that this rests on are in the module `laws`.
#![tactic(auto)]

mod answer;
pub mod laws;
mod record;
mod roster;

pub use answer::{Returned, SpFault, Synced};
pub use model_strands::Spawned;
pub use roster::Strands;
