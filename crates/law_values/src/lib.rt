//! The laws of the values of reducers: at each granted get the strand's view is the value of the get, which `model_reducers` defines by
//! the dag. `specs/` has what the laws speak of besides: the logs and the views of strands, and which histories of one reducer or of all
//! of them are legal. There is no code but the functions of `laws`, which do nothing: each has one law as its contract. `laws::value_law`
//! has the theorem that carries the rest.
#![tactic(auto)]

pub mod laws;
