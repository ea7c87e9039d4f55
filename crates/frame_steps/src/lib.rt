//! What the functions of a program do, step by step, and a spawned function with the functions that it has called.
//!
//! `Dialogue` of `model_programs` says which requests a function may make and which answers it may be given, as a relation with a case
//! for each kind of statement over the tree of what is left of the function; `Scripts` says what the statements do that ask nothing, and
//! `Values` what operands mean. [`Activation`] is one call of a function with its registers: [`Activation::seek`] goes on to the next
//! request and carries the theorem in its contract, that only statements were passed that ask nothing, and that what it gives is what the
//! statement asks before which the activation stands then.
//!
//! [`Frame`] is a stack of activations, which asks for one request after another and is given the answers. It carries the theorem in its
//! contracts: the requests and answers of a frame so far are a dialogue of its function, and what [`Frame::next`] asks is all that can
//! follow it. [`Frame::answer`] refuses an answer exactly where it does not belong to what is asked. A frame does not store what was said:
//! its contracts relate it to every history after which it stands, by what its stack of functions can still say.
#![tactic(auto)]

mod activation;
mod answer;
mod frame;
mod phase;
mod request;
mod value;
mod wrap;

pub use activation::{Activation, Turn};
pub use answer::apply_answer;
pub use frame::{Frame, FrameFault};
pub use model_programs::Target;
pub use phase::Phase;
pub use request::{Want, act_of, line_of};
pub use value::{cell_of, result_of, value_of};
pub use wrap::{wrap_of, wrapped_index};
