//! The dag of a judged history, drawn.
//!
//! [`draw`] makes a [`Drawing`] of the entries of a history, and carries the theorem in its contract: the drawing's strands are those
//! that have begun, each once and in their order; its edges are those of the dag, each once, the child's, the next's and the join's told
//! apart; and its races are the refusals, in order, each with its witness. A history in which more than [`MOST_STRANDS`] strands have
//! begun has no drawing, and each other history has one.
//!
//! [`write_drawing`] writes a drawing in the language of a [`Form`]. Which text that is, letter by letter, `dot_text` of `specs/Dots` and
//! `svg_text` of `specs/Pictures` say.
#![tactic(auto)]

mod blanks;
mod dot;
mod drawing;
mod form;
mod labels;
pub mod laws;
mod plan;
mod svg;
mod walk;

pub use drawing::{Access, Drawing, Edge, EdgeKind, MOST_STRANDS, Race, draw};
pub use form::{Form, write_drawing};
pub use labels::Names;
