//! Lines of a source text quoted for a person: a [`Source`] knows the lines of a text, and a quote shows one of them with its number, and
//! below it a sign under the statement, as compilers show the place of an error.
//!
//! Each call says in its contract which text it adds, letter by letter: `specs/Quotes` is the form of a quote, `specs/Lines` the lines of a
//! text as its reader counts them. [`fault_message`] shows why a text means nothing: the line as it stands in the text, the meaning of
//! the cause, and what the first word of the line wants.
#![tactic(auto)]

mod diagnosis;
mod fault;
mod form;
mod hint;
mod hint_names;
mod hint_words;
mod look;
mod meant;
mod mistake;
mod near;
mod notes;
mod part;
mod scene;
mod shape;
mod source;
mod values;
mod words;

pub use fault::fault_message;
pub use look::{
    Look, Paint, push_count, push_gutter, push_left_sign, push_marked_line, push_note_sign,
    push_painted, push_place, push_quote, push_sign, push_sign_below, statement_of,
};
pub use meant::Meant;
pub use part::{Part, Span, span_of};
pub use source::Source;
