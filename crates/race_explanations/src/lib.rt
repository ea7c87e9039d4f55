//! The races of a run explained for a person: what raced, both lines quoted from the program's text with the spawns and calls that led
//! there, the spawn where the two part, and what would order them.
//!
//! [`explanation`] tells the entries of a run. Its contract says that its text tells each pair of lines that raced once, in the order
//! of their first refusals, with what a witness of the refusal is and the spawn where its strand and the refused one part, as the crate
//! `race_pairs` defines these; that pairs which part at spawns on one line are told together; and the text is a function of these values,
//! letter by letter, in `specs/`.
//! Where [`is_group_sure`] or [`are_sure`] answers true, each pair of a group has an entry on the line that is told where a sync orders it.
//! [`illegal_explanation`] tells why a request of a trace is illegal, by a reason that [`find_illegality`] finds in the history before it.
#![tactic(auto)]

mod advice;
mod case;
mod explanations;
mod extent;
mod finding;
mod findings;
mod found_groups;
mod found_told;
mod group;
mod illegal;
pub mod laws;
mod lead;
mod merge;
mod message;
mod paths;
mod pieces;
mod scene;
mod settings;
mod title;
mod words;

pub use advice::line_on;
pub use case::{Case, cases_of};
pub use explanations::{explanation, trace_explanation};
pub use extent::{Extent, most_pairs};
pub use finding::{Finding, finding_of};
pub use findings::Findings;
pub use found_groups::{are_sure, group_findings};
pub use group::is_group_sure;
pub use illegal::{
    Illegality, at_of, find_illegality, help_words, illegal_explanation, request_line, strand_of,
    title_words,
};
pub use merge::FindingList;
pub use message::help_of;
pub use scene::{Origin, Scene};
pub use settings::{program_scene, trace_scene};
pub use title::display_names;
pub use words::{function_in, line_of, side_word, way_word};
