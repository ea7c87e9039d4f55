//! Races as a person reads them: which lines raced, how often and on what, and how the strands of the two accesses came about.
//!
//! A [`Digest`] is grown by the entries of a history, one by one, and keeps none of them. [`Digest::add`] carries the theorem in its
//! contract: what the digest keeps is of the entries each pair of lines that raced once, in the order of the first refusals, with the
//! first refused entry, its witness and how many refusals are of the pair, and no others; of the first ones also the cells or reducers on
//! which they raced. Two refusals are of one pair exactly where their lines are the same and their strands part at spawns on the same line.
//! [`group_races`] groups races by that line. [`Encounter`] is of such a pair the spawns and calls that enclose the two accesses, the spawn
//! at which their strands part, where the spawner goes on, and for a view-read race a spawn that is outstanding at one of them and not at the
//! other. Its contract says that a sync where the spawner goes on orders the two.
//!
//! Two strands are logically parallel exactly where they part at a spawn: its child reaches the one, its next the other, and neither
//! the other way round. A [`Lineage`] grows entry by entry, knows of each strand the spawn that made it, and finds that spawn by climbing
//! from both strands to what made them, by jumps and so in logarithmic time. [`Lineage::parting`] carries in its contract: over the dag of
//! the history it finds a spawn exactly where no path leads from one strand to the other, and the spawn is such a one.
#![tactic(auto)]

mod climbs;
mod digest;
mod encounter;
mod frames;
mod groups;
mod growth;
mod jumps;
mod kept;
mod known;
mod lineage;
mod onward;
mod openers;
mod partings;
mod race;
mod races;
mod refusal;
mod sighting;
mod standing;

pub use digest::Digest;
pub use encounter::{Encounter, Link, Way};
pub use groups::{Group, group_races};
pub use kept::Opener;
pub use lineage::{Lineage, OpenSpawn, Parting};
pub use race::{Pair, PairKey, Race};
pub use races::PAIRS;
pub use refusal::{Lines, Reason, Refusal, Side, refusal_of};
pub use sighting::line_in;
pub use standing::{Standing, count_strands, standing_of};
