//! Tests of what is told and drawn of a run for a person: chains of spawns, pairs of lines, quotes, explanations and drawings.

#[cfg(test)]
mod asked;
#[cfg(test)]
mod chains;
#[cfg(test)]
mod drawings;
#[cfg(test)]
mod explanations;
#[cfg(test)]
mod faults;
#[cfg(test)]
mod pairs;
#[cfg(test)]
mod quotes;
#[cfg(test)]
mod texts;
