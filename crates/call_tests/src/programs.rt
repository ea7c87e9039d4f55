//! Tests of runs of programs: their steps, replays and reports.

#[cfg(test)]
mod frames;
#[cfg(test)]
mod gathered;
#[cfg(test)]
mod locks;
#[cfg(test)]
mod meeting;
#[cfg(test)]
mod replays;
#[cfg(test)]
mod reports;
#[cfg(test)]
mod steps;
#[cfg(test)]
mod workers;
