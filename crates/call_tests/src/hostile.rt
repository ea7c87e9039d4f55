//! Hostile use and the commands, a module for each way, and the gates and devices that they put in place of others: growths that are
//! refused, one after another, gates that stop, want memory or answer another request, and what a command says of these, histories and
//! receipts that are not those of a run, texts that break off, limits, readers and writers that fail, jobs over hosts in memory, and doors.
//!
//! What the program prints for a text that it can read stands in the files of tests/, which .ci/sessions compares.

#[cfg(test)]
mod commands;
#[cfg(test)]
mod devices;
#[cfg(test)]
mod faults;
#[cfg(test)]
mod gates;
#[cfg(test)]
mod growths;
#[cfg(test)]
mod histories;
#[cfg(test)]
mod limits;
#[cfg(test)]
mod locked_growths;
#[cfg(test)]
mod pranks;
#[cfg(test)]
mod receipts;
#[cfg(test)]
mod rounds;
#[cfg(test)]
mod run_growths;
#[cfg(test)]
mod schedules;
#[cfg(test)]
mod texts;
#[cfg(test)]
mod worked;
