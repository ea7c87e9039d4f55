//! Tests of the table of accesses and of the texts of traces and programs.

/// A line with this number that a strand's act stands on, for this line of the program, which it names or not.
#[cfg(test)]
macro_rules! line {
    ($at:expr, $strand:expr, $act:expr, $program_line:expr, $marked:literal) => {
        TraceLine {
            request: Request {
                strand: $strand,
                line: $program_line,
                act: $act,
            },
            at: $at,
            marked: $marked,
        }
    };
}

#[cfg(test)]
mod checks;
#[cfg(test)]
mod kept;
#[cfg(test)]
mod kinds;
#[cfg(test)]
mod lines;
#[cfg(test)]
mod many;
#[cfg(test)]
mod notes;
#[cfg(test)]
mod pieces;
#[cfg(test)]
mod printing;
#[cfg(test)]
mod programs;
#[cfg(test)]
mod registers;
#[cfg(test)]
mod traces;
