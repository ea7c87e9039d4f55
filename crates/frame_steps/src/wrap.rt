//! Indexes that wrap at the length of their array.

ghost use Rattle.std.specs.Prelude.{◌≡◌};
ghost use Rattle.frame_steps.specs.Wraps.{wrapped_index, wrap_of};

use crate::value::value_of;
use program_text::{Location, REGISTERS, Statement};

/// The index of an element, where it is not below the length of the array.
pub fn wrapped_index(registers: &[u64; REGISTERS], location: Location) -> Option<u64>
    ensures { result ≡ wrapped_index location registers.now }
{
    match location {
        Location::Cell(_) => None,
        Location::Element { length, index, .. } => {
            let index = value_of(registers, index);
            if index < u64::from(length) {
                None
            } else {
                Some(index)
            }
        }
    }
}

/// The index of the element that a statement reads or writes, where it is not below the length of the array.
pub fn wrap_of(registers: &[u64; REGISTERS], statement: Statement) -> Option<u64>
    ensures { result ≡ wrap_of statement registers.now }
{
    match statement {
        Statement::Read { location, .. }
        | Statement::Write { location, .. }
        | Statement::Bump { location, .. } => wrapped_index(registers, location),
        _ => None,
    }
}
