//! Registers by their numbers.

ghost use Rattle.std.specs.Prelude.{◌<◌};

use program_lines::Register;

/// The register with that number.
pub fn at(index: u8) -> Register
    requires { index < 17 }
{
    Register { index }
}
