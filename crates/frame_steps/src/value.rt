//! Values of operands, expressions and locations.

ghost use Rattle.std.specs.Prelude.{◌≡◌, IsTrue};
ghost use Rattle.model_accesses.specs.Limits.{most_cells};
ghost use Rattle.model_bodies.specs.Sound.{is_located};
ghost use Rattle.model_programs.specs.Values.{value_of, result_of, cell_of};

use program_text::{Expression, Location, Operand, REGISTERS};

/// The value of an operand.
pub fn value_of(registers: &[u64; REGISTERS], operand: Operand) -> u64
    ensures { result ≡ value_of operand registers.now }
{
    match operand {
        Operand::Number(number) => number,
        Operand::Held(register) => registers[usize::from(register.index)],
    }
}

/// The value of an expression.
pub fn result_of(registers: &[u64; REGISTERS], expression: Expression) -> u64
    ensures { result ≡ result_of expression registers.now }
{
    match expression {
        Expression::Plain(a) => value_of(registers, a),
        Expression::Sum(a, b) => value_of(registers, a).wrapping_add(value_of(registers, b)),
        Expression::Difference(a, b) => value_of(registers, a).wrapping_sub(value_of(registers, b)),
        Expression::Product(a, b) => value_of(registers, a).wrapping_mul(value_of(registers, b)),
        Expression::Less(a, b) => u64::from(value_of(registers, a) < value_of(registers, b)),
    }
}

/// The number of the cell that a location means, whose index is taken modulo the array's length.
pub fn cell_of(registers: &[u64; REGISTERS], location: Location) -> u32
    requires { IsTrue (is_located most_cells location) }
    ensures { result ≡ cell_of location registers.now }
{
    match location {
        Location::Cell(cell) => cell,
        Location::Element {
            first,
            length,
            index,
        } => { first + (value_of(registers, index) % u64::from(length)) as u32 }
    }
}
