//! Single steps of functions: what statements compute, ask and make of an answer.

use super::gathered::REFUSED;
use frame_steps::{Activation, act_of, apply_answer, cell_of, line_of, result_of};
use program_text::{Expression, Location, Operand, REGISTERS, Statement};
use race_gate::Answer;
use std::process::Abort;
use text_words::Act;

// The greatest number that a register holds.
const MOST: u64 = 18446744073709551615;

/// An expression of two numbers.
macro_rules! of_two {
    ($form:ident, $first:expr, $second:expr) => {
        Expression::$form(Operand::Number($first), Operand::Number($second))
    };
}

// Arithmetic is modulo 2^64.
const RESULTS: [(Expression, u64); 6] = [
    (Expression::Plain(Operand::Number(MOST)), MOST),
    (of_two!(Sum, MOST, 2), 1),
    (of_two!(Difference, 2, MOST), 3),
    (of_two!(Product, MOST, 2), 18446744073709551614),
    (of_two!(Less, 2, MOST), 1),
    (of_two!(Less, 2, 2), 0),
];

/// The element of an array of four cells, the first of which is cell 5.
macro_rules! element {
    ($index:literal) => {
        Location::Element {
            first: 5,
            length: 4,
            index: Operand::Number($index),
        }
    };
}

// An index is modulo the length.
const CELLS: [(Location, u32); 3] = [(Location::Cell(3), 3), (element!(3), 8), (element!(6), 7)];

#[test]
fn arithmetic_is_modulo_two_to_the_64_and_an_index_modulo_the_length(rt: HostRuntime) {
    for (expression, wanted) in &RESULTS {
        assert!(rt;
            result_of(&[0; REGISTERS], *expression) == *wanted,
            "{wanted}"
        );
    }
    for (location, wanted) in &CELLS {
        assert!(rt; cell_of(&[0; REGISTERS], *location) == *wanted, "{wanted}");
    }
}

const WRITE: Statement = Statement::Write {
    line: 4,
    location: Location::Cell(2),
    value: Operand::Number(9),
};

/// A statement, an answer, whether it is one to the statement, and what `ok` is then.
type Answered = (Statement, Answer, bool, u64);

const ANSWERED: [Answered; 4] = [
    (WRITE, Answer::Granted, true, 1),
    (WRITE, Answer::Value(1), false, 1),
    (Statement::Sync { line: 5 }, Answer::Waits, true, 1),
    (WRITE, REFUSED, true, 0),
];

/// Checks that registers, the second of which is 7, take the answers one after another.
fn check_answers(rt: &impl Abort, registers: &mut [u64; REGISTERS], answers: &[Answered]) {
    for (statement, answer, is_one, ok) in answers {
        assert!(rt;
            apply_answer(registers, *statement, answer) == *is_one,
            "{statement:?}"
        );
        assert!(rt; registers[0] == *ok && registers[1] == 7, "{statement:?}");
    }
}

/// A function begins with an argument of 7, and takes the answers one after another.
#[test]
fn a_function_begins_with_ok_and_a_refused_write_clears_it(rt: HostRuntime) {
    let begun = Activation::begin(3, 7);
    assert!(rt; begun.function == 3 && begun.place == 0 && begun.join == None);
    assert!(rt; begun.registers[0] == 1 && begun.registers[1] == 7 && begun.registers[2] == 0);
    assert!(rt; act_of(&begun.registers, WRITE) == Some(Act::Write(2, 9)) && line_of(WRITE) == 4);
    check_answers(&rt, &mut Activation::begin(0, 7).registers, &ANSWERED);
}
