//! Signs between operands.

ghost use Rattle.std.specs.Prelude.{◌≡◌, ◌↔◌, Some};
ghost use Rattle.program_lines.specs.declared.operator.Operator.{Operator};
ghost use Rattle.program_lines.specs.Places.{sign_spelling};

/// A sign between two operands.
#[derive(Clone, Copy)]
pub enum Operator {
    /// `+`.
    Plus,
    /// `-`.
    Minus,
    /// `*`.
    Times,
    /// `<`.
    Below,
}

/// The sign that a word is.
pub fn operator_of(word: &str) -> Option<Operator>
    ensures { (operator : Operator) → (result ≡ Some operator) ↔ (word.now ≡ sign_spelling operator) }
{
    match word {
        "+" => Some(Operator::Plus),
        "-" => Some(Operator::Minus),
        "*" => Some(Operator::Times),
        "<" => Some(Operator::Below),
        _ => None,
    }
}
