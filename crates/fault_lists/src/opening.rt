//! What a line is, by the first name on it.

ghost use Rattle.std.specs.Prelude.{◌≡◌};
ghost use Rattle.std.specs.Str.{bytes_eq};
ghost use Rattle.fault_lists.specs.LineNames.{is_declaring, is_beginning, is_assigning, is_getting, is_changing, is_moving};
ghost use Rattle.fault_lists.specs.LineNames.{opening_of, opening_of_part, opening_of_request};

/// What a line is that begins with a keyword, or with what is none.
#[derive(Clone, Copy)]
pub enum Opening {
    /// `mem`, `reducer`.
    Declares,
    /// `func`, `if`.
    Begins,
    /// `end`.
    Ends,
    /// `else`.
    Turns,
    /// `let`, `pfor`.
    Assigns,
    /// `read`, `get`, which assign a register in a program.
    Gets,
    /// What assigns and declares nothing.
    Acts,
    /// No keyword.
    Other,
}

/// Whether a name is this word.
fn is_word(name: &[u8], word: &str) -> bool
    ensures { result ≡ bytes_eq name.now word.now }
{
    name == word.as_bytes()
}

fn is_declaring(name: &[u8]) -> bool
    ensures { result ≡ is_declaring name.now }
{
    is_word(name, "mem") || is_word(name, "reducer")
}

fn is_beginning(name: &[u8]) -> bool
    ensures { result ≡ is_beginning name.now }
{
    is_word(name, "func") || is_word(name, "if")
}

fn is_assigning(name: &[u8]) -> bool
    ensures { result ≡ is_assigning name.now }
{
    is_word(name, "let") || is_word(name, "pfor")
}

fn is_getting(name: &[u8]) -> bool
    ensures { result ≡ is_getting name.now }
{
    is_word(name, "read") || is_word(name, "get")
}

fn is_changing(name: &[u8]) -> bool
    ensures { result ≡ is_changing name.now }
{
    is_word(name, "write")
        || is_word(name, "bump")
        || is_word(name, "update")
        || is_word(name, "put")
}

fn is_moving(name: &[u8]) -> bool
    ensures { result ≡ is_moving name.now }
{
    is_word(name, "spawn")
        || is_word(name, "call")
        || is_word(name, "sync")
        || is_word(name, "return")
}

fn opening_of_part(name: &[u8]) -> Opening
    ensures { result ≡ opening_of_part name.now }
{
    if is_beginning(name) {
        Opening::Begins
    } else if is_word(name, "end") {
        Opening::Ends
    } else if is_word(name, "else") {
        Opening::Turns
    } else {
        Opening::Other
    }
}

fn opening_of_request(name: &[u8]) -> Opening
    ensures { result ≡ opening_of_request name.now }
{
    if is_getting(name) {
        Opening::Gets
    } else if is_changing(name) {
        Opening::Acts
    } else if is_moving(name) {
        Opening::Acts
    } else {
        opening_of_part(name)
    }
}

/// What a line is that begins with this name.
pub(crate) fn opening_of(name: &[u8]) -> Opening
    ensures { result ≡ opening_of name.now }
{
    if is_declaring(name) {
        Opening::Declares
    } else if is_assigning(name) {
        Opening::Assigns
    } else {
        opening_of_request(name)
    }
}
