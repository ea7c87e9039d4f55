//! The first words of lines.

ghost use Rattle.std.specs.Prelude.{◌≡◌, ◌↔◌, Some};
ghost use Rattle.program_lines.specs.declared.keyword.Keyword.{Keyword};
ghost use Rattle.program_lines.specs.Table.{spelling, HasKeyword};

use access_table::{Kind, kind_of};
use text_words::Version;

/// The first word of a line.
#[derive(Clone, Copy)]
pub enum Keyword {
    /// Declares a memory.
    Mem,
    /// Declares a reducer.
    Reducer,
    /// Begins a function.
    Func,
    /// Assigns a register.
    Let,
    /// Accesses a cell or a reducer.
    Access(Kind),
    /// Spawns a function.
    Spawn,
    /// Calls a function.
    Call,
    /// Waits for the functions that were spawned.
    Sync,
    /// Spawns a function for each number, and then waits.
    ParallelFor,
    /// Begins a part that a register decides.
    If,
    /// Begins the other part.
    Else,
    /// Ends a part or a function.
    End,
}

/// The keyword of the version that a word is.
pub fn keyword_of(version: Version, word: &str) -> Option<Keyword>
    ensures { (keyword : Keyword) → (result ≡ Some keyword) ↔ (HasKeyword version keyword × (word.now ≡ spelling keyword)) }
{
    match word {
        "mem" => Some(Keyword::Mem),
        "reducer" => Some(Keyword::Reducer),
        "func" => Some(Keyword::Func),
        "let" => Some(Keyword::Let),
        "spawn" => Some(Keyword::Spawn),
        "call" => Some(Keyword::Call),
        "sync" => Some(Keyword::Sync),
        "pfor" if version == Version::Two => Some(Keyword::ParallelFor),
        "if" => Some(Keyword::If),
        "else" => Some(Keyword::Else),
        "end" => Some(Keyword::End),
        _ => match kind_of(word) {
            Some(Kind::Bump) if version == Version::One => None,
            Some(kind) => Some(Keyword::Access(kind)),
            None => None,
        },
    }
}
