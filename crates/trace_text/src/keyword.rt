//! The first words of lines.

ghost use Rattle.std.specs.Prelude.{◌≡◌, ◌↔◌, Some};
ghost use Rattle.trace_text.specs.declared.keyword.Keyword.{Keyword};
ghost use Rattle.trace_text.specs.Lines.{spelling, asks, HasKeyword};

use access_table::{Kind, asked_by, kind_of, word};
use text_words::{Act, Version};

/// The first word of a line.
#[derive(Clone, Copy)]
pub enum Keyword {
    /// Declares a memory.
    Mem,
    /// Declares a reducer.
    Reducer,
    /// Asks for a spawn.
    Spawn,
    /// Asks for a call.
    Call,
    /// Asks for a sync.
    Sync,
    /// Asks for a return.
    Return,
    /// Asks for an access.
    Access(Kind),
}

/// The keyword of the version that a word is.
pub fn keyword_of(version: Version, word: &str) -> Option<Keyword>
    ensures { (keyword : Keyword) → (result ≡ Some keyword) ↔ (HasKeyword version keyword × (word.now ≡ spelling keyword)) }
{
    match word {
        "mem" => Some(Keyword::Mem),
        "reducer" => Some(Keyword::Reducer),
        "spawn" => Some(Keyword::Spawn),
        "call" => Some(Keyword::Call),
        "sync" => Some(Keyword::Sync),
        "return" => Some(Keyword::Return),
        _ => match kind_of(word) {
            Some(Kind::Bump) if version == Version::One => None,
            Some(kind) => Some(Keyword::Access(kind)),
            None => None,
        },
    }
}

/// The word of a keyword.
#[inline(always)]
pub fn keyword_word(keyword: Keyword) -> &'static str
    ensures { result.now ≡ spelling keyword }
{
    match keyword {
        Keyword::Mem => "mem",
        Keyword::Reducer => "reducer",
        Keyword::Spawn => "spawn",
        Keyword::Call => "call",
        Keyword::Sync => "sync",
        Keyword::Return => "return",
        Keyword::Access(kind) => word(kind),
    }
}

/// The keyword of an act.
#[inline(always)]
pub fn keyword_for(act: Act) -> Keyword
    ensures { result ≡ asks act }
{
    if let Some(asked) = asked_by(act) {
        return Keyword::Access(asked.kind);
    }
    match act {
        Act::Spawn => Keyword::Spawn,
        Act::Sync => Keyword::Sync,
        Act::Call => Keyword::Call,
        _ => Keyword::Return,
    }
}
