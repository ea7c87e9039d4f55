//! Names.

ghost use Rattle.std.specs.Prelude.{◌≡◌, ◌≤◌, ◌↔◌, IsTrue, length};
ghost use Rattle.text_words.specs.Text.{IsName, is_name_byte as name_byte};

use arrayvec::ArrayString;
use std::marker::Model;

/// The most bytes that a name has.
pub const NAME_LEN: usize = 32;

/// A name, which contracts see as the list of its bytes. It lies in the value itself, so that a declaration takes no memory of its own.
#[derive(Debug, Drop)]
pub struct Name {
    text: ArrayString<32>,
}

impl Model for Name {
    ghost use Rattle.std.specs.Prelude.{ℕ, List};

    ghost Value = { List ℕ };

    ghost view = { λ name. name.text.bytes };
}

impl Name {
    /// The name with these bytes.
    pub fn new(text: &str) -> Name
        requires { length text.now ≤ 32 }
        ensures { result ≡ text.now }
    {
        let mut name = ArrayString::new();
        name.push_str(text);
        Name { text: name }
    }

    /// The name as text.
    pub fn as_str(&self) -> &str
        ensures { result.now ≡ self.now }
    {
        self.text.as_str()
    }
}

fn is_name_byte(byte: u8) -> bool
    ensures { result ≡ name_byte byte }
{
    byte.is_ascii_lowercase() || byte.is_ascii_digit() || byte == b'_'
}

/// Whether a word is a name.
pub fn is_name(word: &str) -> bool
    ensures { IsTrue result ↔ IsName word.now }
{
    match word.as_bytes() {
        [first, rest @ ..] => {
            first.is_ascii_lowercase()
                && rest.len() < NAME_LEN
                && rest.iter().all(|b| is_name_byte(*b))
        }
        [] => false,
    }
}
