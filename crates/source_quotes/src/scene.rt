//! What the lines around a faulty one say.

use crate::form::{Wanted, form_of};
use crate::meant::Meant;
use crate::part::Part;
use std::alloc::{AllocError, Global};
use text_words::{Version, Words, as_text};

/// The first three words of a line; where there are fewer, nothing in their place.
pub(crate) fn first_words<'a>(line: &'a [u8]) -> (&'a str, &'a str, &'a str) {
    let Some(text) = as_text(line) else {
        return ("", "", "");
    };
    let mut words = Words::of_line(text);
    let first = words.take().unwrap_or("");
    let second = words.take().unwrap_or("");
    (first, second, words.take().unwrap_or(""))
}

/// The words of a line, and none where it has a byte that no line may hold.
pub(crate) fn words_of<'a>(alloc: Global, line: &'a [u8]) -> Result<Vec<&'a str>, AllocError> {
    let mut words = Words::of_line(as_text(line).unwrap_or(""));
    let mut taken = Vec::new(alloc);
    while let Some(word) = words.take() {
        taken.push(word)?;
    }
    Ok(taken)
}

/// The register that a line of a function names, if it does.
pub(crate) fn register_of<'a>(line: &'a [u8]) -> Option<&'a str> {
    let (first, second, third) = first_words(line);
    match first {
        "func" => Some(third),
        "let" | "read" | "get" | "pfor" => Some(second),
        _ => None,
    }
}

/// The place of the first line that names a register.
pub(crate) fn named_at(lines: &[&[u8]], name: &str) -> Option<usize> {
    for (place, line) in lines.iter().enumerate() {
        if register_of(line) == Some(name) {
            return Some(place);
        }
    }
    None
}

/// The place and the first word of the innermost `func` or `if` on these lines that has no `end` yet.
pub(crate) fn open_at<'a>(lines: &[&'a [u8]]) -> Option<(usize, &'a str)> {
    let mut place = lines.len();
    let mut ends = 0_usize;
    while place > 0 {
        place -= 1;
        let first = first_words(lines[place]).0;
        match first {
            "func" | "if" if ends == 0 => return Some((place, first)),
            "func" | "if" => ends -= 1,
            "end" => ends += 1,
            _ => {}
        }
    }
    None
}

/// What a name is declared as.
#[derive(Clone, Copy)]
pub(crate) enum Kind<'a> {
    /// A single cell.
    Cell,
    /// An array, whose length is this word.
    Array(&'a str),
    /// A reducer.
    Reducer,
    /// A function.
    Function,
}

/// What a line with this first word and this third one declares.
fn kind_of<'a>(first: &str, third: &'a str) -> Option<Kind<'a>> {
    match first {
        "mem" if third.is_empty() => Some(Kind::Cell),
        "mem" => Some(Kind::Array(third)),
        "reducer" => Some(Kind::Reducer),
        "func" => Some(Kind::Function),
        _ => None,
    }
}

/// The place of the line that declares a name, and what it declares it as.
pub(crate) fn declared_at<'a>(lines: &[&'a [u8]], name: &str) -> Option<(usize, Kind<'a>)> {
    for (place, line) in lines.iter().enumerate() {
        let (first, second, third) = first_words(line);
        if second == name
            && let Some(kind) = kind_of(first, third)
        {
            return Some((place, kind));
        }
    }
    None
}

/// A faulty line and the text around it.
#[derive(Clone, Copy)]
pub(crate) struct Scene<'s, 'a> {
    /// The lines of the text.
    pub(crate) lines: &'s [&'a [u8]],
    /// The number of the faulty one.
    pub(crate) number: u32,
    /// The faulty line, which is empty where none has the number.
    pub(crate) line: &'a [u8],
    /// What the text is to mean.
    pub(crate) meant: Meant,
    /// The words of the line.
    pub(crate) words: &'s [&'a str],
}

impl<'s, 'a> Scene<'s, 'a> {
    /// The word with this number, and an empty one behind the last.
    pub(crate) fn word(&self, number: usize) -> &'a str {
        self.words.get(number).copied().unwrap_or("")
    }

    /// What the place of a part of the line wants, where the part is a word.
    pub(crate) fn wanted(&self, part: Part) -> Option<Wanted> {
        match (form_of(self.meant, self.word(0)), part) {
            (Some(form), Part::Word(at)) => form.place(at),
            _ => None,
        }
    }

    /// The word that a part of the line is, or begins with.
    pub(crate) fn culprit(&self, part: Part) -> &'a str {
        match part {
            Part::Word(at) | Part::Onward(at) => self.word(at),
            Part::Index(at) => {
                let word = self.word(at);
                match word.split_once('[') {
                    Some((_, behind)) => behind.strip_suffix(']').unwrap_or(behind),
                    None => word,
                }
            }
            Part::Statement | Part::Byte(_) => "",
        }
    }

    /// The lines before the faulty one.
    pub(crate) fn before(&self) -> &'s [&'a [u8]] {
        let count = (self.number as usize).saturating_sub(1);
        &self.lines[..count.min(self.lines.len())]
    }

    /// The lines of the function that the faulty line stands in, from its `func` up to the line before.
    pub(crate) fn function(&self) -> &'s [&'a [u8]] {
        let before = self.before();
        let begin = before
            .iter()
            .rposition(|line| first_words(line).0 == "func");
        &before[begin.unwrap_or(before.len())..]
    }

    /// The version of the text.
    pub(crate) fn version(&self) -> Version {
        match self.lines {
            [first, ..] if first_words(first).1 == "2" => Version::Two,
            _ => Version::One,
        }
    }

    /// Whether a line above names the register.
    pub(crate) fn is_register(&self, name: &str) -> bool {
        name == "ok" || named_at(self.function(), name).is_some()
    }

    /// Whether some line of the text begins a function of this name.
    pub(crate) fn is_function(&self, name: &str) -> bool {
        for line in self.lines {
            let (first, second, _) = first_words(line);
            if first == "func" && second == name {
                return true;
            }
        }
        false
    }

    /// What a line above declares the name as.
    pub(crate) fn kind(&self, name: &str) -> Option<Kind<'a>> {
        let (_, kind) = declared_at(self.before(), name)?;
        Some(kind)
    }
}
