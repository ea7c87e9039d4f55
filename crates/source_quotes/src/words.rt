//! Lines whose words have another shape than their places want, or are too few or too many.

use crate::form::{Form, begins_behind, form_of};
use crate::meant::Meant;
use crate::mistake::WordMistake;
use crate::part::Part;
use crate::scene::Scene;
use crate::shape::{bad_shape, is_operator, of_c};
use text_words::Version;

/// The first word that has another shape than its place wants.
fn first_bad_shape(form: Form, words: &[&str], version: Version) -> Option<(WordMistake, Part)> {
    for (at, word) in words.iter().enumerate() {
        if let Some(wanted) = form.place(at)
            && let Some(found) = bad_shape(wanted, word, at, version)
        {
            return Some(found);
        }
    }
    None
}

/// What is too much from the word with this number on.
fn extra(meant: Meant, first: &str, word: &str, at: usize) -> (WordMistake, Part) {
    let mistake = match first {
        "let" if is_operator(word) => WordMistake::Chain,
        "func" => WordMistake::Argument,
        "spawn" | "call" if matches!(meant, Meant::Program) => WordMistake::Argument,
        _ => WordMistake::Extra,
    };
    (mistake, Part::Onward(at))
}

/// What is wrong with a first word that begins no line.
fn bad_first(meant: Meant, first: &str) -> WordMistake {
    if let Some(mistake) = of_c(first) {
        return mistake;
    }
    if begins_behind(meant.other(), first) {
        return of_other(meant);
    }
    match meant {
        Meant::Program => WordMistake::Statement,
        Meant::Trace => WordMistake::Request,
    }
}

/// What the words are in the other kind of text.
fn of_other(meant: Meant) -> WordMistake {
    match meant {
        Meant::Program => WordMistake::OfTrace,
        Meant::Trace => WordMistake::OfProgram,
    }
}

/// What is wrong with words behind the first one, which has this form.
fn bad_behind(scene: &Scene<'_, '_>, form: Form, version: Version) -> (WordMistake, Part) {
    let count = scene.words.len();
    if let Some(other) = form_of(scene.meant.other(), scene.word(0))
        && other.takes(count)
        && first_bad_shape(other, scene.words, version).is_none()
    {
        return (of_other(scene.meant), Part::Statement);
    }
    if let Some(found) = first_bad_shape(form, scene.words, version) {
        return found;
    }
    if form.takes(count) {
        return (WordMistake::Other, Part::Statement);
    }
    let most = form.most();
    if count < most {
        return (WordMistake::Missing, Part::Statement);
    }
    extra(scene.meant, scene.word(0), scene.word(most), most)
}

/// What is wrong with the words of a line that has a word of another shape than its place wants, or too few or too many.
pub(crate) fn bad_words(scene: &Scene<'_, '_>) -> (WordMistake, Part) {
    let first = scene.word(0);
    let version = scene.version();
    match form_of(scene.meant, first) {
        None => (bad_first(scene.meant, first), Part::Word(0)),
        Some(_) if matches!((version, first), (Version::One, "bump" | "pfor")) => {
            (WordMistake::Later, Part::Word(0))
        }
        Some(form) => bad_behind(scene, form, version),
    }
}
