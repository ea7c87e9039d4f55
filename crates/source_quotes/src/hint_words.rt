//! Notes about words of another shape than their places want, and about words that are missing or too much.

use crate::form::{Wanted, form_of, nearest_first};
use crate::hint_names::note_array;
use crate::meant::Meant;
use crate::mistake::WordMistake;
use crate::near::Nearest;
use crate::notes::Notes;
use crate::part::Part;
use crate::scene::Scene;
use crate::shape::element;

/// Notes the form of the lines with the same first word.
pub(crate) fn note_form(notes: &mut Notes, scene: &Scene<'_, '_>) {
    if let Some(form) = form_of(scene.meant, scene.word(0)) {
        notes.add_help_with("the form of this line is `", form.text, "`\n");
    }
}

/// Notes the range of a number in its place.
pub(crate) fn note_range(notes: &mut Notes, wanted: Option<Wanted>) {
    notes.add_help(match wanted {
        Some(Wanted::Length) => "write a length from 1 to 1000000",
        Some(Wanted::Strand) => "write the number of a strand, from 0 to 4294967295",
        Some(Wanted::Mark) => {
            "write the number of a line of the program, from `@1` to `@4294967295`, or no mark"
        }
        _ => "write a number from 0 to 18446744073709551615",
    });
}

/// Notes the first word that was meant, in this kind of text or else in the other, or those that there are.
fn note_first(notes: &mut Notes, meant: Meant, word: &str) {
    let (as_other, firsts) = match meant {
        Meant::Program => (
            "`, as in a trace?\n",
            "begin with `let`, `read`, `write`, `bump`, `update`, `put`, `get`, `spawn`, `call`, `sync`, `if`, `else`, `end` or `pfor`, or declare by `mem`, `reducer` or `func`",
        ),
        Meant::Trace => (
            "`, as in a program?\n",
            "begin with `spawn`, `call`, `sync`, `return`, `read`, `write`, `bump`, `update`, `put` or `get`, or declare by `mem` or `reducer`",
        ),
    };
    match (
        nearest_first(meant, word),
        nearest_first(meant.other(), word),
    ) {
        (Some(first), _) => notes.add_meant(first),
        (None, Some(first)) => notes.add_help_with("did you mean `", first, as_other),
        (None, None) => notes.add_help(firsts),
    }
}

/// Notes how what stands before a `=` is assigned.
fn note_assignment(notes: &mut Notes, scene: &Scene<'_, '_>) {
    let (target, value) = (scene.word(0), scene.word(2));
    notes.begin("help: assign a register by `let ");
    notes.add_three(target, " = ", value);
    notes.add_three("`, a cell by `write ", target, " ");
    notes.add_three(value, "`", "\n");
}

/// Notes the monoid that was meant, or those that there are.
fn note_monoid(notes: &mut Notes, word: &str) {
    let mut nearest = Nearest::to(word);
    for monoid in ["sum", "min", "max", "last", "digits"] {
        nearest.offer(monoid);
    }
    match nearest.nearest() {
        Some(other) => notes.add_meant(other),
        None => notes.add_help("take `sum`, `min`, `max`, `last`, or in version 2 `digits`"),
    }
}

/// Notes how a `let` of several operators is written: `let r = a + b + c` as two.
fn note_chain(notes: &mut Notes, scene: &Scene<'_, '_>) {
    match scene.words {
        [_, target, _, left, sign, right, next, last, ..] => {
            notes.begin("help: write a line for each: `");
            notes.add_let(target, left, sign, right);
            notes.add_words("`, then `");
            notes.add_let(target, target, next, last);
            notes.add_words("`\n");
        }
        _ => notes.add_help("write a line for each operator"),
    }
}

/// Notes what is done in place of what is too much.
fn note_extra(notes: &mut Notes, scene: &Scene<'_, '_>, word: &str) {
    match scene.words {
        ["if", left, sign, right, ..] => {
            notes.begin("help: assign the condition first: `");
            notes.add_let("t", left, sign, right);
            notes.add_words("`, then `if t`\n");
        }
        ["else", "if", ..] => {
            notes.add_help("put the `if` on a line of its own behind the `else`, and end both");
        }
        _ if word.starts_with('[') => notes.add_help("write a cell without spaces, as `a[0]`"),
        _ => note_form(notes, scene),
    }
}

/// Notes what a number with a minus sign is written as.
fn note_negative(notes: &mut Notes, scene: &Scene<'_, '_>, wanted: Option<Wanted>, word: &str) {
    match (scene.meant, wanted, word.strip_prefix('-')) {
        (Meant::Program, Some(Wanted::Operand), Some(digits)) => {
            notes.add_note("numbers are modulo 18446744073709551616");
            notes.add_help_with(
                "subtract it from 0: `let r = 0 - ",
                digits,
                "`, and use `r`\n",
            );
        }
        _ => {
            note_range(notes, wanted);
        }
    }
}

/// Notes how an array is declared that was declared as in C.
fn note_declaration(notes: &mut Notes, word: &str) {
    match word.split_once('[') {
        Some((name, behind)) => {
            let length = match behind.strip_suffix(']').unwrap_or(behind) {
                "" => "LENGTH",
                length => length,
            };
            notes.begin("help: write `mem ");
            notes.add_three(name, " ", length);
            notes.add_words("`\n");
        }
        None => notes.add_help("write `mem NAME LENGTH`"),
    }
}

/// Notes how a comparison is written that is none of the operators.
fn note_operator(notes: &mut Notes, scene: &Scene<'_, '_>) {
    match scene.words {
        ["let", target, _, left, ">", right] => {
            notes.begin("help: swap the two: `");
            notes.add_let(target, right, "<", left);
            notes.add_words("`\n");
        }
        _ => notes.add_help("take `+`, `-`, `*` or `<`"),
    }
}

/// Notes a statement or a request in a text of the other kind.
fn note_other_kind(notes: &mut Notes, scene: &Scene<'_, '_>) {
    if scene.word(0) == "return" {
        return notes.add_help("a function returns at its `end`");
    }
    let (kind, help) = match scene.meant {
        Meant::Program => (
            "the form of this line in a program is ",
            "judge a trace by `cilkcheck judge FILE`; a program has no requests, but functions",
        ),
        Meant::Trace => (
            "the form of this line in a trace is ",
            "run a program by `cilkcheck run FILE`; behind its declarations it begins with `func`",
        ),
    };
    if let Some(form) = form_of(scene.meant, scene.word(0)) {
        notes.begin(kind);
        notes.add_quoted(form.text, "\n");
    }
    notes.add_help(help);
}

/// Notes which cells the array has whose index is wrong.
pub(crate) fn note_element(notes: &mut Notes, scene: &Scene<'_, '_>, part: Part) {
    if let Part::Index(at) = part
        && let Some((name, _)) = element(scene.word(at))
    {
        note_array(notes, scene, name);
    }
}

/// Notes which numbers may stand in the place of a word that is none.
fn note_no_number(notes: &mut Notes, scene: &Scene<'_, '_>, part: Part) {
    match part {
        Part::Index(_) => note_element(notes, scene, part),
        _ => {
            note_range(notes, scene.wanted(part));
            note_form(notes, scene);
        }
    }
}

/// Notes what is known of a word of another shape than its place wants, or of words that are missing or too much.
pub(crate) fn note_word(
    notes: &mut Notes,
    scene: &Scene<'_, '_>,
    mistake: WordMistake,
    part: Part,
) {
    let word = scene.culprit(part);
    match mistake {
        WordMistake::Statement if scene.word(1) == "=" => note_assignment(notes, scene),
        WordMistake::Statement | WordMistake::Request => note_first(notes, scene.meant, word),
        WordMistake::OfTrace | WordMistake::OfProgram => note_other_kind(notes, scene),
        WordMistake::Extra => note_extra(notes, scene, word),
        WordMistake::Chain => note_chain(notes, scene),
        WordMistake::UpperCase => {
            notes.begin("help: write `");
            notes.add_lowercase(word);
            notes.add_words("`\n");
        }
        WordMistake::LongName => {
            notes.begin("help: shorten it from ");
            notes.add_number(word.len() as u64, " to 32 bytes\n");
        }
        WordMistake::Ok => {
            notes.add_note(
                "each access sets `ok`: to 1 where it is granted, to 0 where it is refused",
            );
        }
        WordMistake::Negative => note_negative(notes, scene, scene.wanted(part), word),
        WordMistake::Element => {
            notes.add_help_with(
                "read it into a register first: `read r ",
                word,
                "`, and use `r`\n",
            );
        }
        WordMistake::NoRegister if scene.word(0) == "if" => {
            notes.add_help_with(
                "assign a register first: `let t = ",
                word,
                "`, then `if t`\n",
            );
        }
        WordMistake::NoNumber => note_no_number(notes, scene, part),
        WordMistake::NoMonoid => note_monoid(notes, word),
        WordMistake::Operator => note_operator(notes, scene),
        WordMistake::Array => note_declaration(notes, word),
        WordMistake::Later
        | WordMistake::Slashes
        | WordMistake::Semicolon
        | WordMistake::Name
        | WordMistake::Spaces
        | WordMistake::Cell => {}
        _ => note_form(notes, scene),
    }
}
