//! Notes about names.

use crate::meant::Meant;
use crate::mistake::UnknownMistake;
use crate::near::Nearest;
use crate::notes::Notes;
use crate::part::Part;
use crate::scene::{Kind, Scene, declared_at, first_words, named_at, register_of};
use crate::shape::element;

/// Notes what a name is declared as, and where.
pub(crate) fn note_declared(notes: &mut Notes, scene: &Scene<'_, '_>, name: &str) {
    let Some((place, kind)) = declared_at(scene.lines, name) else {
        return;
    };
    let declared = match kind {
        Kind::Cell => " is one cell, declared at line ",
        Kind::Array(_) => " is an array, declared at line ",
        Kind::Reducer => " is a reducer, declared at line ",
        Kind::Function => " is a function, declared at line ",
    };
    notes.add_place("", name, declared, place);
}

/// Notes what an array is, and which of its cells can be named.
pub(crate) fn note_array(notes: &mut Notes, scene: &Scene<'_, '_>, name: &str) {
    note_declared(notes, scene, name);
    if let Some(Kind::Array(length)) = scene.kind(name)
        && let Ok(length) = length.parse::<u64>()
    {
        notes.begin("help: name one of its cells, from ");
        notes.add_element(name, 0, " to ");
        notes.add_element(name, length.saturating_sub(1), "\n");
    }
}

/// The name that comes nearest to a word, where one is near, among those that lines with this keyword declare.
pub(crate) fn nearest_name<'a>(
    scene: &Scene<'_, 'a>,
    keyword: &str,
    word: &str,
) -> Option<&'a str> {
    let mut nearest = Nearest::to(word);
    for line in scene.lines {
        let (first, second, _) = first_words(line);
        if first == keyword {
            nearest.offer(second);
        }
    }
    nearest.nearest()
}

/// The register of the function so far that comes nearest to a word, where one is near.
fn nearest_register<'a>(scene: &Scene<'_, 'a>, word: &str) -> Option<&'a str> {
    let mut nearest = Nearest::to(word);
    for line in scene.function() {
        if let Some(name) = register_of(line) {
            nearest.offer(name);
        }
    }
    nearest.offer("ok");
    nearest.nearest()
}

/// What to do where no name is near that lines with this keyword declare.
fn declaring_help(keyword: &str, meant: Meant) -> &'static str {
    match (keyword, meant) {
        ("mem", Meant::Program) => "declare it before the first function, by `mem NAME`",
        ("mem", Meant::Trace) => "declare it before the first request, by `mem NAME`",
        ("reducer", Meant::Program) => {
            "declare it before the first function, by `reducer NAME MONOID`"
        }
        ("reducer", Meant::Trace) => {
            "declare it before the first request, by `reducer NAME MONOID`"
        }
        _ => "add it: `func NAME PARAMETER`, statements, and `end`",
    }
}

/// Notes the name that was meant of those that lines with this keyword declare, or how one is declared.
fn note_name(notes: &mut Notes, scene: &Scene<'_, '_>, keyword: &str, name: &str) {
    note_declared(notes, scene, name);
    match nearest_name(scene, keyword, name) {
        Some(other) if other != name => notes.add_meant(other),
        _ => notes.add_help(declaring_help(keyword, scene.meant)),
    }
}

/// Notes the register that was meant, or how one is assigned.
fn note_register(notes: &mut Notes, scene: &Scene<'_, '_>, name: &str) {
    note_declared(notes, scene, name);
    match nearest_register(scene, name) {
        Some(other) if other != name => notes.add_meant(other),
        _ => notes.add_help_with("assign it on a line above, as by `let ", name, " = 0`\n"),
    }
}

/// Notes how the value of a cell or a reducer comes into a register.
fn note_read(notes: &mut Notes, scene: &Scene<'_, '_>, keyword: &str, name: &str) {
    note_declared(notes, scene, name);
    notes.begin("help: ");
    notes.add_three(keyword, " it into a register first: `", keyword);
    notes.add_three(
        " r ",
        name,
        match scene.kind(name) {
            Some(Kind::Array(_)) => "[0]`, and use `r`\n",
            _ => "`, and use `r`\n",
        },
    );
}

/// Whether a `read` of a program has its cell where its register is wanted.
fn is_turned(scene: &Scene<'_, '_>) -> bool {
    matches!(scene.meant, Meant::Program)
        && scene.word(0) == "read"
        && matches!(scene.kind(scene.word(1)), Some(Kind::Cell))
}

/// Notes how a `read` is written whose two words are turned.
fn note_turned(notes: &mut Notes, scene: &Scene<'_, '_>) {
    notes.begin("help: the register comes first: `read ");
    notes.add_three(scene.word(2), " ", scene.word(1));
    notes.add_words("`\n");
}

/// Notes the register that stands where a cell is wanted.
fn note_instead(notes: &mut Notes, scene: &Scene<'_, '_>, name: &str) {
    let function = scene.function();
    let begin = scene.before().len().saturating_sub(function.len());
    if let Some(place) = named_at(function, name) {
        let place = begin.saturating_add(place);
        notes.add_place("", name, " is a register, named first at line ", place);
    }
    if is_turned(scene) {
        note_turned(notes, scene);
    } else {
        notes.add_help("assign a register by `let`, and name a cell here");
    }
}

/// Notes what to do where a single cell has an index.
fn note_no_array(notes: &mut Notes, scene: &Scene<'_, '_>, name: &str) {
    note_declared(notes, scene, name);
    notes.add_help_with(
        "write `",
        name,
        "`, or declare an array, by `mem NAME LENGTH`\n",
    );
}

/// Notes what is known of a name that is not declared as what its place wants.
pub(crate) fn note_unknown(
    notes: &mut Notes,
    scene: &Scene<'_, '_>,
    mistake: UnknownMistake,
    part: Part,
) {
    let word = scene.culprit(part);
    let name = match element(word) {
        Some((name, _)) => name,
        None => word,
    };
    match mistake {
        UnknownMistake::Other => {}
        UnknownMistake::Register => note_register(notes, scene, name),
        UnknownMistake::Cell if is_turned(scene) => note_turned(notes, scene),
        UnknownMistake::Cell => note_name(notes, scene, "mem", name),
        UnknownMistake::Reducer => note_name(notes, scene, "reducer", name),
        UnknownMistake::Function => note_name(notes, scene, "func", name),
        UnknownMistake::CellRead => note_read(notes, scene, "read", name),
        UnknownMistake::ReducerRead => note_read(notes, scene, "get", name),
        UnknownMistake::NoIndex => note_array(notes, scene, name),
        UnknownMistake::NoArray => note_no_array(notes, scene, name),
        UnknownMistake::ReducerForCell | UnknownMistake::CellForReducer => {
            note_declared(notes, scene, name);
        }
        UnknownMistake::RegisterForCell => note_instead(notes, scene, name),
    }
}
