//! What may help where a text means nothing: what is declared, the name or keyword that was meant, and what to do. No contract says which
//! help is told.

use crate::diagnosis::Diagnosis;
use crate::form::begins_behind;
use crate::hint_names::{nearest_name, note_unknown};
use crate::hint_words::{note_element, note_form, note_range, note_word};
use crate::look::Look;
use crate::meant::Meant;
use crate::mistake::{HeaderMistake, Mistake, NestingMistake, NumberMistake};
use crate::near::Nearest;
use crate::notes::Notes;
use crate::part::Part;
use crate::scene::{Scene, declared_at, first_words, open_at};
use std::alloc::{AllocError, Global};

/// Notes the header that was meant.
fn note_header(notes: &mut Notes, first: &str) {
    let mut nearest = Nearest::to(first);
    nearest.offer("cilk");
    notes.add_help(match nearest.nearest() {
        Some(_) => "did you mean `cilk`?",
        None => "put the line `cilk 1` before this one",
    });
}

/// Notes what is known of a number that is none, or is out of range.
fn note_number(notes: &mut Notes, scene: &Scene<'_, '_>, mistake: NumberMistake, part: Part) {
    match mistake {
        NumberMistake::Other => note_form(notes, scene),
        NumberMistake::Digits => {}
        NumberMistake::Range | NumberMistake::Mark => note_range(notes, scene.wanted(part)),
        NumberMistake::Index => note_element(notes, scene, part),
    }
}

/// Notes the line with the first function or request.
fn note_first(notes: &mut Notes, scene: &Scene<'_, '_>) {
    for (place, line) in scene.before().iter().enumerate() {
        if begins_behind(scene.meant, first_words(line).0) {
            notes.begin(match scene.meant {
                Meant::Program => "the first function begins at line ",
                Meant::Trace => "the first request stands at line ",
            });
            return notes.end_with_line(place);
        }
    }
}

/// Notes what is begun or open where a line may not stand where it does.
fn note_nesting(notes: &mut Notes, scene: &Scene<'_, '_>, mistake: NestingMistake) {
    match (mistake, open_at(scene.before())) {
        (NestingMistake::Declaration | NestingMistake::TraceDeclaration, _) => {
            note_first(notes, scene);
        }
        (_, Some((place, first))) => {
            notes.add_place("the ", first, " that is open here begins at line ", place);
        }
        (_, None) => notes.add_note("no function is open here"),
    }
}

/// Notes a function that may have been meant to be `main`.
fn note_main(notes: &mut Notes, scene: &Scene<'_, '_>) {
    match nearest_name(scene, "func", "main") {
        Some(name) => notes.add_help_with("write `main` in place of `", name, "`\n"),
        None => notes.add_help("add the function with which the program begins: `func main z`"),
    }
}

/// Notes where a name was declared before.
fn note_twice(notes: &mut Notes, scene: &Scene<'_, '_>) {
    let name = scene.word(1);
    if let Some((place, _)) = declared_at(scene.before(), name) {
        notes.add_place("", name, " is declared at line ", place);
    }
}

/// What may help, a note a line.
pub(crate) fn hint(
    alloc: Global,
    look: Look,
    scene: &Scene<'_, '_>,
    found: Diagnosis,
) -> Result<Vec<u8>, AllocError> {
    let mut notes = Notes::new(alloc, look);
    match found.mistake {
        Mistake::Header(HeaderMistake::Other) => note_header(&mut notes, scene.word(0)),
        Mistake::Word(mistake) => note_word(&mut notes, scene, mistake, found.part),
        Mistake::Number(mistake) => note_number(&mut notes, scene, mistake, found.part),
        Mistake::Unknown(mistake) => note_unknown(&mut notes, scene, mistake, found.part),
        Mistake::Twice => note_twice(&mut notes, scene),
        Mistake::Nesting(mistake) => note_nesting(&mut notes, scene, mistake),
        Mistake::NoMain => note_main(&mut notes, scene),
        Mistake::Byte(_) | Mistake::Header(_) | Mistake::Limit(_) => {}
    }
    let help = found.mistake.help();
    if !help.is_empty() {
        notes.add_help(help);
    }
    notes.end()
}
