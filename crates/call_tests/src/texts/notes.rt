//! Notes of a trace.

use crate::checks::equal;
use std::process::Abort;
use std::test::Fail;
use trace_notes::{Notes, Place, split_place};

/// A place taken apart: location, function, code.
type Parts = (&'static str, Option<&'static str>, Option<&'static str>);

fn parts<'a>(place: Option<Place<'a>>) -> Option<(&'a str, Option<&'a str>, Option<&'a str>)> {
    match place {
        Some(place) => Some((place.location, place.function, place.code)),
        None => None,
    }
}

/// A text, and its place if it is one.
const PLACES: &[(&str, Option<Parts>)] = &[
    ("sort.c:18", Some(("sort.c:18", None, None))),
    ("sort.c:18:5", Some(("sort.c:18:5", None, None))),
    ("a.c:1, main", Some(("a.c:1", Some("main"), None))),
    (
        "a.c:1:2, f | x = 1;",
        Some(("a.c:1:2", Some("f"), Some("x = 1;"))),
    ),
    ("a.c:1 | x | y, z", Some(("a.c:1", None, Some("x | y, z")))),
    // Only a number before it ends the location, and only a bar with spaces ends the function.
    (
        "my, file | of: C.cc:12, N::operator|(int, long) | a, b",
        Some((
            "my, file | of: C.cc:12",
            Some("N::operator|(int, long)"),
            Some("a, b"),
        )),
    ),
    ("a:1, b:2, f", Some(("a:1", Some("b:2, f"), None))),
    ("C:\\x.c:3:4, f", Some(("C:\\x.c:3:4", Some("f"), None))),
    ("a:1, ", Some(("a:1", Some(""), None))),
    ("a:1 | ", Some(("a:1", None, Some("")))),
    ("::1", Some(("::1", None, None))),
    ("a::1", Some(("a::1", None, None))),
    (":1", None),
    ("a.c", None),
    ("a.c:", None),
    ("a.c:x, f", None),
    ("a.c:1x", None),
    ("a.c:1,f", None),
    ("a.c:1|f", None),
    ("a.c:1 ", None),
    ("a.c:1;", None),
    ("", None),
];

const FIRST: &[u8] = b"cilk 1\n# a trace\n#run sort 100\n#at 7 a.c:1, main | x = 1;\n\
    #at 7 b.c:2\nmem x # x\nmem c 4\n#of c[3] the fourth\n#of x a counter, \"x\"\r\n\
    write 0 x 1 @7 #at 8 c.c:3\n #at 9 d.c:4\n#atx 10 e.c:5\n#at  11 f.c:6\n#at 12\tg.c:7\n#at 0 h.c:8\n\
    #at 4294967296 i.c:9\n#at 4294967295 j.c:10\n#at 0013 k.c:11\n#at +14 l.c:12\n#at 15 l.c\n\
    #of c[*] an array\n#of c[3] another\n#of x\n#run\n#run \n";

const SECOND: &[u8] =
    b"#at 7 z.c:1\n#at 16 z.c:2\n#at 17 z\xc3\xbc.c:3\n#run the second\n#of y[*] all";

/// A mark, and its place if it has one.
type Mark = (u32, Option<Parts>);

const MARKS: &[Mark] = &[
    (7, Some(("a.c:1", Some("main"), Some("x = 1;")))),
    (8, None),
    (9, None),
    (10, None),
    (11, None),
    (12, None),
    (0, None),
    (4_294_967_295, Some(("j.c:10", None, None))),
    (13, Some(("k.c:11", None, None))),
    (14, None),
    (15, None),
    (16, Some(("z.c:2", None, None))),
    (17, None),
];

/// A cell, and its text if it has one.
type Cell = (&'static str, Option<&'static str>);

const CELLS: &[Cell] = &[
    ("c[3]", Some("the fourth")),
    ("c[0]", Some("an array")),
    ("x", Some("a counter, \"x\"")),
    ("y[12]", Some("all")),
    ("z", None),
    ("cc[3]", None),
    ("", None),
];

const RUNS: &[&str] = &["sort 100", "the second"];

#[test]
fn places_are_taken_apart(rt: HostRuntime) {
    for (text, wanted) in PLACES {
        equal(&rt, text, &parts(split_place(text)), wanted);
    }
}

fn check_places(rt: &impl Abort, notes: &Notes, marks: &[Mark]) {
    for (mark, wanted) in marks {
        equal(rt, mark, &parts(notes.place_of(*mark)), wanted);
    }
}

fn check_texts(rt: &impl Abort, notes: &Notes, cells: &[Cell]) {
    for (cell, wanted) in cells {
        equal(rt, cell, &notes.text_of(cell), wanted);
    }
}

/// The places of marks, the texts of cells, and the runs.
#[test]
fn the_first_note_counts(rt: HostRuntime) -> Result<(), Fail> {
    let mut notes = Notes::new(rt.alloc());
    notes.read(FIRST)?;
    notes.read(SECOND)?;
    check_places(&rt, &notes, MARKS);
    check_texts(&rt, &notes, CELLS);
    equal(&rt, &"runs", &notes.runs().len(), &RUNS.len());
    for (at, found) in notes.runs().iter().enumerate() {
        equal(&rt, &at, &Some(found.as_str()), &RUNS.get(at).copied());
    }
    Ok(())
}
