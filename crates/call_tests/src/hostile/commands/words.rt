//! Which words of a command line give which job.

use command_words::read_words;
use std::alloc::Global;
use std::process::Abort;
use std::test::Fail;

/// Whether the words of this line, between spaces, ask for the job that is printed so.
fn ask(alloc: Global, line: &str, wanted: &str) -> Result<bool, Fail> {
    let words: Vec<&str> = line.split_whitespace().collect(alloc)?;
    let job = read_words(alloc, words.as_slice())?;
    let told = format!(in alloc; "{job:?}")?;
    Ok(told.as_str() == wanted)
}

/// So do those of each line.
fn check_jobs(rt: &impl Abort, alloc: Global, lines: &[(&str, &str)]) -> Result<(), Fail> {
    for (line, job) in lines {
        assert!(rt; ask(alloc, line, job)?, "{line}");
    }
    Ok(())
}

/// Words that ask for a verdict, an elision or a run, and the job.
const JUDGED: &[(&str, &str)] = &[
    ("judge", "Judge { file: None, limit: 1000000 }"),
    ("judge --limit 3", "Judge { file: None, limit: 3 }"),
    ("judge --limit=0", "Judge { file: None, limit: 0 }"),
    (
        "judge --limit 1000000",
        "Judge { file: None, limit: 1000000 }",
    ),
    ("judge f", "Judge { file: Some(\"f\"), limit: 1000000 }"),
    ("judge f --limit 3", "Judge { file: Some(\"f\"), limit: 3 }"),
    ("judge --limit=0 f", "Judge { file: Some(\"f\"), limit: 0 }"),
    ("elide f", "Elide { file: \"f\", limit: 1000000 }"),
    ("elide f --limit 713", "Elide { file: \"f\", limit: 713 }"),
    ("elide --limit=0 f", "Elide { file: \"f\", limit: 0 }"),
    ("run f", "Run { file: \"f\", workers: 2, limit: 1000000 }"),
    (
        "run f --workers 1",
        "Run { file: \"f\", workers: 1, limit: 1000000 }",
    ),
    (
        "run --workers=64 f --limit 5",
        "Run { file: \"f\", workers: 64, limit: 5 }",
    ),
    (
        "run f --trace g",
        "Record { file: \"f\", workers: 2, limit: 1000000, trace: \"g\" }",
    ),
    (
        "run --trace=g f --workers 8 --limit 5",
        "Record { file: \"f\", workers: 8, limit: 5, trace: \"g\" }",
    ),
    // The name of a file has any length.
    (
        "run a_name_that_is_longer_than_the_names_of_a_text_may_be_and_than_64_bytes_as_well.cilk",
        "Run { file: \"a_name_that_is_longer_than_the_names_of_a_text_may_be_and_than_64_bytes_as_well.cilk\", workers: 2, limit: 1000000 }",
    ),
    (
        "run f --trace a_name_that_is_longer_than_the_names_of_a_text_may_be_and_than_64_bytes_as_well.trace",
        "Record { file: \"f\", workers: 2, limit: 1000000, trace: \"a_name_that_is_longer_than_the_names_of_a_text_may_be_and_than_64_bytes_as_well.trace\" }",
    ),
];

/// Words that ask for an explanation.
const EXPLAINED: &[(&str, &str)] = &[
    (
        "explain f",
        "Explain { file: \"f\", workers: 2, is_serial: false, limit: 1000000, color: Auto, format: Text, is_all: false }",
    ),
    (
        "explain f --color always --workers 8",
        "Explain { file: \"f\", workers: 8, is_serial: false, limit: 1000000, color: Always, format: Text, is_all: false }",
    ),
    (
        "explain --color=never f --limit 5",
        "Explain { file: \"f\", workers: 2, is_serial: false, limit: 5, color: Never, format: Text, is_all: false }",
    ),
    (
        "explain - --workers 8",
        "ExplainInput { workers: 8, is_serial: false, limit: 1000000, color: Auto, format: Text, is_all: false }",
    ),
    (
        "explain f g h --color never",
        "ExplainTraces { files: [\"f\", \"g\", \"h\"], color: Never, format: Text, is_all: false }",
    ),
    (
        "explain --color always f g",
        "ExplainTraces { files: [\"f\", \"g\"], color: Always, format: Text, is_all: false }",
    ),
    (
        "explain --serial f",
        "Explain { file: \"f\", workers: 2, is_serial: true, limit: 1000000, color: Auto, format: Text, is_all: false }",
    ),
    (
        "explain --format json f",
        "Explain { file: \"f\", workers: 2, is_serial: false, limit: 1000000, color: Auto, format: Json, is_all: false }",
    ),
    (
        "explain - --format=json",
        "ExplainInput { workers: 2, is_serial: false, limit: 1000000, color: Auto, format: Json, is_all: false }",
    ),
    (
        "explain f --format sarif",
        "Explain { file: \"f\", workers: 2, is_serial: false, limit: 1000000, color: Auto, format: Sarif, is_all: false }",
    ),
    (
        "explain f g --format json",
        "ExplainTraces { files: [\"f\", \"g\"], color: Auto, format: Json, is_all: false }",
    ),
    (
        "explain f --format text",
        "Explain { file: \"f\", workers: 2, is_serial: false, limit: 1000000, color: Auto, format: Text, is_all: false }",
    ),
    (
        "explain f --all",
        "Explain { file: \"f\", workers: 2, is_serial: false, limit: 1000000, color: Auto, format: Text, is_all: true }",
    ),
    (
        "explain --all - --serial",
        "ExplainInput { workers: 2, is_serial: true, limit: 1000000, color: Auto, format: Text, is_all: true }",
    ),
    (
        "explain f g --all",
        "ExplainTraces { files: [\"f\", \"g\"], color: Auto, format: Text, is_all: true }",
    ),
];

/// Words that ask for a replay or a drawing, and names.
const NAMED: &[(&str, &str)] = &[
    ("replay f g", "Replay { file: \"f\", trace: \"g\" }"),
    ("draw g", "Draw { file: \"g\", language: Dot }"),
    ("draw g --svg", "Draw { file: \"g\", language: Svg }"),
    ("draw --svg g", "Draw { file: \"g\", language: Svg }"),
    // The name of standard input.
    ("judge -", "Judge { file: Some(\"-\"), limit: 1000000 }"),
    ("elide - --limit 4", "Elide { file: \"-\", limit: 4 }"),
    (
        "run - --workers 3",
        "Run { file: \"-\", workers: 3, limit: 1000000 }",
    ),
    ("replay - g", "Replay { file: \"-\", trace: \"g\" }"),
    ("replay f -", "Replay { file: \"f\", trace: \"-\" }"),
    ("draw -", "Draw { file: \"-\", language: Dot }"),
    // That of standard output.
    (
        "run f --trace -",
        "Trace { file: \"f\", workers: 2, limit: 1000000 }",
    ),
    (
        "run --trace - f --workers 8",
        "Trace { file: \"f\", workers: 8, limit: 1000000 }",
    ),
    (
        "run - --trace=- --limit 5",
        "Trace { file: \"-\", workers: 2, limit: 5 }",
    ),
    (
        "run f --trace ./-",
        "Record { file: \"f\", workers: 2, limit: 1000000, trace: \"./-\" }",
    ),
];

#[test]
fn words_that_ask_for_verdicts_elisions_and_runs(rt: HostRuntime) -> Result<(), Fail> {
    check_jobs(&rt, rt.alloc(), JUDGED)
}

#[test]
fn words_that_ask_for_explanations(rt: HostRuntime) -> Result<(), Fail> {
    check_jobs(&rt, rt.alloc(), EXPLAINED)
}

#[test]
fn words_that_ask_for_replays_and_drawings_and_names(rt: HostRuntime) -> Result<(), Fail> {
    check_jobs(&rt, rt.alloc(), NAMED)
}
