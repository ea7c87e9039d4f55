//! The table of conflicts, pair by pair, and the words of kinds and rules.

use crate::checks::equal;
use access_table::{Kind, N, Rule, conflicting, is_memory, kind_of, laws, rule, rule_word, word};
use std::process::Abort;

/// Two kinds, their rule, and its word.
type Pair = (Kind, Kind, Rule, Option<&'static str>);

const RULES: &[Pair] = &[
    (Kind::Write, Kind::Write, Rule::Race, Some("write-write")),
    (Kind::Read, Kind::Write, Rule::Race, Some("read-write")),
    (Kind::Write, Kind::Read, Rule::Race, Some("write-read")),
    (Kind::Write, Kind::Bump, Rule::Race, Some("write-bump")),
    (Kind::Read, Kind::Bump, Rule::Race, Some("read-bump")),
    (Kind::Bump, Kind::Write, Rule::Race, Some("bump-write")),
    (Kind::Bump, Kind::Read, Rule::Race, Some("bump-read")),
    (Kind::Put, Kind::Put, Rule::View, Some("view-read")),
    (Kind::Put, Kind::Get, Rule::View, Some("view-read")),
    (Kind::Get, Kind::Put, Rule::View, Some("view-read")),
    (Kind::Get, Kind::Get, Rule::View, Some("view-read")),
    (Kind::Read, Kind::Read, Rule::Free, None),
    (Kind::Bump, Kind::Bump, Rule::Free, None),
    (Kind::Update, Kind::Get, Rule::Free, None),
    (Kind::Write, Kind::Get, Rule::Free, None),
];

/// Each kind, its word, whether it accesses memory, and the kinds that it conflicts with, in this order.
type Row = (Kind, &'static str, bool, [bool; 6]);

const KINDS: &[Row] = &[
    (
        Kind::Write,
        "write",
        true,
        [true, true, true, false, false, false],
    ),
    (
        Kind::Bump,
        "bump",
        true,
        [true, false, true, false, false, false],
    ),
    (
        Kind::Read,
        "read",
        true,
        [true, true, false, false, false, false],
    ),
    (
        Kind::Update,
        "update",
        false,
        [false, false, false, false, false, false],
    ),
    (
        Kind::Put,
        "put",
        false,
        [false, false, false, false, true, true],
    ),
    (
        Kind::Get,
        "get",
        false,
        [false, false, false, false, true, true],
    ),
];

/// None of these is the word of a kind.
const NO_KINDS: &[&str] = &["", "writ", "writer", "Write", "view-read"];

/// Each pair of kinds has the rule and the word beside it.
#[test]
fn rules(rt: HostRuntime) {
    for (old, new, wanted, text) in RULES {
        let found = (rule(*old, *new), rule_word(*old, *new));
        equal(&rt, &(*old, *new), &found, &(*wanted, *text));
    }
    laws::table_law();
}

fn check_kinds(rt: &impl Abort, rows: &[Row]) {
    for (kind, text, memory, conflicts) in rows {
        let kind = *kind;
        let told = (
            word(kind),
            kind_of(text),
            is_memory(kind),
            conflicting(kind),
        );
        let of_update = (rule(Kind::Update, kind), rule(kind, Kind::Update));
        let wanted = (*text, Some(kind), *memory, *conflicts);
        let free = (Rule::Free, Rule::Free);
        equal(rt, text, &(told, of_update), &(wanted, free));
    }
}

/// Each kind has its word and the word is its own, it conflicts with these, and updates conflict with none.
#[test]
fn kinds(rt: HostRuntime) {
    equal(&rt, &"kinds", &N, &6);
    check_kinds(&rt, KINDS);
    for text in NO_KINDS {
        equal(&rt, text, &kind_of(text), &None);
    }
}
