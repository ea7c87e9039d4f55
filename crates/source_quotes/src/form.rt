//! The forms of lines: the first words of lines, and what each wants behind it.

use crate::meant::Meant;
use crate::near::Nearest;

/// What a place of a line wants.
#[derive(Clone, Copy)]
pub(crate) enum Wanted {
    /// The name of what is declared.
    Fresh,
    /// The length of an array.
    Length,
    /// A monoid.
    Monoid,
    /// The name of a parameter.
    Parameter,
    /// The register that is assigned.
    Assigned,
    /// The sign `=`.
    Equals,
    /// A number or a register.
    Operand,
    /// An operator.
    Sign,
    /// A cell, with an operand as index.
    Cell,
    /// A reducer.
    Reducer,
    /// A function.
    Function,
    /// The register that decides.
    Decider,
    /// A strand.
    Strand,
    /// A number.
    Value,
    /// A cell, with a number as index.
    TraceCell,
    /// A line of a program.
    Mark,
}

/// The lines with one first word.
#[derive(Clone, Copy)]
pub(crate) struct Form {
    /// The first word.
    pub(crate) first: &'static str,
    /// What has to stand behind it.
    pub(crate) wanted: &'static [Wanted],
    /// What may stand at the end.
    pub(crate) optional: &'static [Wanted],
    /// The form, for a person.
    pub(crate) text: &'static str,
}

impl Form {
    /// What the word with this number wants to be, where the first word has the number 0.
    pub(crate) fn place(self, number: usize) -> Option<Wanted> {
        let at = number.checked_sub(1)?;
        match at.checked_sub(self.wanted.len()) {
            None => self.wanted.get(at).copied(),
            Some(behind) => self.optional.get(behind).copied(),
        }
    }

    /// How many words a line has at most, its first word too.
    pub(crate) fn most(self) -> usize {
        self.wanted
            .len()
            .saturating_add(self.optional.len())
            .saturating_add(1)
    }

    /// Whether a line may have so many words: all or none of what may stand at the end.
    pub(crate) fn takes(self, count: usize) -> bool {
        count == self.most() || count == self.wanted.len().saturating_add(1)
    }
}

/// Declarations, which programs and traces have alike.
const DECLARATIONS: &[Form] = &[
    Form {
        first: "mem",
        wanted: &[Wanted::Fresh],
        optional: &[Wanted::Length],
        text: "mem NAME, or mem NAME LENGTH for an array",
    },
    Form {
        first: "reducer",
        wanted: &[Wanted::Fresh, Wanted::Monoid],
        optional: &[],
        text: "reducer NAME MONOID",
    },
];

/// The other lines of a program.
const STATEMENTS: &[Form] = &[
    Form {
        first: "func",
        wanted: &[Wanted::Fresh, Wanted::Parameter],
        optional: &[],
        text: "func NAME PARAMETER",
    },
    Form {
        first: "let",
        wanted: &[Wanted::Assigned, Wanted::Equals, Wanted::Operand],
        optional: &[Wanted::Sign, Wanted::Operand],
        text: "let r = VALUE, or let r = VALUE + VALUE, also with -, * and <",
    },
    Form {
        first: "read",
        wanted: &[Wanted::Assigned, Wanted::Cell],
        optional: &[],
        text: "read r CELL",
    },
    Form {
        first: "write",
        wanted: &[Wanted::Cell, Wanted::Operand],
        optional: &[],
        text: "write CELL VALUE",
    },
    Form {
        first: "bump",
        wanted: &[Wanted::Cell, Wanted::Operand],
        optional: &[],
        text: "bump CELL VALUE",
    },
    Form {
        first: "update",
        wanted: &[Wanted::Reducer, Wanted::Operand],
        optional: &[],
        text: "update REDUCER VALUE",
    },
    Form {
        first: "put",
        wanted: &[Wanted::Reducer, Wanted::Operand],
        optional: &[],
        text: "put REDUCER VALUE",
    },
    Form {
        first: "get",
        wanted: &[Wanted::Assigned, Wanted::Reducer],
        optional: &[],
        text: "get r REDUCER",
    },
    Form {
        first: "spawn",
        wanted: &[Wanted::Function, Wanted::Operand],
        optional: &[],
        text: "spawn FUNCTION VALUE",
    },
    Form {
        first: "call",
        wanted: &[Wanted::Function, Wanted::Operand],
        optional: &[],
        text: "call FUNCTION VALUE",
    },
    Form {
        first: "sync",
        wanted: &[],
        optional: &[],
        text: "sync",
    },
    Form {
        first: "if",
        wanted: &[Wanted::Decider],
        optional: &[],
        text: "if r",
    },
    Form {
        first: "else",
        wanted: &[],
        optional: &[],
        text: "else",
    },
    Form {
        first: "end",
        wanted: &[],
        optional: &[],
        text: "end",
    },
    Form {
        first: "pfor",
        wanted: &[Wanted::Assigned, Wanted::Operand, Wanted::Function],
        optional: &[],
        text: "pfor r COUNT FUNCTION",
    },
];

/// The other lines of a trace.
const REQUESTS: &[Form] = &[
    Form {
        first: "spawn",
        wanted: &[Wanted::Strand],
        optional: &[Wanted::Mark],
        text: "spawn STRAND",
    },
    Form {
        first: "sync",
        wanted: &[Wanted::Strand],
        optional: &[Wanted::Mark],
        text: "sync STRAND",
    },
    Form {
        first: "call",
        wanted: &[Wanted::Strand],
        optional: &[Wanted::Mark],
        text: "call STRAND",
    },
    Form {
        first: "return",
        wanted: &[Wanted::Strand],
        optional: &[Wanted::Mark],
        text: "return STRAND",
    },
    Form {
        first: "read",
        wanted: &[Wanted::Strand, Wanted::TraceCell],
        optional: &[Wanted::Mark],
        text: "read STRAND CELL",
    },
    Form {
        first: "write",
        wanted: &[Wanted::Strand, Wanted::TraceCell, Wanted::Value],
        optional: &[Wanted::Mark],
        text: "write STRAND CELL VALUE",
    },
    Form {
        first: "bump",
        wanted: &[Wanted::Strand, Wanted::TraceCell, Wanted::Value],
        optional: &[Wanted::Mark],
        text: "bump STRAND CELL VALUE",
    },
    Form {
        first: "update",
        wanted: &[Wanted::Strand, Wanted::Reducer, Wanted::Value],
        optional: &[Wanted::Mark],
        text: "update STRAND REDUCER VALUE",
    },
    Form {
        first: "put",
        wanted: &[Wanted::Strand, Wanted::Reducer, Wanted::Value],
        optional: &[Wanted::Mark],
        text: "put STRAND REDUCER VALUE",
    },
    Form {
        first: "get",
        wanted: &[Wanted::Strand, Wanted::Reducer],
        optional: &[Wanted::Mark],
        text: "get STRAND REDUCER",
    },
];

/// The forms of the lines behind the declarations.
fn forms_behind(meant: Meant) -> &'static [Form] {
    match meant {
        Meant::Program => STATEMENTS,
        Meant::Trace => REQUESTS,
    }
}

/// The form, among these, of the lines that begin with a word.
fn form_among(forms: &'static [Form], word: &str) -> Option<Form> {
    for form in forms {
        if form.first == word {
            return Some(*form);
        }
    }
    None
}

/// The form of the lines that begin with a word.
pub(crate) fn form_of(meant: Meant, word: &str) -> Option<Form> {
    match form_among(DECLARATIONS, word) {
        Some(form) => Some(form),
        None => form_among(forms_behind(meant), word),
    }
}

/// Whether a word begins a line behind the declarations.
pub(crate) fn begins_behind(meant: Meant, word: &str) -> bool {
    form_among(forms_behind(meant), word).is_some()
}

/// The first word that comes nearest to a word, where one is near.
pub(crate) fn nearest_first(meant: Meant, word: &str) -> Option<&'static str> {
    let mut nearest = Nearest::to(word);
    for form in DECLARATIONS {
        nearest.offer(form.first);
    }
    for form in forms_behind(meant) {
        nearest.offer(form.first);
    }
    nearest.nearest()
}
