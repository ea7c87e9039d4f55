//! The rules of a log.

ghost use Rattle.std.specs.Prelude.{◌≡◌, IfOk};
ghost use Rattle.std.specs.List.{find};
ghost use Rattle.serde_json.specs.View.{view};
ghost use Rattle.sarif_logs.specs.Rules.{texts, level, number, level_told, rule_told, rules_told, rule_named, is_named};
ghost use Rattle.sarif_logs.specs.RuleViews.{text_parts};

use crate::list::ValueList;
use crate::object::Object;
use crate::place::text_value;
use serde_json::Value;
use std::alloc::{AllocError, Global};

/// A rule that a result may name.
#[derive(Clone, Copy)]
pub(crate) enum Rule {
    /// Two accesses of a cell may run in either order.
    DeterminacyRace,
    /// Two reads of a reducer have different peers.
    ViewReadRace,
    /// A reducer is read before it is put.
    UnsetGet,
    /// A text means no program and no trace.
    TextFault,
    /// A request of a trace is illegal.
    IllegalRequest,
    /// A register bears a declared name.
    DeclaredRegister,
    /// A function is never reached.
    UnreachedFunction,
    /// A reducer is read and never put.
    UnputReducer,
    /// An index wraps at the length of its array.
    WrappedIndex,
}

/// All rules, in the order of the log.
const RULES: &[Rule] = &[
    Rule::DeterminacyRace,
    Rule::ViewReadRace,
    Rule::UnsetGet,
    Rule::TextFault,
    Rule::IllegalRequest,
    Rule::DeclaredRegister,
    Rule::UnreachedFunction,
    Rule::UnputReducer,
    Rule::WrappedIndex,
];

/// What the log says of a rule.
#[derive(Clone, Copy)]
pub(crate) struct Texts {
    /// The name by which results, and the records of races and warnings, call the rule.
    pub(crate) id: &'static str,
    /// The name that people read.
    name: &'static str,
    /// What is wrong, in a few words.
    summary: &'static str,
    /// What is wrong, in full.
    description: &'static str,
    /// What to do.
    help: &'static str,
}

impl Rule {
    /// What the log says of it.
    pub(crate) fn texts(self) -> Texts
        ensures { text_parts result ≡ texts self }
    {
        match self {
            Rule::DeterminacyRace => Texts {
                id: "determinacy-race",
                name: "DeterminacyRace",
                summary: "Two accesses of one cell may run in either order.",
                description: "Two strands that may run at the same time access one cell, and the order of the two accesses matters. So two runs of the program may differ.",
                help: "Order the two by a sync, give each strand a cell of its own, or use a reducer.",
            },
            Rule::ViewReadRace => Texts {
                id: "view-read-race",
                name: "ViewReadRace",
                summary: "A reducer is read with other peers than before.",
                description: "Two reads of one reducer are of strands with different peers: other strands may run at the same time as one than as the other. What a read finds may depend on the schedule.",
                help: "Move the read behind the sync that waits for the spawn.",
            },
            Rule::UnsetGet => Texts {
                id: "unset-get",
                name: "UnsetGet",
                summary: "A reducer is read before it is put.",
                description: "A get of a reducer comes before any granted put or get of it.",
                help: "Put a value into the reducer first, in the serial order.",
            },
            Rule::TextFault => Texts {
                id: "text-fault",
                name: "TextFault",
                summary: "The text means no program and no trace.",
                description: "A line of the text breaks the rules of programs or of traces. So nothing was run or judged.",
                help: "Write the line as the message says.",
            },
            Rule::IllegalRequest => Texts {
                id: "illegal-request",
                name: "IllegalRequest",
                summary: "A request of the trace is illegal.",
                description: "No history allows the request at its place. So the requests behind it were not judged.",
                help: "Record the trace again, or mend the request.",
            },
            Rule::DeclaredRegister => Texts {
                id: "declared-register",
                name: "DeclaredRegister",
                summary: "A register bears the name of a memory or a reducer.",
                description: "A register is another thing than the memory or reducer of the same name: assigning it writes no cell.",
                help: "Access the memory or reducer by a request, or give the register another name.",
            },
            Rule::UnreachedFunction => Texts {
                id: "unreached-function",
                name: "UnreachedFunction",
                summary: "A function is never reached.",
                description: "No spawn or call leads from main to the function.",
                help: "Spawn the function, call it, or leave it out.",
            },
            Rule::UnputReducer => Texts {
                id: "unput-reducer",
                name: "UnputReducer",
                summary: "A reducer is read and never put.",
                description: "No function that main reaches puts the reducer, so each get of it is refused as unset.",
                help: "Put a value into the reducer first.",
            },
            Rule::WrappedIndex => Texts {
                id: "wrapped-index",
                name: "WrappedIndex",
                summary: "An index wraps at the length of its array.",
                description: "The index is not below the length of the array, and means its remainder by the length.",
                help: "Write an index below the length.",
            },
        }
    }

    /// How bad it is.
    pub(crate) fn level(self) -> &'static str
        ensures { result.now ≡ level self }
    {
        match self {
            Rule::DeterminacyRace
            | Rule::ViewReadRace
            | Rule::UnsetGet
            | Rule::TextFault
            | Rule::IllegalRequest => "error",
            Rule::DeclaredRegister
            | Rule::UnreachedFunction
            | Rule::UnputReducer
            | Rule::WrappedIndex => "warning",
        }
    }

    /// Its place among all rules, from 0 on.
    pub(crate) fn number(self) -> usize
        ensures { result ≡ number self }
    {
        match self {
            Rule::DeterminacyRace => 0,
            Rule::ViewReadRace => 1,
            Rule::UnsetGet => 2,
            Rule::TextFault => 3,
            Rule::IllegalRequest => 4,
            Rule::DeclaredRegister => 5,
            Rule::UnreachedFunction => 6,
            Rule::UnputReducer => 7,
            Rule::WrappedIndex => 8,
        }
    }

    /// The rule with this id; that of a race, where there is none.
    pub(crate) fn named(id: &str) -> Rule
        ensures { result ≡ rule_named id.now }
    {
        first_named(RULES, id).unwrap_or(Rule::DeterminacyRace)
    }
}

/// Whether a rule has this id.
fn is_named(rule: Rule, id: &str) -> bool
    ensures { result ≡ is_named id.now rule }
{
    id == rule.texts().id
}

/// The first of these rules that has this id.
fn first_named(rules: &[Rule], id: &str) -> Option<Rule>
    ensures { result ≡ find (is_named id.now) rules.now }
{
    for rule in rules {
        if is_named(*rule, id) {
            return Some(*rule);
        }
    }
    None
}

/// How bad it is that a rule is broken.
fn level_value(alloc: Global, rule: Rule) -> Result<Value, AllocError>
    ensures { IfOk result (λ value. view value ≡ level_told rule) }
{
    Object::new(alloc).with_text("level", rule.level()).finish()
}

/// A rule as the log describes it.
fn rule_value(alloc: Global, rule: Rule) -> Result<Value, AllocError>
    ensures { IfOk result (λ value. view value ≡ rule_told rule) }
{
    let texts = rule.texts();
    Object::new(alloc)
        .with_made("defaultConfiguration", level_value(alloc, rule))
        .with_made("fullDescription", text_value(alloc, texts.description))
        .with_made("help", text_value(alloc, texts.help))
        .with_text("id", texts.id)
        .with_text("name", texts.name)
        .with_made("shortDescription", text_value(alloc, texts.summary))
        .finish()
}

/// All rules as the log describes them.
pub(crate) fn rules_value(alloc: Global) -> Result<Value, AllocError>
    ensures { IfOk result (λ value. view value ≡ rules_told) }
{
    let mut list = ValueList::new(alloc);
    for rule in RULES {
        list.push(rule_value(alloc, *rule));
    }
    list.finish()
}
