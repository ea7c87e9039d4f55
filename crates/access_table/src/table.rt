//! The table of kinds, as code: which rule two kinds come under, and the words of kinds and rules.

ghost use Rattle.std.specs.Prelude.{◌≡◌, ◌↔◌, option_map, map};
ghost use Rattle.model_accesses.specs.declared.kind.Kind.{Kind};
ghost use Rattle.model_accesses.specs.Table.{kinds, HasRule, rule_between, is_conflict, spelling, rule_spelling, is_memory_kind};

use model_accesses::{Kind, Rule};

/// Hands the table to the macro `$callback`, behind the arguments in brackets: a row in braces for each kind, in
/// order, with its word, its sort (`memory` or `reducer`), and in brackets each earlier kind with which it
/// conflicts, that kind's word, and the rule of the two.
///
/// A callback may stand inside a method. Names in the table are looked up where it is expanded, so the crate
/// there imports `Kind` and `Rule` as far as the callback writes them. For example, whether there is an access
/// of a kind that conflicts with a new one:
///
/// ```
/// pub fn conflicts(&self, new: Kind) -> bool {
///     macro_rules! any {
///         ([] $({ $kind:ident $word:literal $sort:ident $([$earlier:ident $earlier_word:literal $rule:ident])* })*) => {
///             match new {
///                 $(Kind::$kind => $(self.has(Kind::$earlier) ||)* false,)*
///             }
///         };
///     }
///     access_table!(any [])
/// }
/// ```
#[macro_export]
macro_rules! access_table {
    ($callback:ident $arguments:tt) => {
        $callback! { $arguments
            { Write "write" memory [Write "write" Race] [Bump "bump" Race] [Read "read" Race] }
            { Bump "bump" memory [Write "write" Race] [Read "read" Race] }
            { Read "read" memory [Write "write" Race] [Bump "bump" Race] }
            { Update "update" reducer }
            { Put "put" reducer [Put "put" View] [Get "get" View] }
            { Get "get" reducer [Put "put" View] [Get "get" View] }
        }
    };
}

macro_rules! count {
    ([] $($row:tt)*) => { 0 $(+ count!($row))* };
    ($row:tt) => { 1 };
}

macro_rules! rules {
    ([$old:ident $new:ident] $({ $kind:ident $word:literal $sort:ident $([$earlier:ident $earlier_word:literal $rule:ident])* })*) => {
        match ($old, $new) {
            $($((Kind::$earlier, Kind::$kind) => Rule::$rule,)*)*
            _ => Rule::Free,
        }
    };
}

macro_rules! words {
    ([$kind_asked:ident] $({ $kind:ident $word:literal $($rest:tt)* })*) => {
        match $kind_asked {
            $(Kind::$kind => $word,)*
        }
    };
}

macro_rules! kinds {
    ([$word_asked:ident] $({ $kind:ident $word:literal $($rest:tt)* })*) => {
        match $word_asked {
            $($word => Some(Kind::$kind),)*
            _ => None,
        }
    };
}

macro_rules! sorts {
    ([$kind_asked:ident] $({ $kind:ident $word:literal $sort:ident $($rest:tt)* })*) => {
        match $kind_asked {
            $(Kind::$kind => sorts!($sort),)*
        }
    };
    (memory) => { true };
    (reducer) => { false };
}

macro_rules! rule_words {
    ([$old:ident $new:ident] $({ $kind:ident $word:literal $sort:ident $([$earlier:ident $earlier_word:literal $rule:ident])* })*) => {
        match ($old, $new) {
            $($((Kind::$earlier, Kind::$kind) => Some(rule_words!($rule $earlier_word $word)),)*)*
            _ => None,
        }
    };
    (Race $old:literal $new:literal) => { concat!($old, "-", $new) };
    (View $old:literal $new:literal) => { "view-read" };
}

macro_rules! conflicts {
    ([$new:ident] $({ $kind:ident $($rest:tt)* })*) => {
        [$(rule(Kind::$kind, $new) != Rule::Free),*]
    };
}

/// How many kinds there are.
pub const N: usize = access_table!(count []);

/// The rule that an earlier access of kind `old` and a new one of kind `new` come under.
pub fn rule(old: Kind, new: Kind) -> Rule
    ensures listed { HasRule old new result }
    ensures value { result ≡ rule_between old new }
{
    access_table!(rules [old new])
}

/// The word of a kind in programs, traces and reports.
pub fn word(kind: Kind) -> &'static str
    ensures { result.now ≡ spelling kind }
{
    access_table!(words[kind])
}

/// The kind that a word names, or None where it is the word of no kind.
pub fn kind_of(word: &str) -> Option<Kind>
    ensures { (kind : Kind) → (result ≡ Some kind) ↔ (word.now ≡ spelling kind) }
{
    access_table!(kinds[word])
}

/// The word of the rule that an earlier access of kind `old` and a new one of kind `new` come under, or None
/// where they do not conflict.
pub fn rule_word(old: Kind, new: Kind) -> Option<&'static str>
    ensures { option_map (λ word. word.now) result ≡ rule_spelling old new (rule_between old new) }
{
    access_table!(rule_words [old new])
}

/// Whether accesses of a kind are of a memory cell, and not of a reducer.
pub fn is_memory(kind: Kind) -> bool
    ensures { result ≡ is_memory_kind kind }
{
    access_table!(sorts[kind])
}

/// Which kinds of an earlier access conflict with a new one of kind `new`: place i is that of the i-th kind.
pub fn conflicting(new: Kind) -> [bool; N]
    ensures { result ≡ map (λ old. is_conflict (rule_between old new)) kinds }
{
    access_table!(conflicts[new])
}
