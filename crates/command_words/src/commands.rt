//! The commands for the parser of the command line: their texts, and the words that each takes.

ghost use Rattle.std.specs.Prelude.{◌≡◌, IfOk, map};
ghost use Rattle.clap.specs.Words.{new_app};
ghost use Rattle.command_words.specs.Commands.{free, wanted, several, option, flag, leaf, program, cilkcheck, IsArgument, IsCommand, IsPart};
ghost use Rattle.command_words.specs.Commands.{judge, elide, run, explain, replay, draw};
ghost use Rattle.command_words.specs.Usages.{AreEach, rule_of, shape_of};

use crate::help;
use clap::{Arg, ArgAction, Command};
use std::alloc::{AllocError, Global};

/// A word that a command takes: its name, what the help calls its value, and what the help tells of it.
#[derive(Clone, Copy)]
enum Word<'a> {
    /// A word among the words, or none.
    Free(&'a str, &'a str, &'a str),
    /// A word that must stand among the words.
    Wanted(&'a str, &'a str, &'a str),
    /// One word or more, of which one must stand among the words.
    Several(&'a str, &'a str, &'a str),
    /// `--NAME VALUE`, or nothing.
    Option(&'a str, &'a str, &'a str),
    /// `--NAME`, or nothing.
    Flag(&'a str, &'a str),
}

/// How a command is used.
#[derive(Clone, Copy)]
struct Usage<'a> {
    name: &'a str,
    about: &'a str,
    /// What stands before its help, where that is more than what it is about.
    before: Option<&'a str>,
    /// What stands behind its help.
    behind: &'a str,
    /// The words that it takes.
    words: &'a [Word<'a>],
}

/// The limit on the entries of a history.
const LIMIT: Word<'static> = Word::Option(
    "limit",
    "N",
    "The most entries of the history, from 0 to 1000000 [default: 1000000]",
);

/// The number of workers.
const WORKERS: Word<'static> = Word::Option(
    "workers",
    "N",
    "The workers, from 1 to 64 [default: 2]",
);

/// The file of a program.
const PROGRAM: Word<'static> = Word::Wanted("file", "FILE", "The program; '-' is standard input");

/// The file of a trace, behind that of its program or alone.
const TRACE: Word<'static> = Word::Wanted("trace", "TRACE", "The trace; '-' is standard input");

fn judge() -> Usage<'static>
    ensures { shape_of result ≡ judge }
{
    Usage {
        name: "judge",
        about: help::JUDGE,
        before: None,
        behind: help::TRACE,
        words: &[
            Word::Free(
                "file",
                "FILE",
                "The trace; '-' is standard input [default: -]",
            ),
            LIMIT,
        ],
    }
}

fn elide() -> Usage<'static>
    ensures { shape_of result ≡ elide }
{
    Usage {
        name: "elide",
        about: help::ELIDE,
        before: Some(help::ELISION),
        behind: help::LANGUAGE,
        words: &[
            PROGRAM,
            Word::Option(
                "limit",
                "N",
                "The most requests, from 0 to 1000000 [default: 1000000]",
            ),
        ],
    }
}

fn run() -> Usage<'static>
    ensures { shape_of result ≡ run }
{
    Usage {
        name: "run",
        about: help::RUN,
        before: Some(help::REPORT),
        behind: help::LANGUAGE,
        words: &[
            PROGRAM,
            WORKERS,
            LIMIT,
            Word::Option(
                "trace",
                "OUT",
                "A file, made or emptied, that the trace of the run is written into; '-' is standard output, which then has no report",
            ),
        ],
    }
}

fn explain() -> Usage<'static>
    ensures { shape_of result ≡ explain }
{
    Usage {
        name: "explain",
        about: help::EXPLAIN,
        before: Some(help::EXPLANATION),
        behind: help::LANGUAGE,
        words: &[
            Word::Several(
                "file",
                "FILE",
                "A program, or one or more traces; '-' is standard input",
            ),
            WORKERS,
            Word::Flag(
                "serial",
                "Run each child before what follows its spawn, by one worker: the same run each time",
            ),
            LIMIT,
            Word::Option(
                "color",
                "WHEN",
                "When words are painted: auto, always or never [default: auto]",
            ),
            Word::Option(
                "format",
                "FORM",
                "The form of the explanation: text, json or sarif [default: text]",
            ),
            Word::Flag(
                "all",
                "Tell of every pair of lines that raced: at most 20 else, and 3 of those that part at one spawn",
            ),
        ],
    }
}

fn replay() -> Usage<'static>
    ensures { shape_of result ≡ replay }
{
    Usage {
        name: "replay",
        about: help::REPLAY,
        before: None,
        behind: help::OUTCOME,
        words: &[PROGRAM, TRACE],
    }
}

fn draw() -> Usage<'static>
    ensures { shape_of result ≡ draw }
{
    Usage {
        name: "draw",
        about: help::DRAW,
        before: Some(help::DRAWING),
        behind: help::STRANDS,
        words: &[
            TRACE,
            Word::Flag(
                "svg",
                "Writes a picture, as SVG, in place of a text for Graphviz",
            ),
        ],
    }
}

/// A word among the words, or none.
fn optional_word<'a>(alloc: Global, name: &'a str, value: &'a str, help: &'a str) -> Arg<'a>
    ensures { IsArgument (free name.entry.now) result }
{
    Arg::new(alloc, name).value_name(value).help(help)
}

/// A word that must stand among the words.
fn required_word<'a>(alloc: Global, name: &'a str, value: &'a str, help: &'a str) -> Arg<'a>
    ensures { IsArgument (wanted name.entry.now) result }
{
    optional_word(alloc, name, value, help).required(true)
}

/// One word or more, of which one must stand among the words.
fn required_words<'a>(alloc: Global, name: &'a str, value: &'a str, help: &'a str) -> Arg<'a>
    ensures { IsArgument (several name.entry.now) result }
{
    required_word(alloc, name, value, help)
        .num_args(1..)
        .action(ArgAction::Append)
}

/// `--NAME VALUE`, or nothing.
fn option<'a>(alloc: Global, name: &'a str, value: &'a str, help: &'a str) -> Arg<'a>
    ensures { IsArgument (option name.entry.now) result }
{
    optional_word(alloc, name, value, help).long(name)
}

/// `--NAME`, or nothing.
fn flag<'a>(alloc: Global, name: &'a str, help: &'a str) -> Arg<'a>
    ensures { IsArgument (flag name.entry.now) result }
{
    Arg::new(alloc, name)
        .long(name)
        .action(ArgAction::SetTrue)
        .help(help)
}

/// The parser's argument for a word.
fn argument<'a>(alloc: Global, word: Word<'a>) -> Arg<'a>
    ensures { IsArgument (rule_of word.entry) result }
{
    match word {
        Word::Free(name, value, help) => optional_word(alloc, name, value, help),
        Word::Wanted(name, value, help) => required_word(alloc, name, value, help),
        Word::Several(name, value, help) => required_words(alloc, name, value, help),
        Word::Option(name, value, help) => option(alloc, name, value, help),
        Word::Flag(name, help) => flag(alloc, name, help),
    }
}

/// A command with its texts, and no words yet.
fn begin<'a>(alloc: Global, usage: &Usage<'a>) -> Command<'a>
    ensures { IsCommand (new_app usage.now.name.now) result }
{
    let command = Command::new(alloc, usage.name)
        .about(usage.about)
        .after_help(usage.behind);
    match usage.before {
        Some(text) => command.long_about(text),
        None => command,
    }
}

/// The parser's arguments for the words of a command.
fn arguments<'a>(alloc: Global, words: &[Word<'a>]) -> Result<Vec<Arg<'a>>, AllocError>
    ensures { IfOk result (λ arguments. AreEach IsArgument (map rule_of words.now) arguments.items) }
{
    let mut arguments = Vec::new(alloc);
    for word in words {
        arguments.push(argument(alloc, *word))?;
    }
    Ok(arguments)
}

/// A command with its texts and its words.
fn command<'a>(alloc: Global, usage: &Usage<'a>) -> Result<Command<'a>, AllocError>
    ensures { IfOk result (IsCommand (leaf (shape_of usage.now))) }
{
    let arguments = arguments(alloc, usage.words)?;
    begin(alloc, usage).args(arguments)
}

/// The commands that are used so.
fn parts<'a>(alloc: Global, usages: &[Usage<'a>]) -> Result<Vec<Command<'a>>, AllocError>
    ensures { IfOk result (λ parts. AreEach IsPart (map shape_of usages.now) parts.items) }
{
    let mut parts = Vec::new(alloc);
    for usage in usages {
        parts.push(command(alloc, usage)?)?;
    }
    Ok(parts)
}

/// The program without its commands. Its words stand behind its name.
fn program<'a>(alloc: Global) -> Result<Command<'a>, AllocError>
    ensures { IfOk result (IsCommand program) }
{
    Command::new(alloc, "cilkcheck")
        .about(help::ABOUT)
        .after_help(help::PROGRAM)
        .version(help::VERSION)
        .no_binary_name(true)
        .bin_name("cilkcheck")
}

/// The program with its commands.
pub(crate) fn commands<'a>(alloc: Global) -> Result<Command<'a>, AllocError>
    ensures { IfOk result (IsCommand cilkcheck) }
{
    let usages = [judge(), elide(), run(), explain(), replay(), draw()];
    let parts = parts(alloc, &usages)?;
    program(alloc)?.subcommands(parts)
}
