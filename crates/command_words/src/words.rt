//! The words of the command line.

ghost use Rattle.std.specs.Prelude.{◌≡◌, ◌≢◌, ◌<◌, IfOk, IfErr, IfSome, Some, None, false, [], ◌∷◌, codes, length, map, option_map};
ghost use Rattle.std.specs.List.{All};
ghost use Rattle.std.specs.String.{string_bytes};
ghost use Rattle.clap.specs.Words.{app_of, kind_of, first_of, all_of, subcommand_rows_of};
ghost use Rattle.command_words.specs.Commands.{cilkcheck};
ghost use Rattle.command_words.specs.Jobs.{IsInRange};
ghost use Rattle.command_words.specs.Asked.{rows_in, IsWorkers, IsLimit, IsName, IsColor, IsFormat, IsSerial, has_flag, language_of, input_word, output_word, IsOut};
ghost use Rattle.command_words.specs.Asked.{IsAsked, IsAskedBy, IsShown, IsJobOf};
ghost use Rattle.command_streams.specs.Faults.{IsUsageFault, TellsUsage};

use crate::commands::commands;
use clap::error::ErrorKind;
use clap::{ArgMatches, Command};
use command_streams::{CliFault, MOST_ENTRIES};
use std::alloc::Global;
use std::convert::AsStr;
use std::env::{self, Env};
use std::io;

/// The most workers, and how many there are where no number is given.
const MOST_WORKERS: usize = 64;

const WORKERS: usize = 2;

/// The word for standard input in place of a file.
pub const INPUT: &str = "-";

/// The word for standard output in place of a trace's file.
const OUTPUT: &str = "-";

/// The trace of a program on standard input is wanted in a file.
const OF_INPUT: &str =
    "a trace belongs to a program that is in a file, which is not standard input: name it";

/// Both files of a replay are standard input.
const INPUT_TWICE: &str =
    "'-' is given twice: standard input is the program or the trace, and not both";

/// A trace and its program have one name.
pub const OVER_PROGRAM: &str =
    "the trace would be written over the program: name another file with '--trace <OUT>'";

/// When words are painted.
#[derive(Clone, Copy, Debug)]
pub enum Color {
    /// Where a terminal shows them.
    Auto,
    /// In each case.
    Always,
    /// In none.
    Never,
}

/// The form of an explanation.
#[derive(Clone, Copy, Debug)]
pub enum Format {
    /// Text, for a person.
    Text,
    /// JSON, for a program.
    Json,
    /// SARIF, for code scanning and editors.
    Sarif,
}

/// The language of a drawing.
#[derive(Clone, Copy, Debug)]
pub enum Language {
    /// That of Graphviz.
    Dot,
    /// SVG.
    Svg,
}

/// What the words of the command line ask for. A file with the name [`INPUT`] is standard input, but for that of [`Job::Record`] and
/// [`Job::Explain`], whose names are not.
#[derive(Debug)]
pub enum Job {
    /// To judge the trace in this file, or on standard input where there is none, with this limit on the entries of its history.
    Judge {
        file: Option<String>,
        limit: u32,
    },
    /// To write the elision of the program in this file, with this limit on its requests.
    Elide {
        file: String,
        limit: u32,
    },
    /// To run the program in this file by so many workers, with this limit on the entries of its history.
    Run {
        file: String,
        workers: usize,
        limit: u32,
    },
    /// To run it so, and to write the trace of the run in place of its report.
    Trace {
        file: String,
        workers: usize,
        limit: u32,
    },
    /// To run it so, and to write the trace of the run into the file `trace`.
    Record {
        file: String,
        workers: usize,
        limit: u32,
        trace: String,
    },
    /// To run the program in this file by so many workers, with this limit on the entries of its history, and to tell of the run in this form: of all pairs
    /// that raced, or of the first.
    Explain {
        file: String,
        workers: usize,
        is_serial: bool,
        limit: u32,
        color: Color,
        format: Format,
        is_all: bool,
    },
    /// To do so with what standard input gives.
    ExplainInput {
        workers: usize,
        is_serial: bool,
        limit: u32,
        color: Color,
        format: Format,
        is_all: bool,
    },
    /// To judge the traces in these files, and to tell of them together in this form.
    ExplainTraces {
        files: Vec<String>,
        color: Color,
        format: Format,
        is_all: bool,
    },
    /// To replay the trace in the second file as a run of the program in the first.
    Replay {
        file: String,
        trace: String,
    },
    /// To draw the trace in this file, in this language.
    Draw {
        file: String,
        language: Language,
    },
    /// To show a text: the help or the version.
    Show {
        text: String,
    },
}

/// Written out, so that what lets a job go calls one function.
impl Drop for Job {
    fn drop(self) {
        match self {
            Job::Judge { file: _, limit: _ } => {}
            Job::Elide { file: _, limit: _ } => {}
            Job::Run {
                file: _,
                workers: _,
                limit: _,
            } => {}
            Job::Trace {
                file: _,
                workers: _,
                limit: _,
            } => {}
            Job::Record {
                file: _,
                workers: _,
                limit: _,
                trace: _,
            } => {}
            Job::Explain {
                file: _,
                workers: _,
                is_serial: _,
                limit: _,
                color: _,
                format: _,
                is_all: _,
            } => {}
            Job::ExplainInput {
                workers: _,
                is_serial: _,
                limit: _,
                color: _,
                format: _,
                is_all: _,
            } => {}
            Job::ExplainTraces {
                files: _,
                color: _,
                format: _,
                is_all: _,
            } => {}
            Job::Replay { file: _, trace: _ } => {}
            Job::Draw {
                file: _,
                language: _,
            } => {}
            Job::Show { text: _ } => {}
        }
    }
}

/// A usage fault with this text, which stands in one line; or want of memory.
pub fn usage(alloc: Global, text: &str) -> CliFault
    ensures fault { IsUsageFault result }
    ensures tells { TellsUsage text.now result }
{
    match String::from_str(alloc, text) {
        Ok(text) => CliFault::Usage(text),
        Err(_) => CliFault::Memory,
    }
}

/// A command that works on a file is given none.
fn no_file(alloc: Global) -> CliFault
    ensures { IsUsageFault result }
{
    usage(alloc, "no file is given; see 'cilkcheck --help'")
}

/// No command is named.
fn no_command(alloc: Global) -> CliFault
    ensures { IsUsageFault result }
{
    usage(alloc, "no command is given; see 'cilkcheck --help'")
}

/// The parser's tip which word may be meant, where its text has one.
fn find_similar(text: &str) -> Option<&str> {
    for line in text.lines() {
        if let Some(tip) = line.strip_prefix("  tip: ") {
            if tip.contains(" similar ") {
                return Some(tip);
            }
        }
    }
    None
}

/// A usage fault with the first line of the parser's text, and behind it which word may be meant.
fn complaint(alloc: Global, text: &str) -> CliFault
    ensures { IsUsageFault result }
{
    let line = text.lines().next().unwrap_or("");
    let line = line.strip_prefix("error: ").unwrap_or(line);
    let Some(tip) = find_similar(text) else {
        return usage(alloc, line);
    };
    match format!(in alloc; "{line}; {tip}") {
        Ok(text) => usage(alloc, text.as_str()),
        Err(_) => CliFault::Memory,
    }
}

/// What the parser of the command line answers in place of a job: a text to show, or the first line of what is wrong.
fn parser_answer(alloc: Global, error: &clap::Error) -> Result<Job, CliFault>
    ensures job { IfOk result (IsShown (kind_of error.now)) }
    ensures fault { IfErr result IsUsageFault }
{
    match error.kind() {
        ErrorKind::OutOfMemory => return Err(CliFault::Memory),
        ErrorKind::MissingRequiredArgument => return Err(no_file(alloc)),
        _ => {}
    }
    let text = format!(in alloc; "{error}")?;
    if error.use_stderr() {
        Err(complaint(alloc, text.as_str()))
    } else {
        Ok(Job::Show { text })
    }
}

/// What stands at this name among the words of a command.
fn text_of<'a>(matches: &ArgMatches<'a>, name: &str) -> Option<&'a str>
    ensures { option_map (λ text. text.now) result ≡ first_of name.now (rows_in matches.now) }
{
    matches.get_str(name)
}

/// All that stands at this name among the words of a command.
fn texts_of<'m, 'a>(matches: &'m ArgMatches<'a>, name: &str) -> Option<&'m [&'a str]>
    ensures { option_map (λ texts. map (λ text. text.now) texts.now) result ≡ all_of name.now (rows_in matches.now) }
{
    matches.get_strs(name)
}

/// Whether the flag with this name is given, of which the parser says `true`.
fn has_flag(matches: &ArgMatches<'_>, name: &str) -> bool
    ensures { result ≡ has_flag name.now (rows_in matches.now) }
{
    text_of(matches, name) == Some("true")
}

/// How many workers the words of a command want.
fn workers_of(alloc: Global, matches: &ArgMatches<'_>) -> Result<usize, CliFault>
    ensures workers { IfOk result (IsWorkers (rows_in matches.now)) }
    ensures fault { IfErr result IsUsageFault }
{
    let Some(text) = text_of(matches, "workers") else {
        return Ok(WORKERS);
    };
    match text.parse::<usize>() {
        Ok(workers) if 0 < workers && workers <= MOST_WORKERS => Ok(workers),
        _ => Err(usage(
            alloc,
            "invalid value for '--workers <N>': a number from 1 to 64 is wanted",
        )),
    }
}

/// The limit that the words of a command give.
fn limit_of(alloc: Global, matches: &ArgMatches<'_>) -> Result<u32, CliFault>
    ensures limit { IfOk result (IsLimit (rows_in matches.now)) }
    ensures fault { IfErr result IsUsageFault }
{
    let Some(text) = text_of(matches, "limit") else {
        return Ok(MOST_ENTRIES);
    };
    match text.parse::<u32>() {
        Ok(limit) if limit <= MOST_ENTRIES => Ok(limit),
        _ => Err(usage(
            alloc,
            "invalid value for '--limit <N>': a number from 0 to 1000000 is wanted",
        )),
    }
}

/// The name of a file that the words of a command give.
fn file_of(alloc: Global, matches: &ArgMatches<'_>, argument: &str) -> Result<String, CliFault>
    ensures name { IfOk result (λ file. IsName argument.now (rows_in matches.now) (string_bytes file)) }
    ensures fault { IfErr result IsUsageFault }
{
    let Some(name) = text_of(matches, argument) else {
        return Err(no_file(alloc));
    };
    Ok(String::from_str(alloc, name)?)
}

/// The name of a file that the words of a command may give.
fn given_file(
    alloc: Global,
    matches: &ArgMatches<'_>,
    argument: &str,
) -> Result<Option<String>, CliFault>
    ensures name { IfOk result (λ file. option_map string_bytes file ≡ first_of argument.now (rows_in matches.now)) }
    ensures fault { IfErr result IsUsageFault }
{
    let Some(name) = text_of(matches, argument) else {
        return Ok(None);
    };
    Ok(Some(String::from_str(alloc, name)?))
}

fn judge_job(alloc: Global, matches: &ArgMatches<'_>) -> Result<Job, CliFault>
    ensures job { IfOk result (IsAsked (codes "judge") (rows_in matches.now)) }
    ensures fault { IfErr result IsUsageFault }
{
    let limit = limit_of(alloc, matches)?;
    let file = given_file(alloc, matches, "file")?;
    Ok(Job::Judge { file, limit })
}

fn elide_job(alloc: Global, matches: &ArgMatches<'_>) -> Result<Job, CliFault>
    ensures job { IfOk result (IsAsked (codes "elide") (rows_in matches.now)) }
    ensures fault { IfErr result IsUsageFault }
{
    let limit = limit_of(alloc, matches)?;
    let file = file_of(alloc, matches, "file")?;
    Ok(Job::Elide { file, limit })
}

/// The name of the file that the trace of a run is written into. It is none that holds the program, which would be lost; and the program
/// is in a file, so that the trace can be replayed.
fn out_of(alloc: Global, name: &str, file: &str) -> Result<String, CliFault>
    requires { name.now ≢ output_word }
    ensures name { IfOk result (λ trace. string_bytes trace ≡ name.now) }
    ensures other { IfOk result (λ trace. IsOut file.now (string_bytes trace)) }
    ensures fault { IfErr result IsUsageFault }
{
    if file == INPUT {
        return Err(usage(alloc, OF_INPUT));
    }
    if name == file {
        return Err(usage(alloc, OVER_PROGRAM));
    }
    Ok(String::from_str(alloc, name)?)
}

fn run_job(alloc: Global, matches: &ArgMatches<'_>) -> Result<Job, CliFault>
    ensures job { IfOk result (IsAsked (codes "run") (rows_in matches.now)) }
    ensures fault { IfErr result IsUsageFault }
{
    let workers = workers_of(alloc, matches)?;
    let limit = limit_of(alloc, matches)?;
    let file = file_of(alloc, matches, "file")?;
    match text_of(matches, "trace") {
        None => Ok(Job::Run {
            file,
            workers,
            limit,
        }),
        Some(name) if name == OUTPUT => Ok(Job::Trace {
            file,
            workers,
            limit,
        }),
        Some(name) => {
            let trace = out_of(alloc, name, file.as_str())?;
            Ok(Job::Record {
                file,
                workers,
                limit,
                trace,
            })
        }
    }
}

/// When the words of a command want words to be painted.
fn color_of(alloc: Global, matches: &ArgMatches<'_>) -> Result<Color, CliFault>
    ensures color { IfOk result (IsColor (rows_in matches.now)) }
    ensures fault { IfErr result IsUsageFault }
{
    match text_of(matches, "color") {
        None | Some("auto") => Ok(Color::Auto),
        Some("always") => Ok(Color::Always),
        Some("never") => Ok(Color::Never),
        Some(_) => Err(usage(
            alloc,
            "invalid value for '--color <WHEN>': auto, always or never is wanted",
        )),
    }
}

/// The form that the words of a command want an explanation in.
fn format_of(alloc: Global, matches: &ArgMatches<'_>) -> Result<Format, CliFault>
    ensures format { IfOk result (IsFormat (rows_in matches.now)) }
    ensures fault { IfErr result IsUsageFault }
{
    match text_of(matches, "format") {
        None | Some("text") => Ok(Format::Text),
        Some("json") => Ok(Format::Json),
        Some("sarif") => Ok(Format::Sarif),
        Some(_) => Err(usage(
            alloc,
            "invalid value for '--format <FORM>': text, json or sarif is wanted",
        )),
    }
}

/// Whether the words of a command want one worker in the serial order, which is no number of workers that steal.
fn is_serial(alloc: Global, matches: &ArgMatches<'_>) -> Result<bool, CliFault>
    ensures serial { IfOk result (IsSerial (rows_in matches.now)) }
    ensures fault { IfErr result IsUsageFault }
{
    let is_serial = has_flag(matches, "serial");
    if is_serial && text_of(matches, "workers").is_some() {
        return Err(usage(
            alloc,
            "the argument '--serial' cannot be used with '--workers <N>'",
        ));
    }
    Ok(is_serial)
}

/// A program, or a single trace, is to be explained.
fn explain_one(alloc: Global, matches: &ArgMatches<'_>, name: &str) -> Result<Job, CliFault>
    requires { all_of (codes "file") (rows_in matches.now) ≡ Some (name.now ∷ []) }
    ensures job { IfOk result (IsAsked (codes "explain") (rows_in matches.now)) }
    ensures fault { IfErr result IsUsageFault }
{
    let workers = workers_of(alloc, matches)?;
    let limit = limit_of(alloc, matches)?;
    let is_serial = is_serial(alloc, matches)?;
    let color = color_of(alloc, matches)?;
    let format = format_of(alloc, matches)?;
    let is_all = has_flag(matches, "all");
    if name == INPUT {
        return Ok(Job::ExplainInput {
            workers,
            is_serial,
            limit,
            color,
            format,
            is_all,
        });
    }
    let file = String::from_str(alloc, name)?;
    Ok(Job::Explain {
        file,
        workers,
        is_serial,
        limit,
        color,
        format,
        is_all,
    })
}

/// The name of one of several files, which is not standard input.
fn one_of_several(alloc: Global, name: &str) -> Result<String, CliFault>
    ensures name { IfOk result (λ file. (string_bytes file ≡ name.now) × (string_bytes file ≢ input_word)) }
    ensures fault { IfErr result IsUsageFault }
{
    if name == INPUT {
        return Err(usage(
            alloc,
            "'-' is given among several files: standard input is explained alone",
        ));
    }
    Ok(String::from_str(alloc, name)?)
}

/// The names of several files.
fn several_files(alloc: Global, names: &[&str]) -> Result<Vec<String>, CliFault>
    ensures names { IfOk result (λ files. map string_bytes files.items ≡ map (λ name. name.now) names.now) }
    ensures files { IfOk result (λ files. All (λ file. string_bytes file ≢ input_word) files.items) }
    ensures fault { IfErr result IsUsageFault }
{
    let mut files = Vec::new(alloc);
    for name in names {
        files.push(one_of_several(alloc, name)?)?;
    }
    Ok(files)
}

/// Whether a word is given that is for one file.
fn has_run_word(matches: &ArgMatches<'_>) -> bool
    ensures { result ≡ false → (first_of (codes "workers") (rows_in matches.now) ≡ None)
        × (first_of (codes "limit") (rows_in matches.now) ≡ None) × (has_flag (codes "serial") (rows_in matches.now) ≡ false) }
{
    text_of(matches, "workers").is_some()
        || text_of(matches, "limit").is_some()
        || has_flag(matches, "serial")
}

/// Several traces are to be explained, which are judged and not run.
fn explain_several(alloc: Global, matches: &ArgMatches<'_>, names: &[&str]) -> Result<Job, CliFault>
    requires names { all_of (codes "file") (rows_in matches.now) ≡ Some (map (λ name. name.now) names.now) }
    requires several { 1 < length names.now }
    ensures job { IfOk result (IsAsked (codes "explain") (rows_in matches.now)) }
    ensures fault { IfErr result IsUsageFault }
{
    if has_run_word(matches) {
        return Err(usage(
            alloc,
            "'--workers <N>', '--serial' and '--limit <N>' are for one file: several are traces, which are not run",
        ));
    }
    let color = color_of(alloc, matches)?;
    let format = format_of(alloc, matches)?;
    let files = several_files(alloc, names)?;
    let is_all = has_flag(matches, "all");
    Ok(Job::ExplainTraces {
        files,
        color,
        format,
        is_all,
    })
}

fn explain_job(alloc: Global, matches: &ArgMatches<'_>) -> Result<Job, CliFault>
    ensures job { IfOk result (IsAsked (codes "explain") (rows_in matches.now)) }
    ensures fault { IfErr result IsUsageFault }
{
    match texts_of(matches, "file") {
        None | Some([]) => Err(no_file(alloc)),
        Some([name]) => explain_one(alloc, matches, name),
        Some(names) => explain_several(alloc, matches, names),
    }
}

/// Whether the word with this name is that for standard input.
fn is_input(matches: &ArgMatches<'_>, name: &str) -> bool
    ensures { result ≡ false → first_of name.now (rows_in matches.now) ≢ Some input_word }
{
    text_of(matches, name) == Some(INPUT)
}

fn replay_job(alloc: Global, matches: &ArgMatches<'_>) -> Result<Job, CliFault>
    ensures job { IfOk result (IsAsked (codes "replay") (rows_in matches.now)) }
    ensures fault { IfErr result IsUsageFault }
{
    if is_input(matches, "file") && is_input(matches, "trace") {
        return Err(usage(alloc, INPUT_TWICE));
    }
    let file = file_of(alloc, matches, "file")?;
    let trace = file_of(alloc, matches, "trace")?;
    Ok(Job::Replay { file, trace })
}

/// The language that a drawing is wanted in.
fn language_of(matches: &ArgMatches<'_>) -> Language
    ensures { result ≡ language_of (rows_in matches.now) }
{
    if has_flag(matches, "svg") {
        Language::Svg
    } else {
        Language::Dot
    }
}

fn draw_job(alloc: Global, matches: &ArgMatches<'_>) -> Result<Job, CliFault>
    ensures job { IfOk result (IsAsked (codes "draw") (rows_in matches.now)) }
    ensures fault { IfErr result IsUsageFault }
{
    let file = file_of(alloc, matches, "trace")?;
    Ok(Job::Draw {
        file,
        language: language_of(matches),
    })
}

/// The job that a command with this name asks for, by what was found of its words.
fn job_named(alloc: Global, name: &str, matches: &ArgMatches<'_>) -> Result<Job, CliFault>
    ensures job { IfOk result (IsAsked name.now (rows_in matches.now)) }
    ensures fault { IfErr result IsUsageFault }
{
    match name {
        "judge" => judge_job(alloc, matches),
        "elide" => elide_job(alloc, matches),
        "run" => run_job(alloc, matches),
        "explain" => explain_job(alloc, matches),
        "replay" => replay_job(alloc, matches),
        "draw" => draw_job(alloc, matches),
        _ => Err(no_command(alloc)),
    }
}

/// The job that the words ask for, by what was found of them.
fn job_of(alloc: Global, matches: &ArgMatches<'_>) -> Result<Job, CliFault>
    ensures job { IfOk result (IsAskedBy (subcommand_rows_of matches.now)) }
    ensures fault { IfErr result IsUsageFault }
{
    match matches.subcommand() {
        Some((name, matches)) => job_named(alloc, name, matches),
        None => Err(no_command(alloc)),
    }
}

/// What the command's words ask for, which stand behind the program's name.
fn read_by<'a, S: AsStr>(
    alloc: Global,
    command: Command<'a>,
    words: &'a [S],
) -> Result<Job, CliFault>
    requires { app_of command ≡ cilkcheck }
    ensures job { IfOk result (IsJobOf (map S.text words.entry.now)) }
    ensures fault { IfErr result IsUsageFault }
{
    match command.try_get_matches_from(words) {
        Ok(matches) => job_of(alloc, &matches),
        Err(error) => parser_answer(alloc, &error),
    }
}

/// Reads the words behind the program's name, as they lie there.
fn read_given<S: AsStr>(alloc: Global, words: &[S]) -> Result<Job, CliFault>
    ensures job { IfOk result (IsJobOf (map S.text words.now)) }
    ensures ranges { IfOk result IsInRange }
    ensures fault { IfErr result IsUsageFault }
{
    // (a `?` in the place of the `match` takes the proof many times as long)
    match commands(alloc) {
        Ok(command) => read_by(alloc, command, words),
        Err(_) => Err(CliFault::Memory),
    }
}

/// Reads the words behind the program's name. A fault is [`CliFault::Usage`] or [`CliFault::Memory`].
pub fn read_words(alloc: Global, words: &[&str]) -> Result<Job, CliFault>
    ensures job { IfOk result (IsJobOf (map (λ word. word.now) words.now)) }
    ensures ranges { IfOk result IsInRange }
    ensures fault { IfErr result IsUsageFault }
{
    read_given(alloc, words)
}

/// Reads the words that the program was called with, behind its name. A fault is [`CliFault::Usage`] or [`CliFault::Memory`].
pub fn read_args<R: Env + Alloc<A = Global>>(rt: &R) -> Result<Job, CliFault>
    ensures job { IfOk result (λ job. (words : _) × IsJobOf words job) }
    ensures ranges { IfOk result IsInRange }
    ensures fault { IfErr result IsUsageFault }
{
    let alloc = rt.alloc();
    let words = match env::args(rt) {
        Ok(words) => words,
        Err(error) if error.kind() == io::ErrorKind::OutOfMemory => return Err(CliFault::Memory),
        Err(_) => return Err(usage(alloc, "a word of the command line is no UTF-8")),
    };
    let words: Vec<String> = words.skip(1).collect(alloc)?;
    read_given(alloc, words.as_slice())
}
