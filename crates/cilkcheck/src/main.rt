//! The program `cilkcheck`: a race detector for spawn-sync programs.
//!
//! [`read_args`] reads what the words of the command line ask for; [`check_names`] refuses what would write over a program; [`perform`]
//! does the job, and carries in its contract what is written for what standard input and the files hold; [`exit_of`] gives the exit status.
//! What is trusted here is that [`System`] gives the bytes of standard input, and of the file with the name that it is asked for, that a
//! file which it creates is empty and then holds what is written, and that it tells two names of one file.
#![tactic(auto)]

ghost use Rattle.std.specs.Prelude.{⊤, None, IfOk, ◌≤◌};
ghost use Rattle.command_words.specs.Asked.{IsJobOf};
ghost use Rattle.command_words.specs.Jobs.{IsInRange};
ghost use Rattle.command_words.specs.Names.{SparesProgram};
ghost use Rattle.command_streams.specs.Sources.{unknown_sources};

use command_jobs::{CliFault, Host, INPUT, Job, Watched, check_names, exit_of, perform, read_args};
use std::env;
use std::fs::{self, File};
use std::io::{self, IsTerminal, Read};
use std::os::unix::fs::MetadataExt;
use std::process::ExitCode;
use std::sync::Wait;
use std::thread::Threads;

/// The system's standard input and files. No contract knows what they hold, or whether one can be created.
#[derive(Drop)]
struct System<'a> {
    rt: &'a HostRuntime,
    /// Why the file that was last to be created is not.
    uncreated: Option<io::Error>,
}

impl<'a> Host for System<'a> {
    type Input = <HostRuntime as io::Input>::Reader;

    type File = File;

    type Created = File;

    ghost sources = { λ _. unknown_sources };

    ghost lacks = { λ _ _. ⊥ };

    ghost blank = { λ _. None };

    ghost made = { λ _ _. None };

    ghost bars = { λ _ _. ⊥ };

    ghost says_one = { λ _ _ _ _. ⊤ };

    fn input(&mut self) -> Self::Input {
        self.rt.reader()
    }

    fn open(&self, name: &str) -> io::Result<File> {
        fs::open(self.rt, name)
    }

    fn create(&mut self, name: &str) -> io::Result<File> {
        let created = fs::create(self.rt, name);
        self.uncreated = created.as_ref().err().copied();
        created
    }

    /// By the device and the number that the system gives a file. Where it tells nothing of a name, the two are not known to be one, and
    /// neither are two names of a terminal or a pipe, which keeps nothing that could be lost.
    fn is_one_file(&self, first: &str, second: &str) -> bool {
        match (fs::metadata(self.rt, first), fs::metadata(self.rt, second)) {
            (Ok(first), Ok(second)) => {
                first.is_file() && first.dev() == second.dev() && first.ino() == second.ino()
            }
            _ => false,
        }
    }

    fn is_terminal(&self) -> bool {
        self.rt.stdout().is_terminal() && !wants_no_color(self.rt)
    }

    fn close(&mut self, _name: &str, _file: File) {}
}

/// Whether the environment wants no colours: NO_COLOR is not empty, or the terminal is dumb.
fn wants_no_color(rt: &HostRuntime) -> bool {
    let says_no = match env::var(rt, "NO_COLOR") {
        Ok(value) => !value.is_empty(),
        Err(_) => false,
    };
    let is_dumb = match env::var(rt, "TERM") {
        Ok(terminal) => terminal.as_str() == "dumb",
        Err(_) => false,
    };
    says_no || is_dumb
}

/// Tells a fault in one line on standard error.
fn tell_fault(rt: &HostRuntime, fault: &CliFault) {
    let _ = eprintln!(rt; "cilkcheck: {fault}");
}

/// Tells in one line what could not be done with a file, and why, where the system says so.
fn tell_file(rt: &HostRuntime, verb: &str, name: &str, reason: Option<io::Error>) {
    let _ = match reason {
        Some(reason) => eprintln!(rt; "cilkcheck: cannot {verb} {name}: {reason}"),
        None => eprintln!(rt; "cilkcheck: cannot {verb} {name}"),
    };
}

/// Why a file can't be read, if it is so still.
fn reason_unread(rt: &HostRuntime, name: &str) -> Option<io::Error> {
    match fs::open(rt, name) {
        Ok(mut file) => file.read(&mut [0]).err(),
        Err(reason) => Some(reason),
    }
}

/// Tells which of some files can't be read. They are read in their order, up to that one.
fn tell_unread(rt: &HostRuntime, files: &[String]) {
    for file in files {
        let reason = reason_unread(rt, file.as_str());
        if reason.is_some() {
            return tell_file(rt, "read", file.as_str(), reason);
        }
    }
    tell_fault(rt, &CliFault::Read);
}

/// Tells why a job is not done. Of what `judge`, `elide`, `run` and `replay` read their one word tells.
fn tell_failure(rt: &HostRuntime, system: &System<'_>, job: &Job, fault: &CliFault) {
    match (job, fault) {
        (Job::Explain { file, .. } | Job::Draw { file, .. }, CliFault::Read)
            if file.as_str() != INPUT => {
            tell_file(rt, "read", file.as_str(), reason_unread(rt, file.as_str()));
        }
        (Job::ExplainTraces { files, .. }, CliFault::Read) => tell_unread(rt, files.as_slice()),
        (Job::Record { trace, .. }, CliFault::Unwritten) => {
            tell_file(rt, "write", trace.as_str(), system.uncreated);
        }
        _ => tell_fault(rt, fault),
    }
}

/// Tells somebody at a terminal who names no file what is waited for.
fn tell_input(rt: &HostRuntime, job: &Job) {
    if matches!(job, Job::Judge { file: None, .. }) && rt.stdin().is_terminal() {
        let _ = eprintln!(rt;
            "cilkcheck: reading a trace from standard input (end it with Ctrl-D, or name a file)"
        );
    }
}

/// What the words of the command line ask for: a job whose trace is not written over its program.
fn job_of(rt: &HostRuntime, host: &Watched<System<'_>>) -> Result<Job, CliFault>
    ensures job { IfOk result (λ job. (words : _) × IsJobOf words job) }
    ensures ranges { IfOk result IsInRange }
    ensures spared { IfOk result (SparesProgram (λ _ _ _. ⊤)) }
{
    let job = read_args(rt)?;
    check_names(rt.alloc(), host, &job)?;
    Ok(job)
}

/// Does what the words of the command line ask for.
fn answer_of<R: Threads + Wait + Sync>(threads: &R, rt: &HostRuntime) -> Result<u8, CliFault>
    ensures { IfOk result (λ status. status ≤ 4) }
{
    let mut host = Watched::new(System {
        rt,
        uncreated: None,
    });
    let job = match job_of(rt, &host) {
        Ok(job) => job,
        Err(fault) => {
            tell_fault(rt, &fault);
            return Err(fault);
        }
    };
    tell_input(rt, &job);
    let mut output = Watched::new(io::writer(rt));
    let answer = perform(threads, rt.alloc(), &mut host, &job, &mut output);
    if let Err(fault) = &answer {
        tell_failure(rt, &host.into_inner(), &job, fault);
    }
    answer
}

/// Takes the numbers of the standard streams that are closed, until the result is dropped: a file that is opened then would get such a
/// number, and be read or written as that stream. A folder can be neither.
fn hold_streams(rt: &HostRuntime) -> [io::Result<File>; 3] {
    [fs::open(rt, "/"), fs::open(rt, "/"), fs::open(rt, "/")]
}

fn main(rt: HostRuntime) -> ExitCode {
    let _streams = hold_streams(&rt);
    ExitCode::from(exit_of(&answer_of(&rt, &rt)))
}
