//! Jobs over a standard input and files that are texts in memory.

ghost use Rattle.std.specs.Prelude.{◌<◌, ◌≤◌, ⊤, None, IfOk};
ghost use Rattle.command_words.specs.Jobs.{IsInRange};
ghost use Rattle.command_jobs.specs.Performed.{IsAlone};
ghost use Rattle.command_streams.specs.Sources.{unknown_sources};

use super::Wanted::Text;
use super::{MOST, Outcome, Takes, is_ended, meets, outcome_of};
use crate::hostile::devices::{Breaking, Filling};
use command_jobs::{Host, Job, Watched, perform, perform_alone};
use std::alloc::{AllocError, Global};
use std::io::{self, Error, ErrorKind};
use std::sync::Wait;
use std::test::Fail;
use std::thread::Threads;

/// A standard input, and files with their names.
#[derive(Clone, Copy)]
struct Texts<'a> {
    input: &'a str,
    files: &'a [(&'a str, &'a str)],
}

impl<'a> Host for Texts<'a> {
    type Input = Breaking<'a>;

    type File = Breaking<'a>;

    type Created = Filling;

    ghost sources = { λ _. unknown_sources };

    ghost lacks = { λ _ _. ⊥ };

    ghost blank = { λ _. None };

    ghost made = { λ _ _. None };

    ghost bars = { λ _ _. ⊤ };

    ghost says_one = { λ _ _ _ _. ⊤ };

    fn input(&mut self) -> Breaking<'a> {
        Breaking::into_pieces(self.input.as_bytes(), 1)
    }

    fn open(&self, name: &str) -> io::Result<Breaking<'a>> {
        for (known, text) in self.files {
            if *known == name {
                return Ok(Breaking::into_pieces(text.as_bytes(), 1));
            }
        }
        Err(Error::from(ErrorKind::NotFound))
    }

    fn create(&mut self, _name: &str) -> io::Result<Filling> {
        Err(Error::from(ErrorKind::PermissionDenied))
    }

    /// Each file has one name.
    fn is_one_file(&self, first: &str, second: &str) -> bool {
        first == second
    }

    fn is_terminal(&self) -> bool {
        false
    }

    fn close(&mut self, _name: &str, _file: Filling) {}
}

/// What comes of a job over these texts.
fn perform_over<R: Threads + Wait + Sync>(
    rt: &R,
    alloc: Global,
    texts: Texts<'_>,
    job: &Job,
) -> Outcome
    requires { IsInRange job.now }
{
    let mut host = Watched::new(texts);
    let mut output = Watched::new(Takes::All.writer(alloc));
    let answer = perform(rt, alloc, &mut host, job, &mut output);
    outcome_of(answer, &host, output)
}

/// No text at all.
const NOTHING: Texts<'static> = Texts {
    input: "",
    files: &[],
};

/// A text is shown, by either call.
#[test]
fn a_text_that_is_shown(rt: HostRuntime) -> Result<(), Fail> {
    let job = Job::Show {
        text: String::from_str(rt.alloc(), "one\ntwo\n")?,
    };
    let wanted = Text(0, "one\ntwo\n");
    let told = perform_over(&rt, rt.alloc(), NOTHING, &job);
    meets(&rt, rt.alloc(), &told, wanted);
    let mut host = Watched::new(NOTHING);
    let mut output = Watched::new(Takes::All.writer(rt.alloc()));
    let answer = perform_alone(rt.alloc(), &mut host, &job, &mut output);
    meets(&rt, rt.alloc(), &outcome_of(answer, &host, output), wanted);
    Ok(())
}

/// A program that spawns a write and, behind 10,001 calls, reads what is written: there is the time to steal the child.
const STOLEN: Texts<'static> = Texts {
    input: "",
    files: &[(
        "program",
        "cilk 1\nmem x\nfunc main z\n  spawn f 7\n  call g 10000\n  read r x\nend\nfunc f v\n  write x v\nend\nfunc g n\n  if n\n    let m = n - 1\n    call g m\n  end\nend\n",
    )],
};

/// How the report of its run begins where another worker has stolen the child: the write comes first.
const STOLEN_REPORT: &str =
    "{\"clean\":false,\"entries\":30010,\"memory\":{\"x\":7},\"refusals\":[{\"entry\":";

/// How often the run is tried in which the child is stolen.
const TRIES: u32 = 20;

/// Of two workers the second steals what the first has spawned.
#[test]
fn a_second_worker_steals(rt: HostRuntime) -> Result<(), Fail> {
    let job = Job::Run {
        file: String::from_str(rt.alloc(), "program")?,
        workers: 2,
        limit: MOST,
    };
    let mut is_stolen = false;
    for _ in 0..TRIES {
        let outcome = perform_over(&rt, rt.alloc(), STOLEN, &job);
        let written = outcome.output.held.as_slice();
        is_stolen = is_ended(&outcome, 1) && written.starts_with(STOLEN_REPORT.as_bytes());
        if is_stolen {
            break;
        }
    }
    assert!(rt; is_stolen);
    Ok(())
}
