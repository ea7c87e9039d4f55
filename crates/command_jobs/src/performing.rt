//! From a job to the exit status of the process.

ghost use Rattle.std.specs.Prelude.{◌≡◌, ◌↔◌, ◌<◌, ◌≤◌, true, false, IfOk, IfErr, OnOk, IsErr, IsErrOf, IsTrue, Option, List, ℕ};
ghost use Rattle.model_histories.specs.Shapes.{most_entries};
ghost use Rattle.std.specs.String.{string_bytes};
ghost use Rattle.std.specs.Io.KnownBytes.{Appends};
ghost use Rattle.command_words.specs.Jobs.{IsInRange};
ghost use Rattle.command_streams.specs.Sources.{Sources};
ghost use Rattle.command_streams.specs.Streams.{StopsWriting};
ghost use Rattle.command_streams.specs.Devices.{LeavesDevices};
ghost use Rattle.command_streams.specs.Watched.{held, has_failed, is_delivered};
ghost use Rattle.command_jobs.specs.Performed.{form_of, rendering_of, extent_of, EndsJob, IsPerformed, HasJobCause, IsMannerOf, IsPaintedBy};
ghost use Rattle.command_jobs.specs.Performed.{IsRecorded, IsRecordedFirst, BarsTrace, IsAlone, status_of_answer};
ghost use Rattle.command_jobs.specs.OneSource.{source, file_of, IsOfOne};
ghost use Rattle.command_streams.specs.Readings.{reading};
ghost use Rattle.tool_commands.specs.Replays.{IsReplayed, HasReplayCause};
ghost use Rattle.tool_commands.specs.Traced.{writing};

use crate::named::{file_of, named_file, open_source};
use command_streams::{CliFault, Host, Watched, write_text};
use command_words::{Color, Format, INPUT, Job, Language};
use dag_drawing::Form;
use judge_command::judge_stream;
use program_runs::OpenDoor;
use race_explanations::Extent;
use race_records::RecordForm;
use std::alloc::Global;
use std::io::{Read, Write};
use std::sync::Wait;
use std::thread::Threads;
use tool_commands::{
    Manner, Rendering, draw_text, elide_text, explain_files, explain_text, replay_text, run_text,
    trace_run_of_text, write_run_trace, write_traced_run,
};

/// What standard input is called where a file's name would stand.
const INPUT_NAME: &str = "<stdin>";

/// The language of a drawing, as the words of the command line name it.
fn form_of(language: Language) -> Form
    ensures { result ≡ form_of language }
{
    match language {
        Language::Dot => Form::Dot,
        Language::Svg => Form::Svg,
    }
}

/// Judges, elides or draws what a reader gives.
fn answer_read<R: Read, W: Write>(
    alloc: Global,
    job: &Job,
    reader: &mut Watched<R>,
    output: &mut Watched<W>,
) -> Result<u8, CliFault>
    requires reader { has_failed reader.old ≡ false }
    requires writer { has_failed output.old ≡ false }
    requires ranges { IsInRange job.now }
    requires one { IsOfOne job.now }
    requires alone { IsAlone job.now }
    ensures done { (sources : Sources) → R.remaining (held reader.old) ≡ source sources (file_of job.now) →
        IfOk result (IsPerformed sources job.now (W.contents (held output.old)) (W.contents (held output.new))) }
    ensures fault { (sources : Sources) → R.remaining (held reader.old) ≡ source sources (file_of job.now) →
        IfErr result (HasJobCause sources job.now (W.contents (held output.old)) (W.contents (held output.new))) }
    ensures status { IfOk result (λ status. status ≤ 4) }
    ensures devices { LeavesDevices result (has_failed reader.new) output.old output.new }
{
    match job {
        Job::Judge { limit, .. } => judge_stream(alloc, reader, output, *limit),
        Job::Elide { limit, .. } => elide_text(alloc, reader, output, *limit),
        Job::Draw { language, .. } => draw_text(alloc, form_of(*language), reader, output),
        _ => unreachable!(),
    }
}

/// Judges, elides or draws what a job names.
fn read_source<H: Host, W: Write>(
    alloc: Global,
    host: &mut Watched<H>,
    job: &Job,
    output: &mut Watched<W>,
) -> Result<u8, CliFault>
    requires host { has_failed host.old ≡ false }
    requires writer { has_failed output.old ≡ false }
    requires ranges { IsInRange job.now }
    requires one { IsOfOne job.now }
    requires alone { IsAlone job.now }
    ensures job { EndsJob (H.sources (held host.old)) (H.lacks (held host.old)) job.now
        (W.contents (held output.old)) (W.contents (held output.new)) result }
    ensures status { IfOk result (λ status. status ≤ 4) }
    ensures devices { LeavesDevices result (has_failed host.new) output.old output.new }
{
    let mut reader = open_source(host, file_of(job))?;
    let answer = answer_read(alloc, job, &mut reader, output);
    host.note(&reader);
    answer
}

/// The form of an explanation, as the words of the command line name it.
fn rendering_of(format: Format) -> Rendering
    ensures { result ≡ rendering_of format }
{
    match format {
        Format::Text => Rendering::Text,
        Format::Json => Rendering::Record(RecordForm::Json),
        Format::Sarif => Rendering::Record(RecordForm::Sarif),
    }
}

/// Whether words are painted, which a terminal may show or not.
fn is_painted(color: Color, is_terminal: bool) -> bool
    ensures { IsPaintedBy color result }
{
    match color {
        Color::Auto => is_terminal,
        Color::Always => true,
        Color::Never => false,
    }
}

/// How much is told of races.
fn extent_of(is_all: bool) -> Extent
    ensures { result ≡ extent_of is_all }
{
    if is_all { Extent::All } else { Extent::First }
}

/// How a run is explained of the program with this name.
fn manner_of(
    file: &str,
    color: Color,
    format: Format,
    is_all: bool,
    is_terminal: bool,
) -> Manner<'_>
    ensures { IsMannerOf file.now color format is_all result }
{
    Manner {
        is_painted: is_painted(color, is_terminal),
        rendering: rendering_of(format),
        extent: extent_of(is_all),
        file,
    }
}

/// Runs the program that a reader gives, and reports, traces or explains the run.
fn answer_run<P: Read, W: Write, R: Threads + Wait + Sync>(
    threads: &R,
    alloc: Global,
    job: &Job,
    program: &mut Watched<P>,
    is_terminal: bool,
    output: &mut Watched<W>,
) -> Result<u8, CliFault>
    requires reader { has_failed program.old ≡ false }
    requires writer { has_failed output.old ≡ false }
    requires ranges { IsInRange job.now }
    requires one { IsOfOne job.now }
    requires threads { IsAlone job.now → ⊥ }
    ensures done { (sources : Sources) → P.remaining (held program.old) ≡ source sources (file_of job.now) →
        IfOk result (IsPerformed sources job.now (W.contents (held output.old)) (W.contents (held output.new))) }
    ensures fault { (sources : Sources) → P.remaining (held program.old) ≡ source sources (file_of job.now) →
        IfErr result (HasJobCause sources job.now (W.contents (held output.old)) (W.contents (held output.new))) }
    ensures status { IfOk result (λ status. status ≤ 4) }
    ensures devices { LeavesDevices result (has_failed program.new) output.old output.new }
{
    match job {
        Job::Run { workers, limit, .. } => run_text(
            threads, alloc, alloc, program, *workers, &OpenDoor, output, *limit,
        ),
        Job::Trace { workers, limit, .. } => {
            write_run_trace(threads, alloc, program, *workers, &OpenDoor, output, *limit)
        }
        Job::Explain {
            file,
            workers,
            is_serial,
            limit,
            color,
            format,
            is_all,
        } => {
            let manner = manner_of(file.as_str(), *color, *format, *is_all, is_terminal);
            explain_text(
                threads, alloc, &manner, program, *workers, *is_serial, &OpenDoor, output, *limit,
            )
        }
        Job::ExplainInput {
            workers,
            is_serial,
            limit,
            color,
            format,
            is_all,
        } => {
            let manner = manner_of(INPUT_NAME, *color, *format, *is_all, is_terminal);
            explain_text(
                threads, alloc, &manner, program, *workers, *is_serial, &OpenDoor, output, *limit,
            )
        }
        _ => unreachable!(),
    }
}

/// Whether what a job explains is seen on a terminal.
fn is_seen<H: Host>(host: &Watched<H>, job: &Job) -> bool {
    matches!(job, Job::Explain { .. } | Job::ExplainInput { .. }) && host.is_terminal()
}

/// Runs the program that a job names, and reports, traces or explains the run.
fn run_source<H: Host, W: Write, R: Threads + Wait + Sync>(
    threads: &R,
    alloc: Global,
    host: &mut Watched<H>,
    job: &Job,
    output: &mut Watched<W>,
) -> Result<u8, CliFault>
    requires host { has_failed host.old ≡ false }
    requires writer { has_failed output.old ≡ false }
    requires ranges { IsInRange job.now }
    requires one { IsOfOne job.now }
    requires threads { IsAlone job.now → ⊥ }
    ensures job { EndsJob (H.sources (held host.old)) (H.lacks (held host.old)) job.now
        (W.contents (held output.old)) (W.contents (held output.new)) result }
    ensures status { IfOk result (λ status. status ≤ 4) }
    ensures devices { LeavesDevices result (has_failed host.new) output.old output.new }
{
    let mut program = open_source(host, file_of(job))?;
    let is_terminal = is_seen(host, job);
    let answer = answer_run(threads, alloc, job, &mut program, is_terminal, output);
    host.note(&program);
    answer
}

/// Explains the traces in some files together.
fn explain_traces<H: Host, W: Write>(
    alloc: Global,
    host: &mut Watched<H>,
    files: &Vec<String>,
    color: Color,
    format: Format,
    is_all: bool,
    output: &mut Watched<W>,
) -> Result<u8, CliFault>
    requires host { has_failed host.old ≡ false }
    requires writer { has_failed output.old ≡ false }
    ensures job { EndsJob (H.sources (held host.old)) (H.lacks (held host.old)) (Job.ExplainTraces files.now color format is_all)
        (W.contents (held output.old)) (W.contents (held output.new)) result }
    ensures status { IfOk result (λ status. status ≤ 4) }
    ensures devices { LeavesDevices result (has_failed host.new) output.old output.new }
{
    let is_painted = is_painted(color, host.is_terminal());
    explain_files(
        alloc,
        host,
        is_painted,
        extent_of(is_all),
        rendering_of(format),
        files.as_slice(),
        output,
    )
}

/// Runs the program in a file by so many workers, and writes the trace of the run into a file and the report. The trace's file is
/// created when the run is done.
fn record_file<H: Host, W: Write, R: Threads + Wait + Sync>(
    threads: &R,
    alloc: Global,
    host: &mut Watched<H>,
    file: &String,
    workers: usize,
    limit: u32,
    trace: &String,
    output: &mut Watched<W>,
) -> Result<u8, CliFault>
    requires host { has_failed host.old ≡ false }
    requires writer { has_failed output.old ≡ false }
    requires workers { (0 < workers) × (workers ≤ 64) }
    requires limit { limit ≤ most_entries }
    ensures job { EndsJob (H.sources (held host.old)) (H.lacks (held host.old)) (Job.Record file.now workers limit trace.now)
        (W.contents (held output.old)) (W.contents (held output.new)) result }
    ensures devices { LeavesDevices result (has_failed host.new) output.old output.new }
    ensures recorded { IfOk result (IsRecorded (H.sources (held host.old)) (Job.Record file.now workers limit trace.now)
        (H.blank (held host.old)) (H.made (held host.new)) (writing (W.contents (held output.old)) (W.contents (held output.new)))) }
    ensures recorded_first { IfErr result (λ fault. fault ≡ CliFault.Write →
        IsRecordedFirst (H.sources (held host.old)) (Job.Record file.now workers limit trace.now)
        (H.blank (held host.old)) (H.made (held host.new)) (writing (W.contents (held output.old)) (W.contents (held output.new)))) }
    ensures barred { BarsTrace (H.bars (held host.old)) (Job.Record file.now workers limit trace.now) → IsErr result }
{
    let mut program = match host.open(file.as_str()) {
        Ok(program) => program,
        Err(fault) => return Err(fault),
    };
    let told = trace_run_of_text(threads, alloc, &mut program, workers, &OpenDoor, limit);
    host.note(&program);
    let told = match told {
        Ok(told) => told,
        Err(fault) => return Err(fault),
    };
    let mut created = match host.create(trace.as_str()) {
        Ok(created) => created,
        Err(fault) => return Err(fault),
    };
    let answer = write_traced_run(&told, &mut created, output);
    host.close(trace.as_str(), created);
    answer
}

/// Replays the trace in a file as a run of the program on standard input.
fn replay_input<H: Host, W: Write>(
    alloc: Global,
    host: &mut Watched<H>,
    trace: &String,
    output: &mut Watched<W>,
) -> Result<u8, CliFault>
    requires host { has_failed host.old ≡ false }
    requires writer { has_failed output.old ≡ false }
    ensures done { IfOk result (λ status. (program_behind : Option (List ℕ)) × (trace_behind : Option (List ℕ)) ×
        IsReplayed (reading (H.sources (held host.old)).input program_behind)
        (reading ((H.sources (held host.old)).file (string_bytes trace.now)) trace_behind)
        (W.contents (held output.old)) (W.contents (held output.new)) status) }
    ensures fault { IfErr result (λ fault. (program_behind : Option (List ℕ)) × (trace_behind : Option (List ℕ)) ×
        HasReplayCause (reading (H.sources (held host.old)).input program_behind)
        (reading ((H.sources (held host.old)).file (string_bytes trace.now)) trace_behind)
        (W.contents (held output.old)) (W.contents (held output.new)) fault) }
    ensures lacking { H.lacks (held host.old) (string_bytes trace.now) → IsErrOf result CliFault.Read }
    ensures devices { LeavesDevices result (has_failed host.new) output.old output.new }
{
    let mut entries = host.open(trace.as_str())?;
    let mut program = host.input();
    let answer = replay_text(alloc, &mut program, &mut entries, output);
    host.note(&program);
    host.note(&entries);
    answer
}

/// Replays the trace in one file as a run of the program in another. Both are opened before either is read.
fn replay_files<H: Host, W: Write>(
    alloc: Global,
    host: &mut Watched<H>,
    file: &String,
    trace: &String,
    output: &mut Watched<W>,
) -> Result<u8, CliFault>
    requires host { has_failed host.old ≡ false }
    requires writer { has_failed output.old ≡ false }
    ensures job { EndsJob (H.sources (held host.old)) (H.lacks (held host.old)) (Job.Replay file.now trace.now)
        (W.contents (held output.old)) (W.contents (held output.new)) result }
    ensures devices { LeavesDevices result (has_failed host.new) output.old output.new }
{
    if file.as_str() == INPUT {
        return replay_input(alloc, host, trace, output);
    }
    let mut program = host.open(file.as_str())?;
    let mut entries = open_source(host, named_file(trace.as_str()))?;
    let answer = replay_text(alloc, &mut program, &mut entries, output);
    host.note(&program);
    host.note(&entries);
    answer
}

/// Writes a text.
fn show<W: Write>(text: &String, output: &mut Watched<W>) -> Result<u8, CliFault>
    requires { has_failed output.old ≡ false }
    ensures done { IfOk result (λ status.
        (status ≡ 0) × Appends (W.contents (held output.old)) (W.contents (held output.new)) (string_bytes text.now)) }
    ensures fault { IfErr result (StopsWriting (W.contents (held output.old)) (W.contents (held output.new)) (string_bytes text.now)) }
    ensures delivered { OnOk result (is_delivered output.new ≡ true) }
    ensures write_failed { IsErrOf result CliFault.Write ↔ IsTrue (has_failed output.new) }
{
    write_text(output, text.as_str().as_bytes())?;
    Ok(0)
}

/// Does a job that starts no thread, and waits for none: all but [`Job::Run`], [`Job::Trace`], [`Job::Record`], [`Job::Explain`] and
/// [`Job::ExplainInput`]. It is [`perform`] for these.
pub fn perform_alone<H: Host, W: Write>(
    alloc: Global,
    host: &mut Watched<H>,
    job: &Job,
    output: &mut Watched<W>,
) -> Result<u8, CliFault>
    requires host { has_failed host.old ≡ false }
    requires writer { has_failed output.old ≡ false }
    requires ranges { IsInRange job.now }
    requires alone { IsAlone job.now }
    ensures job { EndsJob (H.sources (held host.old)) (H.lacks (held host.old)) job.now
        (W.contents (held output.old)) (W.contents (held output.new)) result }
    ensures status { IfOk result (λ status. status ≤ 4) }
    ensures devices { LeavesDevices result (has_failed host.new) output.old output.new }
{
    match job {
        Job::Judge { .. } | Job::Elide { .. } | Job::Draw { .. } => {
            read_source(alloc, host, job, output)
        }
        Job::Replay { file, trace } => replay_files(alloc, host, file, trace, output),
        Job::Show { text } => show(text, output),
        Job::ExplainTraces {
            files,
            color,
            format,
            is_all,
        } => explain_traces(alloc, host, files, *color, *format, *is_all, output),
        _ => unreachable!(),
    }
}

/// Does a job, and answers its exit status, which is 0 to 4: what [`judge_stream`], [`elide_text`], [`run_text`], [`write_run_trace`],
/// [`explain_text`], [`replay_text`] or [`draw_text`] does with standard input or the files of its names, or writes the text that is to be
/// shown. What is written is delivered then. All files of a job that are read are opened before one is read, but for those of several traces,
/// which are read one after another. A run that is recorded is done
/// as [`run_traced_text`](tool_commands::run_traced_text) does it; the file of its trace is created once the run is done, and has the trace before
/// the report is written.
///
/// It answers [`CliFault::Read`] exactly where the host has failed, by a file that can't be opened or a reader that fails, and
/// [`CliFault::Write`] exactly where the writer has; [`CliFault::Unwritten`] where the file of a trace can't be created or written, and
/// each other fault where that call does. Nothing is written then, but for the part that a failed write has taken.
pub fn perform<H: Host, W: Write, R: Threads + Wait + Sync>(
    threads: &R,
    alloc: Global,
    host: &mut Watched<H>,
    job: &Job,
    output: &mut Watched<W>,
) -> Result<u8, CliFault>
    requires host { has_failed host.old ≡ false }
    requires writer { has_failed output.old ≡ false }
    requires ranges { IsInRange job.now }
    ensures job { EndsJob (H.sources (held host.old)) (H.lacks (held host.old)) job.now
        (W.contents (held output.old)) (W.contents (held output.new)) result }
    ensures status { IfOk result (λ status. status ≤ 4) }
    ensures devices { LeavesDevices result (has_failed host.new) output.old output.new }
    ensures recorded { IfOk result (IsRecorded (H.sources (held host.old)) job.now (H.blank (held host.old)) (H.made (held host.new))
        (writing (W.contents (held output.old)) (W.contents (held output.new)))) }
    ensures recorded_first { IfErr result (λ fault. fault ≡ CliFault.Write → IsRecordedFirst (H.sources (held host.old)) job.now
        (H.blank (held host.old)) (H.made (held host.new)) (writing (W.contents (held output.old)) (W.contents (held output.new)))) }
    ensures barred { BarsTrace (H.bars (held host.old)) job.now → IsErr result }
{
    match job {
        Job::Run { .. } | Job::Trace { .. } | Job::Explain { .. } | Job::ExplainInput { .. } => {
            run_source(threads, alloc, host, job, output)
        }
        Job::Record {
            file,
            workers,
            limit,
            trace,
        } => record_file(threads, alloc, host, file, *workers, *limit, trace, output),
        _ => perform_alone(alloc, host, job, output),
    }
}

/// The exit status of the process, which is 0 to 4: that of the job, or that of the fault.
pub fn exit_of(answer: &Result<u8, CliFault>) -> u8
    requires { IfOk answer.now (λ status. status ≤ 4) }
    ensures status { result ≡ status_of_answer answer.now }
    ensures range { result ≤ 4 }
{
    match answer {
        Ok(status) => *status,
        Err(fault) => fault.status(),
    }
}
