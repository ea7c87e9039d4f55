//! What is read: standard input, or a file.

ghost use Rattle.std.specs.Prelude.{◌≡◌, ◌||◌, false, IfOk, IfErr, IsErr, is_err, option_map};
ghost use Rattle.either.specs.Either.{either};
ghost use Rattle.command_streams.specs.Watched.{held, has_failed};
ghost use Rattle.command_jobs.specs.OneSource.{source, lacks_source, named_file, file_of};

use command_streams::{CliFault, Host, Watched};
use command_words::{INPUT, Job};
use either::Either;

/// The file that this name stands for: none for [`INPUT`], which is standard input.
pub(crate) fn named_file(name: &str) -> Option<&str>
    ensures { option_map (λ file. file.now) result ≡ named_file name.now }
{
    if name == INPUT { None } else { Some(name) }
}

/// The file that a job of one source reads, which reads standard input where there is none.
pub(crate) fn file_of(job: &Job) -> Option<&str>
    ensures { option_map (λ file. file.now) result ≡ file_of job.now }
{
    match job {
        Job::Explain { file, .. } => Some(file.as_str()),
        Job::Judge {
            file: Some(file),
            ..
        }
        | Job::Elide { file, .. }
        | Job::Run { file, .. }
        | Job::Trace { file, .. }
        | Job::Draw { file, .. } => named_file(file.as_str()),
        _ => None,
    }
}

/// Opens a file, or standard input where there is no name. It answers [`CliFault::Read`] where the file can't be opened, and the host has
/// failed then.
pub(crate) fn open_source<H: Host>(
    host: &mut Watched<H>,
    file: Option<&str>,
) -> Result<Watched<Either<H::Input, H::File>>, CliFault>
    ensures bytes { IfOk result (λ opened. either H.Input.remaining H.File.remaining (held opened)
        ≡ source (H.sources (held host.old)) (option_map (λ name. name.now) file.entry)) }
    ensures fresh { IfOk result (λ opened. has_failed opened ≡ false) }
    ensures fault { IfErr result (λ fault. fault ≡ CliFault.Read) }
    ensures failed { has_failed host.new ≡ (has_failed host.old || is_err result) }
    ensures lacking { lacks_source (H.lacks (held host.old)) (option_map (λ name. name.now) file.entry) → IsErr result }
{
    let Some(name) = file else {
        return Ok(Watched::new(Either::Left(host.input().into_inner())));
    };
    Ok(Watched::new(Either::Right(host.open(name)?.into_inner())))
}
