//! Several traces explained together.

ghost use Rattle.std.specs.Prelude.{◌≡◌, ◌↔◌, ◌≤◌, false, IfOk, IfErr, OnOk, IsErrOf, IsTrue, Option, List, ℕ, Bool, map, string_bytes};
ghost use Rattle.std.specs.Option.{option_map};
ghost use Rattle.command_streams.specs.Devices.{LeavesDevices};
ghost use Rattle.command_streams.specs.Watched.{held, has_failed};
ghost use Rattle.command_streams.specs.Readings.{reading};
ghost use Rattle.tool_commands.specs.Together.{together_of, TakesReading, StopsTaking};
ghost use Rattle.tool_commands.specs.Several.{style, TellsSeveral, StopsSeveral, AreExplained, HasSeveralCause};
ghost use Rattle.tool_commands.specs.Several.{lacks_first};

use crate::explain::{Manner, Rendering};
use crate::explain_traces::Traces;
use crate::outcome::write_told;
use command_streams::{CliFault, Host, Watched};
use race_explanations::Extent;
use std::alloc::Global;
use std::io::Write;

/// Takes the trace in a file, or tells the faults of its text.
fn take_file<H: Host>(
    alloc: Global,
    host: &mut Watched<H>,
    manner: &Manner<'_>,
    traces: &mut Traces,
) -> Result<Option<Vec<u8>>, CliFault>
    requires { has_failed host.old ≡ false }
    ensures ok { IfOk result (λ told. (behind : Option (List ℕ)) ×
        TakesReading manner.now (reading ((H.sources (held host.old)).file manner.now.file) behind) (together_of traces.old) (together_of traces.new) told) }
    ensures fault { IfErr result (λ fault. (behind : Option (List ℕ)) ×
        StopsTaking (reading ((H.sources (held host.old)).file manner.now.file) behind) fault) }
    ensures read_failed { IsErrOf result CliFault.Read ↔ IsTrue (has_failed host.new) }
    ensures same { held host.new ≡ held host.old }
    ensures stands { OnOk result (has_failed host.new ≡ false) }
    ensures not_write { IsErrOf result CliFault.Write → ⊥ }
    ensures lacking { H.lacks (held host.old) manner.now.file → IsErrOf result CliFault.Read }
{
    let mut trace = host.open(manner.file)?;
    let taken = traces.read(alloc, manner, &mut trace);
    host.note(&trace);
    taken
}

/// What is told of the traces in some files, and the exit status.
fn explain_texts<H: Host>(
    alloc: Global,
    host: &mut Watched<H>,
    is_painted: bool,
    extent: Extent,
    rendering: Rendering,
    files: &[String],
) -> Result<(Vec<u8>, u8), CliFault>
    requires { has_failed host.old ≡ false }
    ensures ok { IfOk result (λ told. TellsSeveral (style is_painted extent rendering) (H.sources (held host.old)).file
        (map string_bytes files.now) told.0.items told.1) }
    ensures fault { IfErr result (StopsSeveral (style is_painted extent rendering) (H.sources (held host.old)).file
        (map string_bytes files.now)) }
    ensures read_failed { IsErrOf result CliFault.Read ↔ IsTrue (has_failed host.new) }
    ensures not_write { IsErrOf result CliFault.Write → ⊥ }
    ensures lacking { lacks_first (H.lacks (held host.old)) (map string_bytes files.now) → IsErrOf result CliFault.Read }
{
    let mut traces = Traces::new(alloc);
    for file in files {
        let manner = Manner {
            is_painted,
            extent,
            rendering,
            file: file.as_str(),
        };
        if let Some(told) = take_file(alloc, host, &manner, &mut traces)? {
            return Ok((told, 2));
        }
    }
    Ok((
        traces.to_message(alloc, extent, rendering)?,
        traces.status(),
    ))
}

/// Explains the traces in some files together.
pub fn explain_files<H: Host, W: Write>(
    alloc: Global,
    host: &mut Watched<H>,
    is_painted: bool,
    extent: Extent,
    rendering: Rendering,
    files: &[String],
    output: &mut Watched<W>,
) -> Result<u8, CliFault>
    requires host { has_failed host.old ≡ false }
    requires writer { has_failed output.old ≡ false }
    ensures done { IfOk result (AreExplained (style is_painted extent rendering) (H.sources (held host.old)).file
        (map string_bytes files.now) (W.contents (held output.old)) (W.contents (held output.new))) }
    ensures fault { IfErr result (HasSeveralCause (style is_painted extent rendering) (H.sources (held host.old)).file
        (map string_bytes files.now) (W.contents (held output.old)) (W.contents (held output.new))) }
    ensures status { IfOk result (λ status. status ≤ 2) }
    ensures devices { LeavesDevices result (has_failed host.new) output.old output.new }
    ensures lacking { lacks_first (H.lacks (held host.old)) (map string_bytes files.now) → IsErrOf result CliFault.Read }
{
    write_told(
        output,
        explain_texts(alloc, host, is_painted, extent, rendering, files),
    )
}
