//! The scenes of a run and of a trace.

ghost use Rattle.std.specs.Prelude.{◌≡◌, List};
ghost use Rattle.model_histories.specs.declared.answer.Entry.{Entry};
ghost use Rattle.program_text.specs.Programs.{contents};
ghost use Rattle.trace_text.specs.Traces.{contents as trace_contents};
ghost use Rattle.race_pairs.specs.Digests.{IsDigest};
ghost use Rattle.race_explanations.specs.Scenes.{setting_of};
ghost use Rattle.race_explanations.specs.Explained.{program_file, program_setting, trace_setting};

use crate::scene::{Origin, Scene};
use program_text::Program;
use race_pairs::Digest;
use source_quotes::{Look, Source};
use std::alloc::Global;
use trace_notes::Notes;
use trace_text::Trace;

/// The scene of a run of a program, whose text has these lines.
pub fn program_scene<'s, 'a>(
    is_painted: bool,
    file: &'s str,
    source: &'s Source<'a>,
    program: &'s Program<Global>,
    digest: &'s Digest,
) -> Scene<'s, 'a>
    ensures scene { (entries : List Entry) → IsDigest entries digest.now →
        setting_of result ≡ program_setting is_painted (program_file file.now source.now (contents program.now)) entries }
    ensures digest { result.digest.now ≡ digest.now }
{
    Scene {
        look: Look::of(is_painted, source),
        origin: Origin::Program {
            file,
            source,
            program,
        },
        mems: program.mems.as_slice(),
        reducers: program.reducers.as_slice(),
        digest,
    }
}

/// How wide the column at the left is where no line of a program is quoted.
const WIDTH: usize = 2;

/// The scene of a trace with these notes.
pub fn trace_scene<'s>(
    is_painted: bool,
    notes: &'s Notes,
    trace: &'s Trace<Global>,
    digest: &'s Digest,
) -> Scene<'s, 's>
    ensures scene { (entries : List Entry) → IsDigest entries digest.now →
        setting_of result ≡ trace_setting is_painted notes.now (trace_contents trace.now).known entries }
    ensures digest { result.digest.now ≡ digest.now }
{
    let look = Look {
        is_painted,
        width: WIDTH,
    };
    Scene {
        look,
        origin: Origin::Trace { notes },
        mems: trace.mems.as_slice(),
        reducers: trace.reducers.as_slice(),
        digest,
    }
}
