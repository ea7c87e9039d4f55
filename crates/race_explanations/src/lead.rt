//! Where the two strands of a finding part, in pieces, so that findings of several traces that part at one spawn are told together.

ghost use Rattle.std.specs.Prelude.{IfOk};
ghost use Rattle.race_explanations.specs.Scenes.{setting_of};
ghost use Rattle.race_explanations.specs.Leads.{IsLead, IsLeadOf};

use crate::advice::{begin_help, push_rounds, push_sync_place};
use crate::case::Course;
use crate::group::push_beside;
use crate::paths::push_line;
use crate::pieces::Pieces;
use crate::scene::Scene;
use crate::words::are_in_one_call;
use std::alloc::{AllocError, Global};

/// The spawn at which the two strands of a finding part.
pub struct Lead {
    /// What its place is told as.
    pub(crate) spawn: Vec<u8>,
    /// What the place is told as to which the spawner goes on.
    pub(crate) onward: Vec<u8>,
    /// Beside what it runs.
    pub(crate) beside: Vec<u8>,
    /// A sync, without whether it is sure to order the two.
    pub(crate) sync: Vec<u8>,
    /// What is told where the spawner goes on to the line of the spawn.
    pub(crate) rounds: Vec<u8>,
    /// Whether the spawner is known to go on to a line of the call that spawns.
    pub(crate) is_within: bool,
    /// The number of its trace.
    pub(crate) trace: usize,
    /// The entries of the spawn and of where its spawner goes on.
    pub(crate) course: Course,
}

/// Written out, so that what lets it go calls one function.
impl Drop for Lead {
    fn drop(self) {
        let Lead {
            spawn: _,
            onward: _,
            beside: _,
            sync: _,
            rounds: _,
            is_within: _,
            trace: _,
            course: _,
        } = self;
    }
}

/// The spawn on a line, at which two strands of the trace with this number part, whose spawner goes on so.
fn lead_at(
    alloc: Global,
    scene: &Scene<'_, '_>,
    trace: usize,
    line: u32,
    course: Course,
) -> Result<Lead, AllocError>
    ensures { IfOk result (IsLead (setting_of scene.now) trace line course) }
{
    let mut pieces = Pieces::new(alloc);
    push_line(&mut pieces.text, scene, line);
    let spawn = pieces.cut();
    push_line(&mut pieces.text, scene, course.line);
    let onward = pieces.cut();
    push_beside(&mut pieces.text, scene, line, Some(course));
    let beside = pieces.cut();
    begin_help(&mut pieces.text, scene);
    push_sync_place(&mut pieces.text, scene, line, course.line);
    let sync = pieces.cut();
    push_rounds(&mut pieces.text, scene);
    let rounds = pieces.cut();
    let lead = Lead {
        spawn,
        onward,
        beside,
        sync,
        rounds,
        is_within: are_in_one_call(scene, line, course.line),
        trace,
        course,
    };
    pieces.end()?;
    Ok(lead)
}

/// The spawn on a line, where two strands part at one.
pub(crate) fn lead_of(
    alloc: Global,
    scene: &Scene<'_, '_>,
    trace: usize,
    spawn: Option<u32>,
    course: Course,
) -> Result<Option<Lead>, AllocError>
    ensures { IfOk result (IsLeadOf (setting_of scene.now) trace spawn course) }
{
    match spawn {
        Some(line) => Ok(Some(lead_at(alloc, scene, trace, line, course)?)),
        None => Ok(None),
    }
}
