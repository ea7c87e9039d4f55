//! What a handle holds.

use serial_judge::{Marks, Moves, SerialJudge};
use std::alloc::Global;

/// A judge, and what there is while its records are given up.
#[derive(Drop)]
pub struct Held {
    pub judge: SerialJudge<Global>,
    /// From `cilkcheck_judge_begin_mark` to `cilkcheck_judge_end_mark`.
    pub marks: Option<Marks<Global>>,
    /// From there to `cilkcheck_judge_end_renumber`.
    pub moves: Option<Moves<Global>>,
}
