//! The steps that the gate makes at a request.

ghost use Rattle.std.specs.Prelude.{◌≡◌, ◌<◌, ◌↔◌, ℕ, List, length, slice_index, true, Some, IsTrue, IsSome, IfOk, IfErr, OnErr};
ghost use Rattle.model_accesses.specs.Table.{is_memory_kind};
ghost use Rattle.model_strands.specs.History.{Event, History};
ghost use Rattle.model_strands.specs.Blocks.{stack, IsSynced};
ghost use Rattle.sp_labels.specs.Roster.{Follows, FollowsSome, HasFewLeft};
ghost use Rattle.model_accesses.specs.Accesses.{Access};
ghost use Rattle.shadow_history.specs.Shadow.{Remembers, StandsOn, Runs};
ghost use Rattle.race_gate.specs.Accesses.{act_of_control, act_of_cell, act_of_reducer, access_of, reducer_of};
ghost use Rattle.race_gate.specs.Shapes.{shape_of};
ghost use Rattle.model_histories.specs.Shapes.{IsInRange};
ghost use Rattle.model_histories.specs.Entries.{event_between};
ghost use Rattle.model_histories.specs.Legal.{Belongs};
ghost use Rattle.race_gate.specs.Books.{KeepsStill, KeepsOn, OptionKeepsStill, OptionKeepsOn, OptionKeepsRunning};
ghost use Rattle.race_gate.specs.Books.{answered_act, OptionAnswersAccess, OptionHasReducer};
ghost use Rattle.model_races.specs.Accesses.{is_granted};
ghost use Rattle.model_races.specs.Memory.{effect_on_cell};
ghost use Rattle.model_races.specs.Verdicts.{IfValue};
ghost use Rattle.race_gate.specs.Steps.{FollowsWith, GoesOn, numbered_access, IsJudgedBy, TakesPlace};

use crate::access::{CellAct, ControlAct, ReducerAct, access_of};
use crate::reducers::ReducerTracks;
use access_table::{asked_by, is_memory, rule};
use model_accesses::{Act, Asked};
use model_histories::{Answer, GateFault};
use model_races::CellAccess;
use shadow_history::Shadow;
use sp_labels::{Returned, SpFault, Strands, Synced};
use std::alloc::Allocator;
use text_words::Shape;

/// Whether the cell or reducer that an act names is there.
#[inline(always)]
pub fn is_in_range<A: Allocator>(shape: &Shape<A>, act: Act) -> bool
    ensures { IsTrue result ↔ IsInRange (shape_of shape.now) act }
{
    match asked_by(act) {
        None => true,
        Some(Asked { kind, place }) if is_memory(kind) => place < shape.cells,
        Some(Asked { kind: _, place }) => (place as usize) < shape.monoids.as_slice().len(),
    }
}

/// Lets a running strand spawn, sync, call or return in a program with reducers. Room for their part is made first. Where memory is
/// refused, nothing changes.
#[inline(always)]
pub fn control_with<A: Allocator + Clone>(
    strands: &mut Strands<A>,
    reducers: &mut ReducerTracks<A>,
    strand: u32,
    act: ControlAct,
) -> Result<Answer, GateFault>
    requires follows { FollowsWith strands.old (Some reducers.old) }
    requires runs { Runs strands.old strand }
    requires synced { act ≡ ControlAct.Return → (history : History) → Follows strands.old history → IsSynced (stack history strand) }
    requires numbers { (history : History) → Follows strands.old history → HasFewLeft history → ⊥ }
    ensures ok { IfOk result (λ answer.
        (history : History) → Follows strands.old history → GoesOn history strand (act_of_control act) answer strands.new) }
    ensures books { IfOk result (λ answer.
        (event : Event) → event_between strand (act_of_control act) answer ≡ Some event → KeepsOn reducers.old reducers.new event) }
    ensures err { IfErr result (λ fault. fault ≡ GateFault.Memory) }
    ensures still { OnErr result (strands.new ≡ strands.old) }
    ensures books_still { OnErr result (KeepsStill reducers.old reducers.new) }
{
    reducers.reserve_event()?;
    let answer = answer_to(strands, strand, act)?;
    reducers.follow(strand, answer);
    Ok(answer)
}

/// The answer to an act of control, with which the strands go on. Where memory is refused, nothing changes.
#[inline(always)]
pub fn answer_to<A: Allocator>(
    strands: &mut Strands<A>,
    strand: u32,
    act: ControlAct,
) -> Result<Answer, GateFault>
    requires follows { FollowsSome strands.old }
    requires runs { Runs strands.old strand }
    requires synced { act ≡ ControlAct.Return → (history : History) → Follows strands.old history → IsSynced (stack history strand) }
    requires numbers { (history : History) → Follows strands.old history → HasFewLeft history → ⊥ }
    ensures ok { IfOk result (λ answer.
        (history : History) → Follows strands.old history → GoesOn history strand (act_of_control act) answer strands.new) }
    ensures err { IfErr result (λ fault. fault ≡ GateFault.Memory) }
    ensures still { OnErr result (strands.new ≡ strands.old) }
{
    match act {
        ControlAct::Spawn => spawn(strands, strand),
        ControlAct::Sync => Ok(sync(strands, strand)),
        ControlAct::Call => call(strands, strand),
        ControlAct::Return => Ok(ret(strands, strand)),
    }
}

#[inline(always)]
fn spawn<A: Allocator>(strands: &mut Strands<A>, strand: u32) -> Result<Answer, GateFault>
    requires follows { FollowsSome strands.old }
    requires runs { Runs strands.old strand }
    requires numbers { (history : History) → Follows strands.old history → HasFewLeft history → ⊥ }
    ensures ok { IfOk result (λ answer.
        (history : History) → Follows strands.old history → GoesOn history strand Act.Spawn answer strands.new) }
    ensures err { IfErr result (λ fault. fault ≡ GateFault.Memory) }
    ensures still { OnErr result (strands.new ≡ strands.old) }
{
    match strands.spawn(strand) {
        Ok(spawned) => Ok(Answer::Split(spawned)),
        Err(SpFault::Memory) => Err(GateFault::Memory),
        Err(_) => unreachable!(),
    }
}

#[inline(always)]
fn sync<A: Allocator>(strands: &mut Strands<A>, strand: u32) -> Answer
    requires follows { FollowsSome strands.old }
    requires runs { Runs strands.old strand }
    ensures { (history : History) → Follows strands.old history → GoesOn history strand Act.Sync result strands.new }
{
    match strands.sync(strand) {
        Ok(Synced::Same) => Answer::Same,
        Ok(Synced::Joined(join)) => Answer::Joined(join),
        Ok(Synced::Waits) => Answer::Waits,
        Err(_) => unreachable!(),
    }
}

#[inline(always)]
fn call<A: Allocator>(strands: &mut Strands<A>, strand: u32) -> Result<Answer, GateFault>
    requires follows { FollowsSome strands.old }
    requires runs { Runs strands.old strand }
    ensures ok { IfOk result (λ answer.
        (history : History) → Follows strands.old history → GoesOn history strand Act.Call answer strands.new) }
    ensures err { IfErr result (λ fault. fault ≡ GateFault.Memory) }
    ensures still { OnErr result (strands.new ≡ strands.old) }
{
    match strands.call(strand) {
        Ok(()) => Ok(Answer::Same),
        Err(SpFault::Memory) => Err(GateFault::Memory),
        Err(_) => unreachable!(),
    }
}

#[inline(always)]
fn ret<A: Allocator>(strands: &mut Strands<A>, strand: u32) -> Answer
    requires follows { FollowsSome strands.old }
    requires runs { Runs strands.old strand }
    requires synced { (history : History) → Follows strands.old history → IsSynced (stack history strand) }
    ensures { (history : History) → Follows strands.old history → GoesOn history strand Act.Return result strands.new }
{
    match strands.ret(strand) {
        Ok(Returned::Resumed) => Answer::Resumed,
        Ok(Returned::Ended) => Answer::Ended,
        Ok(Returned::EndedJoined(join)) => Answer::EndedJoined(join),
        Ok(Returned::Finished) => Answer::Finished,
        Err(_) => unreachable!(),
    }
}

/// Judges an access of a cell by a running strand, and does it where it is granted. `number` is that of its entry.
#[inline(always)]
pub fn judge_access<A: Allocator>(
    strands: &Strands<A>,
    shadow: &mut Shadow<A>,
    memory: &mut [u64],
    number: u32,
    strand: u32,
    act: CellAct,
) -> Answer
    requires runs { Runs strands.now strand }
    requires stands { StandsOn shadow.old strands.now }
    requires in_shadow { (access_of act).location < length shadow.old }
    requires in_memory { (access_of act).location < length memory.old }
    ensures belongs { Belongs (act_of_cell act) result }
    ensures judged { (history : History) (accesses : List Access) → Follows strands.now history → Remembers shadow.old history accesses →
        IsJudgedBy history accesses (numbered_access number strand (access_of act)) result shadow.new }
    ensures locations { length shadow.new ≡ length shadow.old }
    ensures value { IfValue result (λ value. value ≡ slice_index memory.old (access_of act).location) }
    ensures memory { TakesPlace (effect_on_cell (act_of_cell act) result) memory.old memory.new }
{
    let CellAccess { kind, location } = access_of(act);
    if let Some(witness) = shadow.find(strands, location, kind, strand) {
        return Answer::Refused {
            rule: rule(witness.kind, kind),
            witness,
        };
    }
    shadow.add(strands, location, kind, strand, number);
    perform(memory, act)
}

/// Does an access of a cell.
#[inline(always)]
fn perform(memory: &mut [u64], act: CellAct) -> Answer
    requires { (access_of act).location < length memory.old }
    ensures belongs { Belongs (act_of_cell act) result }
    ensures granted { is_granted result ≡ true }
    ensures value { IfValue result (λ value. value ≡ slice_index memory.old (access_of act).location) }
    ensures memory { TakesPlace (effect_on_cell (act_of_cell act) result) memory.old memory.new }
{
    match act {
        CellAct::Read(location) => Answer::Value(memory[location as usize]),
        CellAct::Write(location, value) => {
            memory[location as usize] = value;
            Answer::Granted
        }
        CellAct::Bump(location, value) => {
            let cell = &mut memory[location as usize];
            *cell = cell.wrapping_add(value);
            Answer::Granted
        }
    }
}
