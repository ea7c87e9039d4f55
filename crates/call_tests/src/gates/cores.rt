//! A judging core: what it answers, counts and keeps, and that it can be stopped.

ghost use Rattle.std.specs.Prelude.{◌≡◌, ◌≤◌, length};
ghost use Rattle.model_reducers.specs.Limits.{most_reducers};
ghost use Rattle.model_histories.specs.Shapes.{most_entries};
ghost use Rattle.race_gate.specs.Accesses.{act_of_cell, act_of_reducer};

use crate::checks::equal;
use race_gate::{Answer, CellAct, Core, GateFault, Receipt, ReducerAct, Reply};
use std::alloc::{AllocError, Global};
use std::process::Abort;
use std::test::Fail;
use text_words::{Act, Monoid, Monoids, Request, Shape};

/// A core over one cell and these reducers, with this limit.
fn opening(alloc: Global, monoids: &[Monoid], limit: u32) -> Result<Core<Global>, AllocError>
    requires entries { limit ≤ most_entries }
    requires reducers { length monoids.now ≤ most_reducers }
{
    let shape = Shape {
        cells: 1,
        monoids: Monoids::new(monoids.to_vec(alloc)?),
    };
    Core::new(alloc, &shape, limit)
}

/// An act of strand 0 on line 1.
macro_rules! request {
    ($act:expr) => {
        Request {
            strand: 0,
            act: $act,
            line: 1,
        }
    };
}

/// How many entries there were, whether the root function has returned, whether the core was stopped, its limit, and the number in its first
/// cell.
type Shown = (u32, bool, bool, u32, Option<u64>);

fn show_core(core: &Core<Global>) -> Shown {
    (
        core.entries(),
        core.is_finished(),
        core.is_stopped(),
        core.limit(),
        core.memory().first().copied(),
    )
}

/// An act of strand 0, and what the core makes of it.
type Judged = (Act, Result<Answer, GateFault>);

/// Checks what the core makes of each act, one after another.
fn check(rt: &impl Abort, core: &mut Core<Global>, judged: &[Judged]) {
    for (act, outcome) in judged {
        equal(rt, act, &core.judge(request!(*act)), outcome);
    }
}

/// Accesses by a core with the limit 4, and the end of its program.
const ACCESSES: &[Judged] = &[
    (Act::Write(0, 5), Ok(Answer::Granted)),
    (Act::Read(1), Err(GateFault::BadName)),
    (Act::Bump(0, 2), Ok(Answer::Granted)),
    (Act::Read(0), Ok(Answer::Value(7))),
];

const END: &[Judged] = &[
    (Act::Return, Ok(Answer::Finished)),
    (Act::Read(0), Err(GateFault::Limit)),
];

const BEFORE_STOP: &[Judged] = &[(Act::Write(0, 5), Ok(Answer::Granted))];

const BEHIND_STOP: &[Judged] = &[(Act::Read(0), Err(GateFault::Stopped))];

/// A stopped core judges nothing, and keeps what it had.
#[test]
fn a_core_judges_as_a_gate_does_until_it_is_stopped(rt: HostRuntime) -> Result<(), Fail> {
    let mut core = opening(rt.alloc(), &[], 4)?;
    check(&rt, &mut core, ACCESSES);
    let wanted = (3, false, false, 4, Some(7));
    equal(&rt, &"accesses", &show_core(&core), &wanted);
    check(&rt, &mut core, END);
    let wanted = (4, true, false, 4, Some(7));
    equal(&rt, &"end", &show_core(&core), &wanted);

    let mut core = opening(rt.alloc(), &[], 2)?;
    check(&rt, &mut core, BEFORE_STOP);
    core.stop();
    check(&rt, &mut core, BEHIND_STOP);
    let wanted = (1, false, true, 2, Some(5));
    equal(&rt, &"stop", &show_core(&core), &wanted);
    Ok(())
}

/// The reply that a request was answered so under this number.
macro_rules! done {
    ($number:literal, $act:expr, $answer:expr) => {
        Reply::Done(Receipt {
            number: $number,
            request: request!($act),
            answer: $answer,
        })
    };
}

/// The replies to a write, an update, a sync and two reads by a core of the limit 4.
const REPLIES: [Reply; 5] = [
    done!(1, Act::Write(0, 5), Answer::Granted),
    done!(2, Act::Update(0, 2), Answer::Granted),
    done!(3, Act::Sync, Answer::Same),
    done!(4, Act::Read(0), Answer::Value(5)),
    Reply::Illegal(GateFault::Limit),
];

/// The reply to an access of a cell.
fn reply_to_cell(core: &mut Core<Global>, request: Request, act: CellAct) -> Reply
    requires { request.act ≡ act_of_cell act }
{
    match core.check(request) {
        Ok(()) => Reply::Done(core.answer_cell(request, act)),
        Err(fault) => Reply::Illegal(fault),
    }
}

/// The reply to an access of a reducer.
fn reply_to_reducer(core: &mut Core<Global>, request: Request, act: ReducerAct) -> Reply
    requires { request.act ≡ act_of_reducer act }
{
    if let Err(fault) = core.check(request) {
        return Reply::Illegal(fault);
    }
    match core.answer_reducer(request, act) {
        Ok(receipt) => Reply::Done(receipt),
        Err(fault) => Reply::Illegal(fault),
    }
}

#[test]
fn a_core_replies_to_requests_of_a_known_sort(rt: HostRuntime) -> Result<(), Fail> {
    let mut core = opening(rt.alloc(), &[Monoid::Sum], 4)?;
    let replies = [
        reply_to_cell(&mut core, request!(Act::Write(0, 5)), CellAct::Write(0, 5)),
        reply_to_reducer(
            &mut core,
            request!(Act::Update(0, 2)),
            ReducerAct::Update(0, 2),
        ),
        core.reply(request!(Act::Sync)),
        core.reply(request!(Act::Read(0))),
        reply_to_cell(&mut core, request!(Act::Read(0)), CellAct::Read(0)),
    ];
    equal(&rt, &"replies", &replies, &REPLIES);
    Ok(())
}
