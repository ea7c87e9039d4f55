//! Acts by their sort: control, accesses of cells, and accesses of reducers.

ghost use Rattle.std.specs.Prelude.{◌≡◌};
ghost use Rattle.race_gate.specs.Accesses.{access_of, act_of_sort};

use access_table::Kind;
use model_accesses::Act;
use model_races::CellAccess;

/// An act of control of the strands.
#[derive(Clone, Copy)]
pub enum ControlAct {
    Spawn,
    Sync,
    Call,
    Return,
}

/// An access of a cell, which is given by its number.
#[derive(Clone, Copy)]
pub enum CellAct {
    Read(u32),
    Write(u32, u64),
    Bump(u32, u64),
}

/// An access of a reducer, which is given by its number.
#[derive(Clone, Copy)]
pub enum ReducerAct {
    Update(u32, u64),
    Put(u32, u64),
    Get(u32),
}

/// An act by its sort.
#[derive(Clone, Copy)]
pub enum Sort {
    Control(ControlAct),
    Cell(CellAct),
    Reducer(ReducerAct),
}

/// The act by its sort.
#[inline(always)]
pub fn sort_of(act: Act) -> Sort
    ensures { act_of_sort result ≡ act }
{
    match act {
        Act::Spawn => Sort::Control(ControlAct::Spawn),
        Act::Sync => Sort::Control(ControlAct::Sync),
        Act::Call => Sort::Control(ControlAct::Call),
        Act::Return => Sort::Control(ControlAct::Return),
        Act::Read(location) => Sort::Cell(CellAct::Read(location)),
        Act::Write(location, value) => Sort::Cell(CellAct::Write(location, value)),
        Act::Bump(location, value) => Sort::Cell(CellAct::Bump(location, value)),
        Act::Update(reducer, value) => Sort::Reducer(ReducerAct::Update(reducer, value)),
        Act::Put(reducer, value) => Sort::Reducer(ReducerAct::Put(reducer, value)),
        Act::Get(reducer) => Sort::Reducer(ReducerAct::Get(reducer)),
    }
}

/// The kind and the cell of an access.
#[inline(always)]
pub fn access_of(act: CellAct) -> CellAccess
    ensures { result ≡ access_of act }
{
    let (kind, location) = match act {
        CellAct::Read(location) => (Kind::Read, location),
        CellAct::Write(location, _) => (Kind::Write, location),
        CellAct::Bump(location, _) => (Kind::Bump, location),
    };
    CellAccess { kind, location }
}
