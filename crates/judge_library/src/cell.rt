//! What goes between C and the judge of one access.

ghost use Rattle.std.specs.Prelude.{◌≡◌, ◌<◌, IfSome, IsSome, ◌↔◌};
ghost use Rattle.judge_library.specs.Passed.{kind_at, cell_of, race_of, read_of};

use serial_judge::{AccessKind, Cell, Race};

/// A [`Cell`] as C has it.
#[repr(C)]
#[derive(Clone, Copy)]
pub struct PassedCell {
    pub latest: u32,
    pub writer: u32,
    pub reader: u32,
    pub updater: u32,
    pub loader: u32,
}

impl PassedCell {
    #[inline(always)]
    pub(crate) fn cell(self) -> Cell
        ensures { result ≡ cell_of self }
    {
        Cell {
            latest: self.latest,
            writer: self.writer,
            reader: self.reader,
            updater: self.updater,
            loader: self.loader,
        }
    }

    #[inline(always)]
    pub(crate) fn of(cell: Cell) -> PassedCell
        ensures { cell_of result ≡ cell }
    {
        PassedCell {
            latest: cell.latest,
            writer: cell.writer,
            reader: cell.reader,
            updater: cell.updater,
            loader: cell.loader,
        }
    }
}

/// A [`Race`] as C has it, or none.
#[repr(C)]
#[derive(Clone, Copy)]
pub struct PassedRace {
    pub is_race: bool,
    /// The record of the earlier access.
    pub number: u32,
    pub site: u32,
    pub kind: u32,
    pub spawn: u32,
}

impl PassedRace {
    #[inline(always)]
    pub(crate) fn of(race: Option<Race>) -> PassedRace
        ensures { race_of result ≡ race }
    {
        match race {
            Some(race) => PassedRace {
                is_race: true,
                number: race.record,
                site: race.site,
                kind: number_of(race.kind),
                spawn: race.spawn,
            },
            None => PassedRace {
                is_race: false,
                number: 0,
                site: 0,
                kind: 0,
                spawn: 0,
            },
        }
    }
}

/// An earlier read of a reducer that saw another view, or none.
#[repr(C)]
#[derive(Clone, Copy)]
pub struct PassedRead {
    pub is_race: bool,
    pub site: u32,
}

impl PassedRead {
    pub(crate) fn of(site: Option<u32>) -> PassedRead
        ensures { read_of result ≡ site }
    {
        match site {
            Some(site) => PassedRead {
                is_race: true,
                site,
            },
            None => PassedRead {
                is_race: false,
                site: 0,
            },
        }
    }
}

/// The number of a kind.
#[inline(always)]
fn number_of(kind: AccessKind) -> u32
    ensures { kind_at result ≡ kind }
{
    match kind {
        AccessKind::Read => 0,
        AccessKind::Load => 1,
        AccessKind::Update => 2,
        AccessKind::Write => 3,
    }
}

/// The kind with this number.
#[inline(always)]
pub(crate) fn kind_of(number: u32) -> Option<AccessKind>
    ensures is { IfSome result (λ kind. kind ≡ kind_at number) }
    ensures known { IsSome result ↔ (number < 4) }
{
    match number {
        0 => Some(AccessKind::Read),
        1 => Some(AccessKind::Load),
        2 => Some(AccessKind::Update),
        3 => Some(AccessKind::Write),
        _ => None,
    }
}
