//! The judge of one serial run.

ghost use Rattle.std.specs.Prelude.{◌≡◌, ◌≢◌, ◌⊎◌, ◌↔◌, ◌≤◌, ◌<◌, ℕ, List, length, IsTrue, IfOk, OnOk, OnErr, IfErr, IsErrOf, IfSome, is_some, if◌then◌else◌};
ghost use Rattle.model_strands.specs.Blocks.{IsSynced, root, stack};
ghost use Rattle.model_serial_runs.specs.Accesses.{Access};
ghost use Rattle.model_serial_runs.specs.Current.{current};
ghost use Rattle.serial_judge.specs.Records.{most_records};
ghost use Rattle.std.specs.Option.{option_map};
ghost use Rattle.serial_judge.specs.Runs.{Run, beginning, with_read};
ghost use Rattle.serial_judge.specs.Moves.{moved_run, AreMoves};
ghost use Rattle.serial_judge.specs.ReducerRaces.{new_read, IsReadRightly};
ghost use Rattle.serial_judge.specs.Follows.{Follows};
ghost use Rattle.serial_judge.specs.Control.{most_events, FollowsCall, FollowsSpawn, FollowsSync, FollowsReturn};
ghost use Rattle.serial_judge.specs.Scopes.{IsClosed};
ghost use Rattle.serial_judge.specs.Spans.{is_held};
ghost use Rattle.serial_judge.specs.Answers.{IsRaceAt, IsAnswer};
ghost use Rattle.serial_judge.specs.Remembers.{Remembers, IsTaken, IsRepetition};

use crate::cell::{Cell, Judged, Race};
use crate::fault::Fault;
use crate::reads::{Read, ReducerReads};
use crate::reclaim::{Marks, Moves};
use crate::records::{Record, Records};
use crate::scope::{Scope, Spawn, renumber_scopes};
use crate::spans::{Span, Spans};
use model_serial_runs::AccessKind;
use std::alloc::{AllocError, Allocator};
use std::marker::Model;

/// How many events a run has at most.
const MOST_EVENTS: u64 = 4_611_686_018_427_387_904;

/// The first of two races, or else the second.
#[inline(always)]
fn either(first: Option<Race>, second: Option<Race>) -> Option<Race>
    ensures { result ≡ (if is_some first then first else second) }
{
    if first.is_some() { first } else { second }
}

/// The place of a read in the program.
#[inline(always)]
fn site_of(read: Option<Read>) -> Option<u32>
    ensures { result ≡ option_map (λ one. one.site) read }
{
    match read {
        Some(read) => Some(read.site),
        None => None,
    }
}

/// The judge of one serial run.
#[derive(Drop)]
pub struct SerialJudge<A: Allocator> {
    /// The function in which the running strand is.
    scope: Scope,
    /// The functions that called or spawned it, the outermost first.
    callers: Vec<Scope, A>,
    spans: Spans<A>,
    records: Records<A>,
    /// The number of the running strand's first record.
    first: u32,
    /// How many events there were.
    events: u64,
    reads: ReducerReads<A>,
}

impl<A: Allocator> Model for SerialJudge<A> {
    ghost use Rattle.std.specs.Prelude.{◌∷◌, reverse};
    ghost use Rattle.serial_judge.specs.Judge.{Judge};
    ghost use Rattle.serial_judge.specs.Follows.{FollowsSome};

    ghost Value = { Judge };

    ghost view = { λ v. record {
      scopes = v.scope ∷ reverse v.callers.items;
      spans = v.spans;
      records = v.records;
      first = v.first;
      events = v.events;
      reads = v.reads;
    } };

    ghost invariant = { λ v. FollowsSome (record {
      scopes = v.scope ∷ reverse v.callers.items;
      spans = v.spans;
      records = v.records;
      first = v.first;
      events = v.events;
      reads = v.reads;
    }) };
}

impl<A: Allocator> SerialJudge<A> {
    /// The judge of a run that is at its first strand. A refused growth answers `AllocError`.
    pub fn new(alloc: A) -> Result<SerialJudge<A>, AllocError>
    where
        A: Clone,
        ensures { IfOk result (λ judge. Follows judge beginning) }
    {
        Ok(SerialJudge {
            scope: Scope {
                spawn: None,
                spans: 0,
                branch: 0,
                block: None,
            },
            callers: Vec::new(alloc.clone()?),
            spans: Spans::new(alloc.clone()?),
            records: Records::new(alloc.clone()?)?,
            first: 1,
            events: 0,
            reads: ReducerReads::new(alloc),
        })
    }

    /// The running strand calls a function, and goes on in it. `Fault::Events` and `Fault::Memory` change nothing.
    pub fn call(&mut self) -> Result<(), Fault>
        ensures ok { OnOk result ((run : Run) → Follows self.old run → FollowsCall self.new run) }
        ensures err { OnErr result (self.new ≡ self.old) }
        ensures events { IsErrOf result Fault.Events ↔ (most_events ≤ self.old.events) }
        ensures causes { IfErr result (λ fault. (fault ≡ Fault.Events) ⊎ (fault ≡ Fault.Memory)) }
    {
        if self.events >= MOST_EVENTS {
            return Err(Fault::Events);
        }
        let branch = self.scope.running_branch();
        self.callers.push(self.scope)?;
        self.scope = Scope {
            spawn: None,
            spans: self.spans.len(),
            branch,
            block: None,
        };
        self.events += 1;
        Ok(())
    }

    /// The running strand spawns a function at this site, and the run goes on in it. `Fault::Events` and `Fault::Memory` change nothing.
    pub fn spawn(&mut self, site: u32) -> Result<(), Fault>
        ensures ok { OnOk result ((run : Run) → Follows self.old run → FollowsSpawn self.new site run) }
        ensures err { OnErr result (self.new ≡ self.old) }
        ensures events { IsErrOf result Fault.Events ↔ (most_events ≤ self.old.events) }
        ensures causes { IfErr result (λ fault. (fault ≡ Fault.Events) ⊎ (fault ≡ Fault.Memory)) }
    {
        if self.events >= MOST_EVENTS {
            return Err(Fault::Events);
        }
        let split = self.events + 1;
        let caller = Scope {
            block: Some(2 * split + 2),
            ..self.scope
        };
        self.callers.push(caller)?;
        let begin = self.records.len() + 1;
        self.scope = Scope {
            spawn: Some(Spawn { begin, site }),
            spans: self.spans.len(),
            branch: 2 * split + 1,
            block: None,
        };
        self.first = begin;
        self.events = split;
        Ok(())
    }

    /// The running strand syncs in its function. `Fault::Events` changes nothing.
    pub fn sync(&mut self) -> Result<(), Fault>
        ensures ok { OnOk result ((run : Run) → Follows self.old run → FollowsSync self.new run) }
        ensures err { OnErr result (self.new ≡ self.old) }
        ensures events { IsErrOf result Fault.Events ↔ (most_events ≤ self.old.events) }
        ensures causes { IfErr result (λ fault. fault ≡ Fault.Events) }
    {
        if self.events >= MOST_EVENTS {
            return Err(Fault::Events);
        }
        match self.scope.block {
            None => {
                self.events += 1;
                Ok(())
            }
            Some(_) => {
                self.scope.block = None;
                self.spans.cut(self.scope.spans);
                self.first = self.records.len() + 1;
                self.events += 1;
                Ok(())
            }
        }
    }

    /// The function of the running strand returns. The run goes on in its caller, or beside its spawn. It is refused where the function has an
    /// open block (`Fault::Unsynced`), where it is the root function (`Fault::Root`), behind 2^62 events, and where there is no memory.
    pub fn returns(&mut self) -> Result<(), Fault>
        ensures ok { OnOk result ((run : Run) → Follows self.old run → FollowsReturn self.new run) }
        ensures err { OnErr result (self.new ≡ self.old) }
        ensures unsynced { (run : Run) → Follows self.old run →
            IsErrOf result Fault.Unsynced ↔ (IsSynced (stack run.history (current run.history)) → ⊥) }
        ensures at_root { (run : Run) → Follows self.old run →
            IsErrOf result Fault.Root ↔ (stack run.history (current run.history) ≡ root) }
        ensures events { IsErrOf result Fault.Events → most_events ≤ self.old.events }
        ensures not_records { result ≢ Err Fault.Records }
    {
        match self.scope.block {
            Some(_) => Err(Fault::Unsynced),
            None => self.step_out(),
        }
    }

    /// A function without an open block returns.
    fn step_out(&mut self) -> Result<(), Fault>
        requires { IsClosed self.old.scopes }
        ensures ok { OnOk result ((run : Run) → Follows self.old run → FollowsReturn self.new run) }
        ensures err { OnErr result (self.new ≡ self.old) }
        ensures at_root { (run : Run) → Follows self.old run →
            IsErrOf result Fault.Root ↔ (stack run.history (current run.history) ≡ root) }
        ensures not_unsynced { result ≢ Err Fault.Unsynced }
        ensures events { IsErrOf result Fault.Events → most_events ≤ self.old.events }
        ensures not_records { result ≢ Err Fault.Records }
    {
        let around = match self.callers.last() {
            None => return Err(Fault::Root),
            Some(around) => *around,
        };
        if self.events >= MOST_EVENTS {
            return Err(Fault::Events);
        }
        match self.scope.spawn {
            None => {
                let _ = self.callers.pop();
                self.scope = around;
                self.events += 1;
                Ok(())
            }
            Some(spawn) => {
                let end = self.records.len() + 1;
                let span = Span {
                    begin: spawn.begin,
                    end,
                    site: spawn.site,
                };
                match self.spans.add(around.spans, span) {
                    Ok(()) => {}
                    Err(AllocError) => return Err(Fault::Memory),
                }
                let _ = self.callers.pop();
                self.scope = around;
                self.first = end;
                self.events += 1;
                Ok(())
            }
        }
    }

    /// The number of the running strand's first record: a cell whose `latest` is at least twice this number was last accessed by that strand.
    #[inline(always)]
    pub fn first_record(&self) -> u32
        ensures { result ≡ self.now.first }
    {
        self.first
    }

    /// Whether the location's last access was by the running strand, and of a kind that has the same races: the new access need not be told.
    #[inline(always)]
    pub fn is_repeated(&self, cell: Cell, kind: AccessKind) -> bool
        ensures { IsTrue result → (run : Run) (accesses : List Access) → Follows self.now run → Remembers run cell accesses →
            IsRepetition run cell accesses kind }
    {
        cell.latest / 2 >= self.first
            && (cell.latest % 2 == 1 || matches!(kind, AccessKind::Read | AccessKind::Load))
    }

    /// The access of a record, where it is of a strand that is parallel to the running one.
    #[inline(always)]
    fn find(&self, number: u32) -> Option<Race>
        ensures found { is_some result ≡ is_held self.now.spans number }
        ensures race { IfSome result (IsRaceAt self.now.records number) }
    {
        let span = self.spans.find(number)?;
        let made = self.records.get(number)?;
        Some(Race {
            record: number,
            site: made.site,
            kind: made.kind,
            spawn: span.site,
        })
    }

    /// The first number where it is of a record that `find` finds, and the other one where it is not.
    #[inline(always)]
    fn kept(&self, number: u32, other: u32) -> u32
        ensures { result ≡ (if is_held self.now.spans number then number else other) }
    {
        if self.spans.find(number).is_some() {
            number
        } else {
            other
        }
    }

    /// The running strand accesses a location with this cell. `Fault::Records` and `Fault::Memory` change nothing.
    #[inline]
    pub fn access(&mut self, cell: Cell, kind: AccessKind, site: u32) -> Result<Judged, Fault>
        ensures ok { (run : Run) → Follows self.old run → IfOk result (IsTaken run self.new cell kind site) }
        ensures err { OnErr result (self.new ≡ self.old) }
        ensures full_only_at_limit { IsErrOf result Fault.Records → length self.old.records ≡ most_records }
        ensures causes { IfErr result (λ fault. (fault ≡ Fault.Records) ⊎ (fault ≡ Fault.Memory)) }
    {
        let number = self.records.number_for(self.first, Record { site, kind })?;
        Ok(self.answer(cell, kind, number))
    }

    #[inline(always)]
    fn answer(&self, cell: Cell, kind: AccessKind, number: u32) -> Judged
        requires { number ≤ most_records }
        ensures { IsAnswer self.now.spans self.now.records cell kind number result }
    {
        match kind {
            AccessKind::Read => self.read(cell, number),
            AccessKind::Load => self.load(cell, number),
            AccessKind::Update => self.update(cell, number),
            AccessKind::Write => self.write(cell, number),
        }
    }

    #[inline(always)]
    fn read(&self, cell: Cell, number: u32) -> Judged
        requires { number ≤ most_records }
        ensures { IsAnswer self.now.spans self.now.records cell AccessKind.Read number result }
    {
        Judged {
            cell: Cell {
                latest: 2 * number,
                reader: self.kept(cell.reader, number),
                ..cell
            },
            race: either(self.find(cell.writer), self.find(cell.updater)),
        }
    }

    #[inline(always)]
    fn load(&self, cell: Cell, number: u32) -> Judged
        requires { number ≤ most_records }
        ensures { IsAnswer self.now.spans self.now.records cell AccessKind.Load number result }
    {
        Judged {
            cell: Cell {
                loader: self.kept(cell.loader, number),
                ..cell
            },
            race: self.find(cell.writer),
        }
    }

    #[inline(always)]
    fn update(&self, cell: Cell, number: u32) -> Judged
        requires { number ≤ most_records }
        ensures { IsAnswer self.now.spans self.now.records cell AccessKind.Update number result }
    {
        Judged {
            cell: Cell {
                updater: self.kept(cell.updater, number),
                ..cell
            },
            race: either(self.find(cell.writer), self.find(cell.reader)),
        }
    }

    #[inline(always)]
    fn write(&self, cell: Cell, number: u32) -> Judged
        requires { number ≤ most_records }
        ensures { IsAnswer self.now.spans self.now.records cell AccessKind.Write number result }
    {
        let plain = either(self.find(cell.writer), self.find(cell.reader));
        let atomic = either(self.find(cell.updater), self.find(cell.loader));
        Judged {
            cell: Cell {
                latest: 2 * number + 1,
                writer: self.kept(cell.writer, number),
                reader: self.kept(cell.reader, 0),
                updater: self.kept(cell.updater, 0),
                loader: self.kept(cell.loader, 0),
            },
            race: either(plain, atomic),
        }
    }

    /// The running strand reads a reducer. The answer is the site of an earlier read that saw another view, where there is one.
    /// `Fault::Memory` changes nothing.
    pub fn reducer_read(&mut self, reducer: u32, site: u32) -> Result<Option<u32>, Fault>
        ensures right { (run : Run) → Follows self.old run → IfOk result (IsReadRightly run reducer) }
        ensures follows { (run : Run) → Follows self.old run → OnOk result (Follows self.new (with_read (new_read run reducer site) run)) }
        ensures err { OnErr result (self.new ≡ self.old) }
        ensures causes { IfErr result (λ fault. fault ≡ Fault.Memory) }
    {
        let new = Read {
            branch: self.scope.running_branch(),
            site,
        };
        let other = self.reads.add(reducer, new)?;
        Ok(site_of(other))
    }

    /// Marks for the records that cells name, to be shown all cells before `end_mark`. A refused growth answers `AllocError`.
    pub fn begin_mark(&self, alloc: A) -> Result<Marks<A>, AllocError>
    where
        A: Clone,
        ensures { IfOk result (λ marks. length marks ≡ length self.now.records) }
    {
        Marks::new(alloc, self.records.len())
    }

    /// Gives up the records that are not marked. No record may have been made since `begin_mark`. Each cell that was marked has to be
    /// renumbered by the answer.
    pub fn end_mark(&mut self, marks: Marks<A>) -> Moves<A>
        requires { length marks ≡ length self.old.records }
        ensures follows { (run : Run) → Follows self.old run → Follows self.new (moved_run marks run) }
        ensures moves { AreMoves marks result }
    {
        let moves = self.records.keep(marks);
        self.spans.renumber(&moves);
        self.scope = self.scope.renumbered(&moves);
        renumber_scopes(&mut self.callers, &moves);
        self.first = moves.number(self.first);
        moves
    }
}

#[cfg(test)]
mod tests {
    use super::SerialJudge;
    use crate::cell::Cell;
    use model_serial_runs::AccessKind;
    use std::test::Fail;

    #[test]
    fn a_child_races_until_it_is_synced_with(rt: HostRuntime) -> Result<(), Fail> {
        let mut judge = SerialJudge::new(rt.alloc())?;
        judge.spawn(7)?;
        let written = judge.access(Cell::EMPTY, AccessKind::Write, 1)?.cell;
        assert!(rt; judge.is_repeated(written, AccessKind::Read));
        let _ = judge.reducer_read(0, 1)?;
        judge.returns()?;
        assert!(rt; judge.returns().is_err());

        let mut marks = judge.begin_mark(rt.alloc())?;
        marks.mark(written);
        let moves = judge.end_mark(marks);
        let kept = moves.renumber(written);

        assert!(rt; !judge.is_repeated(kept, AccessKind::Read));
        let read = judge.access(kept, AccessKind::Read, 2)?;
        assert_eq!(rt; read.race.map_or(0, |race| race.site), 1);
        assert_eq!(rt; judge.reducer_read(0, 2)?, Some(1));
        judge.sync()?;
        let read = judge.access(kept, AccessKind::Read, 3)?;
        assert!(rt; read.race.is_none());
        judge.call()?;
        judge.returns()?;
        assert!(rt; judge.first_record() > 1);
        Ok(())
    }
}
