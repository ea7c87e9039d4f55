//! What is kept of each strand.

ghost use Rattle.std.specs.Prelude.{◌≡◌, ◌<◌, ◌+◌, ◌++◌, [], ◌∷◌, length, vec_len, vec_capacity};
ghost use Rattle.sp_labels.specs.Packing.{unpacked, all_unpacked};
ghost use Rattle.sp_labels.specs.Roster.{record_at, IsPut};

use std::alloc::Allocator;

/// Whether a strand has begun, and whether it goes on.
#[derive(Clone, Copy)]
pub enum Standing {
    /// A join that has not begun, and no sync waits for it.
    Reserved,
    /// A join that has not begun, and the sync of its block waits for it.
    Awaited,
    Running,
    Over,
}

/// The innermost function or open block in which a strand stands.
#[derive(Clone, Copy)]
pub enum Scope {
    /// The root function.
    Root,
    /// A spawned function, child of the block with this join.
    Child { block: u32 },
    /// A called function, and the key of its caller's scope.
    Call { caller: u32 },
    /// The open block with this join. What lies below it is the scope of the join.
    Block { join: u32 },
}

/// A strand, and the block of which it is the join.
#[derive(Clone, Copy)]
pub struct Record {
    pub scope: Scope,
    /// How many children of its block have not returned.
    pub children_left: u32,
    pub standing: Standing,
}

impl Record {
    /// A strand that runs, with no block of its own.
    #[inline(always)]
    pub fn running(scope: Scope) -> Record
        ensures { result ≡ record { standing = Standing.Running; scope = scope; children_left = 0 } }
    {
        Record {
            standing: Standing::Running,
            scope,
            children_left: 0,
        }
    }
}

/// The kind of a scope, without the number of its block, caller or join.
#[derive(Clone, Copy)]
pub enum ScopeKind {
    Root,
    Child,
    Call,
    Block,
}

/// How a record is kept, in twelve bytes: the kind of its scope and its standing lie side by side.
#[derive(Clone, Copy)]
pub struct PackedRecord {
    /// The block, caller or join of the scope; of the root function 0.
    number: u32,
    children_left: u32,
    kind: ScopeKind,
    standing: Standing,
}

// Each page of them costs a fault when it is first written.
const _: () = prove!(size_of::<PackedRecord>() == 12);

impl PackedRecord {
    #[inline(always)]
    pub fn of(seen: Record) -> PackedRecord
        ensures { unpacked result ≡ seen }
    {
        let (kind, number) = match seen.scope {
            Scope::Root => (ScopeKind::Root, 0),
            Scope::Child { block } => (ScopeKind::Child, block),
            Scope::Call { caller } => (ScopeKind::Call, caller),
            Scope::Block { join } => (ScopeKind::Block, join),
        };
        PackedRecord {
            number,
            children_left: seen.children_left,
            kind,
            standing: seen.standing,
        }
    }

    #[inline(always)]
    fn unpack(self) -> Record
        ensures { result ≡ unpacked self }
    {
        let number = self.number;
        let scope = match self.kind {
            ScopeKind::Root => Scope::Root,
            ScopeKind::Child => Scope::Child { block: number },
            ScopeKind::Call => Scope::Call { caller: number },
            ScopeKind::Block => Scope::Block { join: number },
        };
        Record {
            scope,
            children_left: self.children_left,
            standing: self.standing,
        }
    }
}

/// The record of a strand.
#[inline(always)]
pub fn record_of<A: Allocator>(records: &Vec<PackedRecord, A>, strand: u32) -> Record
    requires { strand < length (all_unpacked records.now.items) }
    ensures { result ≡ record_at (all_unpacked records.now.items) strand }
{
    records[strand as usize].unpack()
}

/// Replaces the record of a strand.
#[inline(always)]
pub fn put<A: Allocator>(records: &mut Vec<PackedRecord, A>, strand: u32, kept: Record)
    requires { strand < length (all_unpacked records.old.items) }
    ensures put { IsPut (all_unpacked records.old.items) strand kept (all_unpacked records.new.items) }
    ensures len { vec_len records.new ≡ vec_len records.old }
    ensures capacity { vec_capacity records.new ≡ vec_capacity records.old }
{
    records[strand as usize] = PackedRecord::of(kept);
}

/// Changes how a strand stands.
#[inline(always)]
pub fn set_standing<A: Allocator>(
    records: &mut Vec<PackedRecord, A>,
    strand: u32,
    standing: Standing,
)
    requires { strand < length (all_unpacked records.old.items) }
    ensures put { IsPut (all_unpacked records.old.items) strand
        (record (record_at (all_unpacked records.old.items) strand) { standing = standing }) (all_unpacked records.new.items) }
    ensures len { vec_len records.new ≡ vec_len records.old }
    ensures capacity { vec_capacity records.new ≡ vec_capacity records.old }
{
    records[strand as usize].standing = standing;
}

/// Adds the record of the next strand, for which there is room.
#[inline(always)]
pub fn push<A: Allocator>(records: &mut Vec<PackedRecord, A>, kept: Record)
    requires { vec_len records.old < vec_capacity records.old }
    ensures items { all_unpacked records.new.items ≡ all_unpacked records.old.items ++ kept ∷ [] }
    ensures len { vec_len records.new ≡ vec_len records.old + 1 }
    ensures capacity { vec_capacity records.new ≡ vec_capacity records.old }
{
    records.push_reserved(PackedRecord::of(kept));
}
