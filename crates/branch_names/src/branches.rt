//! One number for each strand.

ghost use Rattle.std.specs.Prelude.{◌≡◌, ◌↔◌, [], ◌∷◌, true, false, IsTrue, IfOk, OnOk, OnErr, vec_len, vec_capacity};
ghost use Rattle.model_strands.specs.History.{Event, split, History};
ghost use Rattle.model_strands.specs.Strands.{Begun};
ghost use Rattle.model_strands.specs.Legal.{Legal};
ghost use Rattle.model_strands.specs.Extensions.{Extends};
ghost use Rattle.law_strands.specs.Branches.{branch};
ghost use Rattle.model_strands.specs.Peers.{HaveSamePeers};
ghost use Rattle.branch_names.specs.Names.{Names, Follows, FollowsSome, FollowsOn, IsNamed, Takes, TakesJoin, Begins, IsReady};
ghost use Rattle.branch_names.specs.Packed.{names_of};

use crate::packed::{MOST_NUMBERS, Packed};
use model_strands::Spawned;
use std::alloc::{AllocError, Allocator};
use std::marker::Model;

/// The branches of the strands of one spawn-sync program.
///
/// The number of strand 0 is 0, that of a child or a next strand is its strand number, and that of a join is the number of
/// the strand that opened its block.
#[derive(Drop)]
pub struct Branches<A: Allocator> {
    names: Vec<Packed, A>,
    has_room: bool,
}

impl<A: Allocator> Model for Branches<A> {
    ghost Value = { Names };

    ghost view = { λ branches. record { names = names_of branches.names.items; has_room = branches.has_room } };

    ghost invariant = { λ branches.
        FollowsSome (record { names = names_of branches.names.items; has_room = branches.has_room }) ×
        IsReady branches.has_room (vec_len branches.names) (vec_capacity branches.names) };
}

impl<A: Allocator> Branches<A> {
    /// The branches of a program that has begun its first strand, strand 0. A refused growth answers `AllocError`.
    pub fn new(alloc: A) -> Result<Branches<A>, AllocError>
        ensures opening { IfOk result (λ branches. Follows branches []) }
        ensures room { IfOk result (λ branches. branches.has_room ≡ false) }
    {
        let mut names = Vec::with_capacity(alloc, 1)?;
        names.push_reserved(Packed::given(0));
        Ok(Branches {
            names,
            has_room: false,
        })
    }

    /// Whether the next event that begins strands takes no memory.
    pub fn has_room(&self) -> bool
        ensures { result ≡ self.now.has_room }
    {
        self.has_room
    }

    /// Makes room for one event that begins strands. A refused growth answers `AllocError` and changes nothing, and so does
    /// want of numbers.
    #[inline(always)]
    pub fn reserve_event(&mut self) -> Result<(), AllocError>
        ensures ok { OnOk result (self.new ≡ record self.old { has_room = true }) }
        ensures err { OnErr result (self.new ≡ self.old) }
        ensures only_without_room { OnErr result (self.old.has_room ≡ false) }
    {
        if !self.has_room {
            if self.names.len() > MOST_NUMBERS - 3 {
                return Err(AllocError);
            }
            self.names.reserve(3)?;
            self.has_room = true;
        }
        Ok(())
    }

    /// Asks for room for the names of so many more strands, so that they need not grow by and by. It is a hint: it changes nothing that
    /// is seen, and where there is no memory they grow as they are made.
    pub fn make_room(&mut self, strands: usize)
        ensures { self.new ≡ self.old }
    {
        // Each event wants room for three.
        let _ = self.names.reserve(strands.saturating_add(3));
    }

    /// A spawn by `strand` began a child and a next strand, and where it is the first of its block, it set a number aside for
    /// the join. Takes no memory.
    pub fn spawned(&mut self, strand: u32, spawned: &Spawned)
        requires room { self.old.has_room ≡ true }
        requires takes { Takes self.old (split strand spawned.now.child spawned.now.next spawned.now.join spawned.now.first) }
        ensures follows { FollowsOn self.old self.new (split strand spawned.now.child spawned.now.next spawned.now.join spawned.now.first) }
        ensures room_used { self.new.has_room ≡ false }
    {
        self.has_room = false;
        let kept = self.names[strand as usize].number();
        self.names.push_reserved(Packed::given(spawned.child));
        self.names.push_reserved(Packed::given(spawned.next));
        if spawned.first {
            self.names.push_reserved(Packed::kept(kept));
        }
    }

    /// The join began, by its block's sync or by the return of the last child. Takes no memory.
    pub fn joined(&mut self, join: u32)
        requires room { self.old.has_room ≡ true }
        requires takes { TakesJoin self.old join }
        ensures follows { (event : Event) → Begins event join → FollowsOn self.old self.new event }
        ensures room_used { self.new.has_room ≡ false }
    {
        self.has_room = false;
        self.names[join as usize] = self.names[join as usize].begun();
    }

    /// Whether the strand has begun, so that its branch has its name. Takes no memory.
    pub fn is_named(&self, strand: u32) -> bool
        ensures begun { (history : History) → Follows self.now history → IsTrue result ↔ Begun history strand }
        ensures named { IsTrue result ↔ IsNamed self.now strand }
    {
        (strand as usize) < self.names.len() && self.names[strand as usize].is_given()
    }

    /// Whether two strands have one branch, and so the same peers, now and ever after. Takes no memory.
    pub fn same(&self, first: u32, second: u32) -> bool
        requires first_named { IsNamed self.now first }
        requires second_named { IsNamed self.now second }
        ensures branches { (history : History) → Follows self.now history →
            IsTrue result ↔ (branch history first ≡ branch history second) }

        // In the dag of each legal extension, so of each finished one too.
        ensures peers { (history longer : History) → Follows self.now history → Extends longer history → Legal longer →
            IsTrue result ↔ HaveSamePeers longer first second }
    {
        // Both are given, so their codes agree just where their numbers do.
        self.names[first as usize] == self.names[second as usize]
    }
}
