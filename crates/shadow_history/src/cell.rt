//! What is kept of one cell: of each kind of access the last one in either order of the strands.

ghost use Rattle.std.specs.Prelude.{◌≡◌, ◌≢◌, ◌↔◌, ◌++◌, ◌∷◌, [], List, ℕ, IsTrue, Some, None, MatchOption};
ghost use Rattle.model_accesses.specs.declared.kind.Kind.{Kind};
ghost use Rattle.model_accesses.specs.Table.{is_memory_kind};
ghost use Rattle.model_strands.specs.History.{History};
ghost use Rattle.law_strands.specs.Addresses.{IsEnglishBefore, IsHebrewBefore};
ghost use Rattle.sp_labels.specs.Roster.{Follows, HasBegun};
ghost use Rattle.model_accesses.specs.Accesses.{Access, access_of_witness};
ghost use Rattle.shadow_history.specs.Accesses.{HaveAllBegun};
ghost use Rattle.shadow_history.specs.Witnesses.{NoneIsParallel, IsLatestParallel};
ghost use Rattle.shadow_history.specs.Shadow.{extremes_of, access_of, AreExtremes, AreKept, HaveBegun, Runs};

use access_table::Kind;
use model_accesses::Witness;
use sp_labels::Strands;
use std::alloc::Allocator;

/// A strand that is the last one in an order, with its earliest entry.
#[derive(Clone, Copy)]
pub struct Extreme {
    pub strand: u32,
    pub entry: u32,
}

/// Of the strands with accesses of one kind, the last ones in the two orders.
#[derive(Clone, Copy)]
pub struct Extremes {
    pub english: Extreme,
    pub hebrew: Extreme,
}

/// Whether `a` stands before `b` in the English order. Many accesses of a cell are by the strand of the last one, which this tells
/// without the order.
#[inline(always)]
fn english_before<A: Allocator>(strands: &Strands<A>, a: u32, b: u32) -> bool
    requires a_begun { HasBegun strands.now a }
    requires b_begun { HasBegun strands.now b }
    ensures { (history : History) → Follows strands.now history → IsTrue result ↔ IsEnglishBefore history a b }
{
    if a == b {
        return false;
    }
    strands.english_before(a, b)
}

/// The same in the Hebrew order.
#[inline(always)]
fn hebrew_before<A: Allocator>(strands: &Strands<A>, a: u32, b: u32) -> bool
    requires a_begun { HasBegun strands.now a }
    requires b_begun { HasBegun strands.now b }
    ensures { (history : History) → Follows strands.now history → IsTrue result ↔ IsHebrewBefore history a b }
{
    if a == b {
        return false;
    }
    strands.hebrew_before(a, b)
}

impl Extremes {
    /// The strand of the two, the English-last first, that is parallel to a running one.
    #[inline(always)]
    fn parallel_to<A: Allocator>(self, strands: &Strands<A>, strand: u32) -> Option<Extreme>
        requires runs { Runs strands.now strand }
        requires begun { HaveBegun strands.now (Some self) }
        ensures { (history : History) (accesses : List Access) (location : ℕ) (kind : Kind) →
            Follows strands.now history → HaveAllBegun history accesses → AreExtremes history accesses location kind self →
            MatchOption result
            (NoneIsParallel history accesses location kind strand)
            (λ extreme. IsLatestParallel history accesses strand (access_of location kind extreme)) }
    {
        // A running strand leads to no other: one that is after it in either order is parallel to it.
        if english_before(strands, strand, self.english.strand) {
            return Some(self.english);
        }
        if !hebrew_before(strands, strand, self.hebrew.strand) {
            return None;
        }
        if hebrew_before(strands, strand, self.english.strand) {
            Some(self.english)
        } else {
            Some(self.hebrew)
        }
    }

    /// The last ones of these and a new one.
    #[inline(always)]
    fn with<A: Allocator>(self, strands: &Strands<A>, new: Extreme) -> Extremes
        requires new_begun { HasBegun strands.now new.strand }
        requires begun { HaveBegun strands.now (Some self) }
        ensures { (history : History) (accesses : List Access) (location : ℕ) (kind : Kind) →
            Follows strands.now history → AreExtremes history accesses location kind self →
            AreExtremes history (accesses ++ access_of location kind new ∷ []) location kind result }
    {
        let english = if english_before(strands, self.english.strand, new.strand) {
            new
        } else {
            self.english
        };
        let hebrew = if hebrew_before(strands, self.hebrew.strand, new.strand) {
            new
        } else {
            self.hebrew
        };
        Extremes { english, hebrew }
    }
}

/// The accesses of one location, by their kinds. It fits into a cache line.
#[derive(Clone, Copy)]
pub struct Cell {
    pub write: Option<Extremes>,
    pub bump: Option<Extremes>,
    pub read: Option<Extremes>,
}

impl Cell {
    /// A location without accesses.
    pub const EMPTY: Cell = Cell {
        write: None,
        bump: None,
        read: None,
    };

    #[inline(always)]
    fn extremes(&self, kind: Kind) -> Option<Extremes>
        ensures { result ≡ extremes_of self.now kind }
    {
        match kind {
            Kind::Write => self.write,
            Kind::Bump => self.bump,
            Kind::Read => self.read,
            Kind::Update | Kind::Put | Kind::Get => None,
        }
    }

    #[inline(always)]
    fn keep(&mut self, kind: Kind, extremes: Extremes)
        requires { IsTrue (is_memory_kind kind) }
        ensures kept { extremes_of self.new kind ≡ Some extremes }
        ensures others { (other : Kind) → other ≢ kind → extremes_of self.new other ≡ extremes_of self.old other }
    {
        match kind {
            Kind::Write => self.write = Some(extremes),
            Kind::Bump => self.bump = Some(extremes),
            Kind::Read => self.read = Some(extremes),
            Kind::Update | Kind::Put | Kind::Get => {}
        }
    }

    /// The access of one earlier kind that is the witness for a running strand, if any is parallel to it. Each caller names the kind, so
    /// that no kind is told apart when it runs.
    #[inline(always)]
    pub fn find<A: Allocator>(
        &self,
        strands: &Strands<A>,
        earlier: Kind,
        strand: u32,
    ) -> Option<Witness>
        requires runs { Runs strands.now strand }
        requires begun { HaveBegun strands.now (extremes_of self.now earlier) }
        ensures { (history : History) (accesses : List Access) (location : ℕ) → Follows strands.now history →
            HaveAllBegun history accesses → AreKept history accesses location earlier (extremes_of self.now earlier) →
            MatchOption result
            (NoneIsParallel history accesses location earlier strand)
            (λ witness. (witness.kind ≡ earlier) × IsLatestParallel history accesses strand (access_of_witness location witness)) }
    {
        let found = self.extremes(earlier)?.parallel_to(strands, strand)?;
        Some(Witness {
            entry: found.entry,
            strand: found.strand,
            kind: earlier,
        })
    }

    /// Takes in an access of one kind.
    #[inline(always)]
    pub fn add<A: Allocator>(&mut self, strands: &Strands<A>, kind: Kind, strand: u32, entry: u32)
        requires memory { IsTrue (is_memory_kind kind) }
        requires new_begun { HasBegun strands.now strand }
        requires begun { HaveBegun strands.now (extremes_of self.old kind) }
        ensures added { (history : History) (accesses : List Access) (location : ℕ) →
            Follows strands.now history → AreKept history accesses location kind (extremes_of self.old kind) →
            AreKept history (accesses ++ record { strand = strand; kind = kind; location = location; entry = entry } ∷ [])
            location kind (extremes_of self.new kind) }
        ensures others { (other : Kind) → other ≢ kind → extremes_of self.new other ≡ extremes_of self.old other }
    {
        let new = Extreme { strand, entry };
        let extremes = match self.extremes(kind) {
            Some(extremes) => extremes.with(strands, new),
            None => Extremes {
                english: new,
                hebrew: new,
            },
        };
        self.keep(kind, extremes);
    }
}
