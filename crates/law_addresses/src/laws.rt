//! The laws of addresses, each the contract of a function that does nothing.

ghost use Rattle.std.specs.Prelude.{◌↔◌, IsTrue};
ghost use Rattle.model_strands.specs.Address.{Address};
ghost use Rattle.law_addresses.specs.Address.{english, hebrew, english_before, hebrew_before};
ghost use Rattle.law_addresses.specs.Address.{reaches, parallel, Reaches, Parallel, SerialBefore};
ghost use Rattle.law_addresses.specs.Laws.{IsStrictTotalOrder, IsPartialOrder, SidesAreReached, ReachIsBothOrders, ParallelIsDisagreement};
ghost use Rattle.law_addresses.specs.Laws.{ExtremesDecide, BranchesArePeers, NamesDecide, SpawnKeepsOrders};
ghost use Rattle.law_addresses.specs.Laws.{OpeningKeepsOrders, PlacesAreOrder};
ghost use Rattle.law_addresses.specs.Laws.{ViewsAreIntervals, BranchesAreIntervals, JoinsCombineViews, JoinsFollowEnds, PathsAreReach};

/// Both orders of addresses are strict and total, and the English one is that of a serial run: an address comes
/// first that reaches the other, or that is on the child's side of a spawn whose continuation's side has the
/// other. The child of that spawn reaches the one alone, and the continuation the other alone.
pub fn order_law()
    ensures english { IsStrictTotalOrder english_before }
    ensures hebrew { IsStrictTotalOrder hebrew_before }
    ensures serial { (a b : Address) → (IsTrue (english_before a b) ↔ SerialBefore a b) }
    ensures sides { SidesAreReached }
{}

/// Reach is a partial order. An address reaches a different one exactly where both orders have it first, and two
/// are parallel exactly where the orders disagree, which is where they part at the two sides of a spawn.
pub fn reach_law()
    ensures in_words { (a b : Address) → (IsTrue (reaches a b) ↔ Reaches a b) }
    ensures parallel_in_words { (a b : Address) → (IsTrue (parallel a b) ↔ Parallel a b) }
    ensures partial_order { IsPartialOrder reaches }
    ensures both_orders { ReachIsBothOrders }
    ensures disagreement { ParallelIsDisagreement }
{}

/// Of any number of strands, the last in the English order and the last in the Hebrew order tell whether one of
/// them is parallel to a strand that reaches none of them, as a running strand does not.
pub fn extremes_law()
    ensures { ExtremesDecide }
{}

/// A branch, which is an address without the joins at its end, decides the peers of a strand among any strands
/// that come with the other side of each spawn. Names tell branches apart where a join takes over its opener's and no
/// two branches have the same one.
pub fn address_branch_law()
    ensures peers { BranchesArePeers }
    ensures names { NamesDecide }
{}

/// What a spawn puts directly behind the spawner keeps both lists in order, where nothing behind it in the list
/// begins with its address. In a list in order, the places of two items are in the order of their addresses.
pub fn insertion_law()
    ensures spawn { SpawnKeepsOrders }
    ensures opening { OpeningKeepsOrders }
    ensures english { PlacesAreOrder english }
    ensures hebrew { PlacesAreOrder hebrew }
{}

/// The strands on the paths from where a strand's view begins to the strand are an interval of the serial order,
/// and so are those between two strands of one branch. A join's interval is put together from those of the block's
/// children, in the order of spawning, and of the strand that syncs.
pub fn interval_law()
    ensures views { ViewsAreIntervals }
    ensures branches { BranchesAreIntervals }
    ensures joins { JoinsCombineViews }
{}

/// What reaches a join, before it begins, is what reaches the strand that syncs or the last strand of a child. In a
/// dag with the edges of spawns and joins, a path leads from a strand to another exactly where its address reaches
/// the other's.
pub fn dag_law()
    ensures joins { JoinsFollowEnds }
    ensures paths { PathsAreReach }
{}
