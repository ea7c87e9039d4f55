//! The laws of control histories, each as the contract of a function that does nothing.

ghost use Rattle.law_strands.specs.Laws.{AddressLaw, AddressTestsLaw, StabilityLaw, SerialLaw, OrdersLaw, ListsLaw};
ghost use Rattle.law_strands.specs.Laws.{AnswerLaw, UnsyncedLaw, CountLaw, JoinLaw, RunningLaw, RunningAddressLaw};
ghost use Rattle.model_strands.specs.Laws.{FinishLaw};
ghost use Rattle.law_strands.specs.Laws.{NumbersLaw, DagLaw};
ghost use Rattle.law_strands.specs.Laws.{BranchLaw, FinishedBranchLaw, BranchAddressLaw, AcrossLaw};
ghost use Rattle.law_strands.specs.Laws.{ViewLaw, GatheringLaw};
ghost use Rattle.law_strands.specs.Examples.{WorkedHistories};

/// Different strands have different addresses, and addresses decide which strand reaches which.
pub fn address_law()
    ensures in_words { AddressLaw }
    ensures tests { AddressTestsLaw }
{}

/// The numbers that no strand and no reserved join has are those from the least unused one on, from which a split takes its own.
pub fn numbers_law()
    ensures { NumbersLaw }
{}

/// The dag of a legal history, by the addresses of its strands, is one of which `law_addresses::laws::dag_law` speaks: some tests
/// decide which strands have begun and which edges there are, and with them it is a strand dag.
pub fn dag_law()
    ensures { DagLaw }
{}

/// Later events change neither address nor branch of a begun strand, and of two neither path nor order.
pub fn stability_law()
    ensures { StabilityLaw }
{}

/// The English order is the serial order.
pub fn serial_law()
    ensures { SerialLaw }
{}

/// A strand reaches another where both orders put it first, and is parallel to it where they differ.
pub fn orders_law()
    ensures { OrdersLaw }
{}

/// Lists that grow directly behind the spawner are in the two orders.
pub fn lists_law()
    ensures { ListsLaw }
{}

/// Each act of a running strand has one answer, but a function with an open block cannot be left.
pub fn answer_law()
    ensures one { AnswerLaw }
    ensures unsynced { UnsyncedLaw }
{}

/// Each legal history can go on until the root function returns.
pub fn finish_law()
    ensures { FinishLaw }
{}

/// Two strands have one branch exactly where they have the same peers, however the history goes on.
pub fn branch_law()
    ensures every_extension { BranchLaw }
    ensures finished { FinishedBranchLaw }
{}

/// Two strands have one branch exactly where their addresses without the joins at the end are equal.
pub fn branch_address_law()
    ensures { BranchAddressLaw }
{}

/// Two histories agree on reach and on branches of strands at the same addresses.
pub fn across_law()
    ensures { AcrossLaw }
{}

/// A count of a block's children tells whether any is outstanding, and whether one is the last.
pub fn count_law()
    ensures { CountLaw }
{}

/// Views stand in the serial order, and one holds all that lies between an earlier strand of its
/// branch and its own strand.
pub fn view_law()
    ensures { ViewLaw }
{}

/// What a join gathers, the last strands of its block's children and then the strand that synced, is
/// just what arrives there, in serial order.
pub fn gathering_law()
    ensures { GatheringLaw }
{}

/// A join stands, in functions and blocks, where the strand stands that ends its block.
pub fn join_law()
    ensures { JoinLaw }
{}

/// A running strand reaches no other one.
pub fn running_law()
    ensures paths { RunningLaw }
    ensures addresses { RunningAddressLaw }
{}

/// The worked histories are legal, and the wrong answers in them are not.
pub fn examples_law()
    ensures { WorkedHistories }
{}
