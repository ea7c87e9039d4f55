//! What holds of the table as a whole, as contracts of functions that do nothing.

ghost use Rattle.access_table.specs.Laws.{EachPairHasOneRule, RuleIsSymmetric, RacesAreOfMemory, ViewsAreOfReducerReads};

/// Each pair of kinds comes under just one rule, the same whichever access was earlier. Accesses that race are
/// both of memory cells, and the view rule stands between just the reducer reads.
pub fn table_law()
    ensures one_rule { EachPairHasOneRule }
    ensures symmetric { RuleIsSymmetric }
    ensures races { RacesAreOfMemory }
    ensures views { ViewsAreOfReducerReads }
{}
