//! What holds of all shadow histories, as contracts of functions that do nothing.

ghost use Rattle.shadow_history.specs.Laws.{LaterLaw, PlaceLaw};

/// What a shadow history remembers stays the same as the strands go on.
pub fn later_law()
    ensures { LaterLaw }
{}

/// The kinds are told apart by their places in the access table.
pub fn place_law()
    ensures { PlaceLaw }
{}
