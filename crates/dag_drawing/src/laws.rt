//! The law of drawings, as the contract of a function that does nothing.

ghost use Rattle.dag_drawing.specs.Laws.{EdgesLaw};

/// The edges of the dag are those of its three kinds.
pub fn drawing_law()
    ensures { EdgesLaw }
{}
