//! Laws of notes.

ghost use Rattle.trace_notes.specs.Laws.{NotesAreComments, PlacesAreFormed, FirstCounts};

/// A line that is a note is a comment, which has no words: to the trace it means nothing.
pub fn notes_are_comments()
    ensures { NotesAreComments }
{}

/// No place is told of a mark only where no note speaks of it.
pub fn places_are_formed()
    ensures { PlacesAreFormed }
{}

/// What was told of a mark is told still where more lines are read.
pub fn first_counts()
    ensures { FirstCounts }
{}
