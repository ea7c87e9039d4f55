//! Laws of the grammar.

ghost use Rattle.program_text.specs.Laws.{OneMeaning, MeaningOrFault, MeaningExcludesFault, OneFault, SoundLaw};

/// A text means at most one program.
pub fn one_meaning()
    ensures { OneMeaning }
{}

/// Each list of bytes means a program or has a fault.
pub fn meaning_or_fault()
    ensures { MeaningOrFault }
{}

/// No text means a program and has a fault.
pub fn meaning_excludes_fault()
    ensures { MeaningExcludesFault }
{}

/// A text has at most one fault.
pub fn one_fault()
    ensures { OneFault }
{}

/// What a text means is sound: what its statements name is there, their numbers are of 64 bits, and each part of an `if` has its end. So it
/// is with each [`Program`](crate::Program), whose type keeps that some text means it.
pub fn sound_law()
    ensures { SoundLaw }
{}
