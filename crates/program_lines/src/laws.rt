//! Laws of the grammar.

ghost use Rattle.program_lines.specs.Laws.{OneMeaning, MeaningOrFault, MeaningExcludesFault, PlainMeaning, RoomForRegisters};

/// The words of a line say one thing at most in their scope.
pub fn one_meaning()
    ensures { OneMeaning }
{}

/// The words of a line say something in their scope, or have a lowest cause why they say nothing.
pub fn meaning_or_fault()
    ensures { MeaningOrFault }
{}

/// No words say something and have a fault.
pub fn meaning_excludes_fault()
    ensures { MeaningExcludesFault }
{}

/// Words want room for one more register only where all that a function can have are known.
pub fn room_for_registers()
    ensures { RoomForRegisters }
{}

/// What some words say in their scope, their plain words say.
pub fn plain_meaning()
    ensures { PlainMeaning }
{}
