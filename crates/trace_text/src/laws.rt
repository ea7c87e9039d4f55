//! Laws of the grammar.

ghost use Rattle.trace_text.specs.Laws.{OneMeaning, MeaningOrFault, MeaningExcludesFault, OneFault};
ghost use Rattle.trace_text.specs.Printing.{PlainMeaning, NoOtherMeaning};

/// A text means at most one trace.
pub fn one_meaning()
    ensures { OneMeaning }
{}

/// Each list of bytes means a trace or has a fault.
pub fn meaning_or_fault()
    ensures { MeaningOrFault }
{}

/// No text means a trace and has a fault.
pub fn meaning_excludes_fault()
    ensures { MeaningExcludesFault }
{}

/// A text has at most one fault.
pub fn one_fault()
    ensures { OneFault }
{}

/// What some text means, its plain text means: each item on its own line, one space between words, no leading zeros. It
/// means nothing else, so what is printed and read again is the same.
pub fn plain_meaning()
    ensures means { PlainMeaning }
    ensures only { NoOtherMeaning }
{}
