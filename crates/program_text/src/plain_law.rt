//! The law of printing.

ghost use Rattle.program_text.specs.Printing.{PlainMeaning, NoOtherMeaning};

/// What some text means, its plain text means: each item on its own line, one space between words, no leading zeros. It
/// means nothing else, so what is printed and read again is the same.
pub fn plain_meaning()
    ensures means { PlainMeaning }
    ensures only { NoOtherMeaning }
{}
