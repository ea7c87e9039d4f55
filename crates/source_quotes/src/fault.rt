//! Why a program's text means nothing, for a person.

ghost use Rattle.std.specs.Prelude.{◌++◌, IfOk};
ghost use Rattle.text_buffers.specs.Builders.{Adds};
ghost use Rattle.text_words.specs.Text.{lines};
ghost use Rattle.source_quotes.specs.Lines.{line_in};
ghost use Rattle.source_quotes.specs.Parts.{IsWithin};
ghost use Rattle.source_quotes.specs.FaultTexts.{fault_text, TellsFault};

use crate::diagnosis::diagnose;
use crate::hint::hint;
use crate::look::{Look, Paint, push_painted, push_place, push_quote, push_sign_below};
use crate::meant::Meant;
use crate::mistake::Mistake;
use crate::part::{Span, span_of};
use crate::scene::{Scene, words_of};
use crate::source::Source;
use std::alloc::{AllocError, Global};
use text_buffers::TextBuilder;
use text_words::Cause;

/// Adds the mistake, the place, the faulty line with a sign below the part that is wrong, and what may help.
fn push_fault(
    text: &mut TextBuilder,
    look: Look,
    file: &str,
    source: &Source<'_>,
    number: u32,
    mistake: Mistake,
    span: Span,
    help: &[u8],
)
    requires { IsWithin span (line_in source.now number) }
    ensures { Adds text.old (fault_text look file.now source.now number mistake span ++ help.now) text.new }
{
    push_painted(text, look, Paint::Red, "error");
    text.push_words(": ");
    text.push_words(mistake.title());
    text.push_words("\n");
    push_place(text, look, file, number);
    push_quote(text, look, source, number);
    push_sign_below(text, look, Paint::Red, source.line(number), span, b'^');
    text.push_words("\n");
    text.push_bytes(help);
}

/// What is told of the text of a program or a trace that has a fault at this line: what is wrong, the line with a sign below the part of it that
/// is wrong, and what may help, such as the name or the keyword that was meant.
pub fn fault_message(
    alloc: Global,
    is_painted: bool,
    file: &str,
    text: &[u8],
    number: u32,
    why: Cause,
    meant: Meant,
) -> Result<Vec<u8>, AllocError>
    ensures { IfOk result (λ told. TellsFault is_painted file.now (lines text.now) number why told.items) }
{
    let source = Source::new(alloc, text)?;
    let look = Look::of(is_painted, &source);
    let words = words_of(alloc, source.line(number))?;
    let scene = Scene {
        lines: source.as_slice(),
        number,
        line: source.line(number),
        meant,
        words: words.as_slice(),
    };
    let found = diagnose(&scene, why);
    let span = span_of(source.line(number), found.part);
    let help = hint(alloc, look, &scene, found)?;
    let mut told = TextBuilder::new(alloc);
    push_fault(
        &mut told,
        look,
        file,
        &source,
        number,
        found.mistake,
        span,
        help.as_slice(),
    );
    told.end()
}
