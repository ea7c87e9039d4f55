//! Words with blanks for numbers, added to the text of a drawing.

ghost use Rattle.text_buffers.specs.Builders.{Adds};
ghost use Rattle.dag_drawing.specs.Blanks.{filled};

use text_buffers::TextBuilder;

/// Adds words, with the numbers one by one in their blanks, each of which is a `#`.
pub(crate) fn push_filled(text: &mut TextBuilder, words: &str, numbers: &[u64])
    ensures { Adds text.old (filled words.now numbers.now) text.new }
{
    let mut next = 0;
    for byte in words.as_bytes() {
        if *byte == b'#' && next < numbers.len() {
            text.push_number("", numbers[next]);
            next += 1;
        } else {
            text.push_byte(*byte);
        }
    }
}
