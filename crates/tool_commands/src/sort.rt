//! Whether a text is to mean a program or a trace.

ghost use Rattle.std.specs.Prelude.{◌≡◌, ◌==◌, Bool, unwrap_or};
ghost use Rattle.std.specs.List.{before_first, find, slice_split};
ghost use Rattle.std.specs.Option.{option_map};
ghost use Rattle.text_words.specs.Text.{is_blank, is_hash, is_nonempty};
ghost use Rattle.tool_commands.specs.Sorts.{first_word, decided, is_program_text};

use text_words::{as_text, split_line, without_comment, without_return};

fn is_blank(byte: u8) -> bool
    ensures { result ≡ is_blank byte }
{
    byte == b' ' || byte == b'\t'
}

/// The first word of a line, whatever bytes it has.
fn first_piece(line: &[u8]) -> Option<&[u8]>
    ensures { option_map (λ piece. piece.now) result ≡ find is_nonempty (slice_split is_blank (before_first is_hash line.now)) }
{
    without_comment(line)
        .split(|byte| is_blank(*byte))
        .find(|piece| !piece.is_empty())
}

/// The first word of a line, where it has one. Behind it there may be bytes that no line may hold.
fn first_word(line: &[u8]) -> Option<&str>
    ensures { option_map (λ word. word.now) result ≡ first_word line.now }
{
    match first_piece(line) {
        Some(word) => as_text(word),
        None => None,
    }
}

/// What a line decides by its first word: that the text is to mean a program, or that it is not; nothing where it declares a name.
fn sort_of(line: &[u8]) -> Option<bool>
    ensures { (behind : Bool) → unwrap_or result behind ≡ decided (first_word line.now) behind }
{
    match first_word(line) {
        None | Some("mem" | "reducer") => None,
        Some(word) => Some(word == "func"),
    }
}

/// Whether a text is to mean a program: the first word behind its header and its declarations is `func`. Else it is to mean a trace.
pub(crate) fn is_program(text: &[u8]) -> bool
    ensures { result ≡ is_program_text text.now }
{
    if text.is_empty() {
        return false;
    }
    let (_, mut rest) = split_line(text);
    while !rest.is_empty() {
        let (line, behind) = split_line(rest);
        match sort_of(without_return(line)) {
            Some(is_program) => return is_program,
            None => rest = behind,
        }
    }
    false
}
