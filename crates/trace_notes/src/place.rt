//! What stands at a mark: where it is in a file, in which function, and the line of code.

ghost use Rattle.std.specs.Prelude.{◌≡◌, ◌&&◌, ◌+◌, ◌≤◌, true, IfSome, drop, length};
ghost use Rattle.std.specs.Option.{option_map};
ghost use Rattle.std.specs.Str.{IsCharBoundary};
ghost use Rattle.trace_notes.specs.Places.{advanced, begins_function, begins_code, is_number, is_end, location_len, bar_at, before_bar, after_bar};
ghost use Rattle.trace_notes.specs.Places.{function_in, code_in, place_parts};
ghost use Rattle.trace_notes.specs.Places as spec;

/// What stands at the end of what was read of a location.
#[derive(Clone, Copy)]
pub enum Seen {
    /// Nothing was read.
    Nothing,
    /// None of the others.
    Other,
    /// A colon with a byte before it.
    Colon,
    /// Such a colon, and digits.
    Number,
}

/// A place in a program's source, as a note says it.
#[derive(Clone, Copy)]
pub struct Place<'a> {
    /// The file and the line, and the column where it is told: `FILE:LINE` or `FILE:LINE:COLUMN`.
    pub location: &'a str,
    /// The function.
    pub function: Option<&'a str>,
    /// The line of code.
    pub code: Option<&'a str>,
}

/// What stands at the end after one more byte.
fn advance(seen: Seen, byte: u8) -> Seen
    ensures { result ≡ advanced seen byte }
{
    match seen {
        Seen::Nothing => Seen::Other,
        Seen::Other => {
            if byte == b':' {
                Seen::Colon
            } else {
                Seen::Other
            }
        }
        Seen::Colon | Seen::Number => {
            if byte == b':' {
                Seen::Colon
            } else if byte.is_ascii_digit() {
                Seen::Number
            } else {
                Seen::Other
            }
        }
    }
}

fn is_number(seen: Seen) -> bool
    ensures { result ≡ is_number seen }
{
    matches!(seen, Seen::Number)
}

fn begins_function(rest: &[u8]) -> bool
    ensures { result ≡ begins_function rest.now }
{
    matches!(rest, [b',', b' ', ..])
}

fn begins_code(rest: &[u8]) -> bool
    ensures { result ≡ begins_code rest.now }
{
    matches!(rest, [b' ', b'|', b' ', ..])
}

/// Whether a location that ends with a number may end before these bytes.
fn is_end(rest: &[u8]) -> bool
    ensures { result ≡ is_end rest.now }
{
    rest.is_empty() || begins_function(rest) || begins_code(rest)
}

/// Whether a location ends before these bytes, where this was seen before them.
fn ends_before(seen: Seen, rest: &[u8]) -> bool
    ensures { result ≡ (is_number seen && is_end rest.now) }
{
    is_number(seen) && is_end(rest)
}

/// How many bytes at the head of a place are its location.
fn location_len(place: &[u8]) -> Option<usize>
    ensures value { result ≡ location_len Seen.Nothing place.now }
    ensures end { IfSome result (λ end. (end ≤ length place.now) × (is_end (drop end place.now) ≡ true)) }
{
    let mut seen = Seen::Nothing;
    for at in 0..place.len() {
        let (_, rest) = place.split_at(at);
        if ends_before(seen, rest) {
            return Some(at);
        }
        seen = advance(seen, place[at]);
    }
    if is_number(seen) {
        Some(place.len())
    } else {
        None
    }
}

/// Where a bar with a space on each side begins first.
fn bar_at(text: &[u8]) -> Option<usize>
    ensures value { result ≡ bar_at text.now }
    ensures there { IfSome result (λ at. (at + 3 ≤ length text.now) × (begins_code (drop at text.now) ≡ true)) }
{
    for at in 0..text.len() {
        let (_, rest) = text.split_at(at);
        if begins_code(rest) {
            return Some(at);
        }
    }
    None
}

/// What stands before the first bar, or the whole text, and what stands behind it.
fn around_bar(text: &str) -> (&str, Option<&str>)
    ensures before { result.0.now ≡ before_bar text.now }
    ensures after { option_map (λ rest. rest.now) result.1 ≡ after_bar text.now }
{
    match bar_at(text.as_bytes()) {
        Some(at) => {
            let (before, _) = text.split_at(at);
            let (_, after) = text.split_at(at + 3);
            (before, Some(after))
        }
        None => (text, None),
    }
}

/// The function and the code in what stands behind a location.
fn behind_location(behind: &str) -> (Option<&str>, Option<&str>)
    ensures function { option_map (λ text. text.now) result.0 ≡ function_in behind.now }
    ensures code { option_map (λ text. text.now) result.1 ≡ code_in behind.now }
{
    if begins_function(behind.as_bytes()) {
        let (_, rest) = behind.split_at(2);
        let (function, code) = around_bar(rest);
        (Some(function), code)
    } else {
        let (_, code) = around_bar(behind);
        (None, code)
    }
}

/// A place taken apart: `FILE:LINE[:COLUMN][, FUNCTION][ | CODE]`. The location ends at the first place where a number behind a colon is
/// followed by `, `, by ` | ` or by nothing, and the function at the first ` | ` behind it. None where the text is no place.
pub fn split_place(text: &str) -> Option<Place<'_>>
    ensures { option_map place_parts result ≡ spec.split_place text.now }
{
    match location_len(text.as_bytes()) {
        Some(end) => {
            let (location, behind) = text.split_at(end);
            let (function, code) = behind_location(behind);
            Some(Place {
                location,
                function,
                code,
            })
        }
        None => None,
    }
}
