//! Numbers.

ghost use Rattle.std.specs.Prelude.{◌≡◌, ◌<◌, ◌≤◌, ◌^◌, ◌↔◌, IsTrue, IfOk};
ghost use Rattle.text_words.specs.Text.{BeginsWithDigit};
ghost use Rattle.text_words.specs.Values.{Known};
ghost use Rattle.trace_text.specs.Lines.{Number, OfNumber};
ghost use Rattle.trace_text.specs.Outcome.{Reads};

use text_words::Cause;

fn begins_with_digit(word: &str) -> bool
    ensures { IsTrue result ↔ BeginsWithDigit word.now }
{
    matches!(word.as_bytes(), [b'0'..=b'9', ..])
}

/// The number that a word stands for, from `low` to `high`. A word that begins with no digit has another shape.
pub fn number(word: &str, low: u64, high: u64) -> Result<u64, Cause>
    ensures reads { (known : Known) → Reads known (Number low high) word.now result OfNumber }
    ensures in_range { IfOk result (λ n. (low ≤ n) × (n ≤ high)) }
{
    if !begins_with_digit(word) {
        return Err(Cause::BadWord);
    }
    match word.parse::<u64>() {
        Ok(n) => {
            if low <= n && n <= high {
                Ok(n)
            } else {
                Err(Cause::BadNumber)
            }
        }
        Err(_) => Err(Cause::BadNumber),
    }
}
