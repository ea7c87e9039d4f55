//! How much is told of the races of a run.

ghost use Rattle.std.specs.Prelude.{◌≡◌};
ghost use Rattle.text_buffers.specs.Builders.{Adds};
ghost use Rattle.race_explanations.specs.Extents.{most_pairs, most_shown, more_pairs};

use race_pairs::PAIRS;
use source_quotes::push_count;
use text_buffers::TextBuilder;

/// How many of the pairs that part at one spawn are shown.
const SHOWN: usize = 3;

/// How much is told of the races of a run.
#[derive(Clone, Copy)]
pub enum Extent {
    /// The first twenty pairs are kept, and of those that part at one spawn three are shown.
    First,
    /// All pairs are kept and shown.
    All,
}

/// How many pairs are kept at most.
pub fn most_pairs(extent: Extent) -> usize
    ensures { result ≡ most_pairs extent }
{
    match extent {
        Extent::First => PAIRS,
        Extent::All => usize::MAX,
    }
}

/// How many of the pairs that part at one spawn are shown at most.
pub(crate) fn most_shown(extent: Extent) -> usize
    ensures { result ≡ most_shown extent }
{
    match extent {
        Extent::First => SHOWN,
        Extent::All => usize::MAX,
    }
}

/// Adds how many pairs there are more than are told: of what, and what is said of them.
pub(crate) fn push_more_pairs(
    text: &mut TextBuilder,
    most: usize,
    count: usize,
    of_what: &str,
    behind: &str,
)
    ensures { Adds text.old (more_pairs most count of_what.now behind.now) text.new }
{
    if count <= most {
        return;
    }
    text.push_words("and ");
    push_count(text, count - most, "more pair");
    text.push_words(of_what);
    text.push_words(behind);
}
