//! The words of versions and monoids.

ghost use Rattle.std.specs.Prelude.{◌≡◌, ◌↔◌, Some};
ghost use Rattle.model_reducers.specs.declared.monoid.Monoid.{Monoid};
ghost use Rattle.text_words.specs.Names.{MonoidMeans};
ghost use Rattle.text_words.specs.Values.{version_spelling, monoid_spelling};

use crate::value::Version;
use model_reducers::Monoid;

/// The monoid of the version that a word is.
pub fn monoid_of(version: Version, name: &str) -> Option<Monoid>
    ensures { (monoid : Monoid) → (result ≡ Some monoid) ↔ MonoidMeans version name.now monoid }
{
    match name {
        "sum" => Some(Monoid::Sum),
        "min" => Some(Monoid::Min),
        "max" => Some(Monoid::Max),
        "last" => Some(Monoid::Last),
        "digits" if version == Version::Two => Some(Monoid::Digits),
        _ => None,
    }
}

/// The word of a monoid.
pub fn monoid_word(monoid: Monoid) -> &'static str
    ensures { result.now ≡ monoid_spelling monoid }
{
    match monoid {
        Monoid::Sum => "sum",
        Monoid::Min => "min",
        Monoid::Max => "max",
        Monoid::Last => "last",
        Monoid::Digits => "digits",
    }
}

/// The word of a version.
pub fn version_word(version: Version) -> &'static str
    ensures { result.now ≡ version_spelling version }
{
    match version {
        Version::One => "1",
        Version::Two => "2",
    }
}
