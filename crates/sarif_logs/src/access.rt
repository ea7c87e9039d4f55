//! An access of a record.

ghost use Rattle.std.specs.Prelude.{◌≡◌};
ghost use Rattle.serde_json.specs.View.{view};
ghost use Rattle.sarif_logs.specs.Accesses.{access_of, access_at};
ghost use Rattle.sarif_logs.specs.AccessViews.{access_parts};

use crate::place::{NOWHERE, Place, place_at};
use crate::reading::{count_at, items_at, object_at, words_at};
use serde_json::Value;

/// An access, with the spawns and calls that led there.
#[derive(Clone, Copy)]
pub(crate) struct Access<'v> {
    pub(crate) word: &'v str,
    pub(crate) place: Place<'v>,
    pub(crate) within: &'v [Value],
    pub(crate) further: u64,
}

/// The access that a value tells.
fn access_of(value: &Value) -> Access<'_>
    ensures { access_parts result ≡ access_of (view value.now) }
{
    Access {
        word: words_at(value, "word"),
        place: place_at(value, "place"),
        within: items_at(value, "within"),
        further: count_at(value, "further"),
    }
}

/// The access that stands at this key; nothing is known of it where none stands there.
pub(crate) fn access_at<'v>(value: &'v Value, key: &str) -> Access<'v>
    ensures { access_parts result ≡ access_at key.now (view value.now) }
{
    match object_at(value, key) {
        Some(access) => access_of(access),
        None => Access {
            word: "",
            place: NOWHERE,
            within: &[],
            further: 0,
        },
    }
}
