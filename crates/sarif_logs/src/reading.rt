//! What a record says at its keys.

ghost use Rattle.std.specs.Prelude.{◌≡◌, IfOk, map};
ghost use Rattle.std.specs.Option.{option_map};
ghost use Rattle.std.specs.Prelude.{option_and_then};
ghost use Rattle.serde_json.specs.Find.{get, as_array};
ghost use Rattle.serde_json.specs.View.{view, items_view};
ghost use Rattle.sarif_logs.specs.Reading.{text_at, words_at, number_at, count_at, is_at, items_at, object_at, member_at};

use serde_json::Value;
use std::alloc::{AllocError, Global};

/// The text with this key, where there is one.
pub(crate) fn text_at<'v>(value: &'v Value, key: &str) -> Option<&'v str>
    ensures { option_map (λ text. text.now) result ≡ text_at key.now (view value.now) }
{
    value.get(key).and_then(Value::as_str)
}

/// The text with this key, or an empty one.
pub(crate) fn words_at<'v>(value: &'v Value, key: &str) -> &'v str
    ensures { result.now ≡ words_at key.now (view value.now) }
{
    text_at(value, key).unwrap_or("")
}

/// The number with this key, where there is one.
pub(crate) fn number_at(value: &Value, key: &str) -> Option<u64>
    ensures { result ≡ number_at key.now (view value.now) }
{
    value.get(key).and_then(Value::as_u64)
}

/// The number with this key, or 0.
pub(crate) fn count_at(value: &Value, key: &str) -> u64
    ensures { result ≡ count_at key.now (view value.now) }
{
    number_at(value, key).unwrap_or(0)
}

/// Whether these words stand at this key.
pub(crate) fn is_at(value: &Value, key: &str, words: &str) -> bool
    ensures { result ≡ is_at key.now words.now (view value.now) }
{
    words_at(value, key) == words
}

/// The list with this key, where there is one.
fn list_at<'v>(value: &'v Value, key: &str) -> Option<&'v Vec<Value>>
    ensures { option_map (λ list. items_view list.now.items) result ≡ option_and_then as_array (get key.now (view value.now)) }
{
    value.get(key).and_then(Value::as_array)
}

/// The items of the list with this key; none where there is no list.
pub(crate) fn items_at<'v>(value: &'v Value, key: &str) -> &'v [Value]
    ensures { map view result.now ≡ items_at key.now (view value.now) }
{
    match list_at(value, key) {
        Some(items) => items.as_slice(),
        None => &[],
    }
}

/// The object with this key, where there is one.
pub(crate) fn object_at<'v>(value: &'v Value, key: &str) -> Option<&'v Value>
    ensures { option_map (λ found. view found.now) result ≡ object_at key.now (view value.now) }
{
    let found = value.get(key)?;
    if found.is_object() { Some(found) } else { None }
}

/// The member with this key, or null.
pub(crate) fn member_at(alloc: Global, value: &Value, key: &str) -> Result<Value, AllocError>
    ensures { IfOk result (λ found. view found ≡ member_at key.now (view value.now)) }
{
    match value.get(key) {
        Some(found) => found.clone(),
        None => Ok(Value::Null),
    }
}
