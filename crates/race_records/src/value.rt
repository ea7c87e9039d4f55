//! Texts and lists as values.

ghost use Rattle.std.specs.Prelude.{◌≡◌, IfOk, map, string_bytes};
ghost use Rattle.std.specs.Option.{option_map};
ghost use Rattle.serde_json.specs.View.{view};
ghost use Rattle.race_records.specs.Values.{text_told, text_or_null, list_told, IsTextOf};

use serde_json::Value;
use std::alloc::{AllocError, Global};

/// Bytes as a text.
pub fn text_value(alloc: Global, text: &[u8]) -> Result<Value, AllocError>
    ensures { IfOk result (λ value. view value ≡ text_told text.now) }
{
    Ok(Value::from(String::from_utf8_lossy(alloc, text)?))
}

/// Bytes as a text, where there are some.
pub(crate) fn text_or_null(alloc: Global, text: Option<&[u8]>) -> Result<Value, AllocError>
    ensures { IfOk result (λ value. view value ≡ text_or_null (option_map (λ text. text.now) text.entry)) }
{
    match text {
        Some(text) => text_value(alloc, text),
        None => Ok(Value::Null),
    }
}

/// Texts as a list.
pub(crate) fn texts_value(alloc: Global, texts: &[String]) -> Result<Value, AllocError>
    ensures { IfOk result (λ value. view value ≡ list_told text_told (map string_bytes texts.now)) }
{
    let mut values = Vec::new(alloc);
    for text in texts {
        values.push(text_value(alloc, text.as_bytes())?)?;
    }
    Ok(Value::from(values))
}

/// The text of a value, with no space.
pub(crate) fn value_text(alloc: Global, value: &Value) -> Result<Vec<u8>, AllocError>
    ensures { IfOk result (λ text. IsTextOf (view value.now) text.items) }
{
    value.to_vec(alloc)
}
