//! The forms of a record.

ghost use Rattle.std.specs.Prelude.{IfOk};
ghost use Rattle.serde_json.specs.View.{view};
ghost use Rattle.race_records.specs.Values.{IsTextOf};
ghost use Rattle.race_records.specs.Forms.{in_form};

use crate::value::value_text;
use sarif_logs::log_value;
use serde_json::Value;
use std::alloc::{AllocError, Global};

/// The form of a record.
#[derive(Clone, Copy)]
pub enum RecordForm {
    /// A JSON object of a shape of its own.
    Json,
    /// The SARIF log of that object.
    Sarif,
}

/// The text of a record, with no space.
pub(crate) fn record_text(
    alloc: Global,
    form: RecordForm,
    document: &Value,
) -> Result<Vec<u8>, AllocError>
    ensures { IfOk result (λ text. IsTextOf (in_form form (view document.now)) text.items) }
{
    match form {
        RecordForm::Json => value_text(alloc, document),
        RecordForm::Sarif => {
            let log = log_value(alloc, document)?;
            value_text(alloc, &log)
        }
    }
}
