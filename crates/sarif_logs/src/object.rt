//! Objects made member by member.
//!
//! An [`Object`] goes from call to call by value. That there was no memory for a member is noted, and told once, at the end.

ghost use Rattle.std.specs.Prelude.{◌≡◌, Some, IfOk};
ghost use Rattle.serde_json.specs.Data.{string, no_members};
ghost use Rattle.serde_json.specs.View.{view};
ghost use Rattle.sarif_logs.specs.Objects.{made, told_view, Puts, Ends};

use serde_json::{Map, Value, put};
use std::alloc::{AllocError, Global};

/// An object in the making.
#[derive(Drop)]
pub struct Object {
    alloc: Global,
    members: Map<String, Value>,
    /// Whether there was no memory for a member.
    is_short: bool,
}

impl Object {
    /// An object without members.
    pub fn new(alloc: Global) -> Object
        ensures { made result ≡ Some no_members }
    {
        Object {
            alloc,
            members: Map::new(alloc),
            is_short: false,
        }
    }

    /// The object with a further member.
    pub fn with(self, key: &str, value: Value) -> Object
        ensures { Puts (made self) key.now (Some (view value)) (made result) }
    {
        let Object {
            alloc,
            mut members,
            is_short,
        } = self;
        let is_put = put(&mut members, alloc, key, value).is_ok();
        Object {
            alloc,
            members,
            is_short: is_short || !is_put,
        }
    }

    /// The object with a further member. Where there was no memory for its value, [`Object::finish`] errors.
    pub fn with_made(self, key: &str, value: Result<Value, AllocError>) -> Object
        ensures { Puts (made self) key.now (told_view value) (made result) }
    {
        match value {
            Ok(value) => self.with(key, value),
            Err(AllocError) => Object {
                is_short: true,
                ..self
            },
        }
    }

    /// The object with a text as a further member.
    pub fn with_text(self, key: &str, text: &str) -> Object
        ensures { Puts (made self) key.now (Some (string text.now)) (made result) }
    {
        let value = Value::try_from_str(self.alloc, text);
        self.with_made(key, value)
    }

    /// The object as a value. Errors where there was no memory for a member.
    pub fn finish(self) -> Result<Value, AllocError>
        ensures { IfOk result (λ value. Ends self (view value)) }
    {
        if self.is_short {
            return Err(AllocError);
        }
        Ok(Value::Object(self.members))
    }
}
