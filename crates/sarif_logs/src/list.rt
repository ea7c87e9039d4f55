//! Lists made item by item. That there was no memory for an item is noted, and told once, at the end.

ghost use Rattle.std.specs.Prelude.{◌≡◌, [], Some, IfOk};
ghost use Rattle.std.specs.Option.{option_map};
ghost use Rattle.serde_json.specs.Data.{array, item, no_items};
ghost use Rattle.serde_json.specs.View.{view, items_of};
ghost use Rattle.sarif_logs.specs.Objects.{told_view};
ghost use Rattle.sarif_logs.specs.Lists.{items_made, IsNext, Gets};

use serde_json::Value;
use std::alloc::{AllocError, Global};

/// A list in the making.
pub(crate) struct ValueList {
    items: Vec<Value>,
    is_short: bool,
}

impl ValueList {
    /// A list without items.
    pub(crate) fn new(alloc: Global) -> ValueList
        ensures { items_made result ≡ Some [] }
    {
        ValueList {
            items: Vec::new(alloc),
            is_short: false,
        }
    }

    /// The number, from 1 on, of the item that comes next.
    pub(crate) fn next_number(&self) -> usize
        ensures { IsNext (items_made self.now) result }
    {
        self.items.len() + 1
    }

    /// Adds an item. Where there was no memory for it, [`ValueList::finish`] errors.
    pub(crate) fn push(&mut self, value: Result<Value, AllocError>)
        ensures { Gets (items_made self.old) (told_view value) (items_made self.new) }
    {
        let is_pushed = match value {
            Ok(value) => self.items.push(value).is_ok(),
            Err(AllocError) => false,
        };
        self.is_short |= !is_pushed;
    }

    /// The list as a value. Errors where there was no memory for an item.
    pub(crate) fn finish(self) -> Result<Value, AllocError>
        ensures { IfOk result (λ value. option_map (λ items. array (items_of items)) (items_made self) ≡ Some (view value)) }
    {
        let ValueList { items, is_short } = self;
        if is_short {
            return Err(AllocError);
        }
        Ok(Value::Array(items))
    }
}

/// A list of one item.
pub(crate) fn list_of_one(
    alloc: Global,
    value: Result<Value, AllocError>,
) -> Result<Value, AllocError>
    ensures { IfOk result (λ made. option_map (λ told. array (item told no_items)) (told_view value) ≡ Some (view made)) }
{
    let mut list = ValueList::new(alloc);
    list.push(value);
    list.finish()
}
