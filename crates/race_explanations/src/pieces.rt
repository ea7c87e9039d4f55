//! Texts that are made one after another.

ghost use Rattle.std.specs.Prelude.{◌≡◌, [], Some, false, OnOk};
ghost use Rattle.race_explanations.specs.Pieces.{Cuts};

use std::alloc::{AllocError, Global};
use std::mem;
use text_buffers::TextBuilder;

/// Texts that are made one after another. That there was no memory for one is noted, and told once, at the end.
pub(crate) struct Pieces {
    alloc: Global,
    /// The text that is being made.
    pub(crate) text: TextBuilder,
    is_short: bool,
}

/// Written out, so that what lets it go calls one function.
impl Drop for Pieces {
    fn drop(self) {
        let Pieces {
            alloc: _,
            text: _,
            is_short: _,
        } = self;
    }
}

impl Pieces {
    /// No text yet.
    pub(crate) fn new(alloc: Global) -> Pieces
        ensures { result.text ≡ Some [] }
    {
        Pieces {
            alloc,
            text: TextBuilder::new(alloc),
            is_short: false,
        }
    }

    /// Ends the text that is being made, and begins the next one.
    pub(crate) fn cut(&mut self) -> Vec<u8>
        ensures { Cuts self.old self.new result.items }
    {
        let text = mem::replace(&mut self.text, TextBuilder::new(self.alloc));
        match text.end() {
            Ok(piece) => piece,
            Err(AllocError) => {
                self.is_short = true;
                Vec::new(self.alloc)
            }
        }
    }

    /// Errors where there was no memory for one of those that were cut off.
    pub(crate) fn end(self) -> Result<(), AllocError>
        ensures { OnOk result (self.is_short ≡ false) }
    {
        if self.is_short {
            return Err(AllocError);
        }
        Ok(())
    }
}
