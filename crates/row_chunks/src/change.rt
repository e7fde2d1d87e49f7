ghost use Rattle.std.specs.Prelude.{◌≡◌};
ghost use Rattle.row_chunks.specs.Made.{change_made};

use alto_rows::{Key, Value, Write};
use std::marker::Model;

/// The change that a write makes. It borrows the write, so no key is copied. A contract sees the key with the value
/// that it then has, if any.
#[derive(Drop)]
pub(crate) struct Change<'a> {
    write: &'a Write,
}

impl<'a> Model for Change<'a> {
    ghost use Rattle.row_chunks.specs.Made.{OneChange, change_made};

    ghost Value = { OneChange };

    ghost view = { λ change. change_made change.write.now };
}

impl<'a> Change<'a> {
    /// The change that a write makes.
    pub(crate) fn new(write: &'a Write) -> Change<'a>
        ensures { result ≡ change_made write.now }
    {
        Change { write }
    }

    /// The key.
    pub(crate) fn key(&self) -> &Key
        ensures { result.now ≡ self.now.0 }
    {
        &self.write.key
    }

    /// The value that it then has, if any.
    pub(crate) fn value(&self) -> &Option<Value>
        ensures { result.now ≡ self.now.1 }
    {
        &self.write.value
    }

    /// The same change once more.
    pub(crate) fn again(&self) -> Change<'a>
        ensures { result ≡ self.now }
    {
        Change { write: self.write }
    }
}
