ghost use Rattle.std.specs.Prelude.{◌≡◌, IfSome, option_map};

use crate::named::Named;
use std::marker::Model;

/// A name, and the item that a list then has under it, if any. A contract sees both.
#[derive(Drop)]
pub struct Change<'a, T: Named> {
    name: &'a [u8],
    item: Option<T>,
}

impl<'a, T: Named> Model for Change<'a, T> {
    ghost use Rattle.std.specs.Prelude.{◌≡◌, IfSome};
    ghost use Rattle.shared_list.specs.Changed as spec;

    ghost Value = { spec.Change T };

    ghost view = { λ change. (change.name.now, change.item) };

    ghost invariant = { λ change. IfSome change.item (λ item. T.name item ≡ change.name.now) };
}

impl<'a, T: Named> Change<'a, T> {
    /// An item of this name, or none.
    pub fn new(name: &'a [u8], item: Option<T>) -> Change<'a, T>
        requires { IfSome item (λ item. T.name item ≡ name.now) }
        ensures { result ≡ (name.now, item) }
    {
        Change { name, item }
    }

    /// The item, if any.
    pub fn item(&self) -> Option<&T>
        ensures { option_map (λ item. item.now) result ≡ self.now.1 }
    {
        self.item.as_ref()
    }

    /// Both.
    pub(crate) fn into_parts(self) -> (&'a [u8], Option<T>)
        ensures name { result.0.now ≡ self.entry.0 }
        ensures item { result.1 ≡ self.entry.1 }
        ensures has { IfSome result.1 (λ item. T.name item ≡ result.0.now) }
    {
        let Change { name, item } = self;
        (name, item)
    }
}
