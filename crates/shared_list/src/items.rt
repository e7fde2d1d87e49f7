ghost use Rattle.std.specs.Prelude.{◌≡◌, ◌∷◌, [], IfSome, None, map};
ghost use Rattle.std.specs.Arc.{arc_value};
ghost use Rattle.std.specs.List.{flat_map};

use crate::named::Named;
use crate::run::Run;
use std::marker::Model;
use std::sync::Arc;

/// The items of a list one after another. A contract sees those that are left.
#[derive(Drop)]
pub struct Items<'a, T: Named> {
    items: &'a [Arc<T>],
    runs: &'a [Arc<Run<T>>],
}

impl<'a, T: Named> Model for Items<'a, T> {
    ghost use Rattle.std.specs.Prelude.{◌++◌, List, map};
    ghost use Rattle.std.specs.Arc.{arc_value};
    ghost use Rattle.std.specs.List.{flat_map};

    ghost Value = { List T };

    ghost view = { λ items. map arc_value items.items.now ++ flat_map arc_value items.runs.now };
}

impl<'a, T: Named> Items<'a, T> {
    /// Those of runs.
    pub(crate) fn of(runs: &'a [Arc<Run<T>>]) -> Items<'a, T>
        ensures { result ≡ flat_map arc_value runs.now }
    {
        Items { items: &[], runs }
    }

    /// The next item, none where all were given.
    pub fn next(&mut self) -> Option<&'a T>
        ensures some { IfSome result (λ item. self.old ≡ item.now ∷ self.new) }
        ensures none { result ≡ None → self.old ≡ [] }
        ensures ends { result ≡ None → self.new ≡ [] }
    {
        while self.items.is_empty() {
            let Some((first, runs)) = self.runs.split_first() else {
                return None;
            };
            self.items = first.items();
            self.runs = runs;
        }
        let (item, items) = self.items.split_first()?;
        self.items = items;
        Some(&**item)
    }
}
