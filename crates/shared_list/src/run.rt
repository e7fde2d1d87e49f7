ghost use Rattle.std.specs.Prelude.{◌≡◌, IfOk, IfSome, Some, map, option_map};
ghost use Rattle.std.specs.Arc.{arc_value};
ghost use Rattle.shared_list.specs.Order.{InOrder, ends_before, item_of};

use crate::heads::{head_of, place_of};
use crate::named::Named;
use std::alloc::{AllocError, Global};
use std::marker::Model;
use std::sync::Arc;

/// Items of a list that stand one after another. A contract sees them.
#[derive(Drop)]
pub(crate) struct Run<T: Named> {
    items: Vec<Arc<T>>,
    /// The first bytes of their names, where a search begins.
    heads: Vec<u64>,
}

impl<T: Named> Model for Run<T> {
    ghost use Rattle.std.specs.Prelude.{List, map};
    ghost use Rattle.std.specs.Arc.{arc_value};

    ghost Value = { List T };

    ghost view = { λ run. map arc_value run.items.items };
}

impl<T: Named> Run<T> {
    /// These items.
    pub(crate) fn new(alloc: Global, items: Vec<Arc<T>>) -> Result<Run<T>, AllocError>
        ensures { IfOk result (λ run. run ≡ map arc_value items.items) }
    {
        let heads = heads_of(alloc, &items)?;
        Ok(Run { items, heads })
    }

    /// The items.
    pub(crate) fn items(&self) -> &[Arc<T>]
        ensures { map arc_value result.now ≡ self.now }
    {
        &self.items
    }

    /// Whether the last item is before a name, if there is one. One comparison.
    pub(crate) fn ends_before(&self, name: &[u8]) -> bool
        ensures { result ≡ ends_before T.name name.now self.now }
    {
        match self.items.last() {
            Some(last) => last.name().cmp(name).is_lt(),
            None => true,
        }
    }

    /// The item of a name that stands where the first bytes of the name say. One search among numbers that lie
    /// together, and one comparison.
    pub(crate) fn guess(&self, name: &[u8], head: u64) -> Option<&T>
        requires { InOrder T.name self.now }
        ensures { IfSome result (λ item. item_of T.name self.now name.now ≡ Some item.now) }
    {
        let item = self.items.get(place_of(head, &self.heads))?;
        if item.name() == name {
            Some(&**item)
        } else {
            None
        }
    }

    /// The item of a name, if there is one. One binary search.
    pub(crate) fn search(&self, name: &[u8]) -> Option<&T>
        requires { InOrder T.name self.now }
        ensures { option_map (λ item. item.now) result ≡ item_of T.name self.now name.now }
    {
        let place = self
            .items
            .binary_search_by(|item| item.name().cmp(name))
            .ok()?;
        let item = self.items.get(place)?;
        Some(&**item)
    }

    /// The first bytes of the last name.
    pub(crate) fn last_head(&self) -> u64 {
        match self.heads.last() {
            Some(head) => *head,
            None => 0,
        }
    }
}

/// The first bytes of the names of items.
fn heads_of<T: Named>(alloc: Global, items: &[Arc<T>]) -> Result<Vec<u64>, AllocError> {
    let mut heads = Vec::with_capacity(alloc, items.len())?;
    for item in items {
        heads.push(head_of(item.name()))?;
    }
    Ok(heads)
}
