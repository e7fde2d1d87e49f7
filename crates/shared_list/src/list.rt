ghost use Rattle.std.specs.Prelude.{◌≡◌, [], IfOk, IfSome, Some, option_map};
ghost use Rattle.std.specs.Arc.{arc_value};
ghost use Rattle.std.specs.List.{flat_map};
ghost use Rattle.std.specs.List.Sorted.{IsStrictlySortedBy};
ghost use Rattle.std.specs.Map.{keys_of};
ghost use Rattle.shared_list.specs.Changed.{changed};
ghost use Rattle.shared_list.specs.Order.{InOrder, item_of, name_cmp};

use crate::builder::Builder;
use crate::change::Change;
use crate::heads::{head_of, place_of};
use crate::items::Items;
use crate::named::Named;
use crate::rest::Rest;
use crate::run::Run;
use std::alloc::{AllocError, Global};
use std::marker::Model;
use std::sync::Arc;

/// Named items in the order of their names, each name once. A contract sees the items.
#[derive(Drop)]
pub struct SharedList<T: Named> {
    runs: Vec<Arc<Run<T>>>,
    /// The first bytes of the last name of each run, where a search begins.
    heads: Vec<u64>,
}

impl<T: Named> Model for SharedList<T> {
    ghost use Rattle.std.specs.Prelude.{List};
    ghost use Rattle.std.specs.Arc.{arc_value};
    ghost use Rattle.std.specs.List.{flat_map};
    ghost use Rattle.shared_list.specs.Order.{InOrder};

    ghost Value = { List T };

    ghost view = { λ list. flat_map arc_value list.runs.items };

    ghost invariant = { λ list. InOrder T.name (flat_map arc_value list.runs.items) };
}

impl<T: Named> SharedList<T> {
    /// No items.
    pub fn new(alloc: Global) -> SharedList<T>
        ensures { result ≡ [] }
    {
        SharedList {
            runs: Vec::new(alloc),
            heads: Vec::new(alloc),
        }
    }

    /// The items after changes of names in order. Costs a look at each run, and one at each item of a run that a change
    /// is in. All other runs are shared.
    pub fn changed(
        &self,
        alloc: Global,
        changes: Vec<Change<'_, T>>,
    ) -> Result<SharedList<T>, AllocError>
        requires { IsStrictlySortedBy name_cmp (keys_of changes.items) }
        ensures after { IfOk result (λ list. list ≡ changed T.name self.now changes.entry.items) }
        ensures order { IfOk result (λ list. InOrder T.name list) }
    {
        let mut made = Builder::with_room(alloc, self.runs.len())?;
        let mut rest = Rest::of(&self.runs);
        for change in changes {
            let (name, item) = change.into_parts();
            rest.share_before(name, &mut made)?;
            if let Some(item) = item {
                made.push(Arc::new(alloc, item)?)?;
            }
        }
        rest.share_all(&mut made)?;
        let runs = made.into_runs()?;
        let heads = heads_of(alloc, &runs)?;
        Ok(SharedList { runs, heads })
    }

    /// The items one after another.
    pub fn items(&self) -> Items<'_, T>
        ensures items { result ≡ self.now }
        ensures order { InOrder T.name self.now }
    {
        Items::of(&self.runs)
    }

    /// The item of a name, if there is one. Two searches among numbers that lie together, and one comparison of two
    /// names, where no other item's name begins with the same eight bytes; else one comparison for each run before it,
    /// and a binary search more.
    pub fn find(&self, name: &[u8]) -> Option<&T>
        ensures { option_map (λ item. item.now) result ≡ item_of T.name self.now name.now }
    {
        match self.guess(name) {
            Some(item) => Some(item),
            None => self.search(name),
        }
    }

    /// The item of a name that stands where the first bytes of the name say.
    fn guess(&self, name: &[u8]) -> Option<&T>
        ensures { IfSome result (λ item. item_of T.name self.now name.now ≡ Some item.now) }
    {
        let head = head_of(name);
        self.runs
            .get(place_of(head, &self.heads))?
            .guess(name, head)
    }

    /// The item of a name, if there is one. One comparison for each run before it, and a binary search.
    fn search(&self, name: &[u8]) -> Option<&T>
        ensures { option_map (λ item. item.now) result ≡ item_of T.name self.now name.now }
    {
        for run in &self.runs {
            if !run.ends_before(name) {
                return run.search(name);
            }
        }
        None
    }
}

/// The first bytes of the last names of runs.
fn heads_of<T: Named>(alloc: Global, runs: &[Arc<Run<T>>]) -> Result<Vec<u64>, AllocError> {
    let mut heads = Vec::with_capacity(alloc, runs.len())?;
    for run in runs {
        heads.push(run.last_head())?;
    }
    Ok(heads)
}
