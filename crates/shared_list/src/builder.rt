ghost use Rattle.std.specs.Prelude.{◌≡◌, ◌++◌, ◌∷◌, [], OnOk, IfOk, map};
ghost use Rattle.std.specs.Arc.{arc_value};
ghost use Rattle.std.specs.List.{flat_map};

use crate::named::Named;
use crate::run::Run;
use std::alloc::{AllocError, Global};
use std::marker::Model;
use std::mem;
use std::sync::Arc;

/// How many items are in a run at most.
const MOST: usize = 32;

/// Runs in the making, and behind them items that are in no run yet. A contract sees all items.
#[derive(Drop)]
pub(crate) struct Builder<T: Named> {
    alloc: Global,
    runs: Vec<Arc<Run<T>>>,
    loose: Vec<Arc<T>>,
}

impl<T: Named> Model for Builder<T> {
    ghost use Rattle.std.specs.Prelude.{◌++◌, List, map};
    ghost use Rattle.std.specs.Arc.{arc_value};
    ghost use Rattle.std.specs.List.{flat_map};

    ghost Value = { List T };

    ghost view = { λ builder. flat_map arc_value builder.runs.items ++ map arc_value builder.loose.items };
}

impl<T: Named> Builder<T> {
    /// No items, with room for so many runs.
    pub(crate) fn with_room(alloc: Global, runs: usize) -> Result<Builder<T>, AllocError>
        ensures { IfOk result (λ none. none ≡ []) }
    {
        Ok(Builder {
            alloc,
            runs: Vec::with_capacity(alloc, runs)?,
            loose: Vec::new(alloc),
        })
    }

    /// Puts an item behind the others.
    pub(crate) fn push(&mut self, item: Arc<T>) -> Result<(), AllocError>
        ensures { OnOk result (self.new ≡ self.old ++ arc_value item ∷ []) }
    {
        if self.loose.len() >= MOST {
            close(self.alloc, &mut self.loose, &mut self.runs)?;
        }
        if self.loose.is_empty() {
            self.loose.reserve(MOST)?;
        }
        Ok(self.loose.push(item)?)
    }

    /// Shares items. Costs one look at each.
    pub(crate) fn share(&mut self, items: &[Arc<T>]) -> Result<(), AllocError>
        ensures { OnOk result (self.new ≡ self.old ++ map arc_value items.now) }
    {
        for item in items {
            self.push(Arc::try_clone(item)?)?;
        }
        Ok(())
    }

    /// Shares the items of a run: as a whole, where they and the loose ones are too many for one run.
    pub(crate) fn share_run(&mut self, run: &Arc<Run<T>>) -> Result<(), AllocError>
        ensures { OnOk result (self.new ≡ self.old ++ arc_value run.now) }
    {
        let together = self.loose.len().saturating_add(run.items().len());
        if !self.loose.is_empty() && together <= MOST {
            return self.share(run.items());
        }
        close(self.alloc, &mut self.loose, &mut self.runs)?;
        Ok(self.runs.push(Arc::try_clone(run)?)?)
    }

    /// The runs, with all items in them.
    pub(crate) fn into_runs(self) -> Result<Vec<Arc<Run<T>>>, AllocError>
        ensures { IfOk result (λ runs. flat_map arc_value runs.items ≡ self) }
    {
        let Builder {
            alloc,
            mut runs,
            mut loose,
        } = self;
        close(alloc, &mut loose, &mut runs)?;
        Ok(runs)
    }
}

/// Makes a run of loose items, if there are any.
fn close<T: Named>(
    alloc: Global,
    loose: &mut Vec<Arc<T>>,
    runs: &mut Vec<Arc<Run<T>>>,
) -> Result<(), AllocError>
    ensures all { OnOk result (flat_map arc_value runs.new.items
        ≡ flat_map arc_value runs.old.items ++ map arc_value loose.old.items) }
    ensures none { OnOk result (loose.new.items ≡ []) }
{
    if loose.is_empty() {
        return Ok(());
    }
    let items = mem::replace(loose, Vec::new(alloc));
    let run = Run::new(alloc, items)?;
    Ok(runs.push(Arc::new(alloc, run)?)?)
}
