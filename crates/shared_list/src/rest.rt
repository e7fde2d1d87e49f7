//! What is left of a list of which another is made.
ghost use Rattle.std.specs.Prelude.{◌≡◌, ◌++◌, false, IfOk, IfSome, OnOk, map, slice_get};
ghost use Rattle.std.specs.Arc.{arc_value};
ghost use Rattle.std.specs.List.{flat_map};
ghost use Rattle.shared_list.specs.Order.{InOrder, before, behind, ends_before};

use crate::builder::Builder;
use crate::named::Named;
use crate::run::Run;
use std::alloc::AllocError;
use std::cmp::Ordering;
use std::marker::Model;
use std::sync::Arc;

/// The items that are left of a run, and the runs behind it. A contract sees all items.
#[derive(Drop)]
pub(crate) struct Rest<'a, T: Named> {
    items: &'a [Arc<T>],
    runs: &'a [Arc<Run<T>>],
}

impl<'a, T: Named> Model for Rest<'a, T> {
    ghost use Rattle.std.specs.Prelude.{◌++◌, List, map};
    ghost use Rattle.std.specs.Arc.{arc_value};
    ghost use Rattle.std.specs.List.{flat_map};

    ghost Value = { List T };

    ghost view = { λ rest. map arc_value rest.items.now ++ flat_map arc_value rest.runs.now };
}

impl<'a, T: Named> Rest<'a, T> {
    /// All items of runs.
    pub(crate) fn of(runs: &'a [Arc<Run<T>>]) -> Rest<'a, T>
        ensures { result ≡ flat_map arc_value runs.now }
    {
        Rest { items: &[], runs }
    }

    /// Shares the items before a name, and leaves those behind it. Costs one comparison for each run that is passed,
    /// and for each item of at most two runs.
    pub(crate) fn share_before(
        &mut self,
        name: &[u8],
        shared: &mut Builder<T>,
    ) -> Result<(), AllocError>
        requires { InOrder T.name self.old }
        ensures shared { OnOk result (shared.new ≡ shared.old ++ before T.name name.now self.old) }
        ensures left { OnOk result (self.new ≡ behind T.name name.now self.old) }
    {
        self.items = share_items_before(name, self.items, shared)?;
        if !self.items.is_empty() {
            return Ok(());
        }
        self.runs = share_runs_before(name, self.runs, shared)?;
        if let Some((first, runs)) = self.runs.split_first() {
            self.items = share_items_before(name, first.items(), shared)?;
            self.runs = runs;
        }
        Ok(())
    }

    /// Shares all items.
    pub(crate) fn share_all(self, shared: &mut Builder<T>) -> Result<(), AllocError>
        ensures { OnOk result (shared.new ≡ shared.old ++ self.entry) }
    {
        let Rest { items, runs } = self;
        shared.share(items)?;
        for run in runs {
            shared.share_run(run)?;
        }
        Ok(())
    }
}

/// Shares the items before a name, and gives those behind it.
fn share_items_before<'a, T: Named>(
    name: &[u8],
    items: &'a [Arc<T>],
    shared: &mut Builder<T>,
) -> Result<&'a [Arc<T>], AllocError>
    requires { InOrder T.name (map arc_value items.now) }
    ensures shared { OnOk result (shared.new ≡ shared.old ++ before T.name name.now (map arc_value items.now)) }
    ensures left { IfOk result (λ left. map arc_value left.now ≡ behind T.name name.now (map arc_value items.now)) }
{
    let mut left = items;
    while let Some((item, behind)) = left.split_first() {
        match item.name().cmp(name) {
            Ordering::Less => shared.push(Arc::try_clone(item)?)?,
            Ordering::Equal => return Ok(behind),
            Ordering::Greater => return Ok(left),
        }
        left = behind;
    }
    Ok(left)
}

/// Shares the runs that end before a name, and gives the others.
fn share_runs_before<'a, T: Named>(
    name: &[u8],
    runs: &'a [Arc<Run<T>>],
    shared: &mut Builder<T>,
) -> Result<&'a [Arc<Run<T>>], AllocError>
    requires { InOrder T.name (flat_map arc_value runs.now) }
    ensures shared { IfOk result (λ left. shared.new ++ before T.name name.now (flat_map arc_value left.now)
        ≡ shared.old ++ before T.name name.now (flat_map arc_value runs.now)) }
    ensures left { IfOk result (λ left. behind T.name name.now (flat_map arc_value left.now)
        ≡ behind T.name name.now (flat_map arc_value runs.now)) }
    ensures order { IfOk result (λ left. InOrder T.name (flat_map arc_value left.now)) }
    ensures stops { IfOk result (λ left. IfSome (slice_get left.now 0)
        (λ run. ends_before T.name name.now (arc_value run) ≡ false)) }
{
    let mut left = runs;
    while let Some((first, behind)) = left.split_first() {
        if !first.ends_before(name) {
            return Ok(left);
        }
        shared.share_run(first)?;
        left = behind;
    }
    Ok(left)
}
