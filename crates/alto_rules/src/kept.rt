ghost use Rattle.std.specs.Prelude.{◌≡◌, [], IfSome, List, OnOk, option_map};
ghost use Rattle.alto_rows.specs.declared.write.Write.{Write};
ghost use Rattle.std.specs.Option.{unwrap_or};
ghost use Rattle.alto_rows.specs.Rows.{Rows, AreSorted, IsRunOf, has_row, rows_from};
ghost use Rattle.alto_rules.specs.Draft.{HaveOneOwner};
ghost use Rattle.alto_rules.specs.Kept.{HasAll, HasKept, IsDraft};

use crate::index::Index;
use crate::owners::Owners;
use crate::pids::pids_from;
use crate::runs::{is_first, next_run};
use crate::sizes::Sizes;
use alto_names::{NetName, PidName};
use alto_rows::{Key, RowStore, Value};
use std::alloc::{AllocError, Global};

/// What a draft keeps beside its writes, so that no question to it goes over them.
#[derive(Drop)]
pub struct Kept<'a> {
    pub index: Index,
    pub sizes: Sizes,
    pub owners: Owners,
    /// Of the rows before the writes those from the last written key on that lie together.
    pub run: &'a [(Key, Value)],
    /// Of the same rows those that lie together from that of the PID sought last on; none where it has none.
    pub pids: &'a [(Key, Value)],
}

impl<'a> Kept<'a> {
    /// What is kept of no writes on the rows of a store.
    pub fn new<R: RowStore>(alloc: Global, rows: &'a R) -> Kept<'a>
        requires sorted { AreSorted (R.rows rows.now) }
        requires owners { HaveOneOwner (R.rows rows.now) }
        ensures { IsDraft (R.rows rows.now) [] result }
    {
        Kept {
            index: Index::new(alloc),
            sizes: Sizes::new(alloc, rows),
            owners: Owners::new(alloc),
            run: &[],
            pids: &[],
        }
    }

    /// Adds a write, behind one of the last key, if there is one: whether its key has a row then. Some searches. Where
    /// the keys are written in the order of the rows before the writes, the one in these takes three comparisons.
    pub fn add<R: RowStore>(
        &mut self,
        alloc: Global,
        rows: &'a R,
        last: Option<&Key>,
        key: &Key,
        has: bool,
    ) -> Result<(), AllocError>
        requires sorted { AreSorted (R.rows rows.now) }
        requires run { IfSome (option_map (λ key. key.now) last)
            (λ last. IsRunOf (rows_from (R.rows rows.now) last) self.old.run.now) }
        ensures { OnOk result (HasKept (R.rows rows.now) key.now has self.old self.new) }
    {
        let old = self.index.add(alloc, key, has)?;
        self.run = next_run(rows, last, self.run, key);
        let had = had_row(self.run, key, old);
        self.sizes.recount(rows, key, had, has)?;
        self.owners.change(key, had, has)
    }

    /// Comes to know the owners of all prefixes of a network. One walk over these where they aren't known yet.
    pub fn know<R: RowStore>(
        &mut self,
        alloc: Global,
        rows: &R,
        net: &NetName,
    ) -> Result<(), AllocError>
        requires { HaveOneOwner (R.rows rows.now) }
        ensures { OnOk result ((writes : List Write)
            → IsDraft (R.rows rows.now) writes self.old → IsDraft (R.rows rows.now) writes self.new) }
    {
        self.owners.know(alloc, rows, net)
    }

    /// Seeks the rows from the PID's on that a cost goes to. `pids_from` says what it takes.
    pub fn seek<R: RowStore>(
        &mut self,
        rows: &'a R,
        net: &NetName,
        pid: &PidName,
        follows: bool,
    ) -> Result<(), AllocError>
        requires { HasAll (R.rows rows.now) self.old.pids.now }
        ensures { OnOk result ((writes : List Write)
            → IsDraft (R.rows rows.now) writes self.old → IsDraft (R.rows rows.now) writes self.new) }
    {
        self.pids = pids_from(rows, self.pids, net, pid, follows)?;
        Ok(())
    }
}

/// Whether a key has a row: as the writes left it or, where none is of the key, before them.
pub fn has_row<R: RowStore>(rows: &R, key: &Key, written: Option<bool>) -> bool
    ensures { result ≡ unwrap_or written (has_row (R.rows rows.now) key.now) }
{
    match written {
        Some(has) => has,
        None => rows.get(key).is_some(),
    }
}

/// The same of a key where a run of the rows from it on tells whether it had one before the writes.
fn had_row(run: &[(Key, Value)], key: &Key, written: Option<bool>) -> bool
    ensures { (rows : Rows) → AreSorted rows → IsRunOf (rows_from rows key.now) run.now
        → result ≡ unwrap_or written (has_row rows key.now) }
{
    match written {
        Some(has) => has,
        None => is_first(run, key),
    }
}
