ghost use Rattle.std.specs.Prelude.{◌≡◌, ◌≢◌, ◌++◌, ◌∷◌, [], length, IfOk, Some, None, true, is_some, option_map};
ghost use Rattle.alto_rows.specs.declared.key.Key.TheVariants as key;
ghost use Rattle.alto_rows.specs.declared.value.Value.TheVariants as value;
ghost use Rattle.alto_rows.specs.declared.write.Write.{Write};
ghost use Rattle.alto_rows.specs.Rows.{AreSorted, has_row};
ghost use Rattle.alto_rows.specs.Span.{count_in};
ghost use Rattle.alto_edits.specs.Writes.{deleting, is_free, putting, taking, writes_of};
ghost use Rattle.alto_rules.specs.Draft.{GivesAlone, HasOwner, HaveOneOwner, drafted_rows, opened, wrote, writing};
ghost use Rattle.alto_rules.specs.Kept.{last_key};
ghost use Rattle.alto_rules.specs.Parts.{has_one_write};
ghost use Rattle.alto_rules.specs.Sizes.{span_of};

use crate::counted::Counted;
use crate::kept::{Kept, has_row};
use crate::keys::{pid_key, prefix_key};
use crate::owners::owner_before;
use crate::parts::edit_value;
use crate::pids::first_pid;
use alto_addr::Prefix;
use alto_edits::Edit;
use alto_names::{NetName, PidName};
use alto_rows::{Key, RowStore, Value, Write};
use std::alloc::{AllocError, Global};
use std::marker::Model;

/// The writes of the edits so far, on the rows of a store. A contract sees these rows and the writes.
#[derive(Drop)]
pub struct Draft<'a, R: RowStore> {
    pub rows: &'a R,
    pub writes: Vec<Write>,
    pub kept: Box<Kept<'a>>,
}

impl<'a, R: RowStore> Model for Draft<'a, R> {
    ghost use Rattle.alto_rules.specs.Draft.{Drafted};
    ghost use Rattle.alto_rules.specs.Kept.{IsDraft};

    ghost Value = { Drafted };

    ghost view = { λ draft. record { rows = R.rows draft.rows.now; writes = draft.writes.items } };

    ghost invariant = { λ draft. IsDraft (R.rows draft.rows.now) draft.writes.items draft.kept.value };
}

impl<'a, R: RowStore> Draft<'a, R> {
    /// A draft without writes.
    pub fn new(alloc: Global, rows: &'a R) -> Result<Self, AllocError>
        requires sorted { AreSorted (R.rows rows.now) }
        requires owners { HaveOneOwner (R.rows rows.now) }
        ensures { IfOk result (λ draft. draft ≡ opened (R.rows rows.now)) }
    {
        let kept = Box::new(alloc, Kept::new(alloc, rows))?;
        Ok(Draft {
            rows,
            writes: Vec::new(alloc),
            kept,
        })
    }

    /// Whether the key has a row after the writes. Three searches.
    pub fn has(&self, key: &Key) -> bool
        ensures { result ≡ has_row (drafted_rows self.now) key.now }
    {
        has_row(self.rows, key, self.kept.index.has(key))
    }

    /// Whether a PID is declared after the writes. One comparison where it is the PID that was sought and the writes
    /// put keys in their order; else two searches where it is that PID, and three where it isn't.
    pub fn has_pid(&self, net: &NetName, pid: &PidName) -> Result<bool, AllocError>
        ensures { IfOk result (λ has. has ≡ has_row (drafted_rows self.now) (key.Pid net.now pid.now)) }
    {
        if self.kept.index.written.only_puts() {
            if first_pid(self.kept.pids, net, pid).is_some() {
                return Ok(true);
            }
        }
        let key = pid_key(net, pid)?;
        let has = match self.kept.index.has(&key) {
            None if first_pid(self.kept.pids, net, pid).is_some() => true,
            written => has_row(self.rows, &key, written),
        };
        // a call: dropped in place the key takes long to prove, variant by variant
        drop(key);
        Ok(has)
    }

    /// How many rows of what is counted there are after the writes. A search, or three where the writes left their
    /// number.
    pub fn count(&self, counted: &Counted) -> Result<usize, AllocError>
        ensures { IfOk result (λ count. count ≡ count_in (drafted_rows self.now) (span_of counted.now)) }
    {
        self.kept.sizes.count(self.rows, counted)
    }

    /// How many rows there are after the writes.
    pub fn total(&self) -> usize
        ensures { result ≡ length (drafted_rows self.now) }
    {
        self.kept.sizes.total
    }

    /// How many writes there are.
    pub fn writes_len(&self) -> usize
        ensures { result ≡ length self.now.writes }
    {
        self.writes.len()
    }

    /// The writes.
    pub fn into_writes(self) -> Vec<Write>
        ensures { result.items ≡ self.entry.writes }
    {
        self.writes
    }

    /// The draft with the edit's writes too. A search for each of them, and for a withdrawal what this walks.
    pub fn with(self, edit: &Edit) -> Result<Self, AllocError>
        ensures { IfOk result (λ draft. draft ≡ wrote self.entry (writes_of (drafted_rows self.entry) edit.now)) }
    {
        match edit {
            Edit::NetDrop { .. } | Edit::PidDrop { .. } | Edit::MetricDrop { .. } => {
                self.withdraw(edit)
            }
            Edit::PrefixPut { net, pid, prefix } => self.give(net, pid, prefix),
            _ => self.with_row(edit),
        }
    }

    /// The draft with the write of an edit that has one.
    fn with_row(self, edit: &Edit) -> Result<Self, AllocError>
        requires { has_one_write edit.now ≡ true }
        ensures { IfOk result (λ draft. draft ≡ wrote self.entry (writes_of (drafted_rows self.entry) edit.now)) }
    {
        let value = edit_value(edit)?;
        let key = self.shared_key(edit)?;
        self.write(key, value)
    }

    /// The draft with one write more. Some searches.
    pub fn write(self, key: Key, value: Option<Value>) -> Result<Self, AllocError>
        requires alone { is_some value ≡ true → GivesAlone (drafted_rows self) key }
        ensures { IfOk result (λ draft. draft ≡ wrote self.entry (writing key value ∷ [])) }
    {
        let Draft {
            rows,
            mut writes,
            mut kept,
        } = self;
        let alloc = *writes.allocator();
        kept.add(alloc, rows, last_key(&writes), &key, value.is_some())?;
        writes.push(Write { key, value })?;
        Ok(Draft { rows, writes, kept })
    }

    /// The draft with a prefix given to a PID, and taken from the PID that had it. Some searches where the owners of
    /// the network's prefixes are known, else one walk over these.
    fn give(self, net: &NetName, pid: &PidName, prefix: &Prefix) -> Result<Self, AllocError>
        ensures { IfOk result (λ draft. draft ≡ wrote self.entry (
            taking (drafted_rows self.entry) net.now pid.now prefix.now
            ++ putting (key.Prefix net.now pid.now prefix.now) value.Unit ∷ [])) }
    {
        let draft = self.take(net, pid, prefix)?;
        let key = draft.shared_prefix(net, pid, prefix)?;
        draft.write(key, Some(Value::Unit))
    }

    /// The draft with a prefix taken from any other PID.
    fn take(self, net: &NetName, pid: &PidName, prefix: &Prefix) -> Result<Self, AllocError>
        ensures taken { IfOk result (λ draft. draft
            ≡ wrote self.entry (taking (drafted_rows self.entry) net.now pid.now prefix.now)) }
        ensures alone { IfOk result (λ draft. GivesAlone (drafted_rows draft) (key.Prefix net.now pid.now prefix.now)) }
    {
        let _ = &self.rows;
        match self.owner(net, prefix)? {
            Some(owner) => self.take_from(net, pid, prefix, owner),
            None => Ok(self),
        }
    }

    /// The draft with a prefix taken from its owner, unless that is the PID itself.
    fn take_from(
        self,
        net: &NetName,
        pid: &PidName,
        prefix: &Prefix,
        owner: PidName,
    ) -> Result<Self, AllocError>
        requires sorted { AreSorted (drafted_rows self) }
        requires owner { HasOwner (drafted_rows self) net.now prefix.now (Some owner) }
        ensures taken { IfOk result (λ draft. draft
            ≡ wrote self.entry (taking (drafted_rows self.entry) net.now pid.now prefix.now)) }
        ensures alone { IfOk result (λ draft. GivesAlone (drafted_rows draft) (key.Prefix net.now pid.now prefix.now)) }
    {
        if owner == *pid {
            return Ok(self);
        }
        let key = prefix_key(net, &owner, prefix)?;
        self.write(key, None)
    }

    /// Whether a prefix is in no PID of a network.
    pub fn is_free(&self, net: &NetName, prefix: &Prefix) -> Result<bool, AllocError>
        ensures { IfOk result (λ free. free ≡ is_free (drafted_rows self.now) net.now prefix.now) }
    {
        Ok(self.owner(net, prefix)?.is_none())
    }

    /// The PID that has a prefix after the writes. Two searches where the owners of the network's prefixes are known,
    /// else one walk over these.
    fn owner(&self, net: &NetName, prefix: &Prefix) -> Result<Option<PidName>, AllocError>
        ensures { IfOk result (λ owner. HasOwner (drafted_rows self.now) net.now prefix.now owner) }
    {
        let owners = &self.kept.owners;
        match owners.find_in(net, prefix)? {
            Some(owner) => Ok(owner),
            None if owners.knows(net) => Ok(None),
            None => owner_before(*self.writes.allocator(), self.rows, net, prefix),
        }
    }

    /// The same draft, which knows the owners of all prefixes of a network. One walk over these where it doesn't yet.
    pub fn knowing(self, net: &NetName) -> Result<Self, AllocError>
        ensures { IfOk result (λ draft. draft ≡ self.entry) }
    {
        let Draft {
            rows,
            writes,
            mut kept,
        } = self;
        kept.know(*writes.allocator(), rows, net)?;
        Ok(Draft { rows, writes, kept })
    }

    /// The same draft, which has sought the PID that a cost goes to. Two comparisons where that is the PID of the cost
    /// before it, or has the row behind this; else one search at most.
    pub fn seeking(self, net: &NetName, pid: &PidName, follows: bool) -> Result<Self, AllocError>
        ensures { IfOk result (λ draft. draft ≡ self.entry) }
    {
        let Draft {
            rows,
            writes,
            mut kept,
        } = self;
        kept.seek(rows, net, pid, follows)?;
        Ok(Draft { rows, writes, kept })
    }
}

/// The key of the last write.
fn last_key(writes: &[Write]) -> Option<&Key>
    ensures { option_map (λ key. key.now) result ≡ last_key writes.now }
{
    Some(&writes.last()?.key)
}
