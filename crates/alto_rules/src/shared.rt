ghost use Rattle.std.specs.Prelude.{◌≡◌, IfOk, IfSome, IsTrue, Some};
ghost use Rattle.alto_rows.specs.declared.key.Key.TheVariants as keys;
ghost use Rattle.alto_rules.specs.Origin.{last_origin};
ghost use Rattle.alto_rules.specs.Parts.{edit_key};

use crate::draft::Draft;
use crate::keys::{cost_key, metric_key, net_key, pid_key};
use crate::parts::edit_key;
use crate::pids::first_pid;
use crate::written::stored_in;
use alto_addr::Prefix;
use alto_edits::Edit;
use alto_names::{Kind, Label, Metric, NetName, PidName};
use alto_rows::{Key, PackedPrefix, RowStore, Write};
use std::alloc::AllocError;

impl<'a, R: RowStore> Draft<'a, R> {
    /// The key that an edit is about. What it names of a network that rows declare, before the batch or written in it,
    /// it names by their copy of the name, so that many rows share one: contracts see names by value, and don't say it.
    /// A search for each such name, but for the first names of a cost that are those of the cost written before it, and
    /// for the PID that was sought, where it had a row before the batch.
    pub fn shared_key(&self, edit: &Edit) -> Result<Key, AllocError>
        ensures { IfOk result (λ key. key ≡ edit_key edit.now) }
    {
        match edit {
            Edit::PidAdd { net, pid } => self.shared_pid(net, pid),
            Edit::CostPut {
                net,
                metric,
                source,
                destination,
                ..
            } => self.shared_cost(net, metric, source, destination),
            Edit::PathPut {
                net,
                source,
                destination,
                ..
            } => self.shared_path(net, source, destination),
            _ => edit_key(edit),
        }
    }

    /// The key of a PID, with its network's name so.
    fn shared_pid(&self, net: &NetName, pid: &PidName) -> Result<Key, AllocError>
        ensures { IfOk result (λ key. key ≡ keys.Pid net.now pid.now) }
    {
        let net = self.net_name(net)?;
        Ok(Key::Pid(net, pid.clone()?))
    }

    /// The key of a prefix in a PID, with their names so.
    pub fn shared_prefix(
        &self,
        net: &NetName,
        pid: &PidName,
        prefix: &Prefix,
    ) -> Result<Key, AllocError>
        ensures { IfOk result (λ key. key ≡ keys.Prefix net.now pid.now prefix.now) }
    {
        let pid = self.pid_name(net, pid)?;
        Ok(Key::Prefix(self.net_name(net)?, pid, PackedPrefix::new(prefix)))
    }

    /// The key of a cost, with its names so. All but its destination are those of the last write, where this puts a
    /// cost with the same names.
    fn shared_cost(
        &self,
        net: &NetName,
        metric: &Metric,
        source: &PidName,
        destination: &PidName,
    ) -> Result<Key, AllocError>
        ensures { IfOk result (λ key. key ≡ keys.Cost net.now metric.now source.now destination.now) }
    {
        let destination = self.pid_name(net, destination)?;
        match self.last_origin(net, metric, source) {
            Some((net, metric, source)) => cost_key(net, metric, source, &destination),
            None => self.named_cost(net, metric, source, destination),
        }
    }

    /// The network, the metric and the source of the cost that the last write puts, where they are these. No search.
    pub fn last_origin(
        &self,
        net: &NetName,
        metric: &Metric,
        source: &PidName,
    ) -> Option<(&NetName, &Metric, &PidName)>
        ensures last { IfSome result (λ _. last_origin self.now.writes
            ≡ Some (record { net = net.now; metric = metric.now; source = source.now })) }
        ensures names { IfSome result (λ last.
            (last.0.now ≡ net.now) × (last.1.now ≡ metric.now) × (last.2.now ≡ source.now)) }
    {
        match self.last_cost() {
            Some((last_net, last_metric, last_source))
                if are_same(last_net, net)
                    && are_same(last_metric, metric)
                    && are_same(last_source, source) => {
                Some((last_net, last_metric, last_source))
            }
            _ => None,
        }
    }

    /// The network, the metric and the source of the cost that the last write puts.
    fn last_cost(&self) -> Option<(&NetName, &Metric, &PidName)>
        ensures { IfSome result (λ last. last_origin self.now.writes
            ≡ Some (record { net = last.0.now; metric = last.1.now; source = last.2.now })) }
    {
        match self.writes.last() {
            Some(
                Write {
                    key: Key::Cost(net, metric, source, _),
                    value: Some(_),
                },
            ) => Some((net, metric, source)),
            _ => None,
        }
    }

    /// The same with names that are searched for.
    fn named_cost(
        &self,
        net: &NetName,
        metric: &Metric,
        source: &PidName,
        destination: PidName,
    ) -> Result<Key, AllocError>
        ensures { IfOk result (λ key. key ≡ keys.Cost net.now metric.now source.now destination) }
    {
        let metric = self.metric_name(net, metric)?;
        let source = self.pid_name(net, source)?;
        Ok(Key::Cost(self.net_name(net)?, metric, source, destination))
    }

    /// The key of a path, with its names so.
    fn shared_path(
        &self,
        net: &NetName,
        source: &PidName,
        destination: &PidName,
    ) -> Result<Key, AllocError>
        ensures { IfOk result (λ key. key ≡ keys.Path net.now source.now destination.now) }
    {
        let source = self.pid_name(net, source)?;
        let destination = self.pid_name(net, destination)?;
        Ok(Key::Path(self.net_name(net)?, source, destination))
    }

    /// A network's name as the row that declares it has it.
    fn net_name(&self, net: &NetName) -> Result<NetName, AllocError>
        ensures { IfOk result (λ name. name ≡ net.now) }
    {
        match self.stored(net_key(net)?) {
            Some(Key::Net(name)) => name.clone(),
            _ => net.clone(),
        }
    }

    /// A PID's name as the row that declares it has it. One comparison where the PID is the one that was sought.
    fn pid_name(&self, net: &NetName, pid: &PidName) -> Result<PidName, AllocError>
        ensures { IfOk result (λ name. name ≡ pid.now) }
    {
        match first_pid(self.kept.pids, net, pid) {
            Some(name) => name.clone(),
            None => self.searched_pid(net, pid),
        }
    }

    /// The same, by the search.
    fn searched_pid(&self, net: &NetName, pid: &PidName) -> Result<PidName, AllocError>
        ensures { IfOk result (λ name. name ≡ pid.now) }
    {
        match self.stored(pid_key(net, pid)?) {
            Some(Key::Pid(_, name)) => name.clone(),
            _ => pid.clone(),
        }
    }

    /// A metric as the row that declares it has it.
    fn metric_name(&self, net: &NetName, metric: &Metric) -> Result<Metric, AllocError>
        ensures { IfOk result (λ name. name ≡ metric.now) }
    {
        match self.stored(metric_key(net, metric)?) {
            Some(Key::Metric(_, name)) => name.clone(),
            _ => metric.clone(),
        }
    }

    /// A key as a write or, where none is of it, a row before the batch has it.
    fn stored(&self, key: Key) -> Option<&Key>
        ensures { IfSome result (λ at. at.now ≡ key) }
    {
        let at = self.found(&key);
        // a call: dropped in place the key takes long to prove, variant by variant
        drop(key);
        at
    }

    /// The same of a key that is kept.
    fn found(&self, key: &Key) -> Option<&Key>
        ensures { IfSome result (λ at. at.now ≡ key.now) }
    {
        match self.kept.index.written.stored(key) {
            Some(at) => Some(at),
            None => stored_in(self.rows, key),
        }
    }
}

/// Whether two names are one.
pub fn are_same<K: Kind>(name: &Label<K>, other: &Label<K>) -> bool
    ensures { IsTrue result → name.now ≡ other.now }
{
    name == other
}
