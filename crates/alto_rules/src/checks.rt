ghost use Rattle.std.specs.Prelude.{◌≡◌, ◌∷◌, ◌&&◌, [], ℕ, IfOk, List, nat_le};
ghost use Rattle.std.specs.List.{list_any};
ghost use Rattle.alto_rows.specs.declared.key.Key.TheVariants as keys;
ghost use Rattle.alto_rows.specs.Rows.{has_row};
ghost use Rattle.alto_rows.specs.Span.{count_in};
ghost use Rattle.alto_edits.specs.declared.rule.Rule.TheVariants as rule;
ghost use Rattle.alto_edits.specs.Rules.{broken_rule, entity_pids, first_broken, lacks};
ghost use Rattle.alto_edits.specs.Writes.{is_free};
ghost use Rattle.alto_rules.specs.Draft.{drafted_rows};
ghost use Rattle.alto_rules.specs.Origin.{LastCostIsDeclared};
ghost use Rattle.alto_rules.specs.Parts.{edit_key, edit_net, edit_pids, next_cost_checks, own_checks};
ghost use Rattle.alto_rules.specs.Sizes.{is_full, span_of};

use crate::counted::{Counted, counted_of};
use crate::draft::Draft;
use crate::keys::{ane_key, cost_key, metric_key, net_key};
use crate::parts::{edit_key, edit_net};
use alto_addr::Prefix;
use alto_edits::{Edit, Rule};
use alto_names::{AneName, Metric, NetName, PidName};
use alto_rows::{AneNames, Entity, Key, RowStore};
use std::alloc::AllocError;

/// How many networks there may be.
const MOST_NETS: usize = 8;

/// How many PIDs a network may have.
const MOST_PIDS: usize = 1_024;

/// How many prefixes a network may have.
const MOST_PREFIXES: usize = 16_384;

/// How many cost metrics a network may have.
const MOST_METRICS: usize = 8;

/// How many costs a metric may have.
const MOST_COSTS: usize = 262_144;

impl<'a, R: RowStore> Draft<'a, R> {
    /// The first rule that the edit breaks in the rows after the writes. Some searches for each thing that it names,
    /// but none for the network, the metric and the source of a cost that is put next after one that has the same.
    pub fn broken_rule(&self, edit: &Edit) -> Result<Option<Rule>, AllocError>
        requires { LastCostIsDeclared self.now }
        ensures { IfOk result (λ broken. broken ≡ broken_rule (drafted_rows self.now) edit.now) }
    {
        match edit {
            Edit::CostPut {
                net,
                metric,
                source,
                destination,
                ..
            } if self.last_origin(net, metric, source).is_some() => {
                self.next_cost_rule(net, metric, source, destination)
            }
            _ => self.searched_rule(edit),
        }
    }

    /// The first rule that a cost breaks which is put where its network, its metric and its source are declared.
    fn next_cost_rule(
        &self,
        net: &NetName,
        metric: &Metric,
        source: &PidName,
        destination: &PidName,
    ) -> Result<Option<Rule>, AllocError>
        ensures { IfOk result (λ broken. broken ≡ first_broken
            (next_cost_checks (drafted_rows self.now) net.now metric.now source.now destination.now)) }
    {
        if self.lacks_pid(net, destination)? {
            return Ok(Some(Rule::G6));
        }
        if !self.has_most_costs(net, metric)? {
            return Ok(None);
        }
        let key = cost_key(net, metric, source, destination)?;
        let rule = self.lacking(&key, Rule::G12);
        // a call: dropped in place the key takes long to prove, variant by variant
        drop(key);
        Ok(rule)
    }

    /// Whether a metric has as many costs as it may have. No search where there are fewer rows.
    fn has_most_costs(&self, net: &NetName, metric: &Metric) -> Result<bool, AllocError>
        ensures { IfOk result (λ is. (src dst : List ℕ)
            → is ≡ is_full (drafted_rows self.now) (keys.Cost net.now metric.now src dst) 262144) }
    {
        if self.total() < MOST_COSTS {
            return Ok(false);
        }
        let costs = Counted::Costs(net.clone()?, metric.clone()?);
        let has_most = self.has_most(&costs, MOST_COSTS);
        drop(costs);
        has_most
    }

    /// Whether there are as many rows as may be of what is counted.
    fn has_most(&self, counted: &Counted, most: usize) -> Result<bool, AllocError>
        ensures { IfOk result (λ is. is ≡ nat_le most (count_in (drafted_rows self.now) (span_of counted.now))) }
    {
        Ok(self.count(counted)? >= most)
    }

    /// The first rule that the edit breaks, by a search for each thing that it names.
    fn searched_rule(&self, edit: &Edit) -> Result<Option<Rule>, AllocError>
        ensures { IfOk result (λ broken. broken ≡ broken_rule (drafted_rows self.now) edit.now) }
    {
        if let Edit::NetAdd { .. } = edit {
            return self.own_rule(edit);
        }
        if !self.has_net(edit_net(edit))? {
            return Ok(Some(Rule::G3));
        }
        if self.lacks_pids(edit)? {
            return Ok(Some(Rule::G6));
        }
        self.own_rule(edit)
    }

    /// Whether some PID isn't declared that has to be for an edit.
    fn lacks_pids(&self, edit: &Edit) -> Result<bool, AllocError>
        ensures { IfOk result (λ is. is
            ≡ list_any (λ pid. lacks (drafted_rows self.now) (keys.Pid (edit_net edit.now) pid)) (edit_pids edit.now)) }
    {
        let net = edit_net(edit);
        match edit {
            Edit::PidDrop { pid, .. } | Edit::PrefixPut { pid, .. } | Edit::PrefixDel { pid, .. } =>
                self.lacks_pid(net, pid),
            Edit::PropPut { entity, .. } | Edit::PropDel { entity, .. } => {
                self.lacks_entity(net, entity)
            }
            Edit::CostPut {
                source,
                destination,
                ..
            }
            | Edit::CostDel {
                source,
                destination,
                ..
            }
            | Edit::PathPut {
                source,
                destination,
                ..
            }
            | Edit::PathDel {
                source,
                destination,
                ..
            } => { Ok(self.lacks_pid(net, source)? || self.lacks_pid(net, destination)?) }
            _ => Ok(false),
        }
    }

    /// The first rule that the edit breaks, besides those of its network and its PIDs.
    fn own_rule(&self, edit: &Edit) -> Result<Option<Rule>, AllocError>
        ensures { IfOk result (λ broken. broken ≡ first_broken (own_checks (drafted_rows self.now) edit.now)) }
    {
        let key = edit_key(edit)?;
        let rule = self.key_rule(edit, &key);
        drop(key);
        rule
    }

    /// The same of an edit whose key is at hand.
    fn key_rule(&self, edit: &Edit, key: &Key) -> Result<Option<Rule>, AllocError>
        requires { key.now ≡ edit_key edit.now }
        ensures { IfOk result (λ broken. broken ≡ first_broken (own_checks (drafted_rows self.now) edit.now)) }
    {
        match edit {
            Edit::NetAdd { .. } => self.added(key, Rule::G1, MOST_NETS, Rule::G2),
            Edit::PidAdd { .. } => self.added(key, Rule::G4, MOST_PIDS, Rule::G5),
            Edit::PrefixPut { net, prefix, .. } => self.prefix_rule(key, net, prefix),
            Edit::PrefixDel { .. } => Ok(self.lacking(key, Rule::G8)),
            Edit::MetricAdd { .. } => self.added(key, Rule::G9, MOST_METRICS, Rule::G10),
            Edit::MetricDrop { .. } => Ok(self.lacking(key, Rule::G11)),
            Edit::CostPut { net, metric, .. } => self.cost_rule(key, net, metric),
            Edit::CostDel { net, metric, .. } => self.cost_gone_rule(key, net, metric),
            Edit::PropDel { .. } | Edit::PathDel { .. } => Ok(self.lacking(key, Rule::G13)),
            Edit::AneAdd { .. } => Ok(self.known(key, Rule::G14)),
            Edit::AneSet { net, ane, .. } => self.ane_rule(net, ane),
            Edit::PathPut { net, anes, .. } => self.anes_rule(net, anes),
            Edit::NetDrop { .. } | Edit::PidDrop { .. } | Edit::PropPut { .. } => Ok(None),
        }
    }

    /// Whether a network is declared.
    fn has_net(&self, net: &NetName) -> Result<bool, AllocError>
        ensures { IfOk result (λ has. has ≡ has_row (drafted_rows self.now) (keys.Net net.now)) }
    {
        let key = net_key(net)?;
        let has = self.has(&key);
        drop(key);
        Ok(has)
    }

    /// Whether a PID isn't declared.
    fn lacks_pid(&self, net: &NetName, pid: &PidName) -> Result<bool, AllocError>
        ensures { IfOk result (λ is. is ≡ lacks (drafted_rows self.now) (keys.Pid net.now pid.now)) }
    {
        Ok(!self.has_pid(net, pid)?)
    }

    /// Whether the PID that an entity names isn't declared.
    fn lacks_entity(&self, net: &NetName, entity: &Entity) -> Result<bool, AllocError>
        ensures { IfOk result (λ is. is
            ≡ list_any (λ pid. lacks (drafted_rows self.now) (keys.Pid net.now pid)) (entity_pids entity.now)) }
    {
        match entity {
            Entity::Block(_) => Ok(false),
            Entity::Pid(pid) => self.lacks_pid(net, pid),
        }
    }

    /// Whether a metric isn't declared.
    fn lacks_metric(&self, net: &NetName, metric: &Metric) -> Result<bool, AllocError>
        ensures { IfOk result (λ is. is ≡ lacks (drafted_rows self.now) (keys.Metric net.now metric.now)) }
    {
        let key = metric_key(net, metric)?;
        let has = self.has(&key);
        drop(key);
        Ok(!has)
    }

    /// Whether an abstract network element isn't declared.
    fn lacks_ane(&self, net: &NetName, ane: &AneName) -> Result<bool, AllocError>
        ensures { IfOk result (λ is. is ≡ lacks (drafted_rows self.now) (keys.Ane net.now ane.now)) }
    {
        let key = ane_key(net, ane)?;
        let has = self.has(&key);
        drop(key);
        Ok(!has)
    }

    /// The rule that is broken where a key has a row.
    fn known(&self, key: &Key, rule: Rule) -> Option<Rule>
        ensures { result ≡ first_broken ((rule, has_row (drafted_rows self.now) key.now) ∷ []) }
    {
        if self.has(key) { Some(rule) } else { None }
    }

    /// The rule that is broken where a key has no row.
    fn lacking(&self, key: &Key, rule: Rule) -> Option<Rule>
        ensures { result ≡ first_broken ((rule, lacks (drafted_rows self.now) key.now) ∷ []) }
    {
        if self.has(key) { None } else { Some(rule) }
    }

    /// Whether there are as many as may be of what a key counts for.
    fn is_full(&self, key: &Key, most: usize) -> Result<bool, AllocError>
        ensures { IfOk result (λ is. is ≡ is_full (drafted_rows self.now) key.now most) }
    {
        match counted_of(key)? {
            Some(counted) => {
                let is_full = self.has_most(&counted, most);
                drop(counted);
                is_full
            }
            None => Ok(false),
        }
    }

    /// The first rule that is broken where a key has a row, or there are as many as may be of what it counts for.
    fn added(
        &self,
        key: &Key,
        known: Rule,
        most: usize,
        full: Rule,
    ) -> Result<Option<Rule>, AllocError>
        ensures { IfOk result (λ broken. broken ≡ first_broken (
            (known, has_row (drafted_rows self.now) key.now)
            ∷ (full, is_full (drafted_rows self.now) key.now most) ∷ [])) }
    {
        if self.has(key) {
            return Ok(Some(known));
        }
        let is_full = self.is_full(key, most)?;
        Ok(if is_full { Some(full) } else { None })
    }

    /// The rule that a prefix breaks which is put where there are as many as may be.
    fn prefix_rule(
        &self,
        key: &Key,
        net: &NetName,
        prefix: &Prefix,
    ) -> Result<Option<Rule>, AllocError>
        ensures { IfOk result (λ broken. broken ≡ first_broken ((
          rule.G7,
          is_free (drafted_rows self.now) net.now prefix.now && is_full (drafted_rows self.now) key.now 16384,
        ) ∷ [])) }
    {
        if !self.is_full(key, MOST_PREFIXES)? {
            return Ok(None);
        }
        let is_free = self.is_free(net, prefix)?;
        Ok(if is_free { Some(Rule::G7) } else { None })
    }

    /// The first rule that a cost breaks which is put.
    fn cost_rule(
        &self,
        key: &Key,
        net: &NetName,
        metric: &Metric,
    ) -> Result<Option<Rule>, AllocError>
        ensures { IfOk result (λ broken. broken ≡ first_broken (
            (rule.G11, lacks (drafted_rows self.now) (keys.Metric net.now metric.now))
            ∷ (
              rule.G12,
              lacks (drafted_rows self.now) key.now && is_full (drafted_rows self.now) key.now 262144,
            ) ∷ [])) }
    {
        if self.lacks_metric(net, metric)? {
            return Ok(Some(Rule::G11));
        }
        self.cost_room_rule(key)
    }

    /// The rule that a cost breaks which is put where there are as many as may be.
    fn cost_room_rule(&self, key: &Key) -> Result<Option<Rule>, AllocError>
        ensures { IfOk result (λ broken. broken ≡ first_broken ((
          rule.G12,
          lacks (drafted_rows self.now) key.now && is_full (drafted_rows self.now) key.now 262144,
        ) ∷ [])) }
    {
        if self.is_full(key, MOST_COSTS)? {
            return Ok(self.lacking(key, Rule::G12));
        }
        Ok(None)
    }

    /// The first rule that a cost breaks which is taken away.
    fn cost_gone_rule(
        &self,
        key: &Key,
        net: &NetName,
        metric: &Metric,
    ) -> Result<Option<Rule>, AllocError>
        ensures { IfOk result (λ broken. broken ≡ first_broken (
            (rule.G11, lacks (drafted_rows self.now) (keys.Metric net.now metric.now))
            ∷ (rule.G13, lacks (drafted_rows self.now) key.now) ∷ [])) }
    {
        if self.lacks_metric(net, metric)? {
            return Ok(Some(Rule::G11));
        }
        Ok(self.lacking(key, Rule::G13))
    }

    /// The rule that a property breaks of an abstract network element that isn't declared.
    fn ane_rule(&self, net: &NetName, ane: &AneName) -> Result<Option<Rule>, AllocError>
        ensures { IfOk result (λ broken. broken
            ≡ first_broken ((rule.G15, lacks (drafted_rows self.now) (keys.Ane net.now ane.now)) ∷ [])) }
    {
        let lacks = self.lacks_ane(net, ane)?;
        Ok(if lacks { Some(Rule::G15) } else { None })
    }

    /// The rule that a path breaks some of whose abstract network elements aren't declared.
    fn anes_rule(&self, net: &NetName, anes: &AneNames) -> Result<Option<Rule>, AllocError>
        ensures { IfOk result (λ broken. broken ≡ first_broken (
            (rule.G15, list_any (λ ane. lacks (drafted_rows self.now) (keys.Ane net.now ane)) anes.now) ∷ [])) }
    {
        let lacks = self.lacks_anes(net, anes.as_slice())?;
        Ok(if lacks { Some(Rule::G15) } else { None })
    }

    /// Whether some abstract network element isn't declared.
    fn lacks_anes(&self, net: &NetName, anes: &[AneName]) -> Result<bool, AllocError>
        ensures { IfOk result (λ is. is
            ≡ list_any (λ ane. lacks (drafted_rows self.now) (keys.Ane net.now ane)) anes.now) }
    {
        for ane in anes {
            if self.lacks_ane(net, ane)? {
                return Ok(true);
            }
        }
        Ok(false)
    }
}
