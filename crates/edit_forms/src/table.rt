ghost use Rattle.std.specs.Prelude.{IfOk};
ghost use Rattle.alto_edits.specs.Edits.{IsEdit};
ghost use Rattle.edit_forms.specs.Answers.{IsEditOf};

use crate::amounts::amount_in;
use crate::anes::anes_in;
use crate::before::Before;
use crate::columns::{ColumnFault, Columns};
use crate::operation::Operation;
use crate::values::{
    bandwidth_in, ends, entity_in, kind_in, name_in, name_like, prefix_in, value_in,
};
use alto_edits::Edit;
use alto_names::{AneKind, MetricKind, NetName, PidKind, PropKind};
use std::alloc::Global;

impl Columns<'_> {
    /// The edit of an operation on a network that the other columns make.
    pub(crate) fn edit_of(
        &self,
        alloc: Global,
        operation: Operation,
        net: NetName,
        before: Before<'_>,
    ) -> Result<Edit, ColumnFault>
        ensures answer { IsEditOf operation net self.now result }
        ensures edit { IfOk result IsEdit }
    {
        match operation {
            Operation::NetAdd => self.net_add(net),
            Operation::NetDrop => self.net_drop(net),
            Operation::PidAdd => self.pid_add(alloc, net),
            Operation::PidDrop => self.pid_drop(alloc, net),
            Operation::PrefixPut => self.prefix_put(alloc, net),
            Operation::PrefixDel => self.prefix_del(alloc, net),
            Operation::MetricAdd => self.metric_add(alloc, net),
            Operation::MetricDrop => self.metric_drop(alloc, net),
            Operation::CostPut => self.cost_put(alloc, net, before),
            Operation::CostDel => self.cost_del(alloc, net),
            Operation::PropPut => self.prop_put(alloc, net),
            Operation::PropDel => self.prop_del(alloc, net),
            Operation::AneAdd => self.ane_add(alloc, net),
            Operation::AneSet => self.ane_set(alloc, net),
            Operation::PathPut => self.path_put(alloc, net),
            Operation::PathDel => self.path_del(alloc, net),
        }
    }

    /// `net-add`, with no further column.
    fn net_add(&self, net: NetName) -> Result<Edit, ColumnFault>
        ensures answer { IsEditOf Operation.NetAdd net self.now result }
        ensures edit { IfOk result IsEdit }
    {
        ends(3, &[self.a, self.b, self.c, self.d], Edit::NetAdd { net })
    }

    /// `net-drop`, with no further column.
    fn net_drop(&self, net: NetName) -> Result<Edit, ColumnFault>
        ensures answer { IsEditOf Operation.NetDrop net self.now result }
        ensures edit { IfOk result IsEdit }
    {
        ends(3, &[self.a, self.b, self.c, self.d], Edit::NetDrop { net })
    }

    /// `pid-add`: a PID.
    fn pid_add(&self, alloc: Global, net: NetName) -> Result<Edit, ColumnFault>
        ensures answer { IsEditOf Operation.PidAdd net self.now result }
        ensures edit { IfOk result IsEdit }
    {
        let pid = name_in::<PidKind>(alloc, 3, self.a)?;
        ends(4, &[self.b, self.c, self.d], Edit::PidAdd { net, pid })
    }

    /// `pid-drop`: a PID.
    fn pid_drop(&self, alloc: Global, net: NetName) -> Result<Edit, ColumnFault>
        ensures answer { IsEditOf Operation.PidDrop net self.now result }
        ensures edit { IfOk result IsEdit }
    {
        let pid = name_in::<PidKind>(alloc, 3, self.a)?;
        ends(4, &[self.b, self.c, self.d], Edit::PidDrop { net, pid })
    }

    /// `prefix-put`: a PID and a prefix.
    fn prefix_put(&self, alloc: Global, net: NetName) -> Result<Edit, ColumnFault>
        ensures answer { IsEditOf Operation.PrefixPut net self.now result }
        ensures edit { IfOk result IsEdit }
    {
        let pid = name_in::<PidKind>(alloc, 3, self.a)?;
        let prefix = prefix_in(4, self.b)?;
        ends(5, &[self.c, self.d], Edit::PrefixPut { net, pid, prefix })
    }

    /// `prefix-del`: a PID and a prefix.
    fn prefix_del(&self, alloc: Global, net: NetName) -> Result<Edit, ColumnFault>
        ensures answer { IsEditOf Operation.PrefixDel net self.now result }
        ensures edit { IfOk result IsEdit }
    {
        let pid = name_in::<PidKind>(alloc, 3, self.a)?;
        let prefix = prefix_in(4, self.b)?;
        ends(5, &[self.c, self.d], Edit::PrefixDel { net, pid, prefix })
    }

    /// `metric-add`: a metric.
    fn metric_add(&self, alloc: Global, net: NetName) -> Result<Edit, ColumnFault>
        ensures answer { IsEditOf Operation.MetricAdd net self.now result }
        ensures edit { IfOk result IsEdit }
    {
        let metric = name_in::<MetricKind>(alloc, 3, self.a)?;
        ends(
            4,
            &[self.b, self.c, self.d],
            Edit::MetricAdd { net, metric },
        )
    }

    /// `metric-drop`: a metric.
    fn metric_drop(&self, alloc: Global, net: NetName) -> Result<Edit, ColumnFault>
        ensures answer { IsEditOf Operation.MetricDrop net self.now result }
        ensures edit { IfOk result IsEdit }
    {
        let metric = name_in::<MetricKind>(alloc, 3, self.a)?;
        ends(
            4,
            &[self.b, self.c, self.d],
            Edit::MetricDrop { net, metric },
        )
    }

    /// `cost-put`: a metric, two PIDs and a cost. Takes no memory for the metric and the source where `before` has the
    /// same.
    fn cost_put(&self, alloc: Global, net: NetName, before: Before<'_>) -> Result<Edit, ColumnFault>
        ensures answer { IsEditOf Operation.CostPut net self.now result }
        ensures edit { IfOk result IsEdit }
    {
        let metric = name_like::<MetricKind>(alloc, 3, self.a, before.metric)?;
        let source = name_like::<PidKind>(alloc, 4, self.b, before.source)?;
        let destination = name_in::<PidKind>(alloc, 5, self.c)?;
        let cost = amount_in(6, self.d)?;
        ends(
            7,
            &[],
            Edit::CostPut {
                net,
                metric,
                source,
                destination,
                cost,
            },
        )
    }

    /// `cost-del`: a metric and two PIDs.
    fn cost_del(&self, alloc: Global, net: NetName) -> Result<Edit, ColumnFault>
        ensures answer { IsEditOf Operation.CostDel net self.now result }
        ensures edit { IfOk result IsEdit }
    {
        let metric = name_in::<MetricKind>(alloc, 3, self.a)?;
        let source = name_in::<PidKind>(alloc, 4, self.b)?;
        let destination = name_in::<PidKind>(alloc, 5, self.c)?;
        ends(
            6,
            &[self.d],
            Edit::CostDel {
                net,
                metric,
                source,
                destination,
            },
        )
    }

    /// `prop-put`: an entity, a name, the kind of a value, and the value.
    fn prop_put(&self, alloc: Global, net: NetName) -> Result<Edit, ColumnFault>
        ensures answer { IsEditOf Operation.PropPut net self.now result }
        ensures edit { IfOk result IsEdit }
    {
        let entity = entity_in(alloc, 3, &net, self.a)?;
        let name = name_in::<PropKind>(alloc, 4, self.b)?;
        let kind = kind_in(5, self.c)?;
        let value = value_in(alloc, 6, kind, self.d)?;
        ends(
            7,
            &[],
            Edit::PropPut {
                net,
                entity,
                name,
                value,
            },
        )
    }

    /// `prop-del`: an entity and a name.
    fn prop_del(&self, alloc: Global, net: NetName) -> Result<Edit, ColumnFault>
        ensures answer { IsEditOf Operation.PropDel net self.now result }
        ensures edit { IfOk result IsEdit }
    {
        let entity = entity_in(alloc, 3, &net, self.a)?;
        let name = name_in::<PropKind>(alloc, 4, self.b)?;
        ends(5, &[self.c, self.d], Edit::PropDel { net, entity, name })
    }

    /// `ane-add`: an abstract network element.
    fn ane_add(&self, alloc: Global, net: NetName) -> Result<Edit, ColumnFault>
        ensures answer { IsEditOf Operation.AneAdd net self.now result }
        ensures edit { IfOk result IsEdit }
    {
        let ane = name_in::<AneKind>(alloc, 3, self.a)?;
        ends(4, &[self.b, self.c, self.d], Edit::AneAdd { net, ane })
    }

    /// `ane-set`: an abstract network element, the name of its property, and a number.
    fn ane_set(&self, alloc: Global, net: NetName) -> Result<Edit, ColumnFault>
        ensures answer { IsEditOf Operation.AneSet net self.now result }
        ensures edit { IfOk result IsEdit }
    {
        let ane = name_in::<AneKind>(alloc, 3, self.a)?;
        let name = bandwidth_in(alloc, 4, self.b)?;
        let number = amount_in(5, self.c)?;
        ends(
            6,
            &[self.d],
            Edit::AneSet {
                net,
                ane,
                name,
                number,
            },
        )
    }

    /// `path-put`: two PIDs, and abstract network elements.
    fn path_put(&self, alloc: Global, net: NetName) -> Result<Edit, ColumnFault>
        ensures answer { IsEditOf Operation.PathPut net self.now result }
        ensures edit { IfOk result IsEdit }
    {
        let source = name_in::<PidKind>(alloc, 3, self.a)?;
        let destination = name_in::<PidKind>(alloc, 4, self.b)?;
        let anes = anes_in(alloc, 5, self.c)?;
        ends(
            6,
            &[self.d],
            Edit::PathPut {
                net,
                source,
                destination,
                anes,
            },
        )
    }

    /// `path-del`: two PIDs.
    fn path_del(&self, alloc: Global, net: NetName) -> Result<Edit, ColumnFault>
        ensures answer { IsEditOf Operation.PathDel net self.now result }
        ensures edit { IfOk result IsEdit }
    {
        let source = name_in::<PidKind>(alloc, 3, self.a)?;
        let destination = name_in::<PidKind>(alloc, 4, self.b)?;
        ends(
            5,
            &[self.c, self.d],
            Edit::PathDel {
                net,
                source,
                destination,
            },
        )
    }
}
