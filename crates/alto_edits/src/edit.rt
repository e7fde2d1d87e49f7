use alto_addr::Prefix;
use alto_names::{AneName, Metric, NetName, PidName, PropName};
use alto_rows::{AneNames, Entity};
use json_tree::Name;

/// One line of an import.
#[derive(Debug, PartialEq, Eq, Drop)]
pub enum Edit {
    /// `net-add`: declares a network.
    NetAdd {
        /// The new network.
        net: NetName,
    },
    /// `net-drop`: withdraws a network with all that it has.
    NetDrop {
        /// The network.
        net: NetName,
    },
    /// `pid-add`: declares a PID of a network.
    PidAdd {
        /// Its network.
        net: NetName,
        /// The new PID.
        pid: PidName,
    },
    /// `pid-drop`: withdraws a PID with all that names it.
    PidDrop {
        /// Its network.
        net: NetName,
        /// The PID.
        pid: PidName,
    },
    /// `prefix-put`: gives a prefix to a PID, and takes it from the PID that had it.
    PrefixPut {
        /// The network.
        net: NetName,
        /// The PID.
        pid: PidName,
        /// The prefix.
        prefix: Prefix,
    },
    /// `prefix-del`: takes a prefix from a PID.
    PrefixDel {
        /// The network.
        net: NetName,
        /// The PID.
        pid: PidName,
        /// The prefix.
        prefix: Prefix,
    },
    /// `metric-add`: declares a cost metric of a network.
    MetricAdd {
        /// Its network.
        net: NetName,
        /// The new metric.
        metric: Metric,
    },
    /// `metric-drop`: withdraws a cost metric with its costs.
    MetricDrop {
        /// Its network.
        net: NetName,
        /// The metric.
        metric: Metric,
    },
    /// `cost-put`: sets the cost from a source to a destination.
    CostPut {
        /// The network.
        net: NetName,
        /// The metric.
        metric: Metric,
        /// The PID that the cost is from.
        source: PidName,
        /// The PID that the cost is to.
        destination: PidName,
        /// The cost, 0 to 2^53 - 1.
        cost: u64,
    },
    /// `cost-del`: takes a cost away.
    CostDel {
        /// The network.
        net: NetName,
        /// The metric.
        metric: Metric,
        /// The PID that the cost is from.
        source: PidName,
        /// The PID that the cost is to.
        destination: PidName,
    },
    /// `prop-put`: sets a property of an entity.
    PropPut {
        /// The network.
        net: NetName,
        /// The entity.
        entity: Entity,
        /// The property.
        name: PropName,
        /// Its value.
        value: PropValue,
    },
    /// `prop-del`: takes a property away.
    PropDel {
        /// The network.
        net: NetName,
        /// The entity.
        entity: Entity,
        /// The property.
        name: PropName,
    },
    /// `ane-add`: declares an abstract network element.
    AneAdd {
        /// Its network.
        net: NetName,
        /// The new element.
        ane: AneName,
    },
    /// `ane-set`: sets a property of an abstract network element.
    AneSet {
        /// The network.
        net: NetName,
        /// The element.
        ane: AneName,
        /// The property: `max-reservable-bandwidth` (RFC 9275, section 6.4.1).
        name: PropName,
        /// Its value in bits per second, 0 to 2^53 - 1.
        number: u64,
    },
    /// `path-put`: sets the elements on the way from a source to a destination.
    PathPut {
        /// The network.
        net: NetName,
        /// The PID that the path is from.
        source: PidName,
        /// The PID that the path is to.
        destination: PidName,
        /// The elements, in order.
        anes: AneNames,
    },
    /// `path-del`: takes a path away.
    PathDel {
        /// The network.
        net: NetName,
        /// The PID that the path is from.
        source: PidName,
        /// The PID that the path is to.
        destination: PidName,
    },
}

/// The value of a property of an entity.
#[derive(Clone, Debug, PartialEq, Eq, Drop)]
pub enum PropValue {
    /// A text of up to 256 bytes, without control characters.
    Text(Name),
    /// A number, 0 to 2^53 - 1.
    Number(u64),
}
