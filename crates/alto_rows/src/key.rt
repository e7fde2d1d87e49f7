use crate::entity::Entity;
use crate::packed::PackedPrefix;
use crate::resource::Resource;
use alto_names::{AneName, Metric, NetName, PidName, PropName};

/// What a row is of. Keys sort by the order of these variants, then by their fields.
#[derive(Clone, Debug, PartialEq, Eq, PartialOrd, Ord, Drop)]
pub enum Key {
    /// The epoch with which tags begin.
    Epoch,
    /// How many versions of a resource are kept.
    Window,
    /// A network is declared.
    Net(NetName),
    /// A PID of a network is declared.
    Pid(NetName, PidName),
    /// A prefix belongs to a PID of a network.
    Prefix(NetName, PidName, PackedPrefix),
    /// A cost metric of a network is declared.
    Metric(NetName, Metric),
    /// The cost, in a metric of a network, from a source to a destination.
    Cost(NetName, Metric, PidName, PidName),
    /// A property of an entity of a network.
    Prop(NetName, Entity, PropName),
    /// An abstract network element of a network is declared (RFC 9275).
    Ane(NetName, AneName),
    /// A property of an abstract network element.
    AneProp(NetName, AneName, PropName),
    /// The abstract network elements on the way from a source to a destination.
    Path(NetName, PidName, PidName),
    /// The version that a resource has reached.
    Seq(Resource),
}
