ghost use Rattle.std.specs.Prelude.{◌≡◌};
ghost use Rattle.alto_rows.specs.Order.{net_of};
ghost use Rattle.alto_rows.specs.Touches as spec;

use crate::key::Key;
use alto_names::{Metric, NetName};

/// What clients read by name and follow by versions, in the order of the rows of its versions.
#[derive(Clone, Debug, PartialEq, Eq, PartialOrd, Ord, Drop)]
pub enum Resource {
    /// The network map of a network (RFC 7285, section 11.2.1).
    Net(NetName),
    /// The cost map of a metric of a network (RFC 7285, section 11.2.3).
    Cost(NetName, Metric),
    /// The property map of a network (RFC 9240).
    Prop(NetName),
}

impl Resource {
    /// The network that the resource is of.
    pub fn net(&self) -> &NetName
        ensures { result.now ≡ net_of self.now }
    {
        match self {
            Resource::Net(net) | Resource::Cost(net, _) | Resource::Prop(net) => net,
        }
    }
}

/// Whether a write of the key changes the resource.
pub fn touches(resource: &Resource, key: &Key) -> bool
    ensures { result ≡ spec.touches resource.now key.now }
{
    match (key, resource) {
        (Key::Net(of) | Key::Pid(of, _) | Key::Prefix(of, _, _), Resource::Net(net)) => net == of,
        (Key::Metric(of, in_) | Key::Cost(of, in_, _, _), Resource::Cost(net, metric)) => {
            net == of && metric == in_
        }
        (Key::Prop(of, _, _), Resource::Prop(net)) => net == of,
        (Key::Seq(Resource::Net(of)), _) => resource.net() == of,
        _ => false,
    }
}
