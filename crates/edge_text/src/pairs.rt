//! What keys name of a cost map.
ghost use Rattle.std.specs.Prelude.{◌≡◌, is_some};
ghost use Rattle.std.specs.List.{list_any};
ghost use Rattle.edge_text.specs.Pairs as spec;
ghost use Rattle.edge_text.specs.Pairs.{pair_in};

use alto_names::{Metric, NetName};
use alto_rows::{Key, Resource};

/// Whether one of the keys is of a cost in this metric. Linear in the keys.
pub(crate) fn has_pair(net: &NetName, metric: &Metric, keys: &[Key]) -> bool
    ensures { result ≡ list_any (λ key. is_some (pair_in net.now metric.now key)) keys.now }
{
    keys.iter().any(|key| names_pair(net, metric, key))
}

/// Whether a key is of a cost in this metric.
fn names_pair(net: &NetName, metric: &Metric, key: &Key) -> bool
    ensures { result ≡ is_some (pair_in net.now metric.now key.now) }
{
    matches!(key, Key::Cost(of, kind, _, _) if net == of && metric == kind)
}

/// Whether one of the keys is of the version of the network's map. Linear in the keys.
pub(crate) fn has_version(net: &NetName, keys: &[Key]) -> bool
    ensures { result ≡ list_any (spec.is_version_of net.now) keys.now }
{
    keys.iter().any(|key| is_version(net, key))
}

/// Whether a key is of the version of the network's map.
fn is_version(net: &NetName, key: &Key) -> bool
    ensures { result ≡ spec.is_version_of net.now key.now }
{
    matches!(key, Key::Seq(Resource::Net(of)) if net == of)
}
