ghost use Rattle.std.specs.Prelude.{◌≡◌, IfOk};
ghost use Rattle.alto_rules.specs.Sizes.{counted_of, span_of};

use alto_names::{Metric, NetName};
use alto_rows::{Key, Span};
use std::alloc::AllocError;

/// Rows whose number a rule limits.
#[derive(PartialEq, Eq, PartialOrd, Ord, Drop)]
pub enum Counted {
    /// The networks.
    Nets,
    /// The PIDs of a network.
    Pids(NetName),
    /// The prefixes of a network.
    Prefixes(NetName),
    /// The cost metrics of a network.
    Metrics(NetName),
    /// The costs in a metric.
    Costs(NetName, Metric),
}

/// The span of what is counted.
pub fn span_of(counted: &Counted) -> Result<Span, AllocError>
    ensures { IfOk result (λ span. span ≡ span_of counted.now) }
{
    Ok(match counted {
        Counted::Nets => Span::Nets,
        Counted::Pids(net) => Span::Pids(net.clone()?),
        Counted::Prefixes(net) => Span::Prefixes(net.clone()?),
        Counted::Metrics(net) => Span::Metrics(net.clone()?),
        Counted::Costs(net, metric) => Span::CostsIn(net.clone()?, metric.clone()?),
    })
}

/// What a key counts for.
pub fn counted_of(key: &Key) -> Result<Option<Counted>, AllocError>
    ensures { IfOk result (λ counted. counted ≡ counted_of key.now) }
{
    Ok(match key {
        Key::Net(_) => Some(Counted::Nets),
        Key::Pid(net, _) => Some(Counted::Pids(net.clone()?)),
        Key::Prefix(net, _, _) => Some(Counted::Prefixes(net.clone()?)),
        Key::Metric(net, _) => Some(Counted::Metrics(net.clone()?)),
        Key::Cost(net, metric, _, _) => Some(Counted::Costs(net.clone()?, metric.clone()?)),
        _ => None,
    })
}
