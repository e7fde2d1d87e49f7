ghost use Rattle.std.specs.Prelude.{◌≡◌};
ghost use Rattle.alto_rows.specs.Order.{kind_of};
ghost use Rattle.alto_rows.specs.Span.{is_in, span_cmp, span_fields_cmp, span_kind};

use crate::entity::Entity;
use crate::key::Key;
use alto_names::{AneName, Metric, NetName, PidName};
use std::cmp::Ordering;

/// Keys that lie together in the order of keys: those of one kind whose first fields are given.
#[derive(Clone, Debug, Drop)]
pub enum Span {
    /// The networks.
    Nets,
    /// The PIDs of a network.
    Pids(NetName),
    /// The prefixes of a network, by PID.
    Prefixes(NetName),
    /// The prefixes of a PID.
    PrefixesOf(NetName, PidName),
    /// The cost metrics of a network.
    Metrics(NetName),
    /// The costs of a network, by metric, source and destination.
    Costs(NetName),
    /// The costs in a metric, by source and destination.
    CostsIn(NetName, Metric),
    /// The costs in a metric from a source.
    CostsFrom(NetName, Metric, PidName),
    /// The properties of a network, by entity.
    Props(NetName),
    /// The properties of an entity.
    PropsOf(NetName, Entity),
    /// The abstract network elements of a network.
    Anes(NetName),
    /// The properties of the abstract network elements of a network.
    AneProps(NetName),
    /// The properties of an abstract network element.
    AnePropsOf(NetName, AneName),
    /// The paths of a network, by source and destination.
    Paths(NetName),
    /// The paths from a source.
    PathsFrom(NetName, PidName),
}

impl Span {
    /// Whether a key is in the span.
    #[tactic(auto, using(crate::proofs::SpanLemmas::in_span))]
    pub fn contains(&self, key: &Key) -> bool
        ensures { result ≡ is_in self.now key.now }
    {
        self.cmp(key).is_eq()
    }

    /// Where the span stands against a key: before it, behind it, or, where the key is in it, as equal. Along rising
    /// keys the answer falls.
    #[tactic(auto, unfolding(crate::specs::Span::span_cmp))]
    pub fn cmp(&self, key: &Key) -> Ordering
        ensures { result ≡ span_cmp self.now key.now }
    {
        self.kind().cmp(&kind_of(key)).then(self.cmp_fields(key))
    }

    /// The number of the kind of keys that the span has.
    fn kind(&self) -> u8
        ensures { result ≡ span_kind self.now }
    {
        match self {
            Span::Nets => 3,
            Span::Pids(_) => 4,
            Span::Prefixes(_) | Span::PrefixesOf(_, _) => 5,
            Span::Metrics(_) => 6,
            Span::Costs(_) | Span::CostsIn(_, _) | Span::CostsFrom(_, _, _) => 7,
            Span::Props(_) | Span::PropsOf(_, _) => 8,
            Span::Anes(_) => 9,
            Span::AneProps(_) | Span::AnePropsOf(_, _) => 10,
            Span::Paths(_) | Span::PathsFrom(_, _) => 11,
        }
    }

    /// Where the span stands against the keys of its kind, by their first fields.
    #[tactic(auto, using(crate::proofs::OrderLemmas::derived_entity_cmp))]
    fn cmp_fields(&self, key: &Key) -> Ordering
        ensures { result ≡ span_fields_cmp self.now key.now }
    {
        match (self, key) {
            (Span::Pids(net), Key::Pid(of, _))
            | (Span::Prefixes(net), Key::Prefix(of, _, _))
            | (Span::Metrics(net), Key::Metric(of, _))
            | (Span::Costs(net), Key::Cost(of, _, _, _))
            | (Span::Props(net), Key::Prop(of, _, _))
            | (Span::Anes(net), Key::Ane(of, _))
            | (Span::AneProps(net), Key::AneProp(of, _, _))
            | (Span::Paths(net), Key::Path(of, _, _)) => net.cmp(of),
            (Span::PrefixesOf(net, pid), Key::Prefix(of, owner, _)) => net
                .cmp(of)
                .then(pid.cmp(owner)),
            (Span::CostsIn(net, metric), Key::Cost(of, other, _, _)) => {
                net.cmp(of).then(metric.cmp(other))
            }
            (Span::CostsFrom(net, metric, source), Key::Cost(of, other, from, _)) => {
                net.cmp(of).then(metric.cmp(other).then(source.cmp(from)))
            }
            (Span::PropsOf(net, entity), Key::Prop(of, other, _)) => {
                net.cmp(of).then(entity.cmp(other))
            }
            (Span::AnePropsOf(net, ane), Key::AneProp(of, other, _)) => {
                net.cmp(of).then(ane.cmp(other))
            }
            (Span::PathsFrom(net, source), Key::Path(of, from, _)) => {
                net.cmp(of).then(source.cmp(from))
            }
            _ => Ordering::Equal,
        }
    }
}

/// The number of a kind of key.
fn kind_of(key: &Key) -> u8
    ensures { result ≡ kind_of key.now }
{
    match key {
        Key::Epoch => 1,
        Key::Window => 2,
        Key::Net(_) => 3,
        Key::Pid(_, _) => 4,
        Key::Prefix(_, _, _) => 5,
        Key::Metric(_, _) => 6,
        Key::Cost(_, _, _, _) => 7,
        Key::Prop(_, _, _) => 8,
        Key::Ane(_, _) => 9,
        Key::AneProp(_, _, _) => 10,
        Key::Path(_, _, _) => 11,
        Key::Seq(_) => 12,
    }
}
