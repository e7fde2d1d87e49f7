ghost use Rattle.std.specs.Prelude.{◌≡◌, true};
ghost use Rattle.std.specs.Ordering.{ordering_then};
ghost use Rattle.alto_rows.specs.Order.{name_cmp};
ghost use Rattle.row_chunks.specs.Shared as spec;
ghost use Rattle.row_chunks.specs.Shared.{shares};

use alto_names::PidName;
use alto_rows::Key;
use std::cmp::Ordering;

/// What the key of a cost has in common with other keys.
#[derive(Clone, Copy)]
pub(crate) enum Shared {
    /// Nothing that is known.
    Nothing,
    /// Its network and its metric.
    Metric,
    /// These and its source.
    Source,
}

/// Where a key stands against another, by what they don't have in common.
#[tactic(auto, using(alto_rows::proofs::OrderLemmas::derived_key_cmp))]
pub(crate) fn order_of_rest(low: &Key, key: &Key, shared: Shared) -> Ordering
    ensures { result ≡ spec.order_of_rest low.now shared key.now }
{
    match (shared, low, key) {
        (Shared::Metric, Key::Cost(_, _, source, destination), Key::Cost(_, _, from, to)) => {
            order_of_pair(source, destination, from, to)
        }
        (Shared::Source, Key::Cost(_, _, _, destination), Key::Cost(_, _, _, to)) => {
            destination.cmp(to)
        }
        _ => low.cmp(key),
    }
}

/// Where a pair of PIDs stands against another.
fn order_of_pair(source: &PidName, destination: &PidName, from: &PidName, to: &PidName) -> Ordering
    ensures { result ≡ ordering_then (name_cmp source.now from.now) (name_cmp destination.now to.now) }
{
    match source.cmp(from) {
        Ordering::Equal => destination.cmp(to),
        apart => apart,
    }
}

/// What two keys have in common with another, where both are known to have so much, which isn't compared.
pub(crate) fn shared_by(low: &Key, first: &Key, last: &Key, known: Shared) -> Shared
    requires first { shares low.now known first.now ≡ true }
    requires last { shares low.now known last.now ≡ true }
    ensures first { shares low.now result first.now ≡ true }
    ensures last { shares low.now result last.now ≡ true }
{
    match known {
        Shared::Nothing if !same_metric(low, first) || !same_metric(low, last) => Shared::Nothing,
        Shared::Nothing | Shared::Metric => shared_in_metric(low, first, last),
        Shared::Source => Shared::Source,
    }
}

/// What two keys in the metric of another have in common with it. Only sources are compared.
fn shared_in_metric(low: &Key, first: &Key, last: &Key) -> Shared
    requires first { shares low.now Shared.Metric first.now ≡ true }
    requires last { shares low.now Shared.Metric last.now ≡ true }
    ensures first { shares low.now result first.now ≡ true }
    ensures last { shares low.now result last.now ≡ true }
{
    if same_source(low, first) && same_source(low, last) {
        Shared::Source
    } else {
        Shared::Metric
    }
}

/// Whether two keys are of costs in one metric.
fn same_metric(low: &Key, key: &Key) -> bool
    ensures { result ≡ shares low.now Shared.Metric key.now }
{
    match (low, key) {
        (Key::Cost(net, metric, _, _), Key::Cost(of, other, _, _)) => {
            net == of && metric == other
        }
        _ => false,
    }
}

/// Whether two keys of costs in one metric are of one source. Nothing else is compared.
fn same_source(low: &Key, key: &Key) -> bool
    requires { shares low.now Shared.Metric key.now ≡ true }
    ensures { result ≡ shares low.now Shared.Source key.now }
{
    match (low, key) {
        (Key::Cost(_, _, source, _), Key::Cost(_, _, from, _)) => source == from,
        _ => false,
    }
}
