//! The costs from a source after writes that only write over some of them: they take its list of destinations, and no
//! row is read.
ghost use Rattle.std.specs.Prelude.{◌≡◌, true, IfOk, IfSome, length, option_map, zip};
ghost use Rattle.alto_rows.specs.Costs.{number_at};
ghost use Rattle.alto_rows.specs.Rows.{AreSorted, Rows, after, with_value};
ghost use Rattle.cost_tables.specs.Tables.{HasCostsOf, destination_of};

use crate::destinations::Destinations;
use crate::from_source::FromSource;
use crate::numbers::Numbers;
use alto_names::{Metric, NetName, PidName};
use alto_rows::{Key, Value, Write};
use std::alloc::{AllocError, Global};

impl FromSource {
    /// The costs from the source after writes, if these write no cost from it but to destinations that it has, and take
    /// none away. Copies the costs, looks at each write, and searches once for each cost that it writes.
    pub(crate) fn overwritten(
        &self,
        alloc: Global,
        net: &NetName,
        metric: &Metric,
        writes: &[Write],
    ) -> Result<Option<FromSource>, AllocError>
        ensures source { IfOk result (λ found. IfSome found (λ from. from.0 ≡ self.now.0)) }
        ensures list { IfOk result (λ found. IfSome found (λ from. from.1.list ≡ self.now.1.list)) }
        ensures costs { IfOk result (λ found. IfSome found (λ from. (before : Rows) → AreSorted before
            → HasCostsOf before net.now metric.now self.now.0 self.now.1.costs
            → HasCostsOf (after before writes.now) net.now metric.now self.now.0 from.1.costs)) }
    {
        let mut costs = self.costs().copied(alloc)?;
        for write in writes {
            if !overwrite(
                net,
                metric,
                self.source(),
                self.destinations(),
                write,
                &mut costs,
            ) {
                return Ok(None);
            }
        }
        Ok(Some(self.with_costs(costs)?))
    }
}

/// Writes what a write has of the costs from a source to these destinations over the one that stands. Tells whether one
/// does, and the write has one.
fn overwrite(
    net: &NetName,
    metric: &Metric,
    source: &PidName,
    destinations: &Destinations,
    write: &Write,
    costs: &mut Numbers,
) -> bool
    requires { length costs.old ≡ length destinations.now.names }
    ensures even { length costs.new ≡ length costs.old }
    ensures told { result ≡ true → (rows : Rows) → AreSorted rows
        → HasCostsOf rows net.now metric.now source.now (zip destinations.now.names costs.old)
        → HasCostsOf (with_value rows write.now.key write.now.value) net.now metric.now source.now
        (zip destinations.now.names costs.new) }
{
    let Some(destination) = destination_of(net, metric, source, &write.key) else {
        return true;
    };
    let Some(cost) = number_in(&write.value) else {
        return false;
    };
    match destinations.place_of(destination) {
        Some(place) => costs.set(place, cost),
        None => false,
    }
}

/// The destination of a cost from a source.
fn destination_of<'a>(
    net: &NetName,
    metric: &Metric,
    source: &PidName,
    key: &'a Key,
) -> Option<&'a PidName>
    ensures { option_map (λ destination. destination.now) result
        ≡ destination_of net.now metric.now source.now key.now }
{
    match key {
        Key::Cost(of, kind, from, to) if net == of && metric == kind && source == from => Some(to),
        _ => None,
    }
}

/// The number that a write leaves, if it leaves one.
fn number_in(value: &Option<Value>) -> Option<u64>
    ensures { result ≡ number_at value.now }
{
    match value {
        Some(Value::Num(number)) => Some(*number),
        _ => None,
    }
}
