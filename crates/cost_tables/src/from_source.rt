//! The costs in a metric from one source.
ghost use Rattle.std.specs.Prelude.{◌≡◌, ◌++◌, ◌∷◌, [], true, IfOk, IfSome, OnOk, List, Some, length, map, nat_eq};
ghost use Rattle.std.specs.Prelude.{option_map, slice_get, zip};
ghost use Rattle.std.specs.Arc.{arc_value};
ghost use Rattle.std.specs.List.{filter_map};
ghost use Rattle.std.specs.List.Sorted.{IsStrictlySortedBy};
ghost use Rattle.std.specs.Map.{keys_of};
ghost use Rattle.alto_rows.specs.Order.{name_cmp};
ghost use Rattle.alto_rows.specs.Rows.{AreSorted};
ghost use Rattle.cost_tables.specs.Lists.{ArePlaces, IsSharedOrNew};
ghost use Rattle.cost_tables.specs.Tables.{Name, cost_given, cost_to, costs_from};

use crate::destinations::{Destinations, stands_at};
use crate::numbers::Numbers;
use crate::pid_text::PidText;
use alto_names::{Metric, NetName, PidName};
use alto_rows::{Key, RowStore, Span, Value, Within, rows_in};
use shared_list::Named;
use std::alloc::{AllocError, Global};
use std::marker::Model;
use std::sync::Arc;

/// The costs in a metric from one source, by destination in byte order. Sources that have the same
/// destinations share their list. A contract sees the source, the costs and the list.
#[derive(Drop)]
pub(crate) struct FromSource {
    source: PidName,
    list: Arc<Destinations>,
    costs: Numbers,
}

impl Model for FromSource {
    ghost use Rattle.std.specs.Prelude.{◌≡◌, length, zip};
    ghost use Rattle.std.specs.Arc.{arc_value};
    ghost use Rattle.std.specs.List.Sorted.{IsStrictlySortedBy};
    ghost use Rattle.alto_rows.specs.Order.{name_cmp};
    ghost use Rattle.cost_tables.specs.Lists.{Listed};
    ghost use Rattle.cost_tables.specs.Tables.{Name};

    ghost Value = { Name × Listed };

    ghost view = { λ from. (
      from.source,
      record {
        costs = zip (arc_value from.list).names from.costs;
        list = arc_value from.list;
      },
    ) };

    ghost invariant = { λ from. length from.costs ≡ length (arc_value from.list).names };
}

impl FromSource {
    /// Those that rows give. One search, and one walk over the source's rows. The list of the destinations is shared
    /// with a source that has the same, which takes one comparison of two names for each; else a second walk makes one
    /// with this number.
    pub(crate) fn of<R: RowStore>(
        alloc: Global,
        rows: &R,
        net: &NetName,
        metric: &Metric,
        source: &PidName,
        like: Option<&FromSource>,
        number: u64,
    ) -> Result<FromSource, AllocError>
        requires { AreSorted (R.rows rows.now) }
        ensures source { IfOk result (λ from. from.0 ≡ source.now) }
        ensures costs { IfOk result (λ from. from.1.costs
            ≡ costs_from (R.rows rows.now) net.now metric.now source.now) }
        ensures list { IfOk result (λ from.
            IsSharedOrNew (option_map (λ from. from.now.1.list) like.entry) number from.1.list) }
    {
        let (list, costs) = listed(alloc, rows, net, metric, source, like, number)?;
        Ok(FromSource {
            source: source.clone()?,
            list,
            costs: Numbers::of(alloc, costs)?,
        })
    }

    /// These costs in place of its own, which are as many.
    pub(crate) fn with_costs(&self, costs: Numbers) -> Result<FromSource, AllocError>
        requires { length costs ≡ length self.now.1.list.names }
        ensures source { IfOk result (λ from. from.0 ≡ self.now.0) }
        ensures list { IfOk result (λ from. from.1.list ≡ self.now.1.list) }
        ensures costs { IfOk result (λ from. from.1.costs ≡ zip self.now.1.list.names costs) }
    {
        Ok(FromSource {
            source: self.source.clone()?,
            list: Arc::try_clone(&self.list)?,
            costs,
        })
    }

    /// The source.
    pub(crate) fn source(&self) -> &PidName
        ensures { result.now ≡ self.now.0 }
    {
        &self.source
    }

    /// The list of the destinations.
    pub(crate) fn destinations(&self) -> &Destinations
        ensures { result.now ≡ self.now.1.list }
    {
        &self.list
    }

    /// The number of the list of the destinations.
    pub(crate) fn number(&self) -> u64
        ensures { result ≡ self.now.1.list.number }
    {
        self.list.number()
    }

    /// How many costs the source has.
    pub(crate) fn count(&self) -> usize
        ensures names { result ≡ length self.now.1.list.names }
        ensures costs { result ≡ length self.now.1.costs }
        ensures order { IsStrictlySortedBy name_cmp (keys_of self.now.1.costs) }
    {
        self.list.names().len()
    }

    /// Whether the source has no cost.
    pub(crate) fn is_empty(&self) -> bool
        ensures { result ≡ nat_eq (length self.now.1.costs) 0 }
    {
        self.costs.is_empty()
    }

    /// The destination and the cost at a place, if there is one.
    pub(crate) fn pair(&self, place: usize) -> Option<(&PidName, u64)>
        ensures { option_map (λ pair. (pair.0.now, pair.1)) result ≡ slice_get self.now.1.costs place }
    {
        let destination = self.list.name(place)?;
        let cost = self.costs.get(place)?;
        Some((destination, cost))
    }

    /// Finds where destinations stand, as the list does.
    pub(crate) fn find(
        &self,
        destinations: &[PidText],
        places: &mut Vec<usize>,
    ) -> Result<(), AllocError>
        ensures { OnOk result (ArePlaces self.now.1.list.names destinations.now places.new.items) }
    {
        self.list.find(destinations, places)
    }

    /// The costs, by destination in the order of the list.
    pub(crate) fn costs(&self) -> &Numbers
        ensures costs { zip self.now.1.list.names result.now ≡ self.now.1.costs }
        ensures even { length result.now ≡ length self.now.1.list.names }
    {
        &self.costs
    }
}

impl Named for FromSource {
    ghost name = { λ from. from.0 };

    fn name(&self) -> &[u8] {
        self.source.as_bytes()
    }
}

/// The list of the destinations of the costs from a source that rows give, and the costs. The list is that of another
/// source where it has the same, else a new one with this number.
fn listed<R: RowStore>(
    alloc: Global,
    rows: &R,
    net: &NetName,
    metric: &Metric,
    source: &PidName,
    like: Option<&FromSource>,
    number: u64,
) -> Result<(Arc<Destinations>, Vec<u64>), AllocError>
    requires { AreSorted (R.rows rows.now) }
    ensures told { IfOk result (λ lists. zip (arc_value lists.0).names lists.1.items
        ≡ costs_from (R.rows rows.now) net.now metric.now source.now) }
    ensures even { IfOk result (λ lists. length lists.1.items ≡ length (arc_value lists.0).names) }
    ensures list { IfOk result (λ lists.
        IsSharedOrNew (option_map (λ from. from.now.1.list) like.entry) number (arc_value lists.0)) }
{
    if let Some(from) = like {
        if let Some(costs) = costs_to(alloc, rows, net, metric, source, from.list.names())? {
            return Ok((Arc::try_clone(&from.list)?, costs));
        }
    }
    let (destinations, costs) = costs_from(alloc, rows, net, metric, source)?;
    Ok((
        Arc::new(alloc, Destinations::new(alloc, number, destinations)?)?,
        costs,
    ))
}

/// The costs from a source that rows give, where they are to these destinations.
fn costs_to<R: RowStore>(
    alloc: Global,
    rows: &R,
    net: &NetName,
    metric: &Metric,
    source: &PidName,
    destinations: &[PidName],
) -> Result<Option<Vec<u64>>, AllocError>
    ensures told { IfOk result (λ found. IfSome found (λ costs. zip destinations.now costs.items
        ≡ costs_from (R.rows rows.now) net.now metric.now source.now)) }
    ensures even { IfOk result (λ found. IfSome found (λ costs. length costs.items ≡ length destinations.now)) }
{
    let span = Span::CostsFrom(net.clone()?, metric.clone()?, source.clone()?);
    let mut walk = rows_in(rows, span);
    let costs = costs_walked_to(alloc, &mut walk, destinations);
    // By a call: a walk that goes out of scope is dear to prove.
    drop(walk);
    costs
}

/// The costs that the rows of a walk give, where they are to these destinations, with no spare room. One comparison of
/// two names for each.
fn costs_walked_to<R: RowStore>(
    alloc: Global,
    walk: &mut Within<R>,
    destinations: &[PidName],
) -> Result<Option<Vec<u64>>, AllocError>
    ensures told { IfOk result (λ found. IfSome found (λ costs.
        zip destinations.now costs.items ≡ filter_map cost_given walk.old)) }
    ensures even { IfOk result (λ found. IfSome found (λ costs. length costs.items ≡ length destinations.now)) }
{
    let mut costs = Vec::with_capacity(alloc, destinations.len())?;
    while let Some(row) = walk.next() {
        if let (Key::Cost(_, _, _, destination), Value::Num(cost)) = (&row.0, &row.1) {
            if !stands_at(destinations, costs.len(), &PidText::of(destination)) {
                return Ok(None);
            }
            costs.push(*cost)?;
        }
    }
    if costs.len() == destinations.len() {
        Ok(Some(costs))
    } else {
        Ok(None)
    }
}

/// The destinations of the costs from a source that rows give, and the costs, with no spare room.
fn costs_from<R: RowStore>(
    alloc: Global,
    rows: &R,
    net: &NetName,
    metric: &Metric,
    source: &PidName,
) -> Result<(Vec<PidName>, Vec<u64>), AllocError>
    ensures told { IfOk result (λ lists. zip lists.0.items lists.1.items
        ≡ costs_from (R.rows rows.now) net.now metric.now source.now) }
    ensures even { IfOk result (λ lists. length lists.1.items ≡ length lists.0.items) }
{
    let span = Span::CostsFrom(net.clone()?, metric.clone()?, source.clone()?);
    let mut walk = rows_in(rows, span);
    let lists = costs_walked(alloc, &mut walk);
    // By a call: a walk that goes out of scope is dear to prove.
    drop(walk);
    lists
}

/// The destinations of the costs that the rows of a walk give, and the costs, with no spare room. The walk is only
/// borrowed: it is let go in one place.
fn costs_walked<R: RowStore>(
    alloc: Global,
    walk: &mut Within<R>,
) -> Result<(Vec<PidName>, Vec<u64>), AllocError>
    ensures told { IfOk result (λ lists. zip lists.0.items lists.1.items ≡ filter_map cost_given walk.old) }
    ensures even { IfOk result (λ lists. length lists.1.items ≡ length lists.0.items) }
{
    let mut destinations = Vec::new(alloc);
    let mut costs = Vec::new(alloc);
    while let Some(row) = walk.next() {
        if let (Key::Cost(_, _, _, destination), Value::Num(cost)) = (&row.0, &row.1) {
            push(&mut destinations, &mut costs, destination, *cost)?;
        }
    }
    destinations.shrink_to_fit();
    costs.shrink_to_fit();
    Ok((destinations, costs))
}

/// Puts a destination with its cost behind those that are there.
#[tactic(auto, using(crate::proofs::PairLemmas::zip_push))]
fn push(
    destinations: &mut Vec<PidName>,
    costs: &mut Vec<u64>,
    destination: &PidName,
    cost: u64,
) -> Result<(), AllocError>
    requires { length costs.old.items ≡ length destinations.old.items }
    ensures told { OnOk result (zip destinations.new.items costs.new.items
        ≡ zip destinations.old.items costs.old.items ++ (destination.now, cost) ∷ []) }
    ensures even { OnOk result (length costs.new.items ≡ length destinations.new.items) }
{
    destinations.push(destination.clone()?)?;
    costs.push(cost)?;
    Ok(())
}
