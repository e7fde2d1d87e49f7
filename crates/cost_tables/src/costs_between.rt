//! The costs in a metric between sources and destinations.
ghost use Rattle.std.specs.Prelude.{◌≡◌, ◌++◌, None, IfOk, OnOk, map, option_map};
ghost use Rattle.std.specs.BTreeMap.{is_at};
ghost use Rattle.std.specs.Map.{lookup};
ghost use Rattle.alto_rows.specs.Order.{name_cmp};
ghost use Rattle.cost_tables.specs.Lists.{ArePlacesFor, HaveNumbers, sources_in, table_of};
ghost use Rattle.cost_tables.specs.Tables.{cost_told, costs_between};

use crate::between::CostsBetween;
use crate::from_source::FromSource;
use crate::pid_text::PidText;
use crate::places::Places;
use crate::table::Table;
use std::alloc::{AllocError, Global};

/// The costs in a metric from sources to destinations, of a table, if the metric has one. Takes memory once for them.
///
/// For each source one search among numbers that lie together. Where the destinations stand is found once for all
/// sources in a row that have the same, and for each of them likewise.
pub(crate) fn costs_between(
    alloc: Global,
    table: Option<&Table>,
    sources: &[PidText],
    destinations: &[PidText],
) -> Result<CostsBetween, AllocError>
    ensures { IfOk result (λ costs. costs
        ≡ costs_between (table_of (sources_in (option_map (λ table. table.now) table.entry)))
        sources.now destinations.now) }
{
    let room = sources.len().saturating_mul(destinations.len());
    let mut costs = Vec::with_capacity(alloc, room)?;
    let mut places = Places::new(alloc);
    for source in sources {
        push_costs_from(table, source, destinations, &mut places, &mut costs)?;
    }
    Ok(CostsBetween::new(costs, sources.len(), destinations.len()))
}

/// Puts those from one source behind others, where the destinations stand at these places in the lists with their
/// number.
fn push_costs_from(
    table: Option<&Table>,
    source: &PidText,
    destinations: &[PidText],
    places: &mut Places,
    costs: &mut Vec<Option<u64>>,
) -> Result<(), AllocError>
    requires { ArePlacesFor (sources_in (option_map (λ table. table.now) table)) destinations.now places.old }
    ensures costs { OnOk result (costs.new.items ≡ costs.old.items
        ++ map (cost_told (table_of (sources_in (option_map (λ table. table.now) table.entry))) source.now)
        destinations.now) }
    ensures places { OnOk result
        (ArePlacesFor (sources_in (option_map (λ table. table.now) table.entry)) destinations.now places.new) }
{
    let Some(from) = from_in(table, source) else {
        return push_no_costs(destinations, costs);
    };
    places.find(from, destinations)?;
    from.costs().push_at(places.places(), costs)
}

/// Puts no cost, for each of these destinations.
fn push_no_costs(destinations: &[PidText], costs: &mut Vec<Option<u64>>) -> Result<(), AllocError>
    ensures { OnOk result (costs.new.items ≡ costs.old.items ++ map (λ destination. None) destinations.now) }
{
    for _ in destinations {
        costs.push(None)?;
    }
    Ok(())
}

/// The costs from a source in a table, if there are any. One binary search.
fn from_in<'a>(table: Option<&'a Table>, source: &PidText) -> Option<&'a FromSource>
    ensures from { option_map (λ from. from.now.1) result
        ≡ lookup (is_at (name_cmp source.now)) (sources_in (option_map (λ table. table.now) table.entry)) }
    ensures lists { HaveNumbers (sources_in (option_map (λ table. table.now) table.entry)) }
{
    match table {
        Some(table) => table.from(source),
        None => None,
    }
}
