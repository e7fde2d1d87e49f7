//! The groups of a cost map, from costs that are kept by source beside the rows.
ghost use Rattle.std.specs.Prelude.{◌≡◌, ◌++◌, ◌∷◌, [], OnOk, decimal};
ghost use Rattle.std.specs.List.Sorted.{IsStrictlySortedBy};
ghost use Rattle.std.specs.Map.{keys_of};
ghost use Rattle.json.specs.Print.{quoted};
ghost use Rattle.serde_json.specs.Written.{comma_if, compact_text};
ghost use Rattle.alto_maps.specs.Shape.{group_object};
ghost use Rattle.alto_rows.specs.Good.{AreGood};
ghost use Rattle.alto_rows.specs.Order.{name_cmp};
ghost use Rattle.alto_rows.specs.Rows.{Rows};
ghost use Rattle.cost_docs.specs.CostMap.{cost_face};
ghost use Rattle.cost_docs.specs.Kept.{costs_object};
ghost use Rattle.cost_tables.specs.Tables.{AreCostsOf};
ghost use Rattle.doc_pieces.specs.Pieces.{member_text};

use crate::source::{CostMap, read_pid};
use alto_maps::MapSource;
use alto_names::{Metric, NetName, PidName};
use alto_rows::RowStore;
use cost_tables::{CostTables, CostsFrom, PidText};
use doc_pieces::{Grouped, push_name};
use json_tree::Name;
use std::alloc::{AllocError, Global};
use std::marker::Model;
use text_buffer::TextBuffer;

/// Room for a member of a group, which few are longer than.
const COMMON_LENGTH: usize = 24;

/// The groups of the map of a network and a metric at good rows, written from tables that tell the costs of these rows:
/// no row is read for them. A contract sees the rows and both names.
#[derive(Drop)]
pub struct CostGroups<'a, R: RowStore> {
    rows: &'a R,
    net: &'a NetName,
    metric: &'a Metric,
    costs: &'a CostTables,
}

impl<'a, R: RowStore> Model for CostGroups<'a, R> {
    ghost use Rattle.std.specs.Prelude.{ℕ, List};
    ghost use Rattle.alto_rows.specs.Good.{AreGood};
    ghost use Rattle.alto_rows.specs.Rows.{Rows};
    ghost use Rattle.cost_tables.specs.Tables.{AreCostsOf};

    ghost Value = { Rows × List ℕ × List ℕ };

    ghost view = { λ groups. (R.rows groups.rows.now, groups.net.now, groups.metric.now) };

    ghost invariant = { λ groups. AreGood (R.rows groups.rows.now)
        × AreCostsOf (R.rows groups.rows.now) groups.costs.now };
}

impl<'a, R: RowStore> CostGroups<'a, R> {
    /// The groups of the map of a metric at these rows, whose costs these are. Takes no memory.
    pub fn new(
        rows: &'a R,
        net: &'a NetName,
        metric: &'a Metric,
        costs: &'a CostTables,
    ) -> CostGroups<'a, R>
        requires good { AreGood (R.rows rows.now) }
        requires costs { AreCostsOf (R.rows rows.now) costs.now }
        ensures { result ≡ (R.rows rows.now, net.now, metric.now) }
    {
        CostGroups {
            rows,
            net,
            metric,
            costs,
        }
    }
}

impl<'a, R: RowStore> Grouped for CostGroups<'a, R> {
    ghost use Rattle.cost_docs.specs.CostMap.{cost_face};

    ghost map = { λ groups. cost_face groups.1 groups.2 groups.0 };

    fn group_names(&self, alloc: Global) -> Result<Vec<Name>, AllocError> {
        CostMap::new(self.rows, self.net, self.metric).group_names(alloc)
    }

    fn has_group(&self, alloc: Global, name: &Name) -> Result<bool, AllocError> {
        CostMap::new(self.rows, self.net, self.metric).stands(alloc, name)
    }

    fn push_group(
        &self,
        alloc: Global,
        name: &Name,
        out: &mut TextBuffer,
    ) -> Result<(), AllocError> {
        match read_pid(alloc, name)? {
            Some(source) => push_group(self.costs, self.net, self.metric, &source, out),
            None => unreachable!(),
        }
    }
}

/// Puts the group of a source with its name at the end of a text, from the tables of some rows. One search among the
/// sources, and one pass over the source's costs.
fn push_group(
    costs: &CostTables,
    net: &NetName,
    metric: &Metric,
    source: &PidName,
    out: &mut TextBuffer,
) -> Result<(), AllocError>
    ensures { OnOk result ((rows : Rows) → AreGood rows → AreCostsOf rows costs.now → out.new ≡ out.old
        ++ member_text source.now (group_object (cost_face net.now metric.now rows) source.now)) }
{
    let costs = costs.costs_from(net, metric, &PidText::of(source));
    push_name(source.as_str(), out)?;
    push_costs(&costs, out)
}

/// Puts costs as an object at the end of a text, in byte order of their destinations.
fn push_costs(costs: &CostsFrom<'_>, out: &mut TextBuffer) -> Result<(), AllocError>
    ensures text { OnOk result (out.new ≡ out.old ++ compact_text (costs_object costs.now)) }
    ensures order { IsStrictlySortedBy name_cmp (keys_of costs.now) }
{
    let count = costs.len();
    out.make_room(count.saturating_mul(COMMON_LENGTH))?;
    out.push(b"{")?;
    let mut later = false;
    let mut place = 0;
    while let Some((destination, cost)) = costs.pair(place) {
        push_cost(destination, cost, later, out)?;
        later = true;
        place += 1;
    }
    out.push(b"}")
}

/// Puts the cost to a destination as a member at the end of a text, behind a comma where one stands before. No byte of
/// a PID is escaped, so none is looked at.
fn push_cost(
    destination: &PidName,
    cost: u64,
    later: bool,
    out: &mut TextBuffer,
) -> Result<(), AllocError>
    ensures { OnOk result (out.new
        ≡ out.old ++ (comma_if later ++ (quoted destination.now ++ 58 ∷ decimal cost))) }
{
    out.push(opening(later))?;
    out.push(destination.as_bytes())?;
    out.push(b"\":")?;
    out.push_number(cost)
}

/// What stands before the name of a member.
fn opening(later: bool) -> &'static [u8]
    ensures { result.now ≡ comma_if later ++ 34 ∷ [] }
{
    if later { b",\"" } else { b"\"" }
}
