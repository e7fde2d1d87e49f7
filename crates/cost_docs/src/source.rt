ghost use Rattle.std.specs.Prelude.{◌≡◌, IfOk, MatchOption, option_copied, option_map};
ghost use Rattle.serde_json.specs.Data.{unsigned};
ghost use Rattle.serde_json.specs.Data as json;
ghost use Rattle.json_tree.specs.Tree.{data_of};
ghost use Rattle.alto_names.specs.Name.{IsPidName};
ghost use Rattle.alto_maps.specs.Places.{set_of};
ghost use Rattle.alto_maps.specs.Shape.{stands};
ghost use Rattle.alto_rows.specs.Costs.{cost_of, number_at};
ghost use Rattle.alto_rows.specs.Good.{AreGood};
ghost use Rattle.alto_rows.specs.Rows.{value_of};
ghost use Rattle.alto_rows.specs.Span.{rows_in};
ghost use Rattle.cost_docs.specs.CostMap as spec;
ghost use Rattle.cost_docs.specs.Costs.{has_rows};

use crate::groups::{group, groups};
use crate::meta::{meta, write_meta};
use crate::names::group_names;
use crate::writing::write_groups;
use alto_maps::{MapSource, Walked};
use alto_names::{Metric, NameFault, NetName, PidName};
use alto_rows::{Key, RowStore, Span, Value, rows_in};
use json::Writer;
use json_tree::{Name, Tree};
use net_docs::dependent_tags;
use std::alloc::{AllocError, Global};
use std::marker::Model;

/// The map of a network and a metric at good rows, from which its document and its edges are made. A contract sees the
/// rows and both names.
#[derive(Drop)]
pub struct CostMap<'a, R: RowStore> {
    rows: &'a R,
    net: &'a NetName,
    metric: &'a Metric,
}

impl<'a, R: RowStore> Model for CostMap<'a, R> {
    ghost use Rattle.std.specs.Prelude.{ℕ, List};
    ghost use Rattle.alto_rows.specs.Good.{AreGood};
    ghost use Rattle.alto_rows.specs.Rows.{Rows};

    ghost Value = { Rows × List ℕ × List ℕ };

    ghost view = { λ map. (R.rows map.rows.now, map.net.now, map.metric.now) };

    ghost invariant = { λ map. AreGood (R.rows map.rows.now) };
}

impl<'a, R: RowStore> CostMap<'a, R> {
    /// The map of a metric at these rows. Takes no memory.
    pub fn new(rows: &'a R, net: &'a NetName, metric: &'a Metric) -> CostMap<'a, R>
        requires { AreGood (R.rows rows.now) }
        ensures { result ≡ (R.rows rows.now, net.now, metric.now) }
    {
        CostMap { rows, net, metric }
    }

    /// The names of the groups, in byte order. One walk over the rows of the metric.
    pub(crate) fn group_names(&self, alloc: Global) -> Result<Vec<Name>, AllocError>
        ensures { IfOk result (λ names. names.items ≡ set_of (spec.cost_face self.now.1 self.now.2 self.now.0).groups) }
    {
        group_names(alloc, self.rows, self.net, self.metric)
    }
}

impl<'a, R: RowStore> MapSource for CostMap<'a, R> {
    ghost use Rattle.cost_docs.specs.CostMap.{cost_face, cost_shape};

    ghost shape = { cost_shape };

    ghost face = { λ map. cost_face map.1 map.2 map.0 };

    fn section(&self) -> &str {
        "cost-map"
    }

    fn path(&self, alloc: Global) -> Result<Vec<Name>, AllocError> {
        let mut path = Vec::new(alloc);
        path.push(Name::from_str(alloc, "dependent-vtags")?)?;
        Ok(path)
    }

    fn version(&self, alloc: Global) -> Result<Tree, AllocError> {
        dependent_tags(alloc, self.rows, self.net)
    }

    fn meta(&self, alloc: Global) -> Result<Tree, AllocError> {
        meta(alloc, self.rows, self.net, self.metric, "numerical")
    }

    fn groups(&self, alloc: Global) -> Result<Tree, AllocError> {
        groups(alloc, self.rows, self.net, self.metric, None)
    }

    fn stands(&self, alloc: Global, name: &Name) -> Result<bool, AllocError> {
        match read_pid(alloc, name)? {
            Some(source) => has_cost_from(self.rows, self.net, self.metric, source),
            None => Ok(false),
        }
    }

    fn group(&self, alloc: Global, name: &Name) -> Result<Tree, AllocError> {
        match read_pid(alloc, name)? {
            Some(source) => group(alloc, self.rows, self.net, self.metric, &source, None),
            None => unreachable!(),
        }
    }

    fn value(&self, alloc: Global, name: &Name, member: &Name) -> Result<Option<Tree>, AllocError> {
        let cost = cost_of(alloc, self.rows, self.net, self.metric, name, member)?;
        Ok(number_of(cost))
    }
}

impl<'a, R: RowStore> Walked for CostMap<'a, R> {
    fn write_meta(&self, alloc: Global, out: &mut Writer) -> Result<(), AllocError> {
        write_meta(alloc, self.rows, self.net, self.metric, out)
    }

    fn write_groups(&self, _alloc: Global, out: &mut Writer) -> Result<(), AllocError> {
        write_groups(self.rows, self.net, self.metric, out)
    }
}

/// The PID of this name, `None` exactly where no PID can have it.
pub(crate) fn read_pid(alloc: Global, name: &Name) -> Result<Option<PidName>, AllocError>
    ensures { IfOk result (λ found. MatchOption found (¬ (IsPidName name.now)) (λ pid. pid ≡ name.now)) }
{
    match PidName::read(alloc, name.as_str().as_bytes()) {
        Ok(pid) => Ok(Some(pid)),
        Err(NameFault::Memory) => Err(AllocError),
        Err(_) => Ok(None),
    }
}

/// Whether a source has a cost of the metric. One search.
fn has_cost_from<R: RowStore>(
    rows: &R,
    net: &NetName,
    metric: &Metric,
    source: PidName,
) -> Result<bool, AllocError>
    ensures { IfOk result (λ found. found
        ≡ stands (spec.cost_face net.now metric.now (R.rows rows.now)) source) }
{
    let span = Span::CostsFrom(net.clone()?, metric.clone()?, source);
    Ok(has_rows(rows, span))
}

/// Whether a span has rows. One search.
fn has_rows<R: RowStore>(rows: &R, span: Span) -> bool
    ensures { result ≡ has_rows (rows_in (R.rows rows.now) span) }
{
    let mut walk = rows_in(rows, span);
    let found = walk.next().is_some();
    // a call, since what is dropped in place takes a proof for each kind of span
    drop(walk);
    found
}

/// The cost of a pair of these names, `None` exactly where it has none. One search.
fn cost_of<R: RowStore>(
    alloc: Global,
    rows: &R,
    net: &NetName,
    metric: &Metric,
    source: &Name,
    destination: &Name,
) -> Result<Option<u64>, AllocError>
    requires { AreGood (R.rows rows.now) }
    ensures { IfOk result (λ cost. cost
        ≡ cost_of (R.rows rows.now) net.now metric.now source.now destination.now) }
{
    match read_pid(alloc, source)? {
        Some(source) => match read_pid(alloc, destination)? {
            Some(destination) => cost_between(rows, net, metric, source, destination),
            None => Ok(None),
        },
        None => Ok(None),
    }
}

/// The cost of a pair. One search.
fn cost_between<R: RowStore>(
    rows: &R,
    net: &NetName,
    metric: &Metric,
    source: PidName,
    destination: PidName,
) -> Result<Option<u64>, AllocError>
    ensures { IfOk result (λ cost. cost
        ≡ cost_of (R.rows rows.now) net.now metric.now source destination) }
{
    let net = net.clone()?;
    let metric = metric.clone()?;
    Ok(number_of_row(rows, Key::Cost(net, metric, source, destination)))
}

/// The number in the row of a key. One search.
fn number_of_row<R: RowStore>(rows: &R, key: Key) -> Option<u64>
    ensures { result ≡ number_at (value_of (R.rows rows.now) key) }
{
    let number = number_at(rows.get(&key));
    // a call, since what is dropped in place takes a proof for each kind of key
    drop(key);
    number
}

/// The number that a row holds.
fn number_at(value: Option<&Value>) -> Option<u64>
    ensures { result ≡ number_at (option_copied value.entry) }
{
    match value {
        Some(Value::Num(number)) => Some(*number),
        _ => None,
    }
}

/// A number as JSON, where there is one.
fn number_of(number: Option<u64>) -> Option<Tree>
    ensures { option_map data_of result ≡ option_map (λ n. json.number (unsigned n)) number }
{
    match number {
        Some(number) => Some(Tree::number(number)),
        None => None,
    }
}
