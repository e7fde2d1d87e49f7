ghost use Rattle.std.specs.Prelude.{◌≡◌, ◌≢◌, None, Ok, Err, IfOk, IfErr, OnOk};
ghost use Rattle.serde_json.specs.Data.{no_items};
ghost use Rattle.serde_json.specs.Find.{as_array, get};
ghost use Rattle.json_tree.specs.Tree.{data_of, items_data};
ghost use Rattle.alto_rows.specs.Rows.{has_row};
ghost use Rattle.alto_rows.specs.declared.key.Key.TheVariants as key;
ghost use Rattle.cost_filters.specs.Types.{asked_types, cost_type_in, cost_types_in, is_ordinal, metric_named};
ghost use Rattle.cost_filters.specs.Types.{no_types, one_to_eight, types_field, types_in};

use crate::fields::{items_in, object_in, text_at, wrong_member, wrong_value};
use alto_asks::AskFault;
use alto_names::{Metric, NameFault, NetName};
use alto_rows::{Key, RowStore};
use json_tree::Tree;
use std::alloc::{AllocError, Global};
use std::marker::Model;

/// A cost type (RFC 7285, section 10.7): a metric, and whether the ranks of its costs are meant in place of the costs.
#[derive(Debug, Drop)]
pub struct CostType {
    pub metric: Metric,
    pub ordinal: bool,
}

impl CostType {
    /// The same type again. Takes no memory, as a name's clone.
    pub fn copy(&self) -> Result<CostType, AllocError>
        ensures { IfOk result (λ copy. copy ≡ self.now) }
    {
        Ok(CostType {
            metric: self.metric.clone()?,
            ordinal: self.ordinal,
        })
    }
}

/// The cost types that are asked for.
#[derive(Debug, Drop)]
pub struct AskedTypes {
    /// Whether they are asked for in the form of several (RFC 8189, section 4.1.2).
    pub multi: bool,
    pub types: Vec<CostType>,
}

impl Model for AskedTypes {
    ghost use Rattle.cost_filters.specs.Types.{AskedTypesData};

    ghost Value = { AskedTypesData };

    ghost view = { λ asked. record { multi = asked.multi; types = asked.types.items } };
}

/// The cost types that the body of a request names in `cost-type`, or 1 to 8 of them in `multi-cost-types`. Linear in
/// both fields, with one search for each type.
///
/// # Errors
///
/// `Bad` with the first fault: `MissingField` where neither field is there, or a type lacks a member;
/// `InvalidFieldType` where a field is no object or no list, or a member no text; `InvalidFieldValue` where a mode
/// isn't `numerical` or `ordinal`, where the network has no such metric, where there are none or more than 8, and
/// where both fields are there.
#[tactic(auto, unfolding(crate::specs::Types::asked_types))]
pub fn read_types<R: RowStore>(
    alloc: Global,
    rows: &R,
    net: &NetName,
    ask: &Tree,
) -> Result<AskedTypes, AskFault>
    ensures ok { IfOk result (λ asked. asked_types (R.rows rows.now) net.now (data_of ask.now) ≡ Ok asked) }
    ensures err { IfErr result (λ fault. fault ≢ AskFault.Memory
        → asked_types (R.rows rows.now) net.now (data_of ask.now) ≡ Err fault) }
{
    match ask.member("cost-type") {
        Some(value) => {
            let one = cost_type_in(alloc, rows, net, "cost-type", value)?;
            no_types(alloc, ask)?;
            Ok(AskedTypes {
                multi: false,
                types: vec![in alloc; one]?,
            })
        }
        None => several(alloc, rows, net, ask),
    }
}

/// The cost types of the field of several.
fn several<R: RowStore>(
    alloc: Global,
    rows: &R,
    net: &NetName,
    ask: &Tree,
) -> Result<AskedTypes, AskFault>
    ensures ok { IfOk result (λ asked. types_in (R.rows rows.now) net.now None (get types_field (data_of ask.now))
        ≡ Ok asked) }
    ensures err { IfErr result (λ fault. fault ≢ AskFault.Memory
        → types_in (R.rows rows.now) net.now None (get types_field (data_of ask.now)) ≡ Err fault) }
{
    match ask.member("multi-cost-types") {
        Some(value) => {
            let items = items_in(alloc, "multi-cost-types", value)?;
            let items = one_to_eight(alloc, items)?;
            let types = cost_types_in(alloc, rows, net, "multi-cost-types", items)?;
            Ok(AskedTypes { multi: true, types })
        }
        None => Err(AskFault::missing(alloc, "cost-type")?),
    }
}

/// There is no list of several types beside one.
fn no_types(alloc: Global, ask: &Tree) -> Result<(), AskFault>
    ensures ok { OnOk result (no_types (get types_field (data_of ask.now)) ≡ Ok no_items) }
    ensures err { IfErr result (λ fault. fault ≢ AskFault.Memory
        → no_types (get types_field (data_of ask.now)) ≡ Err fault) }
{
    match ask.member("multi-cost-types") {
        Some(value) => {
            items_in(alloc, "multi-cost-types", value)?;
            Err(wrong_value(alloc, "multi-cost-types")?)
        }
        None => Ok(()),
    }
}

/// The items, if there are 1 to 8.
#[tactic(auto, using(crate::proofs::TypesLemmas::count_of_trees))]
fn one_to_eight<'t>(alloc: Global, items: &'t [Tree]) -> Result<&'t [Tree], AskFault>
    ensures ok { IfOk result (λ few. one_to_eight (items_data items.now) ≡ Ok (items_data few.now)) }
    ensures err { IfErr result (λ fault. fault ≢ AskFault.Memory
        → one_to_eight (items_data items.now) ≡ Err fault) }
{
    if (1..=8).contains(&items.len()) {
        Ok(items)
    } else {
        Err(wrong_value(alloc, "multi-cost-types")?)
    }
}

/// The cost types that the items of a field's list are. One search for each.
pub(crate) fn cost_types_in<R: RowStore>(
    alloc: Global,
    rows: &R,
    net: &NetName,
    field: &str,
    items: &[Tree],
) -> Result<Vec<CostType>, AskFault>
    ensures ok { IfOk result (λ types. cost_types_in (R.rows rows.now) net.now field.now (items_data items.now)
        ≡ Ok types.items) }
    ensures err { IfErr result (λ fault. fault ≢ AskFault.Memory
        → cost_types_in (R.rows rows.now) net.now field.now (items_data items.now) ≡ Err fault) }
{
    let mut types = Vec::new(alloc);
    for item in items {
        types.push(cost_type_in(alloc, rows, net, field, item)?)?;
    }
    Ok(types)
}

/// The cost type that a field's value is. One search.
fn cost_type_in<R: RowStore>(
    alloc: Global,
    rows: &R,
    net: &NetName,
    field: &str,
    value: &Tree,
) -> Result<CostType, AskFault>
    ensures ok { IfOk result (λ one. cost_type_in (R.rows rows.now) net.now field.now (data_of value.now) ≡ Ok one) }
    ensures err { IfErr result (λ fault. fault ≢ AskFault.Memory
        → cost_type_in (R.rows rows.now) net.now field.now (data_of value.now) ≡ Err fault) }
{
    let object = object_in(alloc, field, value)?;
    let mode = text_at(alloc, field, "cost-mode", object)?;
    let ordinal = is_ordinal(alloc, field, mode)?;
    let text = text_at(alloc, field, "cost-metric", object)?;
    let metric = metric_named(alloc, rows, net, field, text)?;
    Ok(CostType { metric, ordinal })
}

/// Whether a mode asks for ranks.
fn is_ordinal(alloc: Global, field: &str, mode: &str) -> Result<bool, AskFault>
    ensures ok { IfOk result (λ ordinal. is_ordinal field.now mode.now ≡ Ok ordinal) }
    ensures err { IfErr result (λ fault. fault ≢ AskFault.Memory → is_ordinal field.now mode.now ≡ Err fault) }
{
    match mode {
        "numerical" => Ok(false),
        "ordinal" => Ok(true),
        _ => Err(wrong_member(alloc, field, "cost-mode", mode)?),
    }
}

/// The metric of the network that a text names. One search.
fn metric_named<R: RowStore>(
    alloc: Global,
    rows: &R,
    net: &NetName,
    field: &str,
    text: &str,
) -> Result<Metric, AskFault>
    ensures ok { IfOk result (λ metric. metric_named (R.rows rows.now) net.now field.now text.now ≡ Ok metric) }
    ensures err { IfErr result (λ fault. fault ≢ AskFault.Memory
        → metric_named (R.rows rows.now) net.now field.now text.now ≡ Err fault) }
{
    match Metric::read(alloc, text.as_bytes()) {
        Ok(metric) => {
            if is_declared(rows, net, &metric)? {
                return Ok(metric);
            }
            Err(wrong_member(alloc, field, "cost-metric", text)?)
        }
        Err(NameFault::Memory) => Err(AskFault::Memory),
        Err(_) => Err(wrong_member(alloc, field, "cost-metric", text)?),
    }
}

/// Whether a network has a metric. One search.
fn is_declared<R: RowStore>(rows: &R, net: &NetName, metric: &Metric) -> Result<bool, AllocError>
    ensures { IfOk result (λ declared. declared ≡ has_row (R.rows rows.now) (key.Metric net.now metric.now)) }
{
    let key = Key::Metric(net.clone()?, metric.clone()?);
    let declared = rows.get(&key).is_some();
    // a key that is let go by a call is cheaper to prove than one that is dropped in place, variant by variant
    drop(key);
    Ok(declared)
}
