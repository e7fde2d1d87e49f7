//! The operations on a cost map (RFC 6902), straight to bytes.
ghost use Rattle.std.specs.Prelude.{◌≡◌, true, None, Some, IfOk, OnOk, codes, is_some, map, option_map};
ghost use Rattle.std.specs.List.Sorted.{IsStrictlySortedBy};
ghost use Rattle.serde_json.specs.Written.{compact_text};
ghost use Rattle.json_patch.specs.OperationList.{operations_data};
ghost use Rattle.alto_rows.specs.Good.{AreGood};
ghost use Rattle.alto_rows.specs.Order.{key_cmp};
ghost use Rattle.alto_rows.specs.Rows.{value_of};
ghost use Rattle.alto_maps.specs.OperationForm.{on_meta, operation_form, under};
ghost use Rattle.alto_maps.specs.Shape.{stands};
ghost use Rattle.alto_maps.specs.Writing.{AddsValue};
ghost use Rattle.net_docs.specs.NetworkMap.{dependent_tags, version_tag};
ghost use Rattle.alto_rows.specs.Costs.{number_at};
ghost use Rattle.cost_docs.specs.CostMap.{cost_face, cost_place, cost_shape};
ghost use Rattle.cost_docs.specs.Writing.{AddsTokens};
ghost use Rattle.edge_text.specs.Operations as spec;
ghost use Rattle.edge_text.specs.Operations.{addition_tokens, are_both, both_standing, cost_gone, on_cost, on_pair};
ghost use Rattle.edge_text.specs.Operations.{on_pairs, on_whole, removal_tokens, tokens_of, turned_behind};
ghost use Rattle.edge_text.specs.Pairs.{pair_in, pairs_of};

use crate::costs::{has_cost_from, number_at, write_costs};
use crate::pairs::has_version;
use crate::paths::{group_path, pair_path};
use alto_names::{Metric, NetName, PidName};
use alto_rows::{Key, Resource, RowStore};
use json::Writer;
use net_docs::{tag, write_text};
use std::alloc::{AllocError, Global};
use std::marker::Model;

/// A source that was turned to, and whether its group stood before and stands after.
#[derive(Drop)]
struct Turned {
    source: PidName,
    stood: bool,
    stands: bool,
}

impl Model for Turned {
    ghost use Rattle.std.specs.Prelude.{ℕ, List, Bool};

    ghost Value = { List ℕ × (Bool × Bool) };

    ghost view = { λ turned. (turned.source, (turned.stood, turned.stands)) };
}

/// A cost map before and after a change.
#[derive(Drop)]
struct Maps<'a, R: RowStore> {
    before: &'a R,
    after: &'a R,
    net: &'a NetName,
    metric: &'a Metric,
}

/// The costs of a pair before and after a change.
#[derive(Clone, Copy)]
struct Costs {
    before: Option<u64>,
    after: Option<u64>,
}

/// The text of what leads from the cost map of some rows to that of others, which differ at these keys, which rise.
/// Costs up to two searches for each key, and two for each source. Where costs changed and none came or went, it is one
/// for each key, and one more for each source.
pub(crate) fn cost_operations_text<R: RowStore>(
    alloc: Global,
    before: &R,
    after: &R,
    net: &NetName,
    metric: &Metric,
    keys: &[Key],
) -> Result<Vec<u8>, AllocError>
    requires good_before { AreGood (R.rows before.now) }
    requires good { AreGood (R.rows after.now) }
    requires rising { IsStrictlySortedBy key_cmp keys.now }
    ensures { IfOk result (λ bytes. bytes.items ≡ compact_text (operations_data (operation_form cost_shape
        (cost_face net.now metric.now (R.rows before.now)) (cost_face net.now metric.now (R.rows after.now))
        (map (cost_place net.now metric.now) keys.now)))) }
{
    let mut out = Writer::new(Vec::new(alloc));
    let maps = Maps {
        before,
        after,
        net,
        metric,
    };
    write_patch(alloc, &maps, keys, &mut out)?;
    Ok(out.into_inner())
}

/// Writes the patch.
fn write_patch<R: RowStore>(
    alloc: Global,
    maps: &Maps<'_, R>,
    keys: &[Key],
    out: &mut Writer,
) -> Result<(), AllocError>
    requires good_before { AreGood (R.rows maps.now.before.now) }
    requires good { AreGood (R.rows maps.now.after.now) }
    requires rising { IsStrictlySortedBy key_cmp keys.now }
    ensures { OnOk result (AddsValue (operations_data (operation_form cost_shape
        (cost_face maps.now.net.now maps.now.metric.now (R.rows maps.now.before.now))
        (cost_face maps.now.net.now maps.now.metric.now (R.rows maps.now.after.now))
        (map (cost_place maps.now.net.now maps.now.metric.now) keys.now))) out.old out.new) }
{
    out.begin_array()?;
    write_version(alloc, maps, keys, out)?;
    write_pairs(alloc, maps, keys, out)?;
    out.end_array()
}

/// Writes the operation on the version, where it is touched.
fn write_version<R: RowStore>(
    alloc: Global,
    maps: &Maps<'_, R>,
    keys: &[Key],
    out: &mut Writer,
) -> Result<(), AllocError>
    ensures { OnOk result (AddsTokens (tokens_of (on_meta cost_shape
        (cost_face maps.now.net.now maps.now.metric.now (R.rows maps.now.after.now))
        (map (cost_place maps.now.net.now maps.now.metric.now) keys.now))) out.old out.new) }
{
    if !has_version(maps.net, keys) {
        return Ok(());
    }
    out.begin_object()?;
    write_text(out, "op", "replace")?;
    write_text(out, "path", "/meta/dependent-vtags")?;
    out.key("value")?;
    write_tags(alloc, maps.after, maps.net, out)?;
    out.end_object()
}

/// Writes the version tags that the map tells.
fn write_tags<R: RowStore>(
    alloc: Global,
    rows: &R,
    net: &NetName,
    out: &mut Writer,
) -> Result<(), AllocError>
    ensures { OnOk result (AddsValue (dependent_tags (R.rows rows.now) net.now) out.old out.new) }
{
    out.begin_array()?;
    write_tag(alloc, rows, net, out)?;
    out.end_array()
}

/// Writes the version tag of the network's map.
fn write_tag<R: RowStore>(
    alloc: Global,
    rows: &R,
    net: &NetName,
    out: &mut Writer,
) -> Result<(), AllocError>
    ensures { OnOk result (AddsValue (version_tag (R.rows rows.now) net.now) out.old out.new) }
{
    let tag = tag(alloc, rows, &Resource::Net(net.clone()?))?;
    out.begin_object()?;
    write_text(out, "resource-id", net.as_str())?;
    write_text(out, "tag", tag.as_str())?;
    out.end_object()
}

/// Writes the operations on groups and members.
fn write_pairs<R: RowStore>(
    alloc: Global,
    maps: &Maps<'_, R>,
    keys: &[Key],
    out: &mut Writer,
) -> Result<(), AllocError>
    requires good_before { AreGood (R.rows maps.now.before.now) }
    requires good { AreGood (R.rows maps.now.after.now) }
    ensures { OnOk result (AddsTokens (tokens_of (map (under (codes "cost-map")) (on_pairs
        (cost_face maps.now.net.now maps.now.metric.now (R.rows maps.now.before.now))
        (cost_face maps.now.net.now maps.now.metric.now (R.rows maps.now.after.now)) None
        (pairs_of maps.now.net.now maps.now.metric.now keys.now)))) out.old out.new) }
{
    let mut turned = None;
    for key in keys {
        write_key(alloc, maps, key, &mut turned, out)?;
    }
    Ok(())
}

/// Writes what the pair of a key brings, where it is a cost of the metric. Searches for the costs of the pair, and for
/// others of its source where these don't tell whether its group stood and stands.
fn write_key<R: RowStore>(
    alloc: Global,
    maps: &Maps<'_, R>,
    key: &Key,
    turned: &mut Option<Turned>,
    out: &mut Writer,
) -> Result<(), AllocError>
    requires good_before { AreGood (R.rows maps.now.before.now) }
    requires good { AreGood (R.rows maps.now.after.now) }
    ensures tokens { OnOk result (AddsTokens (tokens_of (map (under (codes "cost-map")) (on_pair
        (cost_face maps.now.net.now maps.now.metric.now (R.rows maps.now.before.now))
        (cost_face maps.now.net.now maps.now.metric.now (R.rows maps.now.after.now)) turned.old
        (pair_in maps.now.net.now maps.now.metric.now key.now)))) out.old out.new) }
    ensures turned { OnOk result (turned.new ≡ turned_behind
        (cost_face maps.now.net.now maps.now.metric.now (R.rows maps.now.before.now))
        (cost_face maps.now.net.now maps.now.metric.now (R.rows maps.now.after.now)) turned.old
        (pair_in maps.now.net.now maps.now.metric.now key.now)) }
{
    match key {
        Key::Cost(of, kind, source, destination) if maps.net == of && maps.metric == kind => {
            match known_of(turned, source) {
                Some(true) => write_change(alloc, source, destination, change_of(maps, key), out),
                Some(false) => Ok(()),
                None => {
                    let costs = costs_of(maps, key);
                    if turn_to(alloc, maps, source, costs, turned, out)? {
                        write_change(alloc, source, destination, costs, out)
                    } else {
                        Ok(())
                    }
                }
            }
        }
        _ => Ok(()),
    }
}

/// The costs of the pair of a key. Two searches.
fn costs_of<R: RowStore>(maps: &Maps<'_, R>, key: &Key) -> Costs
    ensures before { result.before ≡ number_at (value_of (R.rows maps.now.before.now) key.now) }
    ensures after { result.after ≡ number_at (value_of (R.rows maps.now.after.now) key.now) }
{
    Costs {
        before: number_at(maps.before.get(key)),
        after: number_at(maps.after.get(key)),
    }
}

/// The same, without the cost before where there is one after, which tells all of the change. One search there.
fn change_of<R: RowStore>(maps: &Maps<'_, R>, key: &Key) -> Costs
    ensures before { result.before
        ≡ cost_gone (number_at (value_of (R.rows maps.now.before.now) key.now)) result.after }
    ensures after { result.after ≡ number_at (value_of (R.rows maps.now.after.now) key.now) }
{
    let after = number_at(maps.after.get(key));
    let before = match after {
        Some(_) => None,
        None => number_at(maps.before.get(key)),
    };
    Costs { before, after }
}

/// Turns to a source: writes the operation on its group as a whole, if there is one, and tells whether the group stood
/// and stands.
fn turn_to<R: RowStore>(
    alloc: Global,
    maps: &Maps<'_, R>,
    source: &PidName,
    costs: Costs,
    turned: &mut Option<Turned>,
    out: &mut Writer,
) -> Result<bool, AllocError>
    requires good { AreGood (R.rows maps.now.after.now) }
    requires stood { is_some costs.before ≡ true
        → stands (cost_face maps.now.net.now maps.now.metric.now (R.rows maps.now.before.now)) source.now ≡ true }
    requires stands { is_some costs.after ≡ true
        → stands (cost_face maps.now.net.now maps.now.metric.now (R.rows maps.now.after.now)) source.now ≡ true }
    ensures tokens { OnOk result (AddsTokens (tokens_of (map (under (codes "cost-map")) (on_whole
        (cost_face maps.now.net.now maps.now.metric.now (R.rows maps.now.after.now)) source.now (both_standing
        (cost_face maps.now.net.now maps.now.metric.now (R.rows maps.now.before.now))
        (cost_face maps.now.net.now maps.now.metric.now (R.rows maps.now.after.now)) source.now))))
        out.old out.new) }
    ensures turned { OnOk result (turned.new ≡ Some (
      source.now,
      both_standing
          (cost_face maps.now.net.now maps.now.metric.now (R.rows maps.now.before.now))
          (cost_face maps.now.net.now maps.now.metric.now (R.rows maps.now.after.now)) source.now,
    )) }
    ensures both { IfOk result (λ both. both ≡ are_both (both_standing
        (cost_face maps.now.net.now maps.now.metric.now (R.rows maps.now.before.now))
        (cost_face maps.now.net.now maps.now.metric.now (R.rows maps.now.after.now)) source.now)) }
{
    let stood = has_group(maps.before, maps, source, costs.before)?;
    let stands = has_group(maps.after, maps, source, costs.after)?;
    write_whole(alloc, maps, source, stood, stands, out)?;
    *turned = Some(Turned {
        source: source.clone()?,
        stood,
        stands,
    });
    Ok(stood && stands)
}

/// Whether the group of a source stands in some rows. So it does where one of its costs there is known, and else a
/// search tells.
fn has_group<R: RowStore>(
    rows: &R,
    maps: &Maps<'_, R>,
    source: &PidName,
    known: Option<u64>,
) -> Result<bool, AllocError>
    requires { is_some known ≡ true
        → stands (cost_face maps.now.net.now maps.now.metric.now (R.rows rows.now)) source.now ≡ true }
    ensures { IfOk result (λ told. told
        ≡ stands (cost_face maps.now.net.now maps.now.metric.now (R.rows rows.now)) source.now) }
{
    match known {
        Some(_) => Ok(true),
        None => has_cost_from(rows, maps.net, maps.metric, source),
    }
}

/// Whether the group of a source stood and stands, where it was turned to.
fn known_of(turned: &Option<Turned>, source: &PidName) -> Option<bool>
    ensures { result ≡ option_map are_both (spec.known_of turned.now source.now) }
{
    match turned {
        Some(turned) if turned.source == *source => Some(turned.stood && turned.stands),
        _ => None,
    }
}

/// Writes the operation on a group as a whole: it is removed where it stood alone, and added where it stands alone.
fn write_whole<R: RowStore>(
    alloc: Global,
    maps: &Maps<'_, R>,
    source: &PidName,
    stood: bool,
    stands: bool,
    out: &mut Writer,
) -> Result<(), AllocError>
    requires { AreGood (R.rows maps.now.after.now) }
    ensures { OnOk result (AddsTokens (tokens_of (map (under (codes "cost-map")) (on_whole
        (cost_face maps.now.net.now maps.now.metric.now (R.rows maps.now.after.now)) source.now (stood, stands))))
        out.old out.new) }
{
    match (stood, stands) {
        (true, false) => write_removal(group_path(alloc, source)?.as_str(), out),
        (false, true) => {
            begin_addition(group_path(alloc, source)?.as_str(), out)?;
            write_costs(maps.after, maps.net, maps.metric, source, out)?;
            out.end_object()
        }
        _ => Ok(()),
    }
}

/// Writes the operation on the cost of a pair, if there is one: it is added where it is there, and removed where it was
/// there alone.
fn write_change(
    alloc: Global,
    source: &PidName,
    destination: &PidName,
    costs: Costs,
    out: &mut Writer,
) -> Result<(), AllocError>
    ensures { OnOk result (AddsTokens (tokens_of (map (under (codes "cost-map")) (map (under source.now)
        (on_cost destination.now costs.before costs.after)))) out.old out.new) }
{
    if let Some(cost) = costs.after {
        begin_addition(pair_path(alloc, source, destination)?.as_str(), out)?;
        out.u64(cost)?;
        return out.end_object();
    }
    if costs.before.is_some() {
        return write_removal(pair_path(alloc, source, destination)?.as_str(), out);
    }
    Ok(())
}

/// Writes an operation that adds a value, up to the value.
fn begin_addition(path: &str, out: &mut Writer) -> Result<(), AllocError>
    ensures { OnOk result (AddsTokens (addition_tokens path.now) out.old out.new) }
{
    out.begin_object()?;
    write_text(out, "op", "add")?;
    write_text(out, "path", path)?;
    out.key("value")
}

/// Writes an operation that removes a value.
fn write_removal(path: &str, out: &mut Writer) -> Result<(), AllocError>
    ensures { OnOk result (AddsTokens (removal_tokens path.now) out.old out.new) }
{
    out.begin_object()?;
    write_text(out, "op", "remove")?;
    write_text(out, "path", path)?;
    out.end_object()
}
