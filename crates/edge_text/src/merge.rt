//! The merge patch of a cost map (RFC 7396), straight to bytes.
ghost use Rattle.std.specs.Prelude.{◌≡◌, true, None, Some, IfOk, OnOk, codes, is_some, map};
ghost use Rattle.std.specs.List.Sorted.{IsStrictlySortedBy};
ghost use Rattle.serde_json.specs.Written.{compact_text};
ghost use Rattle.alto_rows.specs.Good.{AreGood};
ghost use Rattle.alto_rows.specs.Order.{key_cmp};
ghost use Rattle.alto_maps.specs.MergeForm.{group_change, merge_form, meta_change, section_change};
ghost use Rattle.alto_maps.specs.Places.{touched_groups};
ghost use Rattle.alto_maps.specs.Shape.{stands};
ghost use Rattle.alto_maps.specs.Writing.{AddsValue};
ghost use Rattle.alto_rows.specs.Costs.{cost_of};
ghost use Rattle.cost_docs.specs.CostMap.{cost_face, cost_place, cost_shape};
ghost use Rattle.cost_docs.specs.Writing.{AddsTokens};
ghost use Rattle.edge_text.specs.Merge as spec;
ghost use Rattle.edge_text.specs.Merge.{begin_tokens, begun_behind, change_tokens, end_tokens, pair_tokens};
ghost use Rattle.edge_text.specs.Merge.{part_tokens, standing, tokens_left, turn_tokens};
ghost use Rattle.edge_text.specs.Pairs.{pair_in, pairs_of};

use crate::costs::{has_cost_from, number_at};
use crate::pairs::{has_pair, has_version};
use alto_names::{Metric, NetName, PidName};
use alto_rows::{Key, RowStore};
use json::Writer;
use net_docs::write_dependent_tags;
use std::alloc::{AllocError, Global};
use std::marker::Model;

/// A group that is begun: its source, and whether it stands, so that it is an object and no null.
#[derive(Drop)]
struct Begun {
    source: PidName,
    stands: bool,
}

impl Model for Begun {
    ghost use Rattle.std.specs.Prelude.{ℕ, List, Bool};

    ghost Value = { List ℕ × Bool };

    ghost view = { λ begun. (begun.source, begun.stands) };
}

/// The text of what leads to the cost map of these rows from one that differs at these keys, which rise. Costs one
/// search for each key, and one for each source of which the first key has no cost any more.
pub(crate) fn cost_merge_text<R: RowStore>(
    alloc: Global,
    rows: &R,
    net: &NetName,
    metric: &Metric,
    keys: &[Key],
) -> Result<Vec<u8>, AllocError>
    requires good { AreGood (R.rows rows.now) }
    requires rising { IsStrictlySortedBy key_cmp keys.now }
    ensures { IfOk result (λ bytes. bytes.items ≡ compact_text (merge_form cost_shape
        (cost_face net.now metric.now (R.rows rows.now)) (map (cost_place net.now metric.now) keys.now))) }
{
    let mut out = Writer::new(Vec::new(alloc));
    write_patch(alloc, rows, net, metric, keys, &mut out)?;
    Ok(out.into_inner())
}

/// Writes the patch.
fn write_patch<R: RowStore>(
    alloc: Global,
    rows: &R,
    net: &NetName,
    metric: &Metric,
    keys: &[Key],
    out: &mut Writer,
) -> Result<(), AllocError>
    requires good { AreGood (R.rows rows.now) }
    requires rising { IsStrictlySortedBy key_cmp keys.now }
    ensures { OnOk result (AddsValue (merge_form cost_shape (cost_face net.now metric.now (R.rows rows.now))
        (map (cost_place net.now metric.now) keys.now)) out.old out.new) }
{
    out.begin_object()?;
    write_section(rows, net, metric, keys, out)?;
    write_meta(alloc, rows, net, metric, keys, out)?;
    out.end_object()
}

/// Writes what the section comes to with its name, where a pair is touched.
fn write_section<R: RowStore>(
    rows: &R,
    net: &NetName,
    metric: &Metric,
    keys: &[Key],
    out: &mut Writer,
) -> Result<(), AllocError>
    requires good { AreGood (R.rows rows.now) }
    requires rising { IsStrictlySortedBy key_cmp keys.now }
    ensures { OnOk result (AddsTokens (part_tokens (codes "cost-map") (section_change
        (map (λ g. (
          g,
          group_change (cost_face net.now metric.now (R.rows rows.now))
              (map (cost_place net.now metric.now) keys.now) g,
        ))
        (touched_groups (map (cost_place net.now metric.now) keys.now))))) out.old out.new) }
{
    if !has_pair(net, metric, keys) {
        return Ok(());
    }
    out.key("cost-map")?;
    out.begin_object()?;
    write_groups(rows, net, metric, keys, out)?;
    out.end_object()
}

/// Writes the touched groups as members.
fn write_groups<R: RowStore>(
    rows: &R,
    net: &NetName,
    metric: &Metric,
    keys: &[Key],
    out: &mut Writer,
) -> Result<(), AllocError>
    requires { AreGood (R.rows rows.now) }
    ensures { OnOk result (AddsTokens (tokens_left (stands (cost_face net.now metric.now (R.rows rows.now)))
        (cost_of (R.rows rows.now) net.now metric.now) None (pairs_of net.now metric.now keys.now)) out.old out.new) }
{
    let mut begun = None;
    for key in keys {
        write_key(rows, net, metric, key, &mut begun, out)?;
    }
    end_group(&begun, out)
}

/// Writes what the pair of a key comes to, in the group of its source, where it is a cost of the metric. One search,
/// and another where a group begins with a pair that has no cost.
fn write_key<R: RowStore>(
    rows: &R,
    net: &NetName,
    metric: &Metric,
    key: &Key,
    begun: &mut Option<Begun>,
    out: &mut Writer,
) -> Result<(), AllocError>
    requires { AreGood (R.rows rows.now) }
    ensures tokens { OnOk result (AddsTokens (pair_tokens (stands (cost_face net.now metric.now (R.rows rows.now)))
        (cost_of (R.rows rows.now) net.now metric.now) begun.old (pair_in net.now metric.now key.now))
        out.old out.new) }
    ensures begun { OnOk result (begun.new ≡ begun_behind (stands (cost_face net.now metric.now (R.rows rows.now)))
        begun.old (pair_in net.now metric.now key.now)) }
{
    match key {
        Key::Cost(of, kind, source, destination) if net == of && metric == kind => {
            let cost = number_at(rows.get(key));
            let stands = turn_to(rows, net, metric, source, cost, begun, out)?;
            write_change(stands, destination, cost, out)
        }
        _ => Ok(()),
    }
}

/// Begins the group of a source, behind the end of another, unless it is begun, and tells whether it stands. So it does
/// where one of its costs is known.
fn turn_to<R: RowStore>(
    rows: &R,
    net: &NetName,
    metric: &Metric,
    source: &PidName,
    cost: Option<u64>,
    begun: &mut Option<Begun>,
    out: &mut Writer,
) -> Result<bool, AllocError>
    requires { is_some cost ≡ true → stands (cost_face net.now metric.now (R.rows rows.now)) source.now ≡ true }
    ensures tokens { OnOk result (AddsTokens (turn_tokens (stands (cost_face net.now metric.now (R.rows rows.now)))
        begun.old source.now) out.old out.new) }
    ensures begun { OnOk result (begun.new ≡ Some (
      source.now,
      standing (stands (cost_face net.now metric.now (R.rows rows.now))) begun.old source.now,
    )) }
    ensures stands { IfOk result (λ told. told
        ≡ standing (stands (cost_face net.now metric.now (R.rows rows.now))) begun.old source.now) }
{
    if let Some(stands) = known_of(begun, source) {
        return Ok(stands);
    }
    let stands = match cost {
        Some(_) => true,
        None => has_cost_from(rows, net, metric, source)?,
    };
    end_group(begun, out)?;
    begin_group(source, stands, out)?;
    *begun = Some(Begun {
        source: source.clone()?,
        stands,
    });
    Ok(stands)
}

/// Whether the group of a source stands, where it is begun.
fn known_of(begun: &Option<Begun>, source: &PidName) -> Option<bool>
    ensures { result ≡ spec.known_of begun.now source.now }
{
    match begun {
        Some(begun) if begun.source == *source => Some(begun.stands),
        _ => None,
    }
}

/// Writes the beginning of a group, and null where it doesn't stand.
fn begin_group(source: &PidName, stands: bool, out: &mut Writer) -> Result<(), AllocError>
    ensures { OnOk result (AddsTokens (begin_tokens source.now stands) out.old out.new) }
{
    out.key(source.as_str())?;
    if stands {
        out.begin_object()
    } else {
        out.null()
    }
}

/// Writes the end of the group that is begun, where it stands.
fn end_group(begun: &Option<Begun>, out: &mut Writer) -> Result<(), AllocError>
    ensures { OnOk result (AddsTokens (end_tokens begun.now) out.old out.new) }
{
    match begun {
        Some(begun) if begun.stands => out.end_object(),
        _ => Ok(()),
    }
}

/// Writes a cost with the name of its destination, and null where there is none, in a group that stands.
fn write_change(
    stands: bool,
    destination: &PidName,
    cost: Option<u64>,
    out: &mut Writer,
) -> Result<(), AllocError>
    ensures { OnOk result (AddsTokens (change_tokens stands destination.now cost) out.old out.new) }
{
    if !stands {
        return Ok(());
    }
    out.key(destination.as_str())?;
    match cost {
        Some(cost) => out.u64(cost),
        None => out.null(),
    }
}

/// Writes what the meta comes to with its name, where the version is touched.
fn write_meta<R: RowStore>(
    alloc: Global,
    rows: &R,
    net: &NetName,
    metric: &Metric,
    keys: &[Key],
    out: &mut Writer,
) -> Result<(), AllocError>
    ensures { OnOk result (AddsTokens (part_tokens (codes "meta") (meta_change cost_shape
        (cost_face net.now metric.now (R.rows rows.now)) (map (cost_place net.now metric.now) keys.now)))
        out.old out.new) }
{
    if !has_version(net, keys) {
        return Ok(());
    }
    out.key("meta")?;
    out.begin_object()?;
    write_dependent_tags(alloc, rows, net, out)?;
    out.end_object()
}
