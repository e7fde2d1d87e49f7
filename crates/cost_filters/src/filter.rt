//! The filtered cost map as JSON text, written without a tree.
ghost use Rattle.std.specs.Prelude.{◌≡◌, ◌++◌, [], ◌∷◌, Some, None, false, codes, IfOk, OnOk, map, option_map};
ghost use Rattle.std.specs.Cmp.Lexicographic.{slice_cmp};
ghost use Rattle.std.specs.List.Sorted.{IsStrictlySortedBy};
ghost use Rattle.std.specs.Ordering.{nat_cmp};
ghost use Rattle.serde_json.specs.Written.{compact_text, members_text};
ghost use Rattle.json_tree.specs.Document.{members_of};
ghost use Rattle.json_tree.specs.Tree.{members_in_order};
ghost use Rattle.alto_rows.specs.Good.{AreGood};
ghost use Rattle.cost_tables.specs.Tables.{AreCostsOf};
ghost use Rattle.alto_maps.specs.Shape.{section_object};
ghost use Rattle.alto_maps.specs.Writing.{AddsMember, AddsMembers};
ghost use Rattle.net_docs.specs.NetworkMap.{dependent_tags};
ghost use Rattle.cost_filters.specs.Columns.{valued};
ghost use Rattle.cost_filters.specs.Filter.{filtered_costs, filtered_face, filtered_meta};
ghost use Rattle.cost_filters.specs.Filter.{types_data, types_name};
ghost use Rattle.cost_filters.specs.Names.{AreSetIfAny};
ghost use Rattle.cost_filters.specs.Pairs.{pair_costs};
ghost use Rattle.cost_filters.specs.Text.{PutsIfAny, found_object, group_made};

use crate::ask::CostAsk;
use crate::destinations::{Destinations, starts_of};
use crate::groups::push_group;
use crate::names::{names_given, pids_unless_given, srcs_among, texts_of};
use crate::pairs::Pairs;
use crate::types::CostType;
use crate::writing::write_types;
use alto_names::NetName;
use alto_rows::RowStore;
use cost_tables::{CostTables, PidText};
use json::Writer;
use net_docs::write_dependent_tags;
use std::alloc::{AllocError, Global};
use std::slice;
use text_buffer::TextBuffer;

/// Room for a text, which those of most asks don't outgrow.
const FIRST_ROOM: usize = 8192;

/// The text of the cost map of a network, cut to what is asked (RFC 7285, section 11.3.2.5; RFC 8189, section 4.1.3),
/// with no space, written without a tree.
///
/// For each ordinal type one walk over its metric's rows and one sort of their costs. For each source that is asked for
/// and each type that is asked for or tested one search for the source, and one look for each destination where
/// the source before has the same destinations. Where all destinations are asked for, also one walk over the source's
/// rows.
pub fn filter_cost_text<R: RowStore>(
    alloc: Global,
    rows: &R,
    tables: &CostTables,
    net: &NetName,
    ask: &CostAsk,
) -> Result<Vec<u8>, AllocError>
    requires good { AreGood (R.rows rows.now) }
    requires costs { AreCostsOf (R.rows rows.now) tables.now }
    ensures { IfOk result (λ bytes. bytes.items ≡ compact_text (filtered_costs (R.rows rows.now) net.now ask.now)) }
{
    let mut text = TextBuffer::with_room(alloc, FIRST_ROOM)?;
    text.push(b"{\"cost-map\":")?;
    push_section(alloc, rows, tables, net, ask, &mut text)?;
    text.push(b",")?;
    let mut out = Writer::new(text.into_bytes());
    write_meta(alloc, rows, net, ask, &mut out)?;
    let mut whole = out.into_inner();
    whole.push(b'}')?;
    Ok(whole)
}

/// Writes the meta with its name: the cost types, and the version tag of the network map.
fn write_meta<R: RowStore>(
    alloc: Global,
    rows: &R,
    net: &NetName,
    ask: &CostAsk,
    out: &mut Writer,
) -> Result<(), AllocError>
    ensures { OnOk result (AddsMember (codes "meta")
        (filtered_meta (R.rows rows.now) net.now ask.now) out.old out.new) }
{
    out.key("meta")?;
    out.begin_object()?;
    write_meta_members(alloc, rows, net, ask.multi, &ask.types, out)?;
    out.end_object()
}

/// Writes the members of the meta, the one first whose name is less.
fn write_meta_members<R: RowStore>(
    alloc: Global,
    rows: &R,
    net: &NetName,
    multi: bool,
    types: &[CostType],
    out: &mut Writer,
) -> Result<(), AllocError>
    ensures { OnOk result (AddsMembers (members_of ((types_name multi, types_data multi types.now)
        ∷ (codes "dependent-vtags", dependent_tags (R.rows rows.now) net.now) ∷ [])) out.old out.new) }
{
    if multi {
        write_dependent_tags(alloc, rows, net, out)?;
        return write_types(multi, types, out);
    }
    write_types(multi, types, out)?;
    write_dependent_tags(alloc, rows, net, out)
}

/// Puts the object of the groups.
fn push_section<R: RowStore>(
    alloc: Global,
    rows: &R,
    tables: &CostTables,
    net: &NetName,
    ask: &CostAsk,
    out: &mut TextBuffer,
) -> Result<(), AllocError>
    requires good { AreGood (R.rows rows.now) }
    requires costs { AreCostsOf (R.rows rows.now) tables.now }
    ensures { OnOk result (out.new ≡ out.old
        ++ compact_text (section_object (filtered_face (R.rows rows.now) net.now ask.now))) }
{
    let pairs = Pairs::new(
        alloc,
        rows,
        tables,
        net,
        &ask.types,
        &ask.tested,
        &ask.alternatives,
    )?;
    let pids = pids_unless_given(alloc, rows, net, &ask.srcs)?;
    let srcs = srcs_among(alloc, &pids, &ask.srcs)?;
    let given = names_given(alloc, &ask.dsts)?;
    out.push(b"{")?;
    push_groups(alloc, &pairs, ask.multi, &srcs, &given, out)
}

/// Puts the groups of those of these sources that have a pair, with the brace behind them.
fn push_groups<R: RowStore>(
    alloc: Global,
    pairs: &Pairs<R>,
    multi: bool,
    srcs: &[PidText],
    given: &Option<Vec<PidText>>,
    out: &mut TextBuffer,
) -> Result<(), AllocError>
    requires { AreSetIfAny (option_map (λ names. names.items) given.now) }
    ensures { OnOk result (out.new ≡ out.old ++ members_text false (members_in_order
        (valued (group_made multi (option_map (λ names. names.items) given.now) pairs.now) srcs.now))) }
{
    match given {
        Some(names) => push_given(alloc, pairs, multi, srcs, names, out),
        None => push_reached(alloc, pairs, multi, srcs, out),
    }
}

/// Puts them where the names of the destinations are given.
fn push_given<R: RowStore>(
    alloc: Global,
    pairs: &Pairs<R>,
    multi: bool,
    srcs: &[PidText],
    dsts: &[PidText],
    out: &mut TextBuffer,
) -> Result<(), AllocError>
    requires { IsStrictlySortedBy (slice_cmp nat_cmp) dsts.now }
    ensures { OnOk result (out.new ≡ out.old ++ members_text false (members_in_order
        (valued (group_made multi (Some dsts.now) pairs.now) srcs.now))) }
{
    let starts = starts_of(alloc, dsts)?;
    let between = pairs.between(alloc, srcs, dsts)?;
    let mut later = false;
    for (at, src) in srcs.iter().enumerate() {
        let found = between.from_source(at);
        later = push_group(multi, src.as_str(), &starts, &found, later, out)?;
    }
    out.push(b"}")?;
    Ok(())
}

/// Puts them with all destinations that a source reaches. Where these are those of the source before, the texts of
/// their names are used again.
fn push_reached<R: RowStore>(
    alloc: Global,
    pairs: &Pairs<R>,
    multi: bool,
    srcs: &[PidText],
    out: &mut TextBuffer,
) -> Result<(), AllocError>
    ensures { OnOk result (out.new ≡ out.old ++ members_text false (members_in_order
        (valued (group_made multi None pairs.now) srcs.now))) }
{
    let mut dsts = Destinations::none(alloc);
    let mut later = false;
    for src in srcs {
        dsts = dsts.renewed(pairs.reached(alloc, src)?)?;
        later = push_source(alloc, pairs, multi, src, &dsts, later, out)?;
    }
    out.push(b"}")?;
    Ok(())
}

/// Puts the pairs of one source with destinations as a member with its name, if it has any. Tells whether a member
/// stands before the next.
fn push_source<R: RowStore>(
    alloc: Global,
    pairs: &Pairs<R>,
    multi: bool,
    src: &PidText,
    dsts: &Destinations,
    later: bool,
    out: &mut TextBuffer,
) -> Result<bool, AllocError>
    ensures { IfOk result (λ after. PutsIfAny src.now
        (found_object multi dsts.now (map (pair_costs pairs.now src.now) dsts.now))
        later out.old after out.new) }
{
    let names = texts_of(alloc, dsts.names())?;
    let between = pairs.between(alloc, slice::from_ref(src), &names)?;
    let found = between.from_source(0);
    push_group(multi, src.as_str(), dsts.starts(), &found, later, out)
}
