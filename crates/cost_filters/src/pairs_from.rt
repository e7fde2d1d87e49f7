//! The pairs from one source.
ghost use Rattle.std.specs.Prelude.{◌≡◌, ◌++◌, ◌∷◌, [], List, IfOk, OnOk, Some, false, is_some, map, option_map};
ghost use Rattle.std.specs.Prelude.{slice_get};
ghost use Rattle.std.specs.List.{list_any};
ghost use Rattle.serde_json.specs.Written.{compact_text, members_text};
ghost use Rattle.json_tree.specs.Tree.{members_in_order};
ghost use Rattle.alto_maps.specs.Shape.{Name};
ghost use Rattle.cost_filters.specs.Between.{one_cost, pairs_at};
ghost use Rattle.cost_filters.specs.Filter.{costs_data};
ghost use Rattle.cost_filters.specs.Pairs.{if_there};
ghost use Rattle.cost_filters.specs.Text.{PutsIfAny, member_start, shown_members};

use crate::pairs_between::PairsBetween;
use crate::starts::{MemberStarts, push_made};
use crate::text::push_cost;
use std::alloc::AllocError;
use std::marker::Model;
use text_buffer::TextBuffer;

/// The pairs from one source. A contract sees for each destination the costs by the asked types, in their order, `None`
/// where it is no pair.
#[derive(Drop)]
pub struct PairsFrom<'a, 'b> {
    found: Found<'a, 'b>,
}

#[derive(Drop)]
enum Found<'a, 'b> {
    /// Each has one cost, and that is told as it is.
    Costs(&'a [Option<u64>]),
    /// Those of the source at a place.
    At(&'a PairsBetween<'b>, usize),
}

impl<'a, 'b> Model for PairsFrom<'a, 'b> {
    ghost use Rattle.cost_filters.specs.Between.{Found};
    ghost use Rattle.cost_filters.specs.PairsFrom.{found_in};

    ghost Value = { Found };

    ghost view = { λ pairs. found_in pairs.found };
}

impl<'a, 'b> PairsFrom<'a, 'b> {
    /// Those with these costs.
    pub(crate) fn of_costs(costs: &'a [Option<u64>]) -> PairsFrom<'a, 'b>
        ensures { result ≡ map one_cost costs.now }
    {
        PairsFrom {
            found: Found::Costs(costs),
        }
    }

    /// Those of the source at a place.
    pub(crate) fn at(pairs: &'a PairsBetween<'b>, src: usize) -> PairsFrom<'a, 'b>
        ensures { result ≡ pairs_at pairs.now src }
    {
        PairsFrom {
            found: Found::At(pairs, src),
        }
    }
}

impl PairsFrom<'_, '_> {
    /// Whether there is one.
    pub fn has_pair(&self) -> bool
        ensures { result ≡ list_any (λ pair. is_some pair) self.now }
    {
        match &self.found {
            Found::Costs(costs) => has_cost(costs),
            Found::At(pairs, src) => pairs.has_pair(*src),
        }
    }

    /// Puts each of the destinations with which the source has a pair as a member, whose name was made by
    /// `MemberStarts`: with its costs as a list in the form of several, else with the one. Puts the brace behind them.
    pub(crate) fn push_members(
        &self,
        multi: bool,
        dsts: &MemberStarts,
        out: &mut TextBuffer,
    ) -> Result<(), AllocError>
        ensures { OnOk result ((names : List Name) → dsts.now ≡ map member_start names
            → out.new ≡ out.old
            ++ members_text false (members_in_order (shown_members multi names self.now))) }
    {
        match &self.found {
            Found::Costs(costs) => push_costs(multi, dsts, costs, out),
            Found::At(pairs, src) => pairs.push_members(multi, dsts, *src, out),
        }
    }
}

/// Puts each of the destinations to which there is a cost, with the brace behind them.
fn push_costs(
    multi: bool,
    dsts: &MemberStarts,
    costs: &[Option<u64>],
    out: &mut TextBuffer,
) -> Result<(), AllocError>
    ensures { OnOk result ((names : List Name) → dsts.now ≡ map member_start names
        → out.new ≡ out.old
        ++ members_text false (members_in_order (shown_members multi names (map one_cost costs.now)))) }
{
    let mut later = false;
    for at in 0..dsts.count() {
        later = push_one(multi, dsts.text(at), cost_at(costs, at), later, out)?;
    }
    out.push(b"}")?;
    Ok(())
}

/// The cost at a place.
fn cost_at(costs: &[Option<u64>], dst: usize) -> Option<u64>
    ensures { result ≡ if_there (slice_get costs.now dst) }
{
    *costs.get(dst)?
}

/// Whether there is a cost.
fn has_cost(costs: &[Option<u64>]) -> bool
    ensures { result ≡ list_any (λ cost. is_some cost) costs.now }
{
    costs.iter().any(|cost| cost.is_some())
}

/// Puts a cost as a member, if there is one.
fn push_one(
    multi: bool,
    start: &[u8],
    cost: Option<u64>,
    later: bool,
    out: &mut TextBuffer,
) -> Result<bool, AllocError>
    ensures { IfOk result (λ after. (name : Name) → start.now ≡ member_start name
        → PutsIfAny name (option_map (costs_data multi) (one_cost cost)) later out.old after out.new) }
{
    if cost.is_none() {
        return Ok(later);
    }
    push_made(start, later, out)?;
    push_costs_of_one(multi, cost, out)?;
    Ok(true)
}

/// Puts one cost: in the form of several as a list.
fn push_costs_of_one(multi: bool, cost: Option<u64>, out: &mut TextBuffer) -> Result<(), AllocError>
    ensures { OnOk result (out.new ≡ out.old ++ compact_text (costs_data multi (cost ∷ []))) }
{
    if !multi {
        return push_cost(cost, out);
    }
    out.push(b"[")?;
    push_cost(cost, out)?;
    out.push(b"]")?;
    Ok(())
}
