ghost use Rattle.std.specs.Prelude.{◌≡◌, ◌++◌, ◌∷◌, [], List, false, IfOk, IfSome, OnOk, is_some, map, option_map};
ghost use Rattle.std.specs.Prelude.{slice_get, unwrap_or};
ghost use Rattle.std.specs.List.{list_any};
ghost use Rattle.serde_json.specs.Written.{members_text};
ghost use Rattle.json_tree.specs.Tree.{members_in_order};
ghost use Rattle.alto_maps.specs.Shape.{Name};
ghost use Rattle.cost_filters.specs.Between.{columns_at, flag_at, is_flagged, one_cost, pairs_at, rows_shown};
ghost use Rattle.cost_filters.specs.Filter.{costs_data};
ghost use Rattle.cost_filters.specs.Pairs.{if_there};
ghost use Rattle.cost_filters.specs.Text.{PutsIfAny, member_start, shown_members};

use crate::column_between::{ColumnBetween, has_cost, push_costs};
use crate::pairs_from::PairsFrom;
use crate::starts::{MemberStarts, push_made};
use std::alloc::AllocError;
use std::marker::Model;
use text_buffer::TextBuffer;

/// The pairs between sources and destinations. A contract sees a list for each source: for each destination the costs
/// by the asked types, in their order, `None` where it is no pair.
#[derive(Drop)]
pub struct PairsBetween<'a> {
    costs: Vec<ColumnBetween<'a>>,
    shown: Shown,
    sources: usize,
    destinations: usize,
}

/// Which costs make a pair.
#[derive(Drop)]
pub(crate) enum Shown {
    /// All of sources and destinations that have a cost.
    WithCost,
    /// Those for which it is true, by source.
    Flagged(Vec<Vec<bool>>),
}

impl<'a> Model for PairsBetween<'a> {
    ghost use Rattle.std.specs.Prelude.{ℕ, List, Option};
    ghost use Rattle.cost_filters.specs.Between.{Found, rows_shown};

    ghost Value = { List Found };

    ghost view = { λ pairs. rows_shown pairs.costs.items pairs.shown pairs.sources pairs.destinations };
}

impl<'a> PairsBetween<'a> {
    /// Those with these costs, where they are shown.
    pub(crate) fn new(
        costs: Vec<ColumnBetween<'a>>,
        shown: Shown,
        sources: usize,
        destinations: usize,
    ) -> PairsBetween<'a>
        ensures { result ≡ rows_shown costs.entry.items shown sources destinations }
    {
        PairsBetween {
            costs,
            shown,
            sources,
            destinations,
        }
    }
}

impl<'a> PairsBetween<'a> {
    /// The pairs from the source at a place.
    pub fn from_source(&self, src: usize) -> PairsFrom<'_, 'a>
        ensures { result ≡ pairs_at self.now src }
    {
        match self.single_costs(src) {
            Some(costs) => PairsFrom::of_costs(costs),
            None => PairsFrom::at(self, src),
        }
    }

    /// The costs from a source, where one type is asked for, no ranks of it, and no constraint tests a pair.
    fn single_costs(&self, src: usize) -> Option<&[Option<u64>]>
        ensures { IfSome result (λ costs. pairs_at self.now src ≡ map one_cost costs.now) }
    {
        let Shown::WithCost = &self.shown else {
            return None;
        };
        let costs = only_costs(&self.costs, src)?;
        if src < self.sources && costs.len() == self.destinations {
            Some(costs)
        } else {
            None
        }
    }

    /// Whether the source at a place has a pair.
    pub(crate) fn has_pair(&self, src: usize) -> bool
        ensures { result ≡ list_any (λ pair. is_some pair) (pairs_at self.now src) }
    {
        for dst in 0..self.destinations {
            if self.is_pair(src, dst) {
                return true;
            }
        }
        false
    }

    /// Whether the source and the destination at these places are one.
    pub(crate) fn is_pair(&self, src: usize, dst: usize) -> bool
        ensures { result ≡ is_some (if_there (slice_get (pairs_at self.now src) dst)) }
    {
        if src >= self.sources {
            return false;
        }
        if dst >= self.destinations {
            return false;
        }
        is_shown(&self.costs, &self.shown, src, dst)
    }

    /// Puts each of the destinations with which the source at a place has a pair as a member, with the brace behind
    /// them.
    pub(crate) fn push_members(
        &self,
        multi: bool,
        dsts: &MemberStarts,
        src: usize,
        out: &mut TextBuffer,
    ) -> Result<(), AllocError>
        ensures { OnOk result ((names : List Name) → dsts.now ≡ map member_start names
            → out.new ≡ out.old
            ++ members_text false (members_in_order (shown_members multi names (pairs_at self.now src)))) }
    {
        let mut later = false;
        for at in 0..dsts.count() {
            later = self.push_pair(multi, dsts.text(at), src, at, later, out)?;
        }
        out.push(b"}")?;
        Ok(())
    }

    /// Puts the costs of the source and the destination at these places as a member, if they are a pair, whose name was
    /// made by `MemberStarts`: in the form of several a list, else the one. Tells whether a member stands before the
    /// next.
    fn push_pair(
        &self,
        multi: bool,
        start: &[u8],
        src: usize,
        dst: usize,
        later: bool,
        out: &mut TextBuffer,
    ) -> Result<bool, AllocError>
        ensures { IfOk result (λ after. (name : Name) → start.now ≡ member_start name
            → PutsIfAny name (option_map (costs_data multi) (if_there (slice_get (pairs_at self.now src) dst)))
            later out.old after out.new) }
    {
        if !self.is_pair(src, dst) {
            return Ok(later);
        }
        push_made(start, later, out)?;
        push_costs(&self.costs, multi, src, dst, out)?;
        Ok(true)
    }
}

/// The costs from a source in the only column, where they are told as they are.
fn only_costs<'c>(columns: &'c [ColumnBetween], src: usize) -> Option<&'c [Option<u64>]>
    ensures { IfSome result (λ costs. columns_at src columns.now ≡ costs.now ∷ []) }
{
    if columns.len() != 1 {
        return None;
    }
    match columns.first() {
        Some(column) => column.unscaled(src),
        None => None,
    }
}

/// Whether the costs between a source and a destination at these places make a pair.
fn is_shown(costs: &[ColumnBetween], shown: &Shown, src: usize, dst: usize) -> bool
    ensures { result ≡ is_flagged costs.now shown.now src dst }
{
    match shown {
        Shown::WithCost => has_cost(costs, src, dst),
        Shown::Flagged(flags) => flag_at(flags, src, dst),
    }
}

fn flag_at(flags: &[Vec<bool>], src: usize, dst: usize) -> bool
    ensures { result ≡ flag_at (map (λ row. row.items) flags.now) src dst }
{
    match flags.get(src) {
        Some(row) => is_set(row, dst),
        None => false,
    }
}

fn is_set(flags: &[bool], at: usize) -> bool
    ensures { result ≡ unwrap_or (slice_get flags.now at) false }
{
    match flags.get(at) {
        Some(flag) => *flag,
        None => false,
    }
}
