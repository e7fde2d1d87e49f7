ghost use Rattle.std.specs.Prelude.{◌≡◌, ◌+◌, ◌-◌, ◌*◌, ◌^◌, ◌<◌, ◌≤◌, IfOk, length, map, option_copied};
ghost use Rattle.std.specs.List.Sorted.{IsNonDecreasingBy, IsPartitionPoint};
ghost use Rattle.pid_prefix.specs.Ranges.{below};
ghost use Rattle.pid_prefix.specs.Index.{EndsIn};
ghost use Rattle.pid_prefix.specs.PidRanges.{with_pid};
ghost use Rattle.pid_prefix.specs.PidRanges as spec;

use crate::index::Index;
use crate::number::Number;
use crate::pids::Pids;
use crate::range::Range;
use crate::sought::Sought;
use crate::steps::Steps;
use alto_addr::Prefix;
use alto_names::PidName;
use std::alloc::{AllocError, Global};
use std::hint::select_unpredictable;
use std::marker::Model;
use std::sync::ledger::Ledger;

/// Ranges with their PIDs, kept for a search: it reads their firsts alone, which stand apart from the PIDs, in as few
/// bytes as the family's addresses take; and then one PID. A contract sees the list of firsts, each with its PID.
#[derive(Drop)]
pub(crate) struct Ranges<N: Number> {
    firsts: Vec<N>,
    index: Index,
    pids: Pids,
}

impl<N: Number> Model for Ranges<N> {
    ghost use Rattle.std.specs.Prelude.{◌≡◌, List, length, map};
    ghost use Rattle.std.specs.List.{zip};
    ghost use Rattle.std.specs.List.Sorted.{IsNonDecreasingBy};
    ghost use Rattle.pid_prefix.specs.Index.{IsIndexOf};
    ghost use Rattle.pid_prefix.specs.PidRanges.{PidRange};

    ghost Value = { List PidRange };

    ghost view = { λ ranges. zip (map N.value ranges.firsts.items) ranges.pids };

    ghost invariant = { λ ranges. (length ranges.firsts.items ≡ length ranges.pids)
        × (IsNonDecreasingBy N.value ranges.firsts.items → IsIndexOf N.value ranges.firsts.items ranges.index) };
}

impl<N: Number> Ranges<N> {
    /// The ranges with the PIDs of their rows, shared, without those that begin past the family's addresses.
    pub(crate) fn narrowed(
        alloc: Global,
        ranges: &[Range],
        rows: &[(Prefix, PidName)],
    ) -> Result<Ranges<N>, AllocError>
        ensures { IfOk result (λ kept. kept ≡ map (with_pid rows.now) (below N.limit ranges.now)) }
    {
        let mut firsts = Vec::with_capacity(alloc, ranges.len())?;
        let mut pids = Vec::with_capacity(alloc, ranges.len())?;
        for range in ranges {
            if let Some(first) = N::narrowed(range.first) {
                firsts.push(first)?;
                pids.push(row_pid(rows, range.row)?)?;
            }
        }
        let pids = Pids::packed(alloc, &pids)?;
        let index = Index::of(alloc, &firsts)?;
        Ok(Ranges {
            firsts,
            index,
            pids,
        })
    }

    /// The PID of the last range that begins at or before the number.
    pub(crate) fn pid_at<L: Ledger>(
        &self,
        sought: &Sought<N>,
        steps: &mut Steps<L>,
    ) -> Option<&PidName>
        requires { IsNonDecreasingBy (λ range. range.0) self.now }
        ensures pid { option_copied result ≡ spec.pid_at self.now sought.now }
        ensures counted { steps.old ≤ steps.new }
        ensures cost { 2 ^ (steps.new - steps.old) ≤ 2 * length self.now + 1 }
    {
        let (begun, left) = self.index.part(self.firsts.len(), sought);
        let last = count_begun(&self.firsts, begun, left, sought, steps).checked_sub(1)?;
        self.pids.at(last)
    }
}

/// The PID of the row at the place, shared, if there is one.
fn row_pid(rows: &[(Prefix, PidName)], place: Option<usize>) -> Result<Option<PidName>, AllocError>
    ensures { IfOk result (λ pid. pid ≡ spec.row_pid rows.now place) }
{
    match place.and_then(|place| rows.get(place)) {
        Some(row) => Ok(Some(row.1.clone()?)),
        None => Ok(None),
    }
}

/// How many of the rising numbers are at or before the one that is sought, which end in a part of them. The part where
/// the last of them may be is halved at each step, whatever the comparison says.
fn count_begun<N: Number, L: Ledger>(
    firsts: &[N],
    from: usize,
    count: usize,
    sought: &Sought<N>,
    steps: &mut Steps<L>,
) -> usize
    requires rise { IsNonDecreasingBy N.value firsts.now }
    requires part { EndsIn N.value firsts.now sought.now from count }
    ensures within { result ≤ length firsts.now }
    ensures begun { IsPartitionPoint (λ first. N.value first ≤ sought.now) (λ first. sought.now < N.value first)
        firsts.now result }
    ensures counted { steps.old ≤ steps.new }
    ensures cost { 2 ^ (steps.new - steps.old) ≤ 2 * length firsts.now + 1 }
{
    let mut begun = from;
    let mut left = count;
    while left > 0 {
        let half = left / 2;
        let is_begun = sought.is_at_or_past(&firsts[begun + half], steps);
        begun = select_unpredictable(is_begun, begun + (left - half), begun);
        left = half;
    }
    begun
}
