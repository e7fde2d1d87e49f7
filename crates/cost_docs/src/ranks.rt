ghost use Rattle.std.specs.Prelude.{◌≡◌, IfOk, map};
ghost use Rattle.alto_rows.specs.Good.{AreGood};
ghost use Rattle.cost_docs.specs.Ordinal.{distinct, distinct_costs, rank_among};

use crate::costs::{Cost, costs_within};
use alto_names::{Metric, NetName};
use alto_rows::{RowStore, Span};
use std::alloc::{AllocError, Global};
use std::collections::BTreeSet;
use std::marker::Model;

/// The distinct costs of a metric, the lowest first, among which a cost has its rank. A contract sees the list.
#[derive(Drop)]
pub struct Ranks {
    costs: Vec<u64>,
}

impl Model for Ranks {
    ghost use Rattle.std.specs.Prelude.{ℕ, List};
    ghost use Rattle.std.specs.List.Sorted.{IsStrictlySortedBy};
    ghost use Rattle.std.specs.Ordering.{nat_cmp};

    ghost Value = { List ℕ };

    ghost view = { λ ranks. ranks.costs.items };

    ghost invariant = { λ ranks. IsStrictlySortedBy nat_cmp ranks.costs.items };
}

impl Ranks {
    /// Those of a metric. Costs one walk over its rows and one sort of their costs.
    pub fn of<R: RowStore>(
        alloc: Global,
        rows: &R,
        net: &NetName,
        metric: &Metric,
    ) -> Result<Ranks, AllocError>
        requires { AreGood (R.rows rows.now) }
        ensures { IfOk result (λ ranks. ranks ≡ distinct_costs (R.rows rows.now) net.now metric.now) }
    {
        let costs = costs_within(alloc, rows, Span::CostsIn(net.clone()?, metric.clone()?))?;
        let costs = distinct_amounts(alloc, &costs)?;
        Ok(Ranks { costs })
    }

    /// The rank of a cost among them, from 1. One search.
    pub fn rank(&self, cost: u64) -> u64
        ensures { result ≡ rank_among self.now cost }
    {
        self.costs.partition_point(|other| *other < cost) as u64 + 1
    }
}

/// The distinct amounts of costs, the lowest first.
fn distinct_amounts(alloc: Global, costs: &[Cost]) -> Result<Vec<u64>, AllocError>
    ensures { IfOk result (λ amounts. amounts.items ≡ distinct (map (λ cost. cost.amount) costs.now)) }
{
    let mut amounts = BTreeSet::new(alloc);
    for cost in costs {
        amounts.insert(cost.amount)?;
    }
    amounts.into_iter().collect(alloc)
}
