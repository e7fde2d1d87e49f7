ghost use Rattle.std.specs.Prelude.{◌↔◌, IsTrue, map};
ghost use Rattle.cost_rule.specs.Meaning.{AllHold, HoldsOf, OneHolds};

use crate::constraint::{Constraint, holds};

/// Whether all of the constraints hold of a pair with these costs, which stand by index: None where the pair has none.
pub fn all_hold(constraints: &[Constraint], costs: &[Option<u64>]) -> bool
    ensures { IsTrue result ↔ AllHold costs.now constraints.now }
{
    constraints
        .iter()
        .all(|constraint| holds_of(constraint, costs))
}

/// Whether all constraints of at least one of the lists hold of a pair with these costs.
pub fn one_holds(alternatives: &[Vec<Constraint>], costs: &[Option<u64>]) -> bool
    ensures { IsTrue result
        ↔ OneHolds costs.now (map (λ constraints. constraints.items) alternatives.now) }
{
    for constraints in alternatives {
        if all_hold(constraints, costs) {
            return true;
        }
    }
    false
}

/// Whether the constraint holds of the cost at its index. Where there is none it doesn't.
fn holds_of(constraint: &Constraint, costs: &[Option<u64>]) -> bool
    ensures { IsTrue result ↔ HoldsOf costs.now constraint.now }
{
    let index = constraint.index.unwrap_or(0);
    match costs.get(usize::from(index)) {
        Some(Some(cost)) => holds(constraint, *cost),
        _ => false,
    }
}
