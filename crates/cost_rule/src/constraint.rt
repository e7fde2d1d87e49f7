ghost use Rattle.std.specs.Prelude.{◌↔◌, IsTrue};
ghost use Rattle.cost_rule.specs.Meaning.{Holds};

/// How a cost has to stand to the bound of a constraint.
#[derive(Clone, Copy, Debug, PartialEq, Eq)]
pub enum Relation {
    /// `gt`: above the bound.
    Gt,
    /// `lt`: below the bound.
    Lt,
    /// `ge`: at the bound or above it.
    Ge,
    /// `le`: at the bound or below it.
    Le,
    /// `eq`: at the bound.
    Eq,
}

/// A bound on a cost (RFC 7285, section 11.3.2.3; RFC 8189 has the index).
#[derive(Clone, Copy, Debug, PartialEq, Eq)]
pub struct Constraint {
    /// Which of the tested costs is meant, from 0. None means the first.
    pub index: Option<u8>,
    /// How the cost has to stand to the bound.
    pub relation: Relation,
    /// The bound, in millionths of a unit of cost.
    pub millionths: u128,
}

/// Whether the constraint holds of a cost, in whole units. It is exact.
pub fn holds(constraint: &Constraint, cost: u64) -> bool
    ensures { IsTrue result ↔ Holds constraint.now cost }
{
    let millionths = 1_000_000 * u128::from(cost);
    match constraint.relation {
        Relation::Gt => millionths > constraint.millionths,
        Relation::Lt => millionths < constraint.millionths,
        Relation::Ge => millionths >= constraint.millionths,
        Relation::Le => millionths <= constraint.millionths,
        Relation::Eq => millionths == constraint.millionths,
    }
}
