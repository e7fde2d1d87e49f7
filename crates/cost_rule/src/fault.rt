use std::error::Error;
use std::fmt;

/// Why a text is no constraint.
#[derive(Clone, Copy, Debug, PartialEq, Eq)]
pub enum ConstraintFault {
    /// So many bytes from its beginning could still have been continued to a constraint, and no more.
    BadAt(usize),
}

impl fmt::Display for ConstraintFault {
    ghost use Rattle.std.specs.Prelude.{Some};
    ghost use Rattle.cost_rule.specs.Beginning.{fault_text};

    ghost output = { λ fault. Some (fault_text fault) };

    fn fmt<W: fmt::Write>(&self, f: &mut fmt::Formatter<W>) -> fmt::Result {
        let ConstraintFault::BadAt(place) = self;
        write!(f, "no constraint, from place {place} on")
    }
}

impl Error for ConstraintFault {}
