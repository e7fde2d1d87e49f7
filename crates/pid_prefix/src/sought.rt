ghost use Rattle.std.specs.Prelude.{◌≡◌, ◌+◌, ◌≤◌, ◌↔◌, IsTrue};

use crate::number::Number;
use crate::steps::Steps;
use std::marker::Model;
use std::sync::ledger::Ledger;

/// A number that is looked up among ranges. Nothing compares it but its comparison, which is a step.
#[derive(Drop)]
pub(crate) struct Sought<N: Number> {
    number: N,
}

impl<N: Number> Model for Sought<N> {
    ghost use Rattle.std.specs.Prelude.{ℕ};

    ghost Value = { ℕ };

    ghost view = { λ sought. N.value sought.number };
}

impl<N: Number> Sought<N> {
    pub(crate) fn new(number: N) -> Sought<N>
        ensures { result ≡ N.value number }
    {
        Sought { number }
    }

    /// Whether the first is at or before the number. It is a step.
    pub(crate) fn is_at_or_past<L: Ledger>(&self, first: &N, steps: &mut Steps<L>) -> bool
        ensures answer { IsTrue result ↔ (N.value first.now ≤ self.now) }
        ensures counted { steps.new ≡ steps.old + 1 }
    {
        steps.tick();
        first.is_at_or_before(&self.number)
    }

    /// The number, for its leading bits.
    pub(crate) fn number(&self) -> &N
        ensures { N.value result.now ≡ self.now }
    {
        &self.number
    }
}
