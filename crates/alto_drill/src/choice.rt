ghost use Rattle.std.specs.Prelude.{◌≡◌};
ghost use Rattle.alto_drill.specs.Draws.{state_after};
ghost use Rattle.alto_drill.specs.Imports.{choice_from};

use crate::draws::Draws;

/// What an import from the second on puts, PIDs by their numbers.
#[derive(Clone, Copy, Debug, PartialEq, Eq)]
pub(crate) struct Choice {
    /// The PID that gets the prefix.
    pub(crate) owner: u64,
    /// The PID that the cost is from.
    pub(crate) source: u64,
    /// The PID that the cost is to.
    pub(crate) destination: u64,
    /// The cost.
    pub(crate) cost: u64,
    /// The PID that gets the property.
    pub(crate) holder: u64,
    /// The property's value.
    pub(crate) color: u64,
}

/// The choice that the next six draws make.
#[tactic(auto, unfolding(crate::specs::Draws::state_after, crate::specs::Draws::draw, crate::specs::Imports::choice_from))]
pub(crate) fn next_choice(draws: &mut Draws) -> Choice
    ensures choice { result ≡ choice_from draws.old.state }
    ensures state { draws.new.state ≡ state_after draws.old.state 6 }
{
    let owner = draws.next() % 8;
    let source = draws.next() % 8;
    let destination = draws.next() % 8;
    let cost = draws.next() % 1_000;
    let holder = draws.next() % 8;
    let color = draws.next() % 1_000;
    Choice {
        owner,
        source,
        destination,
        cost,
        holder,
        color,
    }
}
