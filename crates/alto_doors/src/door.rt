ghost use Rattle.std.specs.Prelude.{◌≡◌, true, false, None, List, Option, IfOk, IsSome, OnErr, option_to_list};
ghost use Rattle.alto_addr.specs.declared.addr.Addr.{Addr};
ghost use Rattle.alto_doors.specs.Door.{HasNone, accepted, followed_by, given_back};
ghost use Rattle.alto_doors.specs.declared.state.DoorState.{DoorState};

use alto_addr::Addr;
use alto_http::{Failed, Link};
use alto_serve::Served;

/// Gives connections one after another, each once the one before was served. It may fail, and counts how often it has.
/// Of a door in memory the connections are known; of a listener they are not.
pub trait Door {
    /// The connections that come through it.
    type Link: Link + Drop;

    /// The connections that it has still to give, each with its client's address where that is known.
    ghost left: { Self → Option (List (Self.Link × Option Addr)) };

    /// What has happened to it since it was opened.
    ghost state: { Self → DoorState };

    /// Gives the next connection, with its client's address where that is known. None comes once none is left, the door
    /// being closed for good. A failure is counted.
    fn accept(&mut self) -> Result<Option<(Self::Link, Option<Addr>)>, Failed>
        requires none_out { (state self.old).is_out ≡ false }

        ensures given { IfOk result (λ given. left self.old ≡ followed_by (option_to_list given) (left self.new)) }
        ensures at_end { IfOk result (λ given. given ≡ None → HasNone (left self.old)) }
        ensures for_good { IfOk result (λ given. IsSome given → (state self.old).has_ended ≡ false) }
        ensures refused { OnErr result (left self.new ≡ left self.old) }

        ensures noted { state self.new ≡ accepted result (state self.old) };

    /// Takes back the link that is out, once its connection was served.
    fn give_back(&mut self, served: Served<Self::Link>)
        requires one_out { (state self.old).is_out ≡ true }

        ensures left { left self.new ≡ left self.old }
        ensures noted { state self.new ≡ given_back (state self.old) };
}
