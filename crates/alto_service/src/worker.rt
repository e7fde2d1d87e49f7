ghost use Rattle.std.specs.Prelude.{◌≡◌, false, true};
ghost use Rattle.alto_doors.specs.Door.{is_served};

use crate::doors::SideDoor;
use alto_doors::{Door, serve_door};
use alto_serve::{Clock, Office, Side};
use std::alloc::Global;
use std::sync::Wait;

/// What serves the connections of one door, by an office of its own.
#[derive(Drop)]
pub(crate) struct Worker<F, D> {
    pub office: F,
    pub door: D,
    pub side: Side,
}

impl<F, D> Worker<F, D> {
    /// A worker at a door, with an office.
    pub(crate) fn new(office: F, at: SideDoor<D>) -> Worker<F, D>
        ensures { result.door ≡ at.door }
    {
        let SideDoor { door, side } = at;
        Worker { office, door, side }
    }
}

impl<F: Office, D: Door> Worker<F, D> {
    /// Serves the door to its end.
    pub(crate) fn serve<H: Wait, C: Clock>(&mut self, rt: &H, alloc: Global, clock: &C, turns: u32)
        requires { (D.state self.old.door).is_out ≡ false }
        ensures { is_served (D.state self.new.door) ≡ true }
    {
        serve_door(
            rt,
            alloc,
            &mut self.office,
            &mut self.door,
            clock,
            self.side,
            turns,
        );
    }
}
