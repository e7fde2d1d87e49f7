ghost use Rattle.std.specs.Prelude.{◌≡◌, is_err};
ghost use Rattle.alto_doors.specs.Door.{has_failed};
ghost use Rattle.alto_doors.specs.Doors.{at_first, closed, open_failed};

use crate::fault::DoorFault;
use crate::state::DoorState;
use alto_http::Failed;

/// What doors have counted. Each count stops at the last number of 64 bits.
#[derive(Clone, Copy, Debug, PartialEq, Eq)]
pub struct DoorCounts {
    /// How many opens have failed, and how many doors had failed when they were closed.
    pub faults: u64,
    /// How many doors were served to their end.
    pub served: u64,
    /// How many opens have failed.
    pub failed_opens: u64,
}

impl DoorCounts {
    /// Nothing has happened yet.
    pub fn new() -> DoorCounts
        ensures { result ≡ at_first }
    {
        DoorCounts {
            faults: 0,
            served: 0,
            failed_opens: 0,
        }
    }

    /// Counts a failed open, and gives its fault.
    pub fn fail_open(&mut self) -> DoorFault
        ensures fault { result ≡ DoorFault.Failed }
        ensures counted { self.new ≡ open_failed self.old }
    {
        self.faults = self.faults.saturating_add(1);
        self.failed_opens = self.failed_opens.saturating_add(1);
        DoorFault::Failed
    }

    /// Counts a door in this state that is closed. Fails where the door has failed.
    pub fn close(&mut self, door: DoorState) -> Result<(), Failed>
        ensures failed { is_err result ≡ has_failed door }
        ensures counted { self.new ≡ closed door self.old }
    {
        if door.is_served() {
            self.served = self.served.saturating_add(1);
        }
        if door.faults > 0 {
            self.faults = self.faults.saturating_add(1);
            return Err(Failed);
        }
        Ok(())
    }
}
