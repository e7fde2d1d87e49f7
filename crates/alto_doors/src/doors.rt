ghost use Rattle.std.specs.Prelude.{◌≡◌, IfOk, is_err};
ghost use Rattle.alto_doors.specs.Door.{has_failed, just_opened};
ghost use Rattle.alto_doors.specs.Doors.{closed, opened};
ghost use Rattle.alto_doors.specs.declared.counts.DoorCounts.{DoorCounts};

use crate::door::Door;
use crate::fault::DoorFault;
use alto_answers::Side;
use alto_http::{Failed, Link};
use std::alloc::Global;

/// Opens doors by a side and an address, and closes them. It counts its faults, the doors that were served to their
/// end, and the opens that failed.
pub trait Doors {
    /// The connections that come through its doors.
    type Link: Link + Drop;

    /// A door, while it is open.
    type Door: Door<Link = Self::Link> + Drop;

    /// What it has counted.
    ghost counts: { Self → DoorCounts };

    /// Opens a door at an address, through which a side is asked.
    fn open(&mut self, alloc: Global, side: Side, address: &str) -> Result<Self::Door, DoorFault>
        ensures fresh { IfOk result (λ door. Self.Door.state door ≡ just_opened) }
        ensures counted { counts self.new ≡ opened result (counts self.old) };

    /// Closes a door. Fails exactly where the door has counted a fault. Takes no memory.
    fn close(&mut self, door: Self::Door) -> Result<(), Failed>
        ensures failed { is_err result ≡ has_failed (Self.Door.state door) }
        ensures counted { counts self.new ≡ closed (Self.Door.state door) (counts self.old) };
}
