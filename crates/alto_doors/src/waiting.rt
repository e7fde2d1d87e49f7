ghost use Rattle.std.specs.Prelude.{◌≡◌};
ghost use Rattle.alto_doors.specs.Door.{just_opened};

use crate::key::DoorKey;
use crate::mem_door::MemDoor;
use alto_answers::Side;

/// A door that waits to be opened at a side and an address.
#[derive(Drop)]
pub(crate) struct Waiting<L> {
    key: DoorKey,
    door: MemDoor<L>,
    ghost fresh: { door.state ≡ just_opened },
}

impl<L> Waiting<L> {
    ghost use Rattle.alto_doors.specs.MemDoors.{waits_at};

    /// A door that was just opened waits at a side and an address.
    pub(crate) fn new(key: DoorKey, door: MemDoor<L>) -> Waiting<L>
        requires fresh { door.state ≡ just_opened }
        ensures key { result.key ≡ key }
        ensures door { result.door ≡ door }
    {
        Waiting { key, door }
    }

    /// Whether it waits at this side and address.
    pub(crate) fn is_at(&self, side: Side, address: &str) -> bool
        ensures { result ≡ waits_at side address.now self.now }
    {
        self.key.is(side, address)
    }

    /// The door.
    pub(crate) fn into_door(self) -> MemDoor<L>
        ensures door { result ≡ self.door }
        ensures fresh { result.state ≡ just_opened }
    {
        let Waiting { key: _, door } = self;
        door
    }
}
