use std::alloc::AllocError;

/// Why no door was opened.
#[derive(Clone, Copy, Debug, PartialEq, Eq)]
pub enum DoorFault {
    /// The doors failed, and counted it.
    Failed,
    /// Out of memory.
    Memory,
}

impl From<AllocError> for DoorFault {
    ghost use Rattle.std.specs.Prelude.{◌≡◌};
    ghost use Rattle.alto_doors.specs.declared.fault.DoorFault.TheVariants.{Memory};

    ghost from_gives = { λ _ fault. fault ≡ Memory };

    fn from(_: AllocError) -> DoorFault {
        DoorFault::Memory
    }
}
