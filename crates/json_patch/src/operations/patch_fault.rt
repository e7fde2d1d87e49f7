use std::alloc::{AllocError, AllocFailed};
use std::error::Error;
use std::fmt;

/// Why operations aren't applied (RFC 6902, section 5). Operations are counted from 0.
#[derive(Clone, Copy, Debug, PartialEq, Eq)]
pub enum PatchFault {
    /// The operation of this number adds where some parent on its path is no object.
    NoParent(usize),
    /// The operation of this number removes or replaces what isn't there.
    NoTarget(usize),
    /// The memory couldn't be had.
    Memory,
}

impl From<AllocError> for PatchFault {
    ghost use Rattle.std.specs.Prelude.{◌≡◌};
    ghost use Rattle.json_patch.specs.declared.operations.patch_fault.PatchFault.TheVariants.{Memory};

    ghost from_gives = { λ _ fault. fault ≡ Memory };

    fn from(_: AllocError) -> PatchFault {
        PatchFault::Memory
    }
}

impl<T: Drop> From<AllocFailed<T>> for PatchFault {
    ghost use Rattle.std.specs.Prelude.{◌≡◌};
    ghost use Rattle.json_patch.specs.declared.operations.patch_fault.PatchFault.TheVariants.{Memory};

    ghost from_gives = { λ _ fault. fault ≡ Memory };

    fn from(_: AllocFailed<T>) -> PatchFault {
        PatchFault::Memory
    }
}

impl fmt::Display for PatchFault {
    ghost use Rattle.std.specs.Prelude.{Some};
    ghost use Rattle.json_patch.specs.Faults.{patch_fault_text};

    ghost output = { λ fault. Some (patch_fault_text fault) };

    fn fmt<W: fmt::Write>(&self, f: &mut fmt::Formatter<W>) -> fmt::Result {
        match self {
            PatchFault::NoParent(k) => write!(f, "operation {k} adds where no object is"),
            PatchFault::NoTarget(k) => write!(f, "operation {k} has no target"),
            PatchFault::Memory => write!(f, "out of memory"),
        }
    }
}

impl Error for PatchFault {}
