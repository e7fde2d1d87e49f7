ghost use Rattle.std.specs.Prelude.{◌≡◌};
ghost use Rattle.code_bytes.specs.declared.stop.Stop.TheVariants.{Memory};

use std::alloc::{AllocError, AllocFailed};

/// Why a reader of a piece stops.
#[derive(Clone, Copy, Debug, PartialEq, Eq, Drop)]
pub enum Stop {
    /// The bytes leave the grammar: so many are left behind their longest prefix that begins a spelling. Since it
    /// counts from the end, it is the same for a reader of the piece and for one of all bytes.
    Left(usize),
    /// Out of memory.
    Memory,
}

impl From<AllocError> for Stop {
    ghost from_gives = { λ _ stop. stop ≡ Memory };

    fn from(_: AllocError) -> Stop {
        Stop::Memory
    }
}

impl<T: Drop> From<AllocFailed<T>> for Stop {
    ghost from_gives = { λ _ stop. stop ≡ Memory };

    fn from(_: AllocFailed<T>) -> Stop {
        Stop::Memory
    }
}
