use alto_keeper::KeepFault;
use batch_check::BookRule;
use std::alloc::{AllocError, AllocFailed};

/// Why no store was begun.
#[derive(Clone, Copy, Debug, PartialEq, Eq)]
pub enum InitFault {
    /// Something is stored already.
    Already,
    /// The keeper refused, and counted it.
    Keeper,
    /// Out of memory.
    Memory,
}

/// Why no book was opened of records.
#[derive(Clone, Copy, Debug, PartialEq, Eq)]
pub enum OpenFault {
    /// The keeper refused, and counted it.
    Keeper,
    /// The first row that isn't in its place, by the number that it should have: 0, and from that behind the base on.
    /// Its number is another, or its bytes aren't those of its place. 0 where there is no row.
    Damaged(u64),
    /// The first piece of the base that isn't in its place, or, where each is and more are wanted, how many there are.
    DamagedBase(u64),
    /// The base with 0, or else the first batch, that breaks a rule of the book, and the first rule that it breaks.
    BadBook(u64, BookRule),
    /// Out of memory.
    Memory,
}

/// Why a book wasn't trimmed.
#[derive(Clone, Copy, Debug, PartialEq, Eq)]
pub enum TrimFault {
    /// The keeper refused, and counted it.
    Keeper,
    /// Out of memory.
    Memory,
}

impl From<AllocError> for InitFault {
    ghost use Rattle.std.specs.Prelude.{◌≡◌};
    ghost use Rattle.alto_desk.specs.declared.fault.InitFault.TheVariants.{Memory};

    ghost from_gives = { λ _ fault. fault ≡ Memory };

    fn from(_: AllocError) -> InitFault {
        InitFault::Memory
    }
}

impl From<KeepFault> for InitFault {
    ghost use Rattle.std.specs.Prelude.{◌≡◌};
    ghost use Rattle.alto_desk.specs.Faults.{init_fault};

    ghost from_gives = { λ cause fault. fault ≡ init_fault cause };

    fn from(fault: KeepFault) -> InitFault {
        match fault {
            KeepFault::Failed => InitFault::Keeper,
            KeepFault::Memory => InitFault::Memory,
        }
    }
}

impl From<AllocError> for OpenFault {
    ghost use Rattle.std.specs.Prelude.{◌≡◌};
    ghost use Rattle.alto_desk.specs.declared.fault.OpenFault.TheVariants.{Memory};

    ghost from_gives = { λ _ fault. fault ≡ Memory };

    fn from(_: AllocError) -> OpenFault {
        OpenFault::Memory
    }
}

impl<T: Drop> From<AllocFailed<T>> for OpenFault {
    ghost use Rattle.std.specs.Prelude.{◌≡◌};
    ghost use Rattle.alto_desk.specs.declared.fault.OpenFault.TheVariants.{Memory};

    ghost from_gives = { λ _ fault. fault ≡ Memory };

    fn from(_: AllocFailed<T>) -> OpenFault {
        OpenFault::Memory
    }
}

impl From<KeepFault> for OpenFault {
    ghost use Rattle.std.specs.Prelude.{◌≡◌};
    ghost use Rattle.alto_desk.specs.Faults.{open_fault};

    ghost from_gives = { λ cause fault. fault ≡ open_fault cause };

    fn from(fault: KeepFault) -> OpenFault {
        match fault {
            KeepFault::Failed => OpenFault::Keeper,
            KeepFault::Memory => OpenFault::Memory,
        }
    }
}

impl From<AllocError> for TrimFault {
    ghost use Rattle.std.specs.Prelude.{◌≡◌};
    ghost use Rattle.alto_desk.specs.declared.fault.TrimFault.TheVariants.{Memory};

    ghost from_gives = { λ _ fault. fault ≡ Memory };

    fn from(_: AllocError) -> TrimFault {
        TrimFault::Memory
    }
}

impl From<KeepFault> for TrimFault {
    ghost use Rattle.std.specs.Prelude.{◌≡◌};
    ghost use Rattle.alto_desk.specs.Faults.{trim_fault};

    ghost from_gives = { λ cause fault. fault ≡ trim_fault cause };

    fn from(fault: KeepFault) -> TrimFault {
        match fault {
            KeepFault::Failed => TrimFault::Keeper,
            KeepFault::Memory => TrimFault::Memory,
        }
    }
}
