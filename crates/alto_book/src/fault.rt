use alto_edits::{CompileFault, Rule};
use std::alloc::{AllocError, AllocFailed};
use std::error::Error;
use std::fmt;

/// Why an import isn't accepted.
#[derive(Clone, Copy, Debug, PartialEq, Eq)]
pub enum EditFault {
    /// The batch of this number has the import's id and another body.
    OtherBody {
        /// The batch's number.
        n: u64,
    },
    /// The edit of this number, from 1, breaks this rule; row 0 stands for the batch as a whole.
    Broken {
        /// The edit's number.
        row: u64,
        /// The rule.
        rule: Rule,
    },
    /// The records of the batches couldn't be kept. No import's acceptance gives it, only an office whose records fail.
    Keeper,
    /// The memory couldn't be had.
    Memory,
}

impl From<AllocError> for EditFault {
    ghost use Rattle.std.specs.Prelude.{◌≡◌};
    ghost use Rattle.alto_book.specs.declared.fault.EditFault.TheVariants.{Memory};

    ghost from_gives = { λ _ fault. fault ≡ Memory };

    fn from(_: AllocError) -> EditFault {
        EditFault::Memory
    }
}

impl<T: Drop> From<AllocFailed<T>> for EditFault {
    ghost use Rattle.std.specs.Prelude.{◌≡◌};
    ghost use Rattle.alto_book.specs.declared.fault.EditFault.TheVariants.{Memory};

    ghost from_gives = { λ _ fault. fault ≡ Memory };

    fn from(_: AllocFailed<T>) -> EditFault {
        EditFault::Memory
    }
}

impl From<CompileFault> for EditFault {
    ghost use Rattle.std.specs.Prelude.{◌≡◌};
    ghost use Rattle.alto_book.specs.Faults.{edit_fault};

    ghost from_gives = { λ compiling fault. fault ≡ edit_fault compiling };

    fn from(fault: CompileFault) -> EditFault {
        match fault {
            CompileFault::Broken { row, rule } => EditFault::Broken { row, rule },
            CompileFault::Memory => EditFault::Memory,
        }
    }
}

impl fmt::Display for EditFault {
    ghost use Rattle.std.specs.Prelude.{Some};
    ghost use Rattle.alto_book.specs.Faults.{text_of};

    ghost output = { λ fault. Some (text_of fault) };

    fn fmt<W: fmt::Write>(&self, f: &mut fmt::Formatter<W>) -> fmt::Result {
        match self {
            EditFault::OtherBody { n } => write!(f, "batch {n} has this id and another body"),
            EditFault::Broken { row, rule } => write!(f, "edit {row} breaks rule {rule}"),
            EditFault::Keeper => write!(f, "the records of the batches couldn't be kept"),
            EditFault::Memory => write!(f, "out of memory"),
        }
    }
}

impl Error for EditFault {}
