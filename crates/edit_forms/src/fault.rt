use std::alloc::{AllocError, AllocFailed};
use std::error::Error;
use std::fmt;

/// Why a body reads as no edits: the first fault in the order of rows and columns.
#[derive(Clone, Copy, Debug, PartialEq, Eq)]
pub enum FormFault {
    /// The body, which is to be JSON, doesn't read as a tree, or isn't an object whose member `edits` is a list.
    Syntax,
    /// There is no edit.
    Empty,
    /// The record of this number, from 1, hasn't six fields, or the item of this number isn't a list of 2 to 6 texts.
    BadRecord(u64),
    /// In the record of this number, from 1, the column of this number, from 1, doesn't read, or isn't empty where the
    /// operation has nothing there.
    BadColumn(u64, u8),
    /// The memory couldn't be had.
    Memory,
}

impl From<AllocError> for FormFault {
    ghost use Rattle.std.specs.Prelude.{◌≡◌};
    ghost use Rattle.edit_forms.specs.declared.fault.FormFault.TheVariants.{Memory};

    ghost from_gives = { λ _ fault. fault ≡ Memory };

    fn from(_: AllocError) -> FormFault {
        FormFault::Memory
    }
}

impl<T: Drop> From<AllocFailed<T>> for FormFault {
    ghost use Rattle.std.specs.Prelude.{◌≡◌};
    ghost use Rattle.edit_forms.specs.declared.fault.FormFault.TheVariants.{Memory};

    ghost from_gives = { λ _ fault. fault ≡ Memory };

    fn from(_: AllocFailed<T>) -> FormFault {
        FormFault::Memory
    }
}

impl fmt::Display for FormFault {
    ghost use Rattle.std.specs.Prelude.{Some};
    ghost use Rattle.edit_forms.specs.Faults.{fault_text};

    ghost output = { λ fault. Some (fault_text fault) };

    fn fmt<W: fmt::Write>(&self, f: &mut fmt::Formatter<W>) -> fmt::Result {
        match self {
            FormFault::Syntax => write!(f, "no JSON object with a list of edits"),
            FormFault::Empty => write!(f, "no edit"),
            FormFault::BadRecord(row) => write!(f, "row {row} hasn't the columns of an edit"),
            FormFault::BadColumn(row, column) => write!(
                f,
                "row {row} has a fault in column {column}"
            ),
            FormFault::Memory => write!(f, "out of memory"),
        }
    }
}

impl Error for FormFault {}
