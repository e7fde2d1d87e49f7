use std::alloc::{AllocError, AllocFailed};
use std::error::Error;
use std::fmt;

/// Why bytes give no tree.
#[derive(Clone, Copy, Debug, PartialEq, Eq)]
pub enum TreeFault {
    /// They are no JSON text in UTF-8 (RFC 8259), or one that nests more than 127 deep.
    Syntax,
    /// The value has a number that isn't written as a whole number from 0 to 2^64 - 1.
    NotWhole,
    /// The memory for the tree couldn't be had.
    Memory,
}

impl From<AllocError> for TreeFault {
    ghost use Rattle.std.specs.Prelude.{◌≡◌};
    ghost use Rattle.json_tree.specs.declared.fault.TreeFault.TheVariants.{Memory};

    ghost from_gives = { λ _ fault. fault ≡ Memory };

    fn from(_: AllocError) -> TreeFault {
        TreeFault::Memory
    }
}

impl<T: Drop> From<AllocFailed<T>> for TreeFault {
    ghost use Rattle.std.specs.Prelude.{◌≡◌};
    ghost use Rattle.json_tree.specs.declared.fault.TreeFault.TheVariants.{Memory};

    ghost from_gives = { λ _ fault. fault ≡ Memory };

    fn from(_: AllocFailed<T>) -> TreeFault {
        TreeFault::Memory
    }
}

impl fmt::Display for TreeFault {
    ghost use Rattle.std.specs.Prelude.{Some};
    ghost use Rattle.json_tree.specs.Faults.{text_of};

    ghost output = { λ fault. Some (text_of fault) };

    fn fmt<W: fmt::Write>(&self, f: &mut fmt::Formatter<W>) -> fmt::Result {
        match self {
            TreeFault::Syntax => write!(f, "no JSON text"),
            TreeFault::NotWhole => write!(
                f,
                "a number that isn't a whole number from 0 to 2^64 - 1"
            ),
            TreeFault::Memory => write!(f, "out of memory"),
        }
    }
}

impl Error for TreeFault {}
