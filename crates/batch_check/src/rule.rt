use std::alloc::{AllocError, AllocFailed};
use std::fmt;

/// A rule that a book of accepted batches keeps, by the name that clients see.
#[derive(Clone, Copy, Debug, PartialEq, Eq)]
pub enum BookRule {
    /// An earlier batch or receipt has the batch's id.
    B1,
    /// The batch's moment is below that of the batch or receipt before it.
    B2,
    /// The batch's version rows aren't exactly those of its other writes, at the end and in the order of their keys.
    B3,
    /// The rows after the batch aren't good.
    B4,
    /// The rows after the batch, or its writes, exceed a number.
    B5,
    /// Two receipts of the base have one id, a receipt's moment is below that of the receipt before it, or the base
    /// rows aren't good, exceed a number or have a version above the base's number.
    B6,
}

/// Why a batch isn't taken over.
#[derive(Clone, Copy, Debug, PartialEq, Eq)]
pub enum CheckFault {
    /// The batch breaks this rule, and none before it.
    Bad(BookRule),
    /// The memory couldn't be had.
    Memory,
}

impl From<AllocError> for CheckFault {
    ghost use Rattle.std.specs.Prelude.{◌≡◌};
    ghost use Rattle.batch_check.specs.declared.rule.CheckFault.TheVariants.{Memory};

    ghost from_gives = { λ _ fault. fault ≡ Memory };

    fn from(_: AllocError) -> CheckFault {
        CheckFault::Memory
    }
}

impl<T: Drop> From<AllocFailed<T>> for CheckFault {
    ghost use Rattle.std.specs.Prelude.{◌≡◌};
    ghost use Rattle.batch_check.specs.declared.rule.CheckFault.TheVariants.{Memory};

    ghost from_gives = { λ _ fault. fault ≡ Memory };

    fn from(_: AllocFailed<T>) -> CheckFault {
        CheckFault::Memory
    }
}

impl fmt::Display for BookRule {
    ghost use Rattle.std.specs.Prelude.{Some};
    ghost use Rattle.batch_check.specs.Text.{name_of};

    ghost output = { λ rule. Some (name_of rule) };

    fn fmt<W: fmt::Write>(&self, f: &mut fmt::Formatter<W>) -> fmt::Result {
        f.write_str(match self {
            BookRule::B1 => "B1",
            BookRule::B2 => "B2",
            BookRule::B3 => "B3",
            BookRule::B4 => "B4",
            BookRule::B5 => "B5",
            BookRule::B6 => "B6",
        })
    }
}
