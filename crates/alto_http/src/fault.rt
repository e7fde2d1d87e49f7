ghost use Rattle.std.specs.Prelude.{◌≡◌};
ghost use Rattle.alto_http.specs.declared.fault.HeadFault.TheVariants.{Memory as OutOfMemory, ReadFault as FailedRead};

use crate::link::Failed;
use std::alloc::{AllocError, AllocFailed};

/// Why no request came of the bytes.
#[derive(Clone, Copy, Debug, PartialEq, Eq)]
pub enum HeadFault {
    /// The head is too long, or has too many lines: 431.
    TooLarge,
    /// The head, or its Content-Length, is outside the grammar: 400.
    BadHead,
    /// The head has a Transfer-Encoding: 501.
    Coded,
    /// A POST without a Content-Length: 411.
    NoLength,
    /// The body is longer than is taken: 413.
    BodyTooLarge,
    /// The input ends inside a request.
    Cut,
    /// A read of the link failed.
    ReadFault,
    /// Out of memory.
    Memory,
}

impl From<Failed> for HeadFault {
    ghost from_gives = { λ _ e. e ≡ FailedRead };

    fn from(_: Failed) -> HeadFault {
        HeadFault::ReadFault
    }
}

impl From<AllocError> for HeadFault {
    ghost from_gives = { λ _ e. e ≡ OutOfMemory };

    fn from(_: AllocError) -> HeadFault {
        HeadFault::Memory
    }
}

impl<T: Drop> From<AllocFailed<T>> for HeadFault {
    ghost from_gives = { λ _ e. e ≡ OutOfMemory };

    fn from(_: AllocFailed<T>) -> HeadFault {
        HeadFault::Memory
    }
}
