use alto_desk::EditFault;
use alto_http::Failed;
use edit_forms::FormFault;
use std::alloc::{AllocError, AllocFailed};

/// Why no body is read.
#[derive(Clone, Copy, Debug, PartialEq, Eq)]
pub(crate) enum BodyFault {
    /// It has more bytes than a body may have.
    TooLarge,
    /// A read failed.
    ReadFault,
    /// Out of memory.
    Memory,
}

/// Why an import isn't accepted.
#[derive(Clone, Copy, Debug, PartialEq, Eq)]
pub(crate) enum ImportFault {
    /// No body is read.
    Body(BodyFault),
    /// The body has a fault.
    Form(FormFault),
    /// The edits are refused, or their batch can't be kept.
    Edit(EditFault),
}

impl From<Failed> for BodyFault {
    ghost use Rattle.std.specs.Prelude.{◌≡◌};
    ghost use Rattle.alto_commands.specs.declared.fault.BodyFault.TheVariants.{ReadFault};

    ghost from_gives = { λ _ fault. fault ≡ ReadFault };

    fn from(_: Failed) -> BodyFault {
        BodyFault::ReadFault
    }
}

impl From<AllocError> for BodyFault {
    ghost use Rattle.std.specs.Prelude.{◌≡◌};
    ghost use Rattle.alto_commands.specs.declared.fault.BodyFault.TheVariants.{Memory};

    ghost from_gives = { λ _ fault. fault ≡ Memory };

    fn from(_: AllocError) -> BodyFault {
        BodyFault::Memory
    }
}

impl<T: Drop> From<AllocFailed<T>> for BodyFault {
    ghost use Rattle.std.specs.Prelude.{◌≡◌};
    ghost use Rattle.alto_commands.specs.declared.fault.BodyFault.TheVariants.{Memory};

    ghost from_gives = { λ _ fault. fault ≡ Memory };

    fn from(_: AllocFailed<T>) -> BodyFault {
        BodyFault::Memory
    }
}

impl From<BodyFault> for ImportFault {
    ghost use Rattle.std.specs.Prelude.{◌≡◌};
    ghost use Rattle.alto_commands.specs.declared.fault.ImportFault.TheVariants.{Body};

    ghost from_gives = { λ why fault. fault ≡ Body why };

    fn from(fault: BodyFault) -> ImportFault {
        ImportFault::Body(fault)
    }
}

impl From<FormFault> for ImportFault {
    ghost use Rattle.std.specs.Prelude.{◌≡◌};
    ghost use Rattle.alto_commands.specs.declared.fault.ImportFault.TheVariants.{Form};

    ghost from_gives = { λ why fault. fault ≡ Form why };

    fn from(fault: FormFault) -> ImportFault {
        ImportFault::Form(fault)
    }
}

impl From<EditFault> for ImportFault {
    ghost use Rattle.std.specs.Prelude.{◌≡◌};
    ghost use Rattle.alto_commands.specs.declared.fault.ImportFault.TheVariants.{Edit};

    ghost from_gives = { λ why fault. fault ≡ Edit why };

    fn from(fault: EditFault) -> ImportFault {
        ImportFault::Edit(fault)
    }
}
