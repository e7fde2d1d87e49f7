ghost use Rattle.std.specs.Prelude.{◌≡◌, IfOk};
ghost use Rattle.alto_asks.specs.Asks.{code_text, no_object, missing, wrong_type, wrong_text};

use json_tree::Name;
use std::alloc::{AllocError, AllocFailed, Global};

/// What is wrong with the body of an ask (RFC 7285, section 8.5.2).
#[derive(Clone, Copy, Debug, PartialEq, Eq)]
pub enum AskCode {
    /// It doesn't read, or isn't an object.
    Syntax,
    /// A field is missing that must be there.
    MissingField,
    /// The value of a field is of another type.
    InvalidFieldType,
    /// The value of a field is of its type, and can't be had.
    InvalidFieldValue,
}

impl AskCode {
    /// The code, as it is written.
    pub fn as_str(self) -> &'static str
        ensures { result.now ≡ code_text self }
    {
        match self {
            AskCode::Syntax => "E_SYNTAX",
            AskCode::MissingField => "E_MISSING_FIELD",
            AskCode::InvalidFieldType => "E_INVALID_FIELD_TYPE",
            AskCode::InvalidFieldValue => "E_INVALID_FIELD_VALUE",
        }
    }
}

/// Why an ask has no answer.
#[derive(Debug, Drop)]
pub enum AskFault {
    /// Its body is at fault.
    Bad {
        code: AskCode,
        /// The field, where one is at fault.
        field: Option<Name>,
        /// Its value, where that is a text which can't be had.
        value: Option<Name>,
    },
    /// The memory for the answer couldn't be had.
    Memory,
}

impl From<AllocError> for AskFault {
    ghost use Rattle.std.specs.Prelude.{◌≡◌};
    ghost use Rattle.alto_asks.specs.declared.fault.AskFault.TheVariants.{Memory};

    ghost from_gives = { λ _ fault. fault ≡ Memory };

    fn from(_: AllocError) -> AskFault {
        AskFault::Memory
    }
}

impl<T: Drop> From<AllocFailed<T>> for AskFault {
    ghost use Rattle.std.specs.Prelude.{◌≡◌};
    ghost use Rattle.alto_asks.specs.declared.fault.AskFault.TheVariants.{Memory};

    ghost from_gives = { λ _ fault. fault ≡ Memory };

    fn from(_: AllocFailed<T>) -> AskFault {
        AskFault::Memory
    }
}

impl AskFault {
    /// The body is no object.
    pub fn no_object() -> AskFault
        ensures { result ≡ no_object }
    {
        AskFault::Bad {
            code: AskCode::Syntax,
            field: None,
            value: None,
        }
    }

    /// This field is missing.
    pub fn missing(alloc: Global, field: &str) -> Result<AskFault, AllocError>
        ensures { IfOk result (λ fault. fault ≡ missing field.now) }
    {
        Ok(AskFault::Bad {
            code: AskCode::MissingField,
            field: Some(Name::from_str(alloc, field)?),
            value: None,
        })
    }

    /// The value of this field is of another type.
    pub fn wrong_type(alloc: Global, field: &str) -> Result<AskFault, AllocError>
        ensures { IfOk result (λ fault. fault ≡ wrong_type field.now) }
    {
        Ok(AskFault::Bad {
            code: AskCode::InvalidFieldType,
            field: Some(Name::from_str(alloc, field)?),
            value: None,
        })
    }

    /// This field has this text, which it can't have.
    pub fn wrong_text(alloc: Global, field: &str, text: &str) -> Result<AskFault, AllocError>
        ensures { IfOk result (λ fault. fault ≡ wrong_text field.now text.now) }
    {
        Ok(AskFault::Bad {
            code: AskCode::InvalidFieldValue,
            field: Some(Name::from_str(alloc, field)?),
            value: Some(Name::from_str(alloc, text)?),
        })
    }
}
