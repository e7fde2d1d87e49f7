ghost use Rattle.std.specs.Prelude.{◌≡◌, IfOk};
ghost use Rattle.alto_rows.specs.Entities.{typed_addr_text};

use alto_addr::Addr;
use alto_rows::write_typed_addr;
use arrayvec::ArrayString;
use json_tree::Name;
use std::alloc::{AllocError, Global};
use std::marker::Model;

/// The greatest length of a text that takes no memory: all of IPv4, and most of IPv6.
const ROOM: usize = 24;

/// The greatest length of a text.
const LONGEST: usize = 44;

/// What is written of an address behind its type. A contract sees the bytes.
#[derive(Drop)]
pub(crate) struct AddrText {
    kept: Kept,
}

#[derive(Drop)]
enum Kept {
    Short(ArrayString<ROOM>),
    Long(Name),
}

impl Model for AddrText {
    ghost use Rattle.std.specs.Prelude.{ℕ, List};
    ghost use Rattle.endpoint_costs.specs.Texts.{kept_in};

    ghost Value = { List ℕ };

    ghost view = { λ text. kept_in text.kept };
}

impl AddrText {
    /// A copy of this text. Takes no memory where it is short.
    fn copied(alloc: Global, text: &str) -> Result<AddrText, AllocError>
        ensures { IfOk result (λ copy. copy ≡ text.now) }
    {
        let kept = match ArrayString::from(text) {
            Ok(short) => Kept::Short(short),
            Err(_) => Kept::Long(Name::from_str(alloc, text)?),
        };
        Ok(AddrText { kept })
    }

    /// The text.
    pub(crate) fn as_str(&self) -> &str
        ensures { result.now ≡ self.now }
    {
        match &self.kept {
            Kept::Short(text) => text.as_str(),
            Kept::Long(text) => text.as_str(),
        }
    }
}

/// Writes texts of addresses, one after another in the same memory.
#[derive(Drop)]
pub(crate) struct AddrWriter {
    text: String,
}

impl AddrWriter {
    /// Takes memory once.
    pub(crate) fn new(alloc: Global) -> Result<AddrWriter, AllocError> {
        Ok(AddrWriter {
            text: String::with_capacity(alloc, LONGEST)?,
        })
    }

    /// The text of an address.
    pub(crate) fn text_of(&mut self, alloc: Global, addr: Addr) -> Result<AddrText, AllocError>
        ensures { IfOk result (λ text. text ≡ typed_addr_text addr) }
    {
        self.text.clear();
        write_typed_addr(&mut self.text, &addr)?;
        AddrText::copied(alloc, self.text.as_str())
    }
}
