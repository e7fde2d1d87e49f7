ghost use Rattle.std.specs.Prelude.{◌≡◌, IfOk, Some, is_ok, nat_eq, refl};
ghost use Rattle.std.specs.Result.{result_ok};
ghost use Rattle.std.specs.Ordering.{nat_cmp};
ghost use Rattle.std.specs.Cmp.Lexicographic.{pointwise, slice_cmp, nat_list_eq_equiv, nat_list_cmp_total, texts_ties};
ghost use Rattle.std.specs.Cmp.Lexicographic.{texts_po};
ghost use Rattle.std.specs.Cmp.{partial_equiv_from_equiv};
ghost use Rattle.alto_names.specs.Name.{IsPidName, first_bad, is_pid_byte, named};

use alto_names::{Kind, NameFault, PidKind, PidName};
use std::alloc::{AllocError, Global};
use std::cmp::Ordering;
use std::fmt;
use std::marker::Model;

/// The name of a PID as it stands in a request or in a row. A contract sees its bytes; texts are ordered by them, as
/// names are. Takes no memory.
#[derive(Drop)]
pub struct PidText<'a> {
    text: &'a str,
}

impl<'a> Model for PidText<'a> {
    ghost use Rattle.std.specs.Prelude.{ℕ, List};
    ghost use Rattle.alto_names.specs.Name.{IsPidName};

    ghost Value = { List ℕ };

    ghost view = { λ pid. pid.text.now };

    ghost invariant = { λ pid. IsPidName pid.text.now };
}

impl<'a> PidText<'a> {
    /// This text, if it is the name of a PID. Linear in the text.
    #[tactic(auto, using(crate::proofs::PidTextLemmas::named_same))]
    pub fn read(text: &'a str) -> Option<PidText<'a>>
        ensures { result ≡ result_ok (named is_pid_byte 64 text.now) }
    {
        if is_pid_name(text.as_bytes()) {
            Some(PidText { text })
        } else {
            None
        }
    }

    /// The text of a name.
    pub fn of(name: &'a PidName) -> PidText<'a>
        ensures { result ≡ name.now }
    {
        // `as_bytes` tells that the text of a name reads as the name.
        let _ = name.as_bytes();
        PidText {
            text: name.as_str(),
        }
    }

    /// The same text.
    pub fn copied(&self) -> PidText<'a>
        ensures { result ≡ self.now }
    {
        PidText { text: self.text }
    }

    /// A name with a copy of the text.
    pub fn to_name(&self, alloc: Global) -> Result<PidName, AllocError>
        ensures { IfOk result (λ name. name ≡ self.now) }
    {
        match PidName::read(alloc, self.as_bytes()) {
            Ok(name) => Ok(name),
            Err(NameFault::Memory) => Err(AllocError),
            Err(_) => unreachable!(),
        }
    }

    /// The text.
    pub fn as_str(&self) -> &'a str
        ensures { result.now ≡ self.now }
    {
        self.text
    }

    /// Its bytes.
    pub(crate) fn as_bytes(&self) -> &'a [u8]
        ensures value { result.now ≡ self.now }
        ensures name { IsPidName self.now }
    {
        self.text.as_bytes()
    }
}

/// Whether a text is the name of a PID.
#[tactic(auto, using(crate::proofs::PidTextLemmas::named_whole))]
fn is_pid_name(text: &[u8]) -> bool
    ensures { result ≡ is_ok (named is_pid_byte 64 text.now) }
{
    if text.is_empty() {
        return false;
    }
    if text.len() > PidKind::LONGEST {
        return false;
    }
    bad_place(text).is_none()
}

/// The place of the first byte that no name of a PID has.
fn bad_place(text: &[u8]) -> Option<usize>
    ensures { result ≡ first_bad is_pid_byte text.now }
{
    text.iter().position(|byte| !PidKind::admits(*byte))
}

impl<'a> PartialEq for PidText<'a> {
    ghost eq = { pointwise nat_eq };

    ghost laws = { partial_equiv_from_equiv nat_list_eq_equiv };

    fn eq(&self, other: &Self) -> bool {
        self.text == other.text
    }
}

impl<'a> Eq for PidText<'a> {
    ghost laws = { nat_list_eq_equiv };
}

impl<'a> PartialOrd for PidText<'a> {
    ghost partial_cmp = { λ x y. Some (slice_cmp nat_cmp x y) };

    ghost laws = { texts_po };

    fn partial_cmp(&self, other: &Self) -> Option<Ordering> {
        Some(self.cmp(other))
    }
}

impl<'a> Ord for PidText<'a> {
    ghost cmp = { slice_cmp nat_cmp };

    ghost total = { nat_list_cmp_total };

    ghost matches_partial_cmp = { λ x y. refl };

    ghost matches_eq = { texts_ties };

    fn cmp(&self, other: &Self) -> Ordering {
        self.text.cmp(other.text)
    }
}

impl<'a> fmt::Debug for PidText<'a> {
    ghost use Rattle.std.specs.Fmt.{debug_str};

    ghost debug_output = { debug_str };

    fn fmt<W: fmt::Write>(&self, f: &mut fmt::Formatter<W>) -> fmt::Result {
        fmt::Debug::fmt(self.text, f)
    }
}
