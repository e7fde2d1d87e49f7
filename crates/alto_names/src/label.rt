ghost use Rattle.std.specs.Prelude.{◌≡◌, ◌≢◌, ◌≤◌, ℕ, false, List, [], ◌∷◌, Some, Ok, IfOk, IfErr, length, nat_eq};
ghost use Rattle.std.specs.Cmp.Lexicographic.{pointwise, slice_cmp, nat_list_eq_equiv, nat_list_cmp_total, texts_ties};
ghost use Rattle.std.specs.Cmp.Lexicographic.{texts_po};
ghost use Rattle.std.specs.Cmp.{partial_equiv_from_equiv};
ghost use Rattle.std.proofs.Common.{rules};
ghost use Rattle.std.specs.Ordering.{nat_cmp, is_gt};
ghost use Rattle.std.specs.Arc.{arc_value};
ghost use Rattle.alto_names.specs.Name.{named, first_bad};

use crate::kind::Kind;
use arrayvec::ArrayString;
use std::alloc::{AllocError, Global};
use std::cmp::Ordering;
use std::error::Error;
use std::marker::{Model, PhantomData};
use std::sync::Arc;
use std::{fmt, str};

/// The greatest length of a name of any kind, in bytes.
const ROOM: usize = 64;

/// Why bytes are no name, in the order of the tests.
#[derive(Clone, Copy, Debug, PartialEq, Eq)]
pub enum NameFault {
    /// There are no bytes.
    Empty,
    /// There are more bytes than a name may have: so many.
    TooLong(usize),
    /// The byte at this place, from 0, is the first that isn't in the alphabet.
    BadByte(usize),
    /// The memory for the name couldn't be had.
    Memory,
}

impl From<AllocError> for NameFault {
    ghost use Rattle.std.specs.Prelude.{◌≡◌};
    ghost use Rattle.alto_names.specs.declared.label.NameFault.TheVariants.{Memory};

    ghost from_gives = { λ _ fault. fault ≡ Memory };

    fn from(_: AllocError) -> NameFault {
        NameFault::Memory
    }
}

impl fmt::Display for NameFault {
    ghost use Rattle.std.specs.Prelude.{Some};
    ghost use Rattle.alto_names.specs.Text.{text_of};

    ghost output = { λ fault. Some (text_of fault) };

    fn fmt<W: fmt::Write>(&self, f: &mut fmt::Formatter<W>) -> fmt::Result {
        match self {
            NameFault::Empty => write!(f, "an empty name"),
            NameFault::TooLong(length) => write!(f, "a name of {length} bytes"),
            NameFault::BadByte(place) => write!(
                f,
                "a byte that no such name has, at place {place}"
            ),
            NameFault::Memory => write!(f, "out of memory"),
        }
    }
}

impl Error for NameFault {}

/// A name of one kind. A contract sees its bytes.
///
/// A name is a pointer of 8 bytes. Its clones share what it points to: one block, which counts the owners and has room
/// for the longest text of any kind. Reading a name takes a block anew, also for a text that was read before. A clone
/// takes none and constant time, and is refused only at 2^63 owners.
#[derive(Drop)]
pub struct Label<K: Kind> {
    text: Arc<ArrayString<ROOM>>,
    kind: PhantomData<K>,
}

impl<K: Kind> Model for Label<K> {
    ghost use Rattle.std.specs.Prelude.{◌≡◌, List, ℕ, Ok};
    ghost use Rattle.std.specs.Arc.{arc_value};
    ghost use Rattle.alto_names.specs.Name.{named};

    ghost Value = { List ℕ };

    ghost view = { λ label. (arc_value label.text).bytes };

    ghost invariant = { λ label. let bytes = (arc_value label.text).bytes in
        named K.alphabet K.LONGEST bytes ≡ Ok bytes };
}

impl<K: Kind> Label<K> {
    /// Reads a name. The fault is the first in the order of `NameFault`.
    pub fn read(alloc: Global, text: &[u8]) -> Result<Self, NameFault>
        ensures ok { IfOk result (λ name. named K.alphabet K.LONGEST text.now ≡ Ok name) }
        ensures err { IfErr result (λ fault. fault ≢ NameFault.Memory
            → named K.alphabet K.LONGEST text.now ≡ Err fault) }
    {
        if text.is_empty() {
            return Err(NameFault::Empty);
        }
        if text.len() > K::LONGEST {
            return Err(NameFault::TooLong(text.len()));
        }
        if let Some(place) = bad_place::<K>(text) {
            return Err(NameFault::BadByte(place));
        }
        let Ok(text) = str::from_utf8(text) else {
            unreachable!();
        };
        Ok(Label {
            text: shared(alloc, text)?,
            kind: PhantomData,
        })
    }

    /// The least name of its kind: no other stands before it in order, so it is the lower end of a range.
    pub fn least(alloc: Global) -> Result<Self, AllocError>
        ensures bytes { IfOk result (λ name. name ≡ K.LEAST ∷ []) }
        ensures first { IfOk result (λ least. (name : List ℕ) → named K.alphabet K.LONGEST name ≡ Ok name
            → is_gt (slice_cmp nat_cmp least name) ≡ false) }
    {
        let mut text = ArrayString::new();
        text.push(char::from(K::LEAST));
        Ok(Label {
            text: Arc::new(alloc, text)?,
            kind: PhantomData,
        })
    }

    /// The bytes of the name, all of US-ASCII.
    pub fn as_bytes(&self) -> &[u8]
        ensures bytes { result.now ≡ self.now }
        ensures read_again { named K.alphabet K.LONGEST self.now ≡ Ok self.now }
    {
        self.text.as_str().as_bytes()
    }

    /// The same as text.
    pub fn as_str(&self) -> &str
        ensures { result.now ≡ self.now }
    {
        self.text.as_str()
    }

    /// Whether the name has these bytes, which need not be a name.
    pub fn matches(&self, text: &[u8]) -> bool
        ensures { result ≡ pointwise nat_eq self.now text.now }
    {
        self.as_bytes() == text
    }

    /// Where the name stands against these bytes, in the order of names.
    pub fn cmp_bytes(&self, text: &[u8]) -> Ordering
        ensures { result ≡ slice_cmp nat_cmp self.now text.now }
    {
        self.as_bytes().cmp(text)
    }
}

impl<K: Kind> Clone for Label<K> {
    ghost is_clone = { λ name copy. copy ≡ name };

    fn clone(&self) -> Result<Self, AllocError> {
        Ok(Label {
            text: self.text.clone()?,
            kind: PhantomData,
        })
    }
}

impl<K: Kind> fmt::Display for Label<K> {
    ghost output = { λ name. Some name };

    fn fmt<W: fmt::Write>(&self, f: &mut fmt::Formatter<W>) -> fmt::Result {
        f.write_str(self.text.as_str())
    }
}

impl<K: Kind> fmt::Debug for Label<K> {
    ghost debug_output = { λ name. Some name };

    fn fmt<W: fmt::Write>(&self, f: &mut fmt::Formatter<W>) -> fmt::Result {
        write!(f, "{self}")
    }
}

impl<K: Kind> PartialEq for Label<K> {
    ghost eq = { pointwise nat_eq };

    ghost laws = { partial_equiv_from_equiv nat_list_eq_equiv };

    fn eq(&self, other: &Self) -> bool {
        self.text == other.text
    }
}

impl<K: Kind> Eq for Label<K> {
    ghost laws = { nat_list_eq_equiv };
}

impl<K: Kind> PartialOrd for Label<K> {
    ghost partial_cmp = { λ x y. Some (slice_cmp nat_cmp x y) };

    ghost laws = { texts_po };

    fn partial_cmp(&self, other: &Self) -> Option<Ordering> {
        Some(self.cmp(other))
    }
}

impl<K: Kind> Ord for Label<K> {
    ghost cmp = { slice_cmp nat_cmp };

    ghost total = { nat_list_cmp_total };

    ghost matches_partial_cmp = { Prim.search rules };

    ghost matches_eq = { texts_ties };

    fn cmp(&self, other: &Self) -> Ordering {
        self.text.cmp(&other.text)
    }
}

/// A text in a block that owners share.
fn shared(alloc: Global, text: &str) -> Result<Arc<ArrayString<ROOM>>, AllocError>
    requires { length text.now ≤ 64 }
    ensures { IfOk result (λ kept. (arc_value kept).bytes ≡ text.now) }
{
    let mut kept = ArrayString::new();
    kept.push_str(text);
    Ok(Arc::new(alloc, kept)?)
}

/// The place of the first byte that isn't in the kind's alphabet.
fn bad_place<K: Kind>(text: &[u8]) -> Option<usize>
    ensures { result ≡ first_bad K.alphabet text.now }
{
    text.iter().position(|byte| !K::admits(*byte))
}
