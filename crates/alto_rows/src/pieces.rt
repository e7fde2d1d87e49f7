ghost use Rattle.std.specs.Prelude.{◌≡◌, ◌≢◌, ◌≤◌, ◌++◌, ℕ, List, length, drop, IfOk, MatchOption};
ghost use Rattle.alto_names.specs.Name.{first_bad, is_net_byte, named};
ghost use Rattle.alto_rows.specs.Pieces.{IsNetEnd};

use alto_names::{Kind, Label, NameFault, NetKind};
use std::alloc::{AllocError, Global};

/// The name that the text is.
pub(crate) fn read_name<K: Kind>(alloc: Global, text: &[u8]) -> Result<Option<Label<K>>, AllocError>
    ensures { IfOk result (λ found. MatchOption found (named K.alphabet K.LONGEST text.now ≢ Ok text.now)
        (λ name. (name ≡ text.now) × (named K.alphabet K.LONGEST name ≡ Ok name))) }
{
    match Label::<K>::read(alloc, text) {
        Ok(name) => Ok(Some(name)),
        Err(NameFault::Memory) => Err(AllocError),
        Err(_) => Ok(None),
    }
}

/// What is behind a prefix, where the text begins with it.
pub(crate) fn behind<'a>(text: &'a [u8], prefix: &[u8]) -> Option<&'a [u8]>
    ensures { MatchOption result ((rest : List ℕ) → text.now ≢ prefix.now ++ rest)
        (λ rest. text.now ≡ prefix.now ++ rest.now) }
{
    text.strip_prefix(prefix)
}

/// What is behind the first bytes of a text.
pub(crate) fn behind_first(text: &[u8], n: usize) -> &[u8]
    requires { n ≤ length text.now }
    ensures { result.now ≡ drop n text.now }
{
    &text[n..]
}

/// How many bytes of names of networks the text begins with.
pub(crate) fn net_end(text: &[u8]) -> usize
    ensures { IsNetEnd text.now result }
{
    match other_place(text) {
        Some(place) => place,
        None => text.len(),
    }
}

/// The place of the first byte that no name of a network has.
fn other_place(text: &[u8]) -> Option<usize>
    ensures { result ≡ first_bad is_net_byte text.now }
{
    text.iter().position(|byte| !NetKind::admits(*byte))
}
