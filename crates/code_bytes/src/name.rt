ghost use Rattle.std.specs.Prelude.{◌≡◌, ◌<◌, ◌≤◌, ◌++◌, ◌↔◌, Ok, IfOk, IfErr, IfSome, IsTrue, length};
ghost use Rattle.alto_names.specs.Name.{first_bad, named};
ghost use Rattle.code_bytes.specs.Pieces.{Letters, Names, name};
ghost use Rattle.code_bytes.specs.Stuck.{Stops};

use crate::first::first_byte;
use crate::stop::Stop;
use alto_names::{Kind, Label};
use std::alloc::Global;

/// Reads a name: its length in a byte, and its bytes.
pub fn read_name<K: Kind>(alloc: Global, bytes: &[u8]) -> Result<(Label<K>, &[u8]), Stop>
    ensures ok { IfOk result (λ x. (named K.alphabet K.LONGEST x.0 ≡ Ok x.0) × (bytes.now ≡ name x.0 ++ x.1.now)) }
    ensures stops { IfErr result (Stops (Names K.alphabet K.LONGEST) bytes.now) }
{
    let Some((length, rest)) = first_byte(bytes) else {
        return Err(Stop::Left(0));
    };
    let length = usize::from(length);
    if !is_length::<K>(length) {
        return Err(Stop::Left(bytes.len()));
    }
    let (text, rest) = letters::<K>(rest, length)?;
    match Label::read(alloc, text) {
        Ok(name) => Ok((name, rest)),
        Err(_) => Err(Stop::Memory),
    }
}

/// Whether a name may have so many bytes.
fn is_length<K: Kind>(length: usize) -> bool
    ensures { IsTrue result ↔ ((1 ≤ length) × (length ≤ K.LONGEST)) }
{
    1 <= length && length <= K::LONGEST
}

/// Takes so many bytes of the kind's alphabet.
fn letters<K: Kind>(bytes: &[u8], count: usize) -> Result<(&[u8], &[u8]), Stop>
    ensures ok { IfOk result (λ x. Letters K.alphabet count x.0.now × (bytes.now ≡ x.0.now ++ x.1.now)) }
    ensures stops { IfErr result (Stops (Letters K.alphabet count) bytes.now) }
{
    if bytes.len() < count {
        return Err(too_few::<K>(bytes, count));
    }
    let (front, rest) = bytes.split_at(count);
    match bad_place::<K>(front) {
        Some(place) => Err(Stop::Left(bytes.len() - place)),
        None => Ok((front, rest)),
    }
}

/// Where a reader of so many letters stops at fewer bytes.
fn too_few<K: Kind>(bytes: &[u8], count: usize) -> Stop
    requires { length bytes.now < count }
    ensures { Stops (Letters K.alphabet count) bytes.now result }
{
    match bad_place::<K>(bytes) {
        Some(place) => Stop::Left(bytes.len() - place),
        None => Stop::Left(0),
    }
}

/// The place of the first byte that isn't in the kind's alphabet.
fn bad_place<K: Kind>(text: &[u8]) -> Option<usize>
    ensures place { result ≡ first_bad K.alphabet text.now }
    ensures within { IfSome result (λ place. place < length text.now) }
{
    text.iter().position(|byte| !K::admits(*byte))
}
