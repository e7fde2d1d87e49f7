//! The body of a reply.
ghost use Rattle.std.specs.Prelude.{◌≡◌, ◌∷◌, ◌++◌, [], IfOk, IfSome, OnOk, None, length};
ghost use Rattle.std.specs.Arc.{arc_value};
ghost use Rattle.doc_pieces.specs.Parts.{whole};
ghost use Rattle.doc_pieces.specs.Pieces.{text_of};

use doc_pieces::{Parts, Pieces};
use std::alloc::{AllocError, Global};
use std::marker::Model;
use std::sync::Arc;
use text_buffer::TextBuffer;

/// The body of a reply: bytes of its own, or the text of a map in the pieces that a version keeps. A contract sees the
/// bytes.
#[derive(Drop)]
pub struct Body {
    source: Source,
}

#[derive(Drop)]
enum Source {
    Bytes(Vec<u8>),
    Map(Arc<Pieces>),
}

impl Model for Body {
    ghost use Rattle.std.specs.Prelude.{ℕ, List};
    ghost use Rattle.alto_replies.specs.Body.{bytes_in};

    ghost Value = { List ℕ };

    ghost view = { λ body. bytes_in body.source };
}

impl Body {
    /// These bytes. Takes no memory.
    pub fn of_bytes(bytes: Vec<u8>) -> Body
        ensures { result ≡ bytes.items }
    {
        Body {
            source: Source::Bytes(bytes),
        }
    }

    /// The text of a map, which is shared. Takes no memory.
    pub fn of_map(pieces: Arc<Pieces>) -> Body
        ensures { result ≡ text_of (arc_value pieces) }
    {
        Body {
            source: Source::Map(pieces),
        }
    }

    /// How many bytes there are. One pass over the groups of a map.
    ///
    /// # Errors
    ///
    /// Where no memory could hold so many.
    pub fn len(&self) -> Result<usize, AllocError>
        ensures { IfOk result (λ len. len ≡ length self.now) }
    {
        match &self.source {
            Source::Bytes(bytes) => Ok(bytes.len()),
            Source::Map(pieces) => pieces.len(),
        }
    }

    /// Puts the bytes at the end. Costs their copying.
    pub(crate) fn append_to(&self, text: &mut TextBuffer) -> Result<(), AllocError>
        ensures { OnOk result (text.new ≡ text.old ++ self.now) }
    {
        match &self.source {
            Source::Bytes(bytes) => text.push(bytes),
            Source::Map(pieces) => push_parts(text, pieces),
        }
    }

    /// The bytes part by part. Takes no memory, and copies nothing.
    pub fn parts(&self) -> BodyParts<'_>
        ensures { whole result ≡ self.now }
    {
        match &self.source {
            Source::Bytes(bytes) => BodyParts {
                bytes: Some(bytes),
                map: None,
            },
            Source::Map(pieces) => BodyParts {
                bytes: None,
                map: Some(pieces.parts()),
            },
        }
    }
}

/// Puts the text of a map at the end, part by part.
fn push_parts(text: &mut TextBuffer, pieces: &Pieces) -> Result<(), AllocError>
    ensures { OnOk result (text.new ≡ text.old ++ text_of pieces.now) }
{
    let mut parts = pieces.parts();
    while let Some(part) = parts.next() {
        text.push(part)?;
    }
    Ok(())
}

/// The bytes of a body that is read part by part. A contract sees the parts that are left.
#[derive(Drop)]
pub struct BodyParts<'a> {
    bytes: Option<&'a [u8]>,
    map: Option<Parts<'a>>,
}

impl<'a> Model for BodyParts<'a> {
    ghost use Rattle.std.specs.Prelude.{[], ◌++◌, ℕ, List, option_map, unwrap_or};
    ghost use Rattle.doc_pieces.specs.Parts.{if_any};

    ghost Value = { List (List ℕ) };

    ghost view = { λ parts. if_any (option_map (λ bytes. bytes.now) parts.bytes) ++ unwrap_or parts.map [] };
}

impl<'a> BodyParts<'a> {
    /// The next part, none where all were given.
    pub fn next(&mut self) -> Option<&'a [u8]>
        ensures some { IfSome result (λ part. self.old ≡ part.now ∷ self.new) }
        ensures none { result ≡ None → self.old ≡ [] }
    {
        if let Some(bytes) = self.bytes.take() {
            return Some(bytes);
        }
        match &mut self.map {
            Some(parts) => parts.next(),
            None => None,
        }
    }
}
