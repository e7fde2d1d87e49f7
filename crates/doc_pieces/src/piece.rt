ghost use Rattle.std.specs.Prelude.{◌≡◌, ◌++◌, codes, true, IfOk};
ghost use Rattle.alto_maps.specs.Shape.{stands};
ghost use Rattle.doc_pieces.specs.Pieces.{piece_of};

use crate::grouped::Grouped;
use json_tree::Name;
use shared_list::Named;
use std::alloc::{AllocError, Global};
use std::marker::Model;
use text_buffer::TextBuffer;

/// A group's name, and its text as a member. A contract sees both. The text is kept behind a comma, so that most groups
/// are put behind another in one piece.
#[derive(Drop)]
pub(crate) struct Piece {
    name: Name,
    behind_comma: Vec<u8>,
}

impl Model for Piece {
    ghost use Rattle.std.specs.Prelude.{◌≡◌, codes, drop, take};
    ghost use Rattle.doc_pieces.specs.Pieces.{Piece};

    ghost Value = { Piece };

    ghost view = { λ piece. (piece.name, drop 1 piece.behind_comma.items) };

    ghost invariant = { λ piece. take 1 piece.behind_comma.items ≡ codes "," };
}

impl Piece {
    /// The text.
    pub(crate) fn text(&self) -> &[u8]
        ensures { result.now ≡ self.now.1 }
    {
        &self.behind_comma[1..]
    }

    /// The text behind a comma.
    pub(crate) fn behind_comma(&self) -> &[u8]
        ensures { result.now ≡ codes "," ++ self.now.1 }
    {
        &self.behind_comma
    }
}

impl Named for Piece {
    ghost name = { λ piece. piece.0 };

    fn name(&self) -> &[u8] {
        self.name.as_str().as_bytes()
    }
}

/// The piece of a group that stands, written anew, with no spare room.
pub(crate) fn written<G: Grouped>(
    alloc: Global,
    groups: &G,
    name: Name,
) -> Result<Piece, AllocError>
    requires { stands (G.map groups.now) name ≡ true }
    ensures { IfOk result (λ piece. piece ≡ piece_of (G.map groups.now) name) }
{
    let mut text = TextBuffer::new(alloc);
    text.push(b",")?;
    groups.push_group(alloc, &name, &mut text)?;
    let mut behind_comma = text.into_bytes();
    behind_comma.shrink_to_fit();
    Ok(Piece { name, behind_comma })
}
