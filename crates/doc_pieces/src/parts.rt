//! The text of a document part by part.
ghost use Rattle.std.specs.Prelude.{◌≡◌, ◌∷◌, ◌++◌, [], IfSome, None};
ghost use Rattle.doc_pieces.specs.Parts.{whole};
ghost use Rattle.doc_pieces.specs.Pieces.{joined};

use crate::piece::Piece;
use shared_list::{Items, SharedList};
use std::marker::Model;

/// The text of a document that is read part by part. A contract sees the parts that are left.
#[derive(Drop)]
pub struct Parts<'a> {
    beginning: Option<&'a [u8]>,
    groups: Items<'a, Piece>,
    /// Whether a comma comes before the next group.
    comma: bool,
    ending: Option<&'a [u8]>,
}

impl<'a> Model for Parts<'a> {
    ghost use Rattle.std.specs.Prelude.{◌++◌, ℕ, List, option_map};
    ghost use Rattle.doc_pieces.specs.Parts.{if_any, texts};

    ghost Value = { List (List ℕ) };

    ghost view = { λ parts. if_any (option_map (λ bytes. bytes.now) parts.beginning)
        ++ texts parts.comma parts.groups
        ++ if_any (option_map (λ bytes. bytes.now) parts.ending) };
}

impl<'a> Parts<'a> {
    /// The parts of a text with these groups.
    pub(crate) fn new(
        beginning: &'a [u8],
        groups: &'a SharedList<Piece>,
        ending: &'a [u8],
    ) -> Parts<'a>
        ensures { whole result ≡ beginning.now ++ joined groups.now ++ ending.now }
    {
        Parts {
            beginning: Some(beginning),
            groups: groups.items(),
            comma: false,
            ending: Some(ending),
        }
    }

    /// The next part, none where the whole text was given.
    pub fn next(&mut self) -> Option<&'a [u8]>
        ensures some { IfSome result (λ part. self.old ≡ part.now ∷ self.new) }
        ensures none { result ≡ None → self.old ≡ [] }
    {
        if let Some(beginning) = self.beginning.take() {
            return Some(beginning);
        }
        let Some(piece) = self.groups.next() else {
            return self.ending.take();
        };
        if self.comma {
            return Some(piece.behind_comma());
        }
        self.comma = true;
        Some(piece.text())
    }
}
