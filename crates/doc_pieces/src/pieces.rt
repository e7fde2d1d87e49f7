ghost use Rattle.std.specs.Prelude.{◌≡◌, ◌+◌, ◌++◌, IfOk, OnOk, length};
ghost use Rattle.alto_maps.specs.Differ.{DifferAt};
ghost use Rattle.alto_maps.specs.Shape.{Face};
ghost use Rattle.doc_pieces.specs.Parts.{whole};
ghost use Rattle.doc_pieces.specs.Pieces.{joined, pieces_of, text_of};
ghost use Rattle.doc_pieces.specs.Pieces as spec;

use crate::frame::{beginning, ending, meta_text};
use crate::grouped::Grouped;
use crate::parts::Parts;
use crate::piece::Piece;
use crate::renewing::{renewed_groups, with_written};
use alto_maps::{Place, Walked};
use shared_list::SharedList;
use std::alloc::{AllocError, Global};
use std::marker::Model;

/// The text of a map's document in pieces, of which other documents may share those of its groups. A contract sees the
/// bytes.
#[derive(Drop)]
pub struct Pieces {
    beginning: Vec<u8>,
    groups: SharedList<Piece>,
    ending: Vec<u8>,
}

impl Model for Pieces {
    ghost use Rattle.doc_pieces.specs.Pieces.{Pieces};

    ghost Value = { Pieces };

    ghost view = { λ pieces. record {
      beginning = pieces.beginning.items;
      groups = pieces.groups;
      ending = pieces.ending.items;
    } };
}

impl Pieces {
    /// The pieces of a map with these groups. Costs one walk over the groups, and the writing of the meta and of each
    /// group.
    #[tactic(auto, unfolding(crate::specs::Pieces::pieces_of))]
    pub fn of<M: Walked, G: Grouped>(
        alloc: Global,
        source: &M,
        groups: &G,
    ) -> Result<Pieces, AllocError>
        requires { G.map groups.now ≡ M.face source.now }
        ensures { IfOk result (λ pieces. pieces ≡ pieces_of M.shape (M.face source.now)) }
    {
        let groups = written_groups(alloc, groups)?;
        framed(alloc, source, groups)
    }

    /// The pieces of a map with these groups that differs at these places from the one that these are the pieces of.
    ///
    /// Costs one pass over the places and one over the runs of groups, and the writing of the meta and of each group
    /// that a place touches. All other groups are shared, by whole runs where no place touches one of them.
    pub fn renewed<M: Walked, G: Grouped>(
        &self,
        alloc: Global,
        source: &M,
        groups: &G,
        places: &[Place],
    ) -> Result<Pieces, AllocError>
        requires { G.map groups.now ≡ M.face source.now }
        ensures { IfOk result (λ pieces. (before : Face) → self.now ≡ pieces_of M.shape before
            → DifferAt M.shape places.now before (M.face source.now) → pieces ≡ pieces_of M.shape (M.face source.now)) }
    {
        let groups = renewed_groups(alloc, &self.groups, groups, places)?;
        framed(alloc, source, groups)
    }

    /// The text of the document. Costs the copying of its bytes, into room that is taken once.
    pub fn text(&self, alloc: Global) -> Result<Vec<u8>, AllocError>
        ensures { IfOk result (λ text. text.items ≡ text_of self.now) }
    {
        let mut text = Vec::with_capacity(alloc, self.len()?)?;
        self.append_to(&mut text)?;
        Ok(text)
    }

    /// Puts the text of the document at the end. Costs the copying of its bytes.
    pub fn append_to(&self, text: &mut Vec<u8>) -> Result<(), AllocError>
        ensures { OnOk result (text.new.items ≡ text.old.items ++ text_of self.now) }
    {
        text.extend_from_slice(&self.beginning)?;
        join(&self.groups, text)?;
        text.extend_from_slice(&self.ending)
    }

    /// The length of the text. One pass over the groups.
    ///
    /// # Errors
    ///
    /// Where no memory could hold the text.
    pub fn len(&self) -> Result<usize, AllocError>
        ensures { IfOk result (λ len. len ≡ length (text_of self.now)) }
    {
        let ends = sum(self.beginning.len(), self.ending.len())?;
        sum(ends, joined_len(&self.groups)?)
    }

    /// The text part by part, none of which is copied: what stands before the groups, each group, and what stands
    /// behind them.
    pub fn parts(&self) -> Parts<'_>
        ensures { whole result ≡ text_of self.now }
    {
        Parts::new(&self.beginning, &self.groups, &self.ending)
    }
}

/// The pieces of a map that has these groups.
fn framed<M: Walked>(
    alloc: Global,
    source: &M,
    groups: SharedList<Piece>,
) -> Result<Pieces, AllocError>
    ensures { IfOk result (λ pieces. pieces ≡ spec.framed M.shape (M.face source.now).meta groups) }
{
    let meta = meta_text(alloc, source)?;
    Ok(Pieces {
        beginning: beginning(alloc, source, &meta)?,
        groups,
        ending: ending(alloc, source, &meta)?,
    })
}

/// The groups of a map, written anew.
fn written_groups<G: Grouped>(alloc: Global, groups: &G) -> Result<SharedList<Piece>, AllocError>
    ensures { IfOk result (λ pieces. pieces ≡ spec.groups_of (G.map groups.now)) }
{
    let names = groups.group_names(alloc)?;
    with_written(alloc, &SharedList::new(alloc), groups, &names)
}

/// The length of the texts of groups with a comma between each two.
fn joined_len(groups: &SharedList<Piece>) -> Result<usize, AllocError>
    ensures { IfOk result (λ len. len ≡ length (joined groups.now)) }
{
    let mut pieces = groups.items();
    let Some(first) = pieces.next() else {
        return Ok(0);
    };
    let mut len = first.text().len();
    while let Some(piece) = pieces.next() {
        len = sum(len, piece.behind_comma().len())?;
    }
    Ok(len)
}

/// The sum of two lengths, where memory has so many places.
fn sum(a: usize, b: usize) -> Result<usize, AllocError>
    ensures { IfOk result (λ sum. sum ≡ a + b) }
{
    a.checked_add(b).ok_or(AllocError)
}

/// Puts the texts of groups at the end, with a comma between each two.
fn join(groups: &SharedList<Piece>, text: &mut Vec<u8>) -> Result<(), AllocError>
    ensures { OnOk result (text.new.items ≡ text.old.items ++ joined groups.now) }
{
    let mut pieces = groups.items();
    let Some(first) = pieces.next() else {
        return Ok(());
    };
    text.extend_from_slice(first.text())?;
    while let Some(piece) = pieces.next() {
        text.extend_from_slice(piece.behind_comma())?;
    }
    Ok(())
}
