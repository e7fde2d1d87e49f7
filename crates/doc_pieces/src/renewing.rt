//! The groups of a map from those of another.
ghost use Rattle.std.specs.Prelude.{◌≡◌, IfOk, map};
ghost use Rattle.std.specs.List.Sorted.{IsStrictlySortedBy};
ghost use Rattle.alto_maps.specs.Places.{touched_groups};
ghost use Rattle.doc_pieces.specs.Renewed as spec;
ghost use Rattle.shared_list.specs.Order.{InOrder, name_cmp};

use crate::grouped::Grouped;
use crate::piece::{Piece, written};
use crate::touched::touched_names;
use alto_maps::Place;
use json_tree::Name;
use shared_list::{Change, SharedList};
use std::alloc::{AllocError, Global};

/// The groups of a map: those that places touch are written anew, where they stand, and all others are shared.
pub(crate) fn renewed_groups<G: Grouped>(
    alloc: Global,
    pieces: &SharedList<Piece>,
    groups: &G,
    places: &[Place],
) -> Result<SharedList<Piece>, AllocError>
    ensures groups { IfOk result (λ renewed. renewed
        ≡ spec.renewed (G.map groups.now) (touched_groups places.now) pieces.now) }
    ensures order { IfOk result (λ renewed. InOrder spec.name_of renewed) }
{
    let touched = touched_names(alloc, places)?;
    with_written(alloc, pieces, groups, &touched)
}

/// Pieces, of which those of these names are written anew, where they stand.
pub(crate) fn with_written<G: Grouped>(
    alloc: Global,
    pieces: &SharedList<Piece>,
    groups: &G,
    names: &[Name],
) -> Result<SharedList<Piece>, AllocError>
    requires { IsStrictlySortedBy name_cmp names.now }
    ensures groups { IfOk result (λ renewed. renewed ≡ spec.renewed (G.map groups.now) names.now pieces.now) }
    ensures order { IfOk result (λ renewed. InOrder spec.name_of renewed) }
{
    let mut changes = Vec::with_capacity(alloc, names.len())?;
    for name in names {
        changes.push(change_of(alloc, groups, name)?)?;
    }
    pieces.changed(alloc, changes)
}

/// A name with its group, written anew, if it stands.
fn change_of<'a, G: Grouped>(
    alloc: Global,
    groups: &G,
    name: &'a Name,
) -> Result<Change<'a, Piece>, AllocError>
    ensures { IfOk result (λ change. change ≡ spec.change_of (G.map groups.now) name.now) }
{
    let mut piece = None;
    if groups.has_group(alloc, name)? {
        piece = Some(written(alloc, groups, name.clone()?)?);
    }
    Ok(Change::new(name.as_str().as_bytes(), piece))
}
