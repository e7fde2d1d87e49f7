ghost use Rattle.std.specs.Prelude.{◌≡◌, IfOk};
ghost use Rattle.json_tree.specs.Tree.{data_of};
ghost use Rattle.alto_maps.specs.Shape.{document};

use crate::source::MapSource;
use json_tree::{Members, Tree};
use std::alloc::{AllocError, Global};

/// The document of a map. Costs what its meta and its groups cost.
#[tactic(auto, unfolding(crate::specs::Shape::document))]
pub fn snapshot<M: MapSource>(alloc: Global, map: &M) -> Result<Tree, AllocError>
    ensures { IfOk result (λ tree. data_of tree ≡ document M.shape (M.face map.now)) }
{
    let mut document = Members::new(alloc);
    document.put(alloc, "meta", map.meta(alloc)?)?;
    document.put(alloc, map.section(), map.groups(alloc)?)?;
    Ok(document.into_tree())
}
