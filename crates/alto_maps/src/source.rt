ghost use Rattle.std.specs.Prelude.{◌≡◌, true, IfOk, option_map};
ghost use Rattle.json_tree.specs.Tree.{data_of};
ghost use Rattle.alto_maps.specs.Shape.{Shape, Face, stands, group_object, member_in, section_object};

use json_tree::{Name, Tree};
use std::alloc::{AllocError, Global};

/// A map as it is at some rows, which documents and edges are made from. A contract sees the kind of map as its shape,
/// and the map as its face.
pub trait MapSource {
    ghost shape: { Shape };

    ghost face: { Self → Face };

    /// The name of the section. Takes no memory.
    fn section(&self) -> &str
        ensures { result.now ≡ shape.section };

    /// The names of the members that lead to the version, from the meta down.
    fn path(&self, alloc: Global) -> Result<Vec<Name>, AllocError>
        ensures { IfOk result (λ path. path.items ≡ shape.path) };

    /// The version that the meta tells.
    fn version(&self, alloc: Global) -> Result<Tree, AllocError>
        ensures { IfOk result (λ version. data_of version ≡ (face self.now).version) };

    /// The meta.
    fn meta(&self, alloc: Global) -> Result<Tree, AllocError>
        ensures { IfOk result (λ meta. data_of meta ≡ (face self.now).meta) };

    /// All groups, as the object that the section is. One walk.
    fn groups(&self, alloc: Global) -> Result<Tree, AllocError>
        ensures { IfOk result (λ groups. data_of groups ≡ section_object (face self.now)) };

    /// Whether a group stands. One search.
    fn stands(&self, alloc: Global, group: &Name) -> Result<bool, AllocError>
        ensures { IfOk result (λ standing. standing ≡ stands (face self.now) group.now) };

    /// The object of a group that stands. One walk over its members.
    fn group(&self, alloc: Global, group: &Name) -> Result<Tree, AllocError>
        requires { stands (face self.now) group.now ≡ true }
        ensures { IfOk result (λ members. data_of members ≡ group_object (face self.now) group.now) };

    /// The value of a member of a group that stands, `None` exactly where the group doesn't have it. One search, and a
    /// walk over the value.
    fn value(&self, alloc: Global, group: &Name, member: &Name) -> Result<Option<Tree>, AllocError>
        requires { stands (face self.now) group.now ≡ true }
        ensures { IfOk result (λ value. option_map data_of value
            ≡ member_in (face self.now) group.now member.now) };
}
