ghost use Rattle.std.specs.Prelude.{◌≡◌, ◌++◌, true, IfOk, OnOk};
ghost use Rattle.alto_maps.specs.Places.{set_of};
ghost use Rattle.alto_maps.specs.Shape.{Face, group_object, stands};
ghost use Rattle.doc_pieces.specs.Pieces.{member_text};

use json_tree::Name;
use std::alloc::{AllocError, Global};
use text_buffer::TextBuffer;

/// The groups of a map, of which each can be written alone. They may be kept apart from what the map is made from. A
/// contract sees the map as its face.
pub trait Grouped {
    ghost map: { Self → Face };

    /// The names of the groups, in byte order. One walk.
    fn group_names(&self, alloc: Global) -> Result<Vec<Name>, AllocError>
        ensures { IfOk result (λ names. names.items ≡ set_of (Self.map self.now).groups) };

    /// Whether a group stands. One search.
    fn has_group(&self, alloc: Global, group: &Name) -> Result<bool, AllocError>
        ensures { IfOk result (λ standing. standing ≡ stands (Self.map self.now) group.now) };

    /// Puts a group that stands at the end of a text, as a member (RFC 8259, with no space). One search, and one walk
    /// over its members.
    fn push_group(
        &self,
        alloc: Global,
        group: &Name,
        out: &mut TextBuffer,
    ) -> Result<(), AllocError>
        requires { stands (Self.map self.now) group.now ≡ true }
        ensures { OnOk result (out.new
            ≡ out.old ++ member_text group.now (group_object (Self.map self.now) group.now)) };
}
