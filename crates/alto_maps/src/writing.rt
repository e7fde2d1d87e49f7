ghost use Rattle.std.specs.Prelude.{◌≡◌, [], ◌∷◌, codes, IfOk, OnOk};
ghost use Rattle.serde_json.specs.Written.{compact_text};
ghost use Rattle.json_tree.specs.Document.{members_of};
ghost use Rattle.alto_maps.specs.Shape.{section_object, document};
ghost use Rattle.alto_maps.specs.Writing.{AddsValue, AddsMember, AddsMembers};

use crate::source::MapSource;
use json::Writer;
use std::alloc::{AllocError, Global};
use std::cmp::Ordering;

/// A map whose parts can be written without a tree.
pub trait Walked: MapSource {
    /// Writes the meta.
    fn write_meta(&self, alloc: Global, out: &mut Writer) -> Result<(), AllocError>
        ensures { OnOk result (AddsValue (Self.face self.now).meta out.old out.new) };

    /// Writes the section: the groups in byte order, each with its members in byte order. One walk.
    fn write_groups(&self, alloc: Global, out: &mut Writer) -> Result<(), AllocError>
        ensures { OnOk result (AddsValue (section_object (Self.face self.now)) out.old out.new) };
}

/// The text of a map's document, with no space, an object's members in the byte order of their names.
///
/// Costs what writing the meta and the groups costs: one walk over the map, and no tree.
pub fn write_document<M: Walked>(alloc: Global, map: &M) -> Result<Vec<u8>, AllocError>
    ensures { IfOk result (λ bytes. bytes.items
        ≡ compact_text (document M.shape (M.face map.now))) }
{
    let mut out = Writer::new(Vec::new(alloc));
    write_whole(alloc, map, &mut out)?;
    Ok(out.into_inner())
}

/// Writes the document.
fn write_whole<M: Walked>(alloc: Global, map: &M, out: &mut Writer) -> Result<(), AllocError>
    ensures { OnOk result (AddsValue (document M.shape (M.face map.now)) out.old out.new) }
{
    out.begin_object()?;
    write_members(alloc, map, out)?;
    out.end_object()
}

/// Writes the members of the document, the one first whose name is less.
fn write_members<M: Walked>(alloc: Global, map: &M, out: &mut Writer) -> Result<(), AllocError>
    ensures { OnOk result (AddsMembers (members_of ((codes "meta", (M.face map.now).meta)
        ∷ (M.shape.section, section_object (M.face map.now)) ∷ [])) out.old out.new) }
{
    match map.section().cmp("meta") {
        Ordering::Less => {
            write_section(alloc, map, out)?;
            write_meta(alloc, map, out)
        }
        Ordering::Equal => write_section(alloc, map, out),
        Ordering::Greater => {
            write_meta(alloc, map, out)?;
            write_section(alloc, map, out)
        }
    }
}

/// Writes the meta with its name.
fn write_meta<M: Walked>(alloc: Global, map: &M, out: &mut Writer) -> Result<(), AllocError>
    ensures { OnOk result (AddsMember (codes "meta") (M.face map.now).meta out.old out.new) }
{
    out.key("meta")?;
    map.write_meta(alloc, out)
}

/// Writes the section with its name.
fn write_section<M: Walked>(alloc: Global, map: &M, out: &mut Writer) -> Result<(), AllocError>
    ensures { OnOk result (AddsMember M.shape.section (section_object (M.face map.now)) out.old out.new) }
{
    out.key(map.section())?;
    map.write_groups(alloc, out)
}
