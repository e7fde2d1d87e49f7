ghost use Rattle.std.specs.Prelude.{◌≡◌, IfOk, OnOk, map, option_map};
ghost use Rattle.json_tree.specs.Document.{with_member};
ghost use Rattle.json_tree.specs.Members.{members_data};
ghost use Rattle.json_tree.specs.Tree.{data_of};
ghost use Rattle.alto_maps.specs.MergeForm.{part, with_members};
ghost use Rattle.alto_directory.specs.Entry as spec;

use crate::lists::texts;
use crate::media_type::MediaType;
use json_tree::{Members, Name, Tree};
use std::alloc::{AllocError, Global};

/// An entry of a directory (RFC 7285, section 9.2.2).
#[derive(Drop)]
pub(crate) struct Entry {
    /// The id of the resource.
    pub(crate) id: Name,
    /// The path at which it is.
    pub(crate) uri: Name,
    /// What it answers.
    pub(crate) media_type: MediaType,
    /// What it takes, `None` where clients read it with no body.
    pub(crate) accepts: Option<MediaType>,
    /// What it can do.
    pub(crate) capabilities: Option<Tree>,
    /// The ids of the resources that it depends on.
    pub(crate) uses: Option<Vec<Name>>,
}

/// The entries by their ids.
pub(crate) fn entries_tree(alloc: Global, entries: Vec<Entry>) -> Result<Tree, AllocError>
    ensures { IfOk result (λ tree. data_of tree ≡ spec.entries_data (map spec.shown entries.items)) }
{
    let mut members = Members::new(alloc);
    for entry in entries {
        put(alloc, entry, &mut members)?;
    }
    Ok(members.into_tree())
}

/// One entry more.
fn put(alloc: Global, entry: Entry, entries: &mut Members) -> Result<(), AllocError>
    ensures { OnOk result (members_data entries.new
        ≡ with_member entry.id (spec.entry_data (spec.shown entry)) (members_data entries.old)) }
{
    let Entry {
        id,
        uri,
        media_type,
        accepts,
        capabilities,
        uses,
    } = entry;
    let mut members = Members::new(alloc);
    members.put(alloc, "uri", Tree::from_name(uri))?;
    members.put(alloc, "media-type", media_type.tree(alloc)?)?;
    put_part(
        alloc,
        &mut members,
        "accepts",
        accepts_tree(alloc, accepts)?,
    )?;
    put_part(alloc, &mut members, "capabilities", capabilities)?;
    put_part(alloc, &mut members, "uses", uses_tree(alloc, uses)?)?;
    entries.put_name(id, members.into_tree())
}

/// A member where it has a value.
fn put_part(
    alloc: Global,
    members: &mut Members,
    name: &str,
    value: Option<Tree>,
) -> Result<(), AllocError>
    ensures { OnOk result (members_data members.new
        ≡ with_members (members_data members.old) (part name.now (option_map data_of value))) }
{
    match value {
        Some(value) => members.put(alloc, name, value),
        None => Ok(()),
    }
}

fn accepts_tree(alloc: Global, accepts: Option<MediaType>) -> Result<Option<Tree>, AllocError>
    ensures { IfOk result (λ tree. option_map data_of tree ≡ option_map spec.type_data accepts) }
{
    match accepts {
        Some(media_type) => Ok(Some(media_type.tree(alloc)?)),
        None => Ok(None),
    }
}

fn uses_tree(alloc: Global, uses: Option<Vec<Name>>) -> Result<Option<Tree>, AllocError>
    ensures { IfOk result (λ tree. option_map data_of tree
        ≡ option_map spec.texts (option_map (λ names. names.items) uses)) }
{
    match uses {
        Some(names) => Ok(Some(texts(alloc, &names)?)),
        None => Ok(None),
    }
}
