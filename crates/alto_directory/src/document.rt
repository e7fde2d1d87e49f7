ghost use Rattle.std.specs.Prelude.{◌≡◌, IfOk, OnOk};
ghost use Rattle.json_tree.specs.Members.{members_data};
ghost use Rattle.json_tree.specs.Tree.{data_of};
ghost use Rattle.alto_maps.specs.MergeForm.{with_members};
ghost use Rattle.alto_directory.specs.Directory as spec;

use crate::cost_types::cost_types;
use crate::entries::entries_of;
use crate::entry::entries_tree;
use crate::network::{Network, networks_of};
use alto_rows::RowStore;
use json_tree::{Members, Tree};
use std::alloc::{AllocError, Global};

/// The information resource directory (RFC 7285, section 9.2).
///
/// Costs a walk over the rows of the networks, and for each network a search and a walk over the rows of its metrics
/// and a search and a walk over those of its properties. No row of a PID, a prefix or a cost is read. Its lists in byte
/// order cost one search for each of their texts.
#[tactic(auto, unfolding(crate::specs::Directory::directory))]
pub fn directory<R: RowStore>(alloc: Global, rows: &R) -> Result<Tree, AllocError>
    ensures { IfOk result (λ tree. data_of tree ≡ spec.directory (R.rows rows.now)) }
{
    let networks = networks_of(alloc, rows)?;
    directory_of(alloc, &networks)
}

/// The directory of networks.
fn directory_of(alloc: Global, networks: &[Network]) -> Result<Tree, AllocError>
    ensures { IfOk result (λ tree. data_of tree ≡ spec.directory_of networks.now) }
{
    let mut members = Members::new(alloc);
    members.put(alloc, "meta", meta(alloc, networks)?)?;
    members.put(alloc, "resources", resources(alloc, networks)?)?;
    Ok(members.into_tree())
}

/// The meta: cost types by their names, and the default network map.
fn meta(alloc: Global, networks: &[Network]) -> Result<Tree, AllocError>
    ensures { IfOk result (λ tree. data_of tree ≡ spec.meta_data networks.now) }
{
    let mut members = Members::new(alloc);
    members.put(alloc, "cost-types", cost_types(alloc, networks)?)?;
    put_default(alloc, networks, &mut members)?;
    Ok(members.into_tree())
}

/// The default network map, where there is a network.
fn put_default(alloc: Global, networks: &[Network], meta: &mut Members) -> Result<(), AllocError>
    ensures { OnOk result (members_data meta.new
        ≡ with_members (members_data meta.old) (spec.default_map networks.now)) }
{
    match networks.first() {
        Some(network) => {
            let name = Tree::text(alloc, network.name.as_str())?;
            meta.put(alloc, "default-alto-network-map", name)
        }
        None => Ok(()),
    }
}

/// The entries by their ids.
fn resources(alloc: Global, networks: &[Network]) -> Result<Tree, AllocError>
    ensures { IfOk result (λ tree. data_of tree ≡ spec.resources networks.now) }
{
    let entries = entries_of(alloc, networks)?;
    entries_tree(alloc, entries)
}
