ghost use Rattle.std.specs.Prelude.{◌≡◌, OnOk, OnErr};
ghost use Rattle.serde_json.specs.Data.{no_members, object};
ghost use Rattle.json_tree.specs.Document.{with_member};
ghost use Rattle.json_tree.specs.Tree.{data_of};
ghost use Rattle.json_tree.specs.Members.{members_data};

use crate::name::Name;
use crate::tree::Tree;
use std::alloc::{AllocError, Global};
use std::collections::BTreeMap;

/// An object in the making: members with distinct names, in the byte order of their names.
#[derive(Debug, Drop)]
pub struct Members {
    map: BTreeMap<Name, Tree>,
}

impl Members {
    /// No member. Takes no memory.
    #[tactic(auto, unfolding(crate::specs::Members::members_data))]
    pub fn new(alloc: Global) -> Members
        ensures { members_data result ≡ no_members }
    {
        Members {
            map: BTreeMap::new(alloc),
        }
    }

    /// Sets the member of this name, in place of the one that was there. Copies the name.
    pub fn put(&mut self, alloc: Global, name: &str, value: Tree) -> Result<(), AllocError>
        ensures ok { OnOk result (members_data self.new
            ≡ with_member name.now (data_of value) (members_data self.old)) }
        ensures err { OnErr result (members_data self.new ≡ members_data self.old) }
    {
        let name = Name::from_str(alloc, name)?;
        self.put_name(name, value)
    }

    /// The same with a name that the caller gives away.
    #[tactic(auto, using(crate::proofs::Objects::entries_insert), unfolding(crate::specs::Members::members_data))]
    pub fn put_name(&mut self, name: Name, value: Tree) -> Result<(), AllocError>
        ensures ok { OnOk result (members_data self.new
            ≡ with_member name (data_of value) (members_data self.old)) }
        ensures err { OnErr result (members_data self.new ≡ members_data self.old) }
    {
        drop(self.map.insert(name, value)?);
        Ok(())
    }

    /// The object with these members. Takes no memory.
    #[tactic(auto, unfolding(crate::specs::Members::members_data, crate::specs::Tree::data_of))]
    pub fn into_tree(self) -> Tree
        ensures { data_of result ≡ object (members_data self) }
    {
        let Members { map } = self;
        Tree::Object(map)
    }
}
