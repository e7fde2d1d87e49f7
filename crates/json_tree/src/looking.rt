ghost use Rattle.std.specs.Prelude.{◌≡◌, option_map};
ghost use Rattle.serde_json.specs.Find.{get, get_member, as_array, as_str};
ghost use Rattle.json_tree.specs.Tree.{data_of, items_data, entries_data};

use crate::name::Name;
use crate::tree::Tree;
use std::collections::BTreeMap;

impl Tree {
    /// The value of an object's member, and none of anything else. Linear in the number of members.
    #[tactic(auto, unfolding(crate::specs::Tree::data_of))]
    pub fn member(&self, name: &str) -> Option<&Tree>
        ensures { option_map (λ tree. data_of tree.now) result ≡ get name.now (data_of self.now) }
    {
        match self {
            Tree::Object(members) => value_at(members, name),
            _ => None,
        }
    }

    /// The trees of a list, and none of anything else.
    #[tactic(auto, unfolding(crate::specs::Tree::data_of))]
    pub fn as_list(&self) -> Option<&[Tree]>
        ensures { option_map (λ trees. items_data trees.now) result ≡ as_array (data_of self.now) }
    {
        match self {
            Tree::List(trees) => Some(trees.as_slice()),
            _ => None,
        }
    }

    /// The text of a text value, and none of anything else.
    #[tactic(auto, unfolding(crate::specs::Tree::data_of))]
    pub fn as_text(&self) -> Option<&str>
        ensures { option_map (λ text. text.now) result ≡ as_str (data_of self.now) }
    {
        match self {
            Tree::Text(text) => Some(text.as_str()),
            Tree::Short(text) => Some(text.as_str()),
            _ => None,
        }
    }
}

fn value_at<'t>(members: &'t BTreeMap<Name, Tree>, name: &str) -> Option<&'t Tree>
    ensures { option_map (λ tree. data_of tree.now) result
        ≡ get_member name.now (entries_data members.now.entries) }
{
    for (key, tree) in members.iter() {
        if key.as_str() == name {
            return Some(tree);
        }
    }
    None
}
