ghost use Rattle.std.specs.Prelude.{◌≡◌, IfOk, map};
ghost use Rattle.serde_json.specs.Data.{null, boolean, number, unsigned, string};

use crate::name::Name;
use arrayvec::ArrayString;
use std::alloc::{AllocError, Global};
use std::collections::BTreeMap;

/// The greatest length of a text that stands in its tree, in bytes.
const ROOM: usize = 24;

/// A JSON value (RFC 8259). Numbers are the whole numbers 0 to 2^64 - 1.
#[derive(Debug, Drop)]
pub enum Tree {
    /// The value null.
    Null,
    /// True or false.
    Bool(bool),
    /// A whole number.
    Num(u64),
    /// A text.
    Text(Name),
    /// A text of at most 24 bytes, which stands in the tree itself.
    Short(ArrayString<ROOM>),
    /// An array's values, in order.
    List(Vec<Tree>),
    /// The members, in the byte order of their names.
    Object(BTreeMap<Name, Tree>),
}

impl Tree {
    ghost use Rattle.json_tree.specs.Document.{array_of};
    ghost use Rattle.json_tree.specs.Tree.{data_of};

    /// A text value with a copy of the text. Takes no memory where that has at most 24 bytes.
    #[tactic(auto, unfolding(crate::specs::Tree::data_of))]
    pub fn text(alloc: Global, text: &str) -> Result<Tree, AllocError>
        ensures { IfOk result (λ tree. data_of tree ≡ string text.now) }
    {
        match ArrayString::from(text) {
            Ok(short) => Ok(Tree::Short(short)),
            Err(_) => Ok(Tree::Text(Name::from_str(alloc, text)?)),
        }
    }

    /// A text value of a text that the caller gives away. Takes no memory.
    #[tactic(auto, unfolding(crate::specs::Tree::data_of))]
    pub fn from_name(name: Name) -> Tree
        ensures { data_of result ≡ string name }
    {
        Tree::Text(name)
    }

    /// The value null. Takes no memory.
    #[tactic(auto, unfolding(crate::specs::Tree::data_of))]
    pub fn null() -> Tree
        ensures { data_of result ≡ null }
    {
        Tree::Null
    }

    /// True or false. Takes no memory.
    #[tactic(auto, unfolding(crate::specs::Tree::data_of))]
    pub fn boolean(truth: bool) -> Tree
        ensures { data_of result ≡ boolean truth }
    {
        Tree::Bool(truth)
    }

    /// A whole number. Takes no memory.
    #[tactic(auto, unfolding(crate::specs::Tree::data_of))]
    pub fn number(n: u64) -> Tree
        ensures { data_of result ≡ number (unsigned n) }
    {
        Tree::Num(n)
    }

    /// An array of these values. Takes no memory.
    #[tactic(auto, unfolding(crate::specs::Tree::data_of))]
    pub fn list(trees: Vec<Tree>) -> Tree
        ensures { data_of result ≡ array_of (map data_of trees.items) }
    {
        Tree::List(trees)
    }
}
