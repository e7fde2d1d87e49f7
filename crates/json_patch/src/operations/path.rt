ghost use Rattle.std.specs.Prelude.{◌≡◌};

use json_tree::Name;
use std::marker::Model;

/// The names of the members that lead to a place of a document, from the root down (RFC 6901). A contract sees them
/// as a list.
#[derive(Debug, Drop)]
pub struct Path {
    names: Vec<Name>,
}

impl Model for Path {
    ghost use Rattle.std.specs.Prelude.{ℕ, List};

    ghost Value = { List (List ℕ) };

    ghost view = { λ path. path.names.items };
}

impl Path {
    /// The path along these names; with none it is the whole document. Takes no memory.
    pub fn new(names: Vec<Name>) -> Path
        ensures { result ≡ names.items }
    {
        Path { names }
    }

    /// The names along the path. Takes no memory.
    pub fn names(&self) -> &[Name]
        ensures { result.now ≡ self.now }
    {
        self.names.as_slice()
    }
}
