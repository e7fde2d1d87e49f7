ghost use Rattle.std.specs.Prelude.{◌≡◌, nat_eq, IfOk, ◌++◌, take};
ghost use Rattle.std.specs.Cmp.Lexicographic.{pointwise, lists_equiv, nat_list_eq_equiv};
ghost use Rattle.std.specs.Cmp.{partial_equiv_from_equiv};

use alto_names::AneName;
use json_tree::Name;
use std::alloc::{AllocError, Global};
use std::marker::Model;

/// What a row holds.
#[derive(Clone, Debug, PartialEq, Eq, Drop)]
pub enum Value {
    /// Nothing: the row tells by being there.
    Unit,
    /// A number.
    Num(u64),
    /// A text.
    Text(Name),
    /// Names of abstract network elements, in the order of a path.
    Names(AneNames),
}

/// A list of names of abstract network elements. A contract sees the list.
#[derive(Debug, Drop)]
pub struct AneNames {
    names: Vec<AneName>,
}

impl Model for AneNames {
    ghost use Rattle.std.specs.Prelude.{ℕ, List};

    ghost Value = { List (List ℕ) };

    ghost view = { λ list. list.names.items };
}

impl AneNames {
    /// The list of these names. Takes no memory.
    pub fn new(names: Vec<AneName>) -> AneNames
        ensures { result ≡ names.items }
    {
        AneNames { names }
    }

    /// The names, in their order. Takes no memory.
    pub fn as_slice(&self) -> &[AneName]
        ensures { result.now ≡ self.now }
    {
        &self.names
    }
}

impl Clone for AneNames {
    ghost is_clone = { λ list copy. copy ≡ list };

    fn clone(&self) -> Result<AneNames, AllocError> {
        let mut names = Vec::with_capacity(*self.names.allocator(), self.names.len())?;
        for name in &self.names {
            names.push(name.clone()?)?;
        }
        Ok(AneNames { names })
    }
}

impl PartialEq for AneNames {
    ghost eq = { pointwise (pointwise nat_eq) };

    ghost laws = { partial_equiv_from_equiv (lists_equiv nat_list_eq_equiv) };

    fn eq(&self, other: &AneNames) -> bool {
        self.names == other.names
    }
}

impl Eq for AneNames {
    ghost laws = { lists_equiv nat_list_eq_equiv };
}
