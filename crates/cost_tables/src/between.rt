ghost use Rattle.std.specs.Prelude.{◌≡◌, ◌*◌, length, option_map, slice_get};
ghost use Rattle.cost_tables.specs.Between.{rows_of};

use std::marker::Model;

/// The costs between sources and destinations, in one piece of memory. A contract sees a list for each source: for each
/// destination the cost, `None` where there is none.
#[derive(Drop)]
pub struct CostsBetween {
    costs: Vec<Option<u64>>,
    sources: usize,
    destinations: usize,
}

impl Model for CostsBetween {
    ghost use Rattle.std.specs.Prelude.{◌≡◌, ◌*◌, ℕ, List, Option, length};
    ghost use Rattle.cost_tables.specs.Between.{rows_of};

    ghost Value = { List (List (Option ℕ)) };

    ghost view = { λ between. rows_of between.sources between.destinations between.costs.items };

    ghost invariant = { λ between. length between.costs.items ≡ between.sources * between.destinations };
}

impl CostsBetween {
    /// Those of so many sources, one after another, with so many destinations each.
    pub(crate) fn new(costs: Vec<Option<u64>>, sources: usize, destinations: usize) -> CostsBetween
        requires { length costs.items ≡ sources * destinations }
        ensures { result ≡ rows_of sources destinations costs.items }
    {
        CostsBetween {
            costs,
            sources,
            destinations,
        }
    }

    /// Those of the source at a place, if there is one.
    pub fn from_source(&self, source: usize) -> Option<&[Option<u64>]>
        ensures { option_map (λ costs. costs.now) result ≡ slice_get self.now source }
    {
        if source >= self.sources {
            return None;
        }
        let start = source.checked_mul(self.destinations)?;
        let end = start.checked_add(self.destinations)?;
        self.costs.get(start..end)
    }
}
