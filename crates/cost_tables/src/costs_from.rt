ghost use Rattle.std.specs.Prelude.{◌≡◌, length, option_map, slice_get};
ghost use Rattle.std.specs.List.Sorted.{IsStrictlySortedBy};
ghost use Rattle.std.specs.Map.{keys_of};
ghost use Rattle.alto_rows.specs.Order.{name_cmp};
ghost use Rattle.cost_tables.specs.Tables.{costs_if_any};

use crate::from_source::FromSource;
use alto_names::PidName;
use std::marker::Model;

/// The costs in a metric from one source. A contract sees each destination with its cost, in byte order.
#[derive(Drop)]
pub struct CostsFrom<'a> {
    from: Option<&'a FromSource>,
}

impl<'a> Model for CostsFrom<'a> {
    ghost use Rattle.std.specs.Prelude.{option_map};
    ghost use Rattle.cost_tables.specs.Tables.{Costs, costs_if_any};

    ghost Value = { Costs };

    ghost view = { λ costs. costs_if_any (option_map (λ from. from.now.1.costs) costs.from) };
}

impl<'a> CostsFrom<'a> {
    /// Those from this source, or none.
    pub(crate) fn new(from: Option<&'a FromSource>) -> CostsFrom<'a>
        ensures { result ≡ costs_if_any (option_map (λ from. from.now.1.costs) from.entry) }
    {
        CostsFrom { from }
    }

    /// How many there are.
    pub fn len(&self) -> usize
        ensures count { result ≡ length self.now }
        ensures order { IsStrictlySortedBy name_cmp (keys_of self.now) }
    {
        match self.from {
            Some(from) => from.count(),
            None => 0,
        }
    }

    /// The destination and the cost at a place, if there is one.
    pub fn pair(&self, place: usize) -> Option<(&'a PidName, u64)>
        ensures { option_map (λ pair. (pair.0.now, pair.1)) result ≡ slice_get self.now place }
    {
        self.from?.pair(place)
    }
}
