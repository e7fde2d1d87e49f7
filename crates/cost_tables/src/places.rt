//! Where destinations stand in a list of destinations.
ghost use Rattle.std.specs.Prelude.{◌≡◌, Bool, None, OnOk, Some};
ghost use Rattle.std.specs.Map.{lookup};
ghost use Rattle.cost_tables.specs.Lists.{ArePlacesFor, HaveNumbers, Sources};
ghost use Rattle.cost_tables.specs.Tables.{Name};

use crate::from_source::FromSource;
use crate::pid_text::PidText;
use std::alloc::{AllocError, Global};
use std::marker::Model;

/// Where each of some destinations stands in a list, and the number of that list, once there is one. A contract sees
/// both.
#[derive(Drop)]
pub(crate) struct Places {
    number: Option<u64>,
    places: Vec<usize>,
}

impl Model for Places {
    ghost use Rattle.cost_tables.specs.Lists.{Placed};

    ghost Value = { Placed };

    ghost view = { λ places. record { number = places.number; places = places.places.items } };
}

impl Places {
    /// None yet. Takes no memory.
    pub(crate) fn new(alloc: Global) -> Places
        ensures { result.number ≡ None }
    {
        Places {
            number: None,
            places: Vec::new(alloc),
        }
    }

    /// The places.
    pub(crate) fn places(&self) -> &[usize]
        ensures { result.now ≡ self.now.places }
    {
        &self.places
    }

    /// Finds those in the list of a source, where they are of a list with another number.
    pub(crate) fn find(
        &mut self,
        from: &FromSource,
        destinations: &[PidText],
    ) -> Result<(), AllocError>
        ensures found { OnOk result (self.new.number ≡ Some from.now.1.list.number) }
        ensures right { (sources : Sources) (test : Name → Bool) → HaveNumbers sources
            → lookup test sources ≡ Some from.now.1
            → ArePlacesFor sources destinations.now self.old → ArePlacesFor sources destinations.now self.new }
    {
        let number = from.number();
        if self.number == Some(number) {
            return Ok(());
        }
        self.number = None;
        from.find(destinations, &mut self.places)?;
        self.number = Some(number);
        Ok(())
    }
}
