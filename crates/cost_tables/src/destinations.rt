//! Destinations that sources share.
ghost use Rattle.std.specs.Prelude.{◌≡◌, true, IfOk, IfSome, OnOk, Some, option_map, slice_get};
ghost use Rattle.std.specs.List.Sorted.{IsStrictlySortedBy};
ghost use Rattle.alto_rows.specs.Order.{name_cmp};
ghost use Rattle.cost_tables.specs.Lists.{ArePlaces, IsPlace};

use crate::heads::{head_of, place_of};
use crate::pid_text::PidText;
use alto_names::PidName;
use std::alloc::{AllocError, Global};
use std::marker::Model;

/// The names of destinations in byte order, each once, and the number of this list among those of a table. A contract
/// sees both.
#[derive(Drop)]
pub(crate) struct Destinations {
    number: u64,
    names: Vec<PidName>,
    /// The first bytes of the names, where a search begins.
    heads: Vec<u64>,
}

impl Model for Destinations {
    ghost use Rattle.std.specs.List.Sorted.{IsStrictlySortedBy};
    ghost use Rattle.alto_rows.specs.Order.{name_cmp};
    ghost use Rattle.cost_tables.specs.Lists.{Numbered};

    ghost Value = { Numbered };

    ghost view = { λ list. record { number = list.number; names = list.names.items } };

    ghost invariant = { λ list. IsStrictlySortedBy name_cmp list.names.items };
}

impl Destinations {
    /// These names under a number.
    pub(crate) fn new(
        alloc: Global,
        number: u64,
        names: Vec<PidName>,
    ) -> Result<Destinations, AllocError>
        requires { IsStrictlySortedBy name_cmp names.items }
        ensures { IfOk result (λ list. list ≡ record { number = number; names = names.items }) }
    {
        let heads = heads_of(alloc, &names)?;
        Ok(Destinations {
            number,
            names,
            heads,
        })
    }

    /// The number.
    pub(crate) fn number(&self) -> u64
        ensures { result ≡ self.now.number }
    {
        self.number
    }

    /// The names.
    pub(crate) fn names(&self) -> &[PidName]
        ensures names { result.now ≡ self.now.names }
        ensures order { IsStrictlySortedBy name_cmp self.now.names }
    {
        &self.names
    }

    /// The name at a place, if there is one.
    pub(crate) fn name(&self, place: usize) -> Option<&PidName>
        ensures { option_map (λ name. name.now) result ≡ slice_get self.now.names place }
    {
        name_at(&self.names, place)
    }

    /// Where a name stands, if it does. A search among numbers that lie together, and one comparison of two names,
    /// where no other name begins with the same eight bytes; else a binary search more.
    pub(crate) fn place_of(&self, name: &PidName) -> Option<usize>
        ensures place { IfSome result (λ place. slice_get self.now.names place ≡ Some name.now) }
        ensures rise { IsStrictlySortedBy name_cmp self.now.names }
    {
        let destination = PidText::of(name);
        let place = self.place(&destination, 0);
        if stands_at(&self.names, place, &destination) {
            Some(place)
        } else {
            None
        }
    }

    /// Finds where destinations stand, past all names where one isn't there. For each one search among numbers that lie
    /// together, which is spared where it follows the one before here too, and one comparison of two names, where no
    /// other name begins with the same eight bytes; else one binary search more.
    pub(crate) fn find(
        &self,
        destinations: &[PidText],
        places: &mut Vec<usize>,
    ) -> Result<(), AllocError>
        ensures { OnOk result (ArePlaces self.now.names destinations.now places.new.items) }
    {
        places.clear();
        let mut next = 0;
        for destination in destinations {
            let place = self.place(destination, next);
            next = place.saturating_add(1);
            places.push(place)?;
        }
        Ok(())
    }

    /// Where a destination stands, which may be at this place.
    fn place(&self, destination: &PidText, next: usize) -> usize
        ensures { IsPlace self.now.names destination.now result }
    {
        let guess = self.guess(head_of(destination), next);
        if stands_at(&self.names, guess, destination) {
            return guess;
        }
        self.search(destination)
    }

    /// Where a name with this head may stand: at this place, or where the first one does.
    fn guess(&self, head: u64, next: usize) -> usize {
        match self.heads.get(next) {
            Some(other) if *other == head => next,
            _ => place_of(head, &self.heads),
        }
    }

    /// Where a destination stands, past all names if it isn't there. One binary search.
    fn search(&self, destination: &PidText) -> usize
        ensures { IsPlace self.now.names destination.now result }
    {
        match self
            .names
            .binary_search_by(|name| name.cmp_bytes(destination.as_bytes()))
        {
            Ok(place) => place,
            Err(_) => self.names.len(),
        }
    }
}

fn name_at(names: &[PidName], place: usize) -> Option<&PidName>
    ensures { option_map (λ name. name.now) result ≡ slice_get names.now place }
{
    names.get(place)
}

/// Whether a destination stands at a place.
pub(crate) fn stands_at(destinations: &[PidName], place: usize, destination: &PidText) -> bool
    ensures { result ≡ true → slice_get destinations.now place ≡ Some destination.now }
{
    match destinations.get(place) {
        Some(name) => name.matches(destination.as_bytes()),
        None => false,
    }
}

fn heads_of(alloc: Global, names: &[PidName]) -> Result<Vec<u64>, AllocError> {
    let mut heads = Vec::with_capacity(alloc, names.len())?;
    for name in names {
        heads.push(head_of(&PidText::of(name)))?;
    }
    Ok(heads)
}
