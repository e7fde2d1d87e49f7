//! Numbers in as few bytes as they fit.
ghost use Rattle.std.specs.Prelude.{◌≡◌, ◌++◌, IfOk, IfSome, OnOk, true, length, map, nat_eq, slice_get};
ghost use Rattle.std.specs.Prelude.{slice_set};

use std::alloc::{AllocError, Global};
use std::marker::Model;

/// Numbers, in 4 bytes each where all of them fit, else in 8. A contract sees the numbers.
#[derive(Drop)]
pub(crate) struct Numbers {
    kept: Kept,
}

#[derive(Drop)]
enum Kept {
    Narrow(Vec<u32>),
    Wide(Vec<u64>),
}

impl Model for Numbers {
    ghost use Rattle.std.specs.Prelude.{ℕ, List};
    ghost use Rattle.cost_tables.specs.Numbers.{kept_in};

    ghost Value = { List ℕ };

    ghost view = { λ numbers. kept_in numbers.kept };
}

impl Numbers {
    /// These. One pass over them.
    pub(crate) fn of(alloc: Global, numbers: Vec<u64>) -> Result<Numbers, AllocError>
        ensures { IfOk result (λ kept. kept ≡ numbers.items) }
    {
        match narrowed(alloc, &numbers)? {
            Some(narrow) => Ok(Numbers {
                kept: Kept::Narrow(narrow),
            }),
            None => Ok(Numbers {
                kept: Kept::Wide(numbers),
            }),
        }
    }

    /// The same once more. Copies their bytes.
    pub(crate) fn copied(&self, alloc: Global) -> Result<Numbers, AllocError>
        ensures { IfOk result (λ numbers. numbers ≡ self.now) }
    {
        let kept = match &self.kept {
            Kept::Narrow(numbers) => Kept::Narrow(copy_of(alloc, numbers)?),
            Kept::Wide(numbers) => Kept::Wide(copy_of(alloc, numbers)?),
        };
        Ok(Numbers { kept })
    }

    /// That at a place, if there is one.
    pub(crate) fn get(&self, place: usize) -> Option<u64>
        ensures { result ≡ slice_get self.now place }
    {
        match &self.kept {
            Kept::Narrow(numbers) => narrow_number(numbers, place),
            Kept::Wide(numbers) => wide_number(numbers, place),
        }
    }

    /// Puts a number in place of another, and tells whether there is one and this one fits where it stood.
    pub(crate) fn set(&mut self, place: usize, number: u64) -> bool
        ensures set { result ≡ true → self.new ≡ slice_set self.old place number }
        ensures even { length self.new ≡ length self.old }
    {
        match &mut self.kept {
            Kept::Narrow(numbers) => set_narrow(numbers, place, number),
            Kept::Wide(numbers) => set_wide(numbers, place, number),
        }
    }

    /// Whether there are none.
    pub(crate) fn is_empty(&self) -> bool
        ensures { result ≡ nat_eq (length self.now) 0 }
    {
        match &self.kept {
            Kept::Narrow(numbers) => numbers.is_empty(),
            Kept::Wide(numbers) => numbers.is_empty(),
        }
    }

    /// Puts those at places behind others, `None` where there is none. No read waits for another, as it would where
    /// each were written to an answer first.
    pub(crate) fn push_at(
        &self,
        places: &[usize],
        found: &mut Vec<Option<u64>>,
    ) -> Result<(), AllocError>
        ensures { OnOk result (found.new.items ≡ found.old.items ++ map (slice_get self.now) places.now) }
    {
        match &self.kept {
            Kept::Narrow(numbers) => push_narrow(numbers, places, found),
            Kept::Wide(numbers) => push_wide(numbers, places, found),
        }
    }
}

/// The numbers in 4 bytes each, where all of them fit.
fn narrowed(alloc: Global, numbers: &[u64]) -> Result<Option<Vec<u32>>, AllocError>
    ensures { IfOk result (λ narrow. IfSome narrow (λ narrow. narrow.items ≡ numbers.now)) }
{
    let mut narrow = Vec::with_capacity(alloc, numbers.len())?;
    for number in numbers {
        let Ok(number) = u32::try_from(*number) else {
            return Ok(None);
        };
        narrow.push(number)?;
    }
    Ok(Some(narrow))
}

fn copy_of<T: Copy>(alloc: Global, numbers: &[T]) -> Result<Vec<T>, AllocError>
    ensures { IfOk result (λ copy. copy.items ≡ numbers.now) }
{
    let mut copy = Vec::with_capacity(alloc, numbers.len())?;
    copy.extend_from_slice(numbers)?;
    Ok(copy)
}

fn set_narrow(numbers: &mut [u32], place: usize, number: u64) -> bool
    ensures set { result ≡ true → numbers.new ≡ slice_set numbers.old place number }
    ensures even { length numbers.new ≡ length numbers.old }
{
    let Ok(number) = u32::try_from(number) else {
        return false;
    };
    if place >= numbers.len() {
        return false;
    }
    numbers[place] = number;
    true
}

fn set_wide(numbers: &mut [u64], place: usize, number: u64) -> bool
    ensures set { result ≡ true → numbers.new ≡ slice_set numbers.old place number }
    ensures even { length numbers.new ≡ length numbers.old }
{
    if place >= numbers.len() {
        return false;
    }
    numbers[place] = number;
    true
}

fn push_narrow(
    numbers: &[u32],
    places: &[usize],
    found: &mut Vec<Option<u64>>,
) -> Result<(), AllocError>
    ensures { OnOk result (found.new.items ≡ found.old.items ++ map (slice_get numbers.now) places.now) }
{
    for place in places {
        found.push(narrow_number(numbers, *place))?;
    }
    Ok(())
}

fn narrow_number(numbers: &[u32], place: usize) -> Option<u64>
    ensures { result ≡ slice_get numbers.now place }
{
    Some(u64::from(*numbers.get(place)?))
}

fn push_wide(
    numbers: &[u64],
    places: &[usize],
    found: &mut Vec<Option<u64>>,
) -> Result<(), AllocError>
    ensures { OnOk result (found.new.items ≡ found.old.items ++ map (slice_get numbers.now) places.now) }
{
    for place in places {
        found.push(wide_number(numbers, *place))?;
    }
    Ok(())
}

fn wide_number(numbers: &[u64], place: usize) -> Option<u64>
    ensures { result ≡ slice_get numbers.now place }
{
    Some(*numbers.get(place)?)
}
