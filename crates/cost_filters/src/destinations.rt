//! Destinations with their names as text.
ghost use Rattle.std.specs.Prelude.{◌≡◌, [], IfOk, map};
ghost use Rattle.cost_filters.specs.Text.{member_start};

use crate::starts::MemberStarts;
use alto_names::PidName;
use cost_tables::PidText;
use std::alloc::{AllocError, Global};
use std::marker::Model;

/// Destinations, with their names as members have them. A contract sees the destinations.
#[derive(Drop)]
pub(crate) struct Destinations {
    names: Vec<PidName>,
    starts: MemberStarts,
}

impl Model for Destinations {
    ghost use Rattle.std.specs.Prelude.{◌≡◌, List, map};
    ghost use Rattle.alto_maps.specs.Shape.{Name};
    ghost use Rattle.cost_filters.specs.Text.{member_start};

    ghost Value = { List Name };

    ghost view = { λ dsts. dsts.names.items };

    ghost invariant = { λ dsts. dsts.starts ≡ map member_start dsts.names.items };
}

impl Destinations {
    /// None. Takes no memory.
    pub(crate) fn none(alloc: Global) -> Destinations
        ensures { result ≡ [] }
    {
        Destinations {
            names: Vec::new(alloc),
            starts: MemberStarts::new(alloc),
        }
    }

    /// Those with these names. Where these are the same as those that were here, each costs one comparison of two
    /// names, else its text is made anew in their memory.
    pub(crate) fn renewed(self, names: Vec<PidName>) -> Result<Destinations, AllocError>
        ensures { IfOk result (λ dsts. dsts ≡ names.items) }
    {
        let Destinations { names: old, starts } = self;
        if old == names {
            return Ok(Destinations { names, starts });
        }
        let starts = starts_in(starts, &names)?;
        Ok(Destinations { names, starts })
    }

    /// The names.
    pub(crate) fn names(&self) -> &[PidName]
        ensures { result.now ≡ self.now }
    {
        &self.names
    }

    /// The names, as members have them.
    pub(crate) fn starts(&self) -> &MemberStarts
        ensures { result.now ≡ map member_start self.now }
    {
        &self.starts
    }
}

/// Names as members have them.
pub(crate) fn starts_of(alloc: Global, names: &[PidText]) -> Result<MemberStarts, AllocError>
    ensures { IfOk result (λ starts. starts ≡ map member_start names.now) }
{
    let mut starts = MemberStarts::with_room(alloc, names.len())?;
    for name in names {
        starts = starts.with(name.as_str())?;
    }
    Ok(starts)
}

/// The same, in the memory of some that aren't needed any more.
fn starts_in(room: MemberStarts, names: &[PidName]) -> Result<MemberStarts, AllocError>
    ensures { IfOk result (λ starts. starts ≡ map member_start names.now) }
{
    let mut starts = room.into_empty();
    for name in names {
        starts = starts.with(name.as_str())?;
    }
    Ok(starts)
}
