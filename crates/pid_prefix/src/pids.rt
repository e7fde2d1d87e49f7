ghost use Rattle.std.specs.Prelude.{◌≡◌, ◌<◌, None, IfOk, length, option_copied, slice_index_or};

use alto_names::PidName;
use std::alloc::{AllocError, Global};
use std::marker::Model;

/// PIDs, of which some places have none, in 9 bytes each: an `Option` of a name takes 16. A contract sees the list.
#[derive(Drop)]
pub(crate) struct Pids {
    /// A name for each place, also for one that has no PID.
    names: Vec<PidName>,
    are_pids: Vec<bool>,
}

const _: () = prove!(size_of::<PidName>() + size_of::<bool>() == 9);

impl Model for Pids {
    ghost use Rattle.std.specs.Prelude.{◌≡◌, ℕ, List, Option, length, map};
    ghost use Rattle.std.specs.List.{zip};
    ghost use Rattle.pid_prefix.specs.Pids.{pid_if};

    ghost Value = { List (Option (List ℕ)) };

    ghost view = { λ pids. map pid_if (zip pids.are_pids.items pids.names.items) };

    ghost invariant = { λ pids. length pids.are_pids.items ≡ length pids.names.items };
}

impl Pids {
    /// These PIDs. A place that has none gets the least name.
    pub(crate) fn packed(alloc: Global, pids: &[Option<PidName>]) -> Result<Pids, AllocError>
        ensures { IfOk result (λ kept. kept ≡ pids.now) }
    {
        let least = PidName::least(alloc)?;
        let mut names = Vec::with_capacity(alloc, pids.len())?;
        let mut are_pids = Vec::with_capacity(alloc, pids.len())?;
        for pid in pids {
            are_pids.push(pid.is_some())?;
            names.push(pid.as_ref().unwrap_or(&least).clone()?)?;
        }
        Ok(Pids { names, are_pids })
    }

    /// The PID at the place, if this has one.
    pub(crate) fn at(&self, place: usize) -> Option<&PidName>
        requires { place < length self.now }
        ensures { option_copied result ≡ slice_index_or self.now place None }
    {
        let name = &self.names[place];
        if self.are_pids[place] {
            Some(name)
        } else {
            None
        }
    }
}
