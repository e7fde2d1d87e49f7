//! Endpoints in the byte order of their texts, each once.
ghost use Rattle.std.specs.Prelude.{◌≡◌, IfOk, map};
ghost use Rattle.cost_filters.specs.Text.{member_start};
ghost use Rattle.endpoint_costs.specs.Entries.{AreOrdered, pids, texts};

use crate::endpoint::Endpoint;
use cost_filters::MemberStarts;
use cost_tables::PidText;
use std::alloc::{AllocError, Global};

/// Endpoints in the byte order of their texts, each once. Costs one sort.
pub(crate) fn in_order<'a>(ends: Vec<Endpoint<'a>>) -> Vec<Endpoint<'a>>
    ensures { AreOrdered ends.entry.items result.items }
{
    let mut ordered = ends;
    ordered.sort_unstable();
    ordered.dedup();
    ordered
}

/// The PID of each endpoint.
pub(crate) fn pids_of<'a>(
    alloc: Global,
    ends: &[Endpoint<'a>],
) -> Result<Vec<PidText<'a>>, AllocError>
    ensures { IfOk result (λ found. found.items ≡ pids ends.now) }
{
    let mut pids = Vec::with_capacity(alloc, ends.len())?;
    for end in ends {
        pids.push(end.pid.copied())?;
    }
    Ok(pids)
}

/// The texts of endpoints as members have them.
pub(crate) fn starts_of(alloc: Global, ends: &[Endpoint]) -> Result<MemberStarts, AllocError>
    ensures { IfOk result (λ starts. starts ≡ map member_start (texts ends.now)) }
{
    let mut starts = MemberStarts::with_room(alloc, ends.len())?;
    for end in ends {
        starts = starts.with(end.text.as_str())?;
    }
    Ok(starts)
}
