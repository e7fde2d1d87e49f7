//! The doors of both sides, which are opened and closed together.
ghost use Rattle.std.specs.Prelude.{◌≡◌, ◌+◌, All, IfOk, OnOk, length};
ghost use Rattle.alto_doors.specs.Door.{just_opened};
ghost use Rattle.alto_doors.specs.Doors.{opened};

use crate::serving::Plan;
use alto_doors::{DoorFault, Doors};
use alto_serve::Side;
use std::alloc::Global;

/// A door, and the side that is asked through it.
#[derive(Drop)]
pub(crate) struct SideDoor<D> {
    pub door: D,
    pub side: Side,
}

/// Opens as many doors for each side as there are to be workers. Where one can't be opened, those that were are closed.
pub(crate) fn open_doors<D: Doors>(
    alloc: Global,
    doors: &mut D,
    plan: &Plan,
) -> Result<Vec<SideDoor<D::Door>>, DoorFault>
    ensures all { IfOk result (λ all. length all.items ≡ plan.now.workers + plan.now.workers) }
    ensures fresh { IfOk result (λ all. All (λ one. D.Door.state one.door ≡ just_opened) all.items) }
    ensures counted { D.counts doors.new ≡ opened result (D.counts doors.old) }
{
    let mut all = Vec::new(alloc);
    let public = open_side(
        alloc,
        doors,
        Side::Public,
        plan.public,
        plan.workers,
        &mut all,
    );
    let both = match public {
        Ok(()) => open_side(
            alloc,
            doors,
            Side::Operator,
            plan.operator,
            plan.workers,
            &mut all,
        ),
        Err(fault) => Err(fault),
    };
    match both {
        Ok(()) => Ok(all),
        Err(fault) => {
            close_unused(doors, all);
            Err(fault)
        }
    }
}

/// Opens so many doors for a side, behind those that are open.
fn open_side<D: Doors>(
    alloc: Global,
    doors: &mut D,
    side: Side,
    address: &str,
    count: u32,
    all: &mut Vec<SideDoor<D::Door>>,
) -> Result<(), DoorFault>
    requires fresh { All (λ one. D.Door.state one.door ≡ just_opened) all.old.items }
    ensures more { OnOk result (length all.new.items ≡ length all.old.items + count) }
    ensures fresh { All (λ one. D.Door.state one.door ≡ just_opened) all.new.items }
    ensures counted { D.counts doors.new ≡ opened result (D.counts doors.old) }
{
    for _ in 0..count {
        all.reserve(1)?;
        let door = doors.open(alloc, side, address)?;
        all.push_reserved(SideDoor { door, side });
    }
    Ok(())
}

/// Closes doors through which nobody came.
fn close_unused<D: Doors>(doors: &mut D, all: Vec<SideDoor<D::Door>>)
    requires fresh { All (λ one. D.Door.state one.door ≡ just_opened) all.items }
    ensures { D.counts doors.new ≡ D.counts doors.old }
{
    for one in all {
        // A door that was just opened has counted no fault.
        let _closed = doors.close(one.door);
    }
}
