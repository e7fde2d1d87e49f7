//! The book of a drill.
ghost use Rattle.std.specs.Prelude.{◌≡◌, ◌≢◌, ◌≤◌, All, IfOk, OnOk};
ghost use Rattle.alto_edits.specs.Edits.{IsEdit};
ghost use Rattle.alto_book.specs.Acceptance.{accept};
ghost use Rattle.alto_drill.specs.Imports.{drill_book};

use crate::draws::Draws;
use crate::imports::next_import;
use crate::names::epoch;
use alto_book::{Command, EditFault};
use alto_desk::{Desk, Tally, desk_in_memory};
use alto_keeper::MemKeeper;
use alto_rows::RowStore;
use std::alloc::{AllocError, Global};

/// How many versions of a resource are kept.
const WINDOW: u32 = 8;

/// A desk whose book is that of a drill.
pub(crate) fn drilled_desk<R: RowStore>(
    alloc: Global,
    number: u32,
    batches: u32,
) -> Result<Desk<MemKeeper, R>, AllocError>
    requires { batches ≤ 1000 }
    ensures { IfOk result (λ desk. desk.ledger.book ≡ drill_book number batches) }
{
    let epoch = epoch(alloc)?;
    let mut desk = desk_in_memory(alloc, &epoch, WINDOW)?;
    let mut draws = Draws::new(number);
    let mut tally = Tally::new();
    for k in 1..u64::from(batches) + 1 {
        let command = next_import(alloc, k, &mut draws)?;
        accept(alloc, &mut desk, command, &mut tally)?;
    }
    Ok(desk)
}

/// What becomes of the book as an import comes at moment 0. An import that is refused leaves it as it was. Records in
/// memory never fail.
fn accept<R: RowStore>(
    alloc: Global,
    desk: &mut Desk<MemKeeper, R>,
    command: Command,
    tally: &mut Tally<MemKeeper>,
) -> Result<(), AllocError>
    requires { All IsEdit command.edits }
    ensures { OnOk result (desk.new.ledger.book ≡ (accept desk.old.ledger.book command 0).book) }
{
    match desk.edit(alloc, command, 0, tally) {
        Ok(_) => Ok(()),
        Err(fault) => refused(fault),
    }
}

/// Goes on where an import was refused for its own fault.
fn refused(fault: EditFault) -> Result<(), AllocError>
    ensures { OnOk result ((fault ≢ EditFault.Memory) × (fault ≢ EditFault.Keeper)) }
{
    match fault {
        EditFault::Memory => Err(AllocError),
        EditFault::Keeper => Err(AllocError),
        _ => Ok(()),
    }
}
