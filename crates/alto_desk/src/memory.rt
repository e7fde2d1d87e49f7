ghost use Rattle.std.specs.Prelude.{◌≡◌, ◌≤◌, IfOk};
ghost use Rattle.alto_book.specs.Book.{opening_book};
ghost use Rattle.alto_desk.specs.Records.{first_records};

use crate::beginning::init;
use crate::desk::Desk;
use alto_keeper::{MemKeeper, Stored};
use alto_names::Epoch;
use alto_rows::RowStore;
use std::alloc::{AllocError, Global};

/// A new book whose records are kept in memory. Nothing but out of memory comes of opening what was just begun.
pub fn desk_in_memory<R: RowStore>(
    alloc: Global,
    epoch: &Epoch,
    window: u32,
) -> Result<Desk<MemKeeper, R>, AllocError>
    requires at_least { 2 ≤ window }
    requires at_most { window ≤ 32 }
    ensures { IfOk result (λ desk. desk.ledger.book ≡ opening_book epoch.now window) }
{
    // A name says that it is one.
    let _name = epoch.as_bytes();
    match Desk::open(alloc, begun(alloc, epoch, window)?) {
        Ok(desk) => Ok(desk),
        Err(_) => Err(AllocError),
    }
}

/// Records in memory that were begun.
fn begun(alloc: Global, epoch: &Epoch, window: u32) -> Result<MemKeeper, AllocError>
    requires at_least { 2 ≤ window }
    requires at_most { window ≤ 32 }
    ensures { IfOk result (λ keeper. keeper.stored ≡ first_records epoch.now window) }
{
    let mut keeper = MemKeeper::new(alloc, Stored::empty(alloc));
    match init(alloc, &mut keeper, epoch, window) {
        Ok(()) => Ok(keeper),
        Err(_) => Err(AllocError),
    }
}
