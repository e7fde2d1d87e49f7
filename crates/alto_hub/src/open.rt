ghost use Rattle.std.specs.Prelude.{◌≡◌, ◌<◌, ◌≤◌, [], All, IfOk, length};
ghost use Rattle.left_right.specs.Sides.{view};
ghost use Rattle.alto_desk.specs.Records.{Backs};
ghost use Rattle.alto_serve.specs.Events.{IsGrown};
ghost use Rattle.alto_hub.specs.History.{IsLog};
ghost use Rattle.alto_hub.specs.Seen.{newcomer};

use crate::hub::Hub;
use crate::locked::{Locked, Publisher};
use crate::mark::{Naming, NewHistory};
use crate::place::{Pen, Place};
use crate::published::Published;
use alto_desk::Desk;
use alto_keeper::Keeper;
use row_chunks::Chunks;
use std::alloc::{AllocError, Global};
use std::sync::{Mutex, Wait};

/// Makes this many places.
fn places<J: Naming>(alloc: Global, pen: &Pen<J>, seats: u32) -> Result<Vec<Place<J>>, AllocError>
    requires { IsLog J.opening [] }
    ensures { IfOk result (λ places. (length places.items ≡ seats) × All (λ place. place ≡ newcomer) places.items) }
{
    let mut places = Vec::new(alloc);
    for _ in 0..seats {
        let eye = pen.factory().reader()?;
        places.push(Place::new(eye))?;
    }
    Ok(places)
}

impl<W: Wait + Drop, K: Keeper + Drop, J: Naming> Hub<W, K, J> {
    /// A hub over a desk, and a place for each of 1 to 128 seats. Out of memory, the desk is given up.
    pub fn open(
        alloc: Global,
        rt: W,
        history: NewHistory,
        desk: Desk<K, Chunks>,
        seats: u32,
    ) -> Result<(Hub<W, K, J>, Vec<Place<J>>), AllocError>
        requires name { history ≡ J.name }
        requires opening { desk.ledger.book ≡ J.opening }
        requires backed { K.is_clean desk.keeper
            → J.was_clean × (J.backed → Backs (K.holds desk.keeper) desk.ledger.book) }
        requires seats { (0 < seats) × (seats ≤ 128) }
        ensures { IfOk result (λ opened. (length opened.1.items ≡ seats)
            × All (λ place. place ≡ newcomer) opened.1.items) }
    {
        let (head, mark) = history.into_parts();
        let first = Published::new(desk.front(), &mark)?;
        let second = Published::new(desk.front(), &mark)?;
        let publisher = Publisher {
            pen: Pen::new(alloc, first, second, seats as usize)?,
            rt,
        };
        let places = places(alloc, &publisher.pen, seats)?;
        let locked = Locked {
            desk,
            head,
            mark,
            publisher,
            owed: false,
        };
        let hub = Hub {
            locked: Mutex::new(locked),
        };
        Ok((hub, places))
    }

    /// The desk again, once nobody reads a version from a place. Its book came from the opening one by imports. Where
    /// nothing has put in doubt what is kept, nothing had when the hub was opened, and it stands for the book if it did
    /// then.
    pub fn into_desk(self) -> Desk<K, Chunks>
        ensures grown { IsGrown result.ledger.book J.opening }
        ensures backed { K.is_clean result.keeper
            → J.was_clean × (J.backed → Backs (K.holds result.keeper) result.ledger.book) }
    {
        let Hub { locked } = self;
        let Locked {
            desk,
            head: _head,
            mark: _mark,
            publisher: _publisher,
            owed: _,
        } = locked.into_inner();
        desk
    }
}
