ghost use Rattle.std.specs.Prelude.{◌≡◌};
ghost use Rattle.alto_desk.specs.Records.{Backs};

use alto_desk::{Command, Desk, desk_in_memory};
use alto_edits::Edit;
use alto_hub::{Hub, IdleBell, Naming, NewHistory, Place, Seat};
use alto_keeper::{Keeper, MemKeeper};
use alto_names::{Epoch, ImportId, NetName};
use alto_serve::Office;
use alto_versions::Front;
use row_chunks::Chunks;
use std::alloc::{AllocError, Global};
use std::marker::Brand;
use std::process::Abort;
use std::sync::{Arc, Wait};
use std::test::*;
use std::thread::{Threads, join};

#[test]
fn an_import_at_one_seat_is_seen_from_another(rt: HostRuntime) -> Result<(), Fail> {
    let alloc = rt.alloc();
    let desk = desk_in_memory(alloc, &Epoch::read(alloc, b"e1")?, 8)?;
    seen_from_another::<Brand, _>(&rt, alloc, NewHistory::new(), desk)
}

fn seen_from_another<J: Naming + Send + Sync, R: Threads + Wait + Abort + Sync>(
    rt: &R,
    alloc: Global,
    history: NewHistory,
    desk: Desk<MemKeeper, Chunks>,
) -> Result<(), Fail>
    requires name { history ≡ J.name }
    requires opening { desk.ledger.book ≡ J.opening }
    requires backed { ⟦<MemKeeper as Keeper>⟧.is_clean desk.keeper
        → J.was_clean × (J.backed → Backs (⟦<MemKeeper as Keeper>⟧.holds desk.keeper) desk.ledger.book) }
{
    let (hub, mut places) = Hub::<&R, MemKeeper, J>::open(alloc, rt, history, desk, 2)?;
    let first = places.pop().ok_or("a place")?;
    let second = places.pop().ok_or("a place")?;
    let (imported, seen) = join(
        rt,
        || import(rt, alloc, &hub, first),
        || wait_for_it(rt, &hub, second),
    );
    assert_eq!(rt; imported, Some(1));
    assert_eq!(rt; seen, Some(1));
    assert_eq!(rt; hub.into_desk().front().n, 1);
    Ok(())
}

/// Declares a network from a seat, and gives the number of the batch.
fn import<R: Wait, W: Wait + Drop, J: Naming>(
    rt: &R,
    alloc: Global,
    hub: &Hub<W, MemKeeper, J>,
    place: Place<J>,
) -> Option<u64> {
    let mut edits = Vec::new(alloc);
    let net = NetName::read(alloc, b"metro").ok()?;
    edits.push(Edit::NetAdd { net }).ok()?;
    let command = Command {
        id: ImportId::read(alloc, b"i1").ok()?,
        digest: [0; 32],
        edits,
    };
    let bell = IdleBell;
    let mut seat = Seat::new(rt, hub, place, &bell);
    let receipt = seat.edit(alloc, command, 100).ok()?;
    Some(receipt.n)
}

/// Looks from a seat. Nothing that these bounds allow can be locked or waited for, so this compiles only while a look
/// needs neither.
fn look<H, B, K, L, J: Naming>(
    seat: &mut Seat<'_, H, B, K, L, J>,
) -> Result<Arc<Front<Chunks>>, AllocError> {
    seat.front()
}

/// Looks from a seat until a batch is published, and gives its number.
fn wait_for_it<R: Wait, W: Wait + Drop, J: Naming>(
    rt: &R,
    hub: &Hub<W, MemKeeper, J>,
    place: Place<J>,
) -> Option<u64> {
    let bell = IdleBell;
    let mut seat = Seat::new(rt, hub, place, &bell);
    for _ in rt.forever() {
        let front = look(&mut seat).ok()?;
        if front.n > 0 {
            return Some(front.n);
        }
        seat.wait(0);
    }
    unreachable!()
}
