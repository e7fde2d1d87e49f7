ghost use Rattle.std.specs.Prelude.{◌≡◌, ◌≢◌, ◌⊎◌, ◌<◌, ◌≤◌, ℕ, List, All, true, length, IfOk, MatchOption};
ghost use Rattle.alto_keeper.specs.Stored.{Stays, one_more};
ghost use Rattle.alto_commands.specs.Status.{writes_at};
ghost use Rattle.alto_doors.specs.Door.{is_served, just_opened};
ghost use Rattle.alto_service.specs.Serving.{AllServed, BacksLater, EndsDoors, EndsServing, ServesStore};
ghost use Rattle.alto_desk.specs.Records.{Backs};

use crate::doors::{SideDoor, open_doors};
use crate::worker::Worker;
use alto_commands::{open_book, say_unopened};
use alto_desk::Desk;
use alto_doors::{Door, DoorFault, Doors};
use alto_http::Link;
use alto_hub::{Bell, Hub, Naming, NewHistory, Place, Seat};
use alto_keeper::{Keeper, Vault};
use alto_serve::{Clock, Office};
use row_chunks::Chunks;
use std::alloc::{AllocError, Global};
use std::marker::Brand;
use std::sync::Wait;
use std::thread::{Threads, for_each_mut};

/// What is served, where and by how many.
#[derive(Clone, Copy, Debug)]
pub struct Plan<'a> {
    /// Where the store is.
    pub store: &'a str,
    /// Where clients connect.
    pub public: &'a str,
    /// Where the operator connects.
    pub operator: &'a str,
    /// How many workers each side has: 1 to 64.
    pub workers: u32,
    /// How often the next edge is waited for.
    pub turns: u32,
}

/// Serves the store to the connections of both sides, until each door has ended. Status 0 where all have, 6 where one
/// couldn't be opened or has counted a fault, 1 out of memory; 3 and 9 where the store has no book.
pub fn serve<
    H: Threads + Wait + Sync,
    V: Vault<Keeper: Send>,
    L: Link,
    D: Doors<Link: Send, Door: Send>,
    B: Bell + Sync,
    C: Clock + Sync,
>(
    rt: &H,
    alloc: Global,
    vault: &mut V,
    console: &mut L,
    doors: &mut D,
    bell: &B,
    clock: &C,
    plan: &Plan,
) -> u8
    requires at_least { 1 ≤ plan.now.workers }
    requires at_most { plan.now.workers ≤ 64 }
    ensures served { ServesStore (V.is_clean vault.new) plan.now.workers result
        (V.holds vault.old plan.now.store.now) (V.holds vault.new plan.now.store.now)
        (D.counts doors.old) (D.counts doors.new) (L.out console.old) (L.out console.new) }
    ensures others { V.is_clean vault.new → (other : List ℕ) → other ≢ plan.now.store.now
        → Stays (V.holds vault.old other) (V.holds vault.new other) }
    ensures clean { V.is_clean vault.new → V.is_clean vault.old }
    ensures counted { result ≡ 3 → V.faults vault.new ≡ one_more (V.faults vault.old) }

    ensures left { L.left console.new ≡ L.left console.old }
    ensures reads { L.failed_reads console.new ≡ L.failed_reads console.old }
    ensures writes { L.failed_writes console.new ≡ writes_at result (L.failed_writes console.old) }
{
    let desk = match open_book(alloc, vault, plan.store) {
        Ok(desk) => desk,
        Err(fault) => return say_unopened(alloc, console, fault),
    };
    let (status, keeper) = serve_desk(rt, alloc, desk, doors, bell, clock, plan);
    match keeper {
        Some(keeper) => vault.close(plan.store, keeper),
        // It was given up, out of memory.
        None => {}
    }
    status
}

/// Serves a desk, and gives the status and the keeper, unless that was given up out of memory.
fn serve_desk<
    H: Threads + Wait + Sync,
    K: Keeper + Drop + Send,
    D: Doors<Link: Send, Door: Send>,
    B: Bell + Sync,
    C: Clock + Sync,
>(
    rt: &H,
    alloc: Global,
    desk: Desk<K, Chunks>,
    doors: &mut D,
    bell: &B,
    clock: &C,
    plan: &Plan,
) -> (u8, Option<K>)
    requires at_least { 1 ≤ plan.now.workers }
    requires at_most { plan.now.workers ≤ 64 }
    ensures ends { EndsServing plan.now.workers result.0 (D.counts doors.old) (D.counts doors.new) }
    ensures kept { MatchOption result.1 (result.0 ≡ 1) (λ keeper. K.is_clean keeper → K.is_clean desk.keeper
        × (Backs (K.holds desk.keeper) desk.ledger.book → BacksLater (K.holds keeper) desk.ledger.book)) }
{
    match open_doors(alloc, doors, plan) {
        Ok(all) => serve_doors::<Brand, _, _, _, _, _>(
            rt,
            alloc,
            NewHistory::new(),
            desk,
            doors,
            all,
            bell,
            clock,
            plan.turns,
        ),
        Err(DoorFault::Failed) => (6, Some(desk.into_keeper())),
        Err(DoorFault::Memory) => (1, Some(desk.into_keeper())),
    }
}

/// Serves a desk through doors that were opened, by a hub whose history the caller names.
fn serve_doors<
    J: Naming + Send + Sync,
    H: Threads + Wait + Sync,
    K: Keeper + Drop + Send,
    D: Doors<Link: Send, Door: Send>,
    B: Bell + Sync,
    C: Clock + Sync,
>(
    rt: &H,
    alloc: Global,
    history: NewHistory,
    desk: Desk<K, Chunks>,
    doors: &mut D,
    all: Vec<SideDoor<D::Door>>,
    bell: &B,
    clock: &C,
    turns: u32,
) -> (u8, Option<K>)
    requires name { history ≡ J.name }
    requires opening { desk.ledger.book ≡ J.opening }
    requires backed { K.is_clean desk.keeper
        → J.was_clean × (J.backed → Backs (K.holds desk.keeper) desk.ledger.book) }
    requires some { 0 < length all.items }
    requires few { length all.items ≤ 128 }
    requires fresh { All (λ one. D.Door.state one.door ≡ just_opened) all.items }
    ensures ends { EndsDoors (length all.items) result.0 (D.counts doors.old) (D.counts doors.new) }
    ensures kept { MatchOption result.1 (result.0 ≡ 1) (λ keeper. K.is_clean keeper
        → J.was_clean × (J.backed → BacksLater (K.holds keeper) J.opening)) }
{
    let count = all.len() as u32;
    let Ok((hub, places)) = Hub::<&H, K, J>::open(alloc, rt, history, desk, count) else {
        return (1, None);
    };
    let status = match workers_of(rt, alloc, &hub, places, all, bell) {
        Ok(workers) => run_workers(rt, alloc, doors, workers, clock, turns),
        Err(_) => 1,
    };
    (status, Some(hub.into_desk().into_keeper()))
}

/// A worker for each door, with a seat at a place of the hub.
fn workers_of<'h, 'r, J: Naming, H: Wait, K: Keeper + Drop, E: Door + Drop, B: Bell>(
    rt: &'h H,
    alloc: Global,
    hub: &'h Hub<&'r H, K, J>,
    places: Vec<Place<J>>,
    all: Vec<SideDoor<E>>,
    bell: &'h B,
) -> Result<Vec<Worker<Seat<'h, H, Hub<&'r H, K, J>, K, B, J>, E>>, AllocError>
    requires even { length places.items ≡ length all.items }
    requires fresh { All (λ one. E.state one.door ≡ just_opened) all.items }
    ensures each { IfOk result (λ workers. length workers.items ≡ length all.items) }
    ensures fresh { IfOk result (λ workers. All (λ worker. E.state worker.door ≡ just_opened) workers.items) }
{
    let mut workers = Vec::new(alloc);
    let mut places = places;
    for one in all {
        let Some(place) = places.pop() else {
            unreachable!();
        };
        let office = Seat::new(rt, hub, place, bell);
        if workers.push(Worker::new(office, one)).is_err() {
            return Err(AllocError);
        }
    }
    Ok(workers)
}

/// Runs all workers at once, each to the end of its door, and closes the doors.
fn run_workers<
    H: Threads + Wait + Sync,
    F: Office + Drop + Send,
    D: Doors<Link: Send, Door: Send>,
    C: Clock + Sync,
>(
    rt: &H,
    alloc: Global,
    doors: &mut D,
    workers: Vec<Worker<F, D::Door>>,
    clock: &C,
    turns: u32,
) -> u8
    requires some { 0 < length workers.items }
    requires fresh { All (λ worker. D.Door.state worker.door ≡ just_opened) workers.items }
    ensures status { (result ≡ 0) ⊎ (result ≡ 6) }
    ensures served { AllServed (length workers.items) (D.counts doors.old) (D.counts doors.new) }
{
    let mut workers = workers;
    serve_all(rt, alloc, workers.as_mut_slice(), clock, turns);
    if close_all(doors, workers) { 0 } else { 6 }
}

/// Runs all workers at once, each in a thread of its own to the end of its door.
fn serve_all<
    H: Threads + Wait + Sync,
    F: Office + Drop + Send,
    E: Door<Link: Send> + Drop + Send,
    C: Clock + Sync,
>(rt: &H, alloc: Global, workers: &mut [Worker<F, E>], clock: &C, turns: u32)
    requires some { 0 < length workers.old }
    requires fresh { All (λ worker. E.state worker.door ≡ just_opened) workers.old }
    ensures each { length workers.new ≡ length workers.old }
    ensures ended { All (λ worker. is_served (E.state worker.door) ≡ true) workers.new }
{
    let count = workers.len();
    for_each_mut(
        rt,
        workers,
        count,
        &|_, worker| worker.serve(rt, alloc, clock, turns),
    );
}

/// Closes the doors of workers that have served them to their ends, and tells whether no door has counted a fault.
fn close_all<F: Office + Drop, D: Doors>(doors: &mut D, workers: Vec<Worker<F, D::Door>>) -> bool
    requires ended { All (λ worker. is_served (D.Door.state worker.door) ≡ true) workers.items }
    ensures { AllServed (length workers.items) (D.counts doors.old) (D.counts doors.new) }
{
    let mut is_well = true;
    for worker in workers {
        if doors.close(worker.door).is_err() {
            is_well = false;
        }
    }
    is_well
}
