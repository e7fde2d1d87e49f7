//! The command `pipe`: serves the console from the book of a store.
ghost use Rattle.std.specs.Prelude.{◌≡◌, ◌≢◌, ℕ, List};
ghost use Rattle.alto_keeper.specs.Stored.{Stays};
ghost use Rattle.alto_serve.specs.Steps as steps;
ghost use Rattle.alto_commands.specs.Pipe.{Pipes, ServesDesk};
ghost use Rattle.alto_commands.specs.Status.{reads_at, status_of, writes_at};

use crate::store::{open_book, say_unopened};
use alto_desk::Desk;
use alto_http::Link;
use alto_keeper::{Keeper, Vault};
use alto_serve::{Clock, End, Side, Solo, serve_conn};
use row_chunks::Chunks;
use std::alloc::Global;

/// Serves the console, as one connection of a client and of the operator, from the book of a store, which keeps what is
/// imported. The next edge is waited for `turns` times at most, and no wait takes time: nobody else has imports
/// accepted.
pub fn pipe<V: Vault, L: Link, C: Clock>(
    alloc: Global,
    vault: &mut V,
    console: &mut L,
    clock: &C,
    store: &str,
    turns: u32,
) -> u8
    ensures piped { Pipes (V.is_clean vault.new) result (C.tells clock.now) turns
        (V.holds vault.old store.now) (V.holds vault.new store.now) (V.faults vault.old) (V.faults vault.new)
        (L.left console.old) (L.out console.old) (L.left console.new) (L.out console.new) }
    ensures others { V.is_clean vault.new → (other : List ℕ) → other ≢ store.now
        → Stays (V.holds vault.old other) (V.holds vault.new other) }
    ensures clean { V.is_clean vault.new → V.is_clean vault.old }

    ensures reads { L.failed_reads console.new ≡ reads_at result (L.failed_reads console.old) }
    ensures writes { L.failed_writes console.new ≡ writes_at result (L.failed_writes console.old) }
{
    let desk = match open_book(alloc, vault, store) {
        Ok(desk) => desk,
        Err(fault) => return say_unopened(alloc, console, fault),
    };
    let (end, keeper) = serve(alloc, desk, console, clock, turns);
    vault.close(store, keeper);
    status_of(end)
}

/// Serves the console by an office over a desk, and gives how that ended, and the keeper.
fn serve<K: Keeper + Drop, L: Link, C: Clock>(
    alloc: Global,
    desk: Desk<K, Chunks>,
    console: &mut L,
    clock: &C,
    turns: u32,
) -> (End, K)
    ensures served { ServesDesk (K.is_clean result.1) desk.ledger.book result.0 (C.tells clock.now) turns
        (K.holds desk.keeper) (K.holds result.1)
        (L.left console.old) (L.out console.old) (L.left console.new) (L.out console.new) }
    ensures clean { K.is_clean result.1 → K.is_clean desk.keeper }
    ensures reads { L.failed_reads console.new ≡ steps.reads_at result.0 (L.failed_reads console.old) }
    ensures writes { L.failed_writes console.new ≡ steps.writes_at result.0 (L.failed_writes console.old) }
{
    let mut office = Solo::new(desk);
    let end = serve_conn(alloc, &mut office, console, clock, Side::Both, None, turns);
    (end, office.into_desk().into_keeper())
}

/// The status that tells how a connection ended.
fn status_of(end: End) -> u8
    ensures { result ≡ status_of end }
{
    match end {
        End::Closed => 0,
        End::Memory => 1,
        End::ReadFault => 4,
        End::WriteFault => 5,
        End::Cut => 14,
        End::Limit => 15,
    }
}
