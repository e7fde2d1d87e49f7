//! The book of a store.
ghost use Rattle.std.specs.Prelude.{◌≡◌, ◌≢◌, ℕ, List, IsTrue, IfErr, IfOk, OnOk};
ghost use Rattle.alto_desk.specs.Counts.{after_fault};
ghost use Rattle.alto_desk.specs.Opening.{Explains};
ghost use Rattle.alto_desk.specs.Records.{StoredAs};
ghost use Rattle.alto_keeper.specs.Stored.{StoredData, Stays};
ghost use Rattle.alto_commands.specs.Reports.{Tells};
ghost use Rattle.alto_commands.specs.Status.{faults_at, writes_at};
ghost use Rattle.alto_commands.specs.Stores.{open_report};

use crate::saying::say_made;
use alto_desk::{Desk, OpenFault};
use alto_http::Link;
use alto_keeper::Vault;
use row_chunks::Chunks;
use std::alloc::Global;

/// Opens the book that is held at a store. Where there is none, the records are closed as they were.
pub fn open_book<V: Vault>(
    alloc: Global,
    vault: &mut V,
    store: &str,
) -> Result<Desk<V::Keeper, Chunks>, OpenFault>
    ensures opened { IfOk result (λ desk. V.is_clean vault.new → V.Keeper.is_clean desk.keeper
        → (stored : StoredData) → V.holds vault.old store.now stored
        → V.Keeper.holds desk.keeper stored × StoredAs stored desk.ledger.book) }
    ensures refused { IfErr result (λ fault. V.is_clean vault.new
        → (stored : StoredData) → V.holds vault.old store.now stored → Explains fault stored) }
    ensures stays { V.is_clean vault.new → Stays (V.holds vault.old store.now) (V.holds vault.new store.now) }
    ensures others { V.is_clean vault.new → (other : List ℕ) → other ≢ store.now
        → Stays (V.holds vault.old other) (V.holds vault.new other) }
    ensures clean { V.is_clean vault.new → V.is_clean vault.old }
    ensures known { OnOk result (IsTrue (V.knows vault.new store.now)) }

    ensures fresh { IfOk result (λ desk. V.Keeper.faults desk.keeper ≡ 0) }
    ensures same { OnOk result (V.faults vault.new ≡ V.faults vault.old) }
    ensures counted { IfErr result (λ fault. V.faults vault.new ≡ after_fault fault (V.faults vault.old)) }
{
    let keeper = vault.open(alloc, store)?;
    match Desk::open(alloc, keeper) {
        Ok(desk) => Ok(desk),
        Err((keeper, fault)) => {
            vault.close(store, keeper);
            Err(fault)
        }
    }
}

/// Tells why no book is opened, and gives the status: 3 exactly where the vault counted it.
pub fn say_unopened<L: Link>(alloc: Global, console: &mut L, fault: OpenFault) -> u8
    ensures told { Tells (open_report fault) result (L.out console.old) (L.out console.new) }
    ensures faults { (n : ℕ) → after_fault fault n ≡ faults_at result n }
    ensures writes { L.failed_writes console.new ≡ writes_at result (L.failed_writes console.old) }
    ensures left { L.left console.new ≡ L.left console.old }
    ensures reads { L.failed_reads console.new ≡ L.failed_reads console.old }
{
    match fault {
        OpenFault::Keeper => 3,
        OpenFault::Memory => 1,
        OpenFault::Damaged(n) => say_made(console, format!(in alloc; "damaged row {n}\n"), 9),
        OpenFault::DamagedBase(k) => say_made(console, format!(in alloc; "damaged base {k}\n"), 9),
        OpenFault::BadBook(n, rule) => {
            say_made(
                console,
                format!(in alloc; "bad book row {n} rule {rule}\n"),
                9,
            )
        }
    }
}
