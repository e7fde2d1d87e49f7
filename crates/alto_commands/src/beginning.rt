//! The command `init`: begins a store.
ghost use Rattle.std.specs.Prelude.{◌≡◌, ◌≢◌, ◌≤◌, ℕ, List, Err, IfOk, OnErr, OnOk, string_bytes};
ghost use Rattle.alto_desk.specs.Counts.{after_init};
ghost use Rattle.alto_desk.specs.Records.{first_records};
ghost use Rattle.alto_keeper.specs.Stored.{StoredData, Stays, nothing};
ghost use Rattle.alto_commands.specs.Init.{Begins, init_report, initialised};
ghost use Rattle.alto_commands.specs.Reports.{Tells};
ghost use Rattle.alto_commands.specs.Status.{faults_at, writes_at};

use crate::saying::say;
use alto_desk::InitFault;
use alto_http::Link;
use alto_keeper::Vault;
use alto_names::Epoch;
use std::alloc::{AllocError, Global};

/// What is printed of a store where something is held.
const ALREADY: &[u8] = b"already initialised\n";

/// Begins a store with an epoch and a window, where nothing is held there, and says so.
pub fn init<V: Vault, L: Link>(
    alloc: Global,
    vault: &mut V,
    console: &mut L,
    store: &str,
    epoch: &Epoch,
    window: u32,
) -> u8
    requires at_least { 2 ≤ window }
    requires at_most { window ≤ 32 }

    ensures begun { Begins (V.is_clean vault.new) epoch.now window result
        (V.holds vault.old store.now) (V.holds vault.new store.now) (L.out console.old) (L.out console.new) }
    ensures others { V.is_clean vault.new → (other : List ℕ) → other ≢ store.now
        → Stays (V.holds vault.old other) (V.holds vault.new other) }
    ensures clean { V.is_clean vault.new → V.is_clean vault.old }
    ensures faults { V.faults vault.new ≡ faults_at result (V.faults vault.old) }

    ensures left { L.left console.new ≡ L.left console.old }
    ensures reads { L.failed_reads console.new ≡ L.failed_reads console.old }
    ensures writes { L.failed_writes console.new ≡ writes_at result (L.failed_writes console.old) }
{
    let Ok(text) = text_of(alloc, epoch, window) else {
        return 1;
    };
    match begin(alloc, vault, store, epoch, window) {
        Ok(()) => say(console, text.as_bytes(), 0),
        Err(fault) => say_unbegun(console, fault),
    }
}

/// Tells why no store is begun.
fn say_unbegun<L: Link>(console: &mut L, fault: InitFault) -> u8
    ensures told { Tells (init_report fault) result (L.out console.old) (L.out console.new) }
    ensures faults { (n : ℕ) → after_init {T = ℕ} (Err fault) n ≡ faults_at result n }
    ensures writes { L.failed_writes console.new ≡ writes_at result (L.failed_writes console.old) }
    ensures left { L.left console.new ≡ L.left console.old }
    ensures reads { L.failed_reads console.new ≡ L.failed_reads console.old }
{
    match fault {
        InitFault::Already => say(console, ALREADY, 10),
        InitFault::Keeper => 3,
        InitFault::Memory => 1,
    }
}

/// Begins a store.
fn begin<V: Vault>(
    alloc: Global,
    vault: &mut V,
    store: &str,
    epoch: &Epoch,
    window: u32,
) -> Result<(), InitFault>
    requires at_least { 2 ≤ window }
    requires at_most { window ≤ 32 }

    ensures done { OnOk result (V.is_clean vault.new → (stored : StoredData) → V.holds vault.old store.now stored
        → (stored ≡ nothing) × V.holds vault.new store.now (first_records epoch.now window)) }
    ensures already { result ≡ Err InitFault.Already → V.is_clean vault.new → (stored : StoredData)
        → V.holds vault.old store.now stored → stored ≢ nothing }
    ensures refused { OnErr result (V.is_clean vault.new
        → Stays (V.holds vault.old store.now) (V.holds vault.new store.now)) }
    ensures others { V.is_clean vault.new → (other : List ℕ) → other ≢ store.now
        → Stays (V.holds vault.old other) (V.holds vault.new other) }
    ensures clean { V.is_clean vault.new → V.is_clean vault.old }
    ensures faults { V.faults vault.new ≡ after_init result (V.faults vault.old) }
{
    let mut keeper = vault.open(alloc, store)?;
    let outcome = alto_desk::init(alloc, &mut keeper, epoch, window);
    vault.close(store, keeper);
    outcome
}

/// What is printed of a store that is begun.
fn text_of(alloc: Global, epoch: &Epoch, window: u32) -> Result<String, AllocError>
    ensures { IfOk result (λ text. string_bytes text ≡ initialised epoch.now window) }
{
    format!(in alloc; "initialised {} window {window}\n", epoch.as_str())
}
