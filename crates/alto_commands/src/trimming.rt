//! The command `trim`: moves the base of a book on.
ghost use Rattle.std.specs.Prelude.{◌≡◌, ◌≢◌, ℕ, Err, List, Option};
ghost use Rattle.alto_desk.specs.Counts.{after_trim};
ghost use Rattle.alto_keeper.specs.Stored.{Stays};
ghost use Rattle.alto_commands.specs.Reports.{Tells};
ghost use Rattle.alto_commands.specs.Status.{faults_at, writes_at};
ghost use Rattle.alto_commands.specs.Trim.{Trims, trim_report};

use crate::saying::say_made;
use crate::store::{open_book, say_unopened};
use alto_desk::TrimFault;
use alto_http::Link;
use alto_keeper::Vault;
use std::alloc::Global;

/// Moves the base of a store's book on, so that only the last `keep` batches stay beside it, and tells its number. It
/// is told once the store is as it says.
pub fn trim<V: Vault, L: Link>(
    alloc: Global,
    vault: &mut V,
    console: &mut L,
    store: &str,
    keep: u32,
) -> u8
    ensures trimmed { Trims (V.is_clean vault.new) keep result (V.holds vault.old store.now)
        (V.holds vault.new store.now) (L.out console.old) (L.out console.new) }
    ensures others { V.is_clean vault.new → (other : List ℕ) → other ≢ store.now
        → Stays (V.holds vault.old other) (V.holds vault.new other) }
    ensures clean { V.is_clean vault.new → V.is_clean vault.old }
    ensures faults { V.faults vault.new ≡ faults_at result (V.faults vault.old) }

    ensures left { L.left console.new ≡ L.left console.old }
    ensures reads { L.failed_reads console.new ≡ L.failed_reads console.old }
    ensures writes { L.failed_writes console.new ≡ writes_at result (L.failed_writes console.old) }
{
    let mut desk = match open_book(alloc, vault, store) {
        Ok(desk) => desk,
        Err(fault) => return say_unopened(alloc, console, fault),
    };
    let answer = desk.trim(alloc, keep);
    vault.close(store, desk.into_keeper());
    say_trimmed(alloc, console, answer)
}

/// Tells the number of the base where it was trimmed, and gives the status.
fn say_trimmed<L: Link>(alloc: Global, console: &mut L, answer: Result<u64, TrimFault>) -> u8
    ensures told { Tells (trim_report answer) result (L.out console.old) (L.out console.new) }
    ensures faults { (n : ℕ) → after_trim answer n ≡ faults_at result n }
    ensures writes { L.failed_writes console.new ≡ writes_at result (L.failed_writes console.old) }
    ensures left { L.left console.new ≡ L.left console.old }
    ensures reads { L.failed_reads console.new ≡ L.failed_reads console.old }
{
    match answer {
        Ok(number) => say_made(console, format!(in alloc; "trimmed to {number}\n"), 0),
        Err(fault) => status_of(fault),
    }
}

/// The status of a trim that was refused, of which nothing is told: 3 exactly where the keeper counted a fault.
fn status_of(fault: TrimFault) -> u8
    ensures told { (out : Option (List ℕ)) → Tells (trim_report (Err fault)) result out out }
    ensures faults { (n : ℕ) → after_trim {T = ℕ} (Err fault) n ≡ faults_at result n }
    ensures writes { (n : ℕ) → n ≡ writes_at result n }
{
    match fault {
        TrimFault::Keeper => 3,
        TrimFault::Memory => 1,
    }
}
