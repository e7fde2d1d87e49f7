//! The command `import`: has the edits of a body accepted.
ghost use Rattle.std.specs.Prelude.{◌≡◌, ◌≢◌, ℕ, List, All, Err, IfErr, IfOk, OnErr};
ghost use Rattle.alto_edits.specs.Edits.{IsEdit};
ghost use Rattle.alto_desk.specs.Records.{Backs};
ghost use Rattle.alto_keeper.specs.Stored.{Stays};
ghost use Rattle.alto_commands.specs.Bodies.{body_report};
ghost use Rattle.alto_commands.specs.Import.{Imports, IsMade, IsUnmade, Takes, bad_form, edit_report};
ghost use Rattle.alto_commands.specs.Import.{faults_after, form_report, import_report, reads_after};
ghost use Rattle.alto_commands.specs.Reports.{Tells};
ghost use Rattle.alto_commands.specs.Status.{faults_at, reads_at, writes_at};

use crate::body::read_body;
use crate::fault::{BodyFault, ImportFault};
use crate::saying::{say, say_made};
use crate::store::{open_book, say_unopened};
use alto_desk::{Command, Desk, EditFault, Receipt, Tally};
use alto_http::Link;
use alto_keeper::{Keeper, Vault};
use alto_names::ImportId;
use alto_serve::Clock;
use edit_forms::{Form, FormFault};
use row_chunks::Chunks;
use sha2::{Digest, Sha256};
use std::alloc::Global;

/// What is printed of a body that has more bytes than it may have.
const TOO_LARGE: &[u8] = b"body too large\n";

/// Has the edits of a body, which is what the console has left, accepted into the book of a store, and tells what
/// became of them. A receipt is printed once the batch is kept.
pub fn import<V: Vault, L: Link, C: Clock>(
    alloc: Global,
    vault: &mut V,
    console: &mut L,
    clock: &C,
    store: &str,
    id: ImportId,
    form: Form,
) -> u8
    ensures imported { Imports (V.is_clean vault.new) id form (C.tells clock.now) result
        (V.holds vault.old store.now) (V.holds vault.new store.now)
        (L.left console.old) (L.out console.old) (L.left console.new) (L.out console.new) }
    ensures others { V.is_clean vault.new → (other : List ℕ) → other ≢ store.now
        → Stays (V.holds vault.old other) (V.holds vault.new other) }
    ensures clean { V.is_clean vault.new → V.is_clean vault.old }
    ensures faults { V.faults vault.new ≡ faults_at result (V.faults vault.old) }

    ensures reads { L.failed_reads console.new ≡ reads_at result (L.failed_reads console.old) }
    ensures writes { L.failed_writes console.new ≡ writes_at result (L.failed_writes console.old) }
{
    let mut desk = match open_book(alloc, vault, store) {
        Ok(desk) => desk,
        Err(fault) => return say_unopened(alloc, console, fault),
    };
    let answer = take_in(alloc, &mut desk, console, clock, id, form);
    vault.close(store, desk.into_keeper());
    say_answer(alloc, console, answer)
}

/// Reads an import, and has it accepted at a desk.
fn take_in<K: Keeper + Drop, L: Link, C: Clock>(
    alloc: Global,
    desk: &mut Desk<K, Chunks>,
    console: &mut L,
    clock: &C,
    id: ImportId,
    form: Form,
) -> Result<Receipt, ImportFault>
    ensures taken { Takes id form (C.tells clock.now) desk.old.ledger.book result desk.new.ledger.book
        (L.left console.old) (L.left console.new) }
    ensures refused { OnErr result (desk.new.ledger.book ≡ desk.old.ledger.book) }
    ensures kept { K.is_clean desk.new.keeper → Backs (K.holds desk.old.keeper) desk.old.ledger.book
        → Backs (K.holds desk.new.keeper) desk.new.ledger.book }
    ensures clean { K.is_clean desk.new.keeper → K.is_clean desk.old.keeper }
    ensures faults { K.faults desk.new.keeper ≡ faults_after result (K.faults desk.old.keeper) }

    ensures reads { L.failed_reads console.new ≡ reads_after result (L.failed_reads console.old) }
    ensures out { L.out console.new ≡ L.out console.old }
    ensures writes { L.failed_writes console.new ≡ L.failed_writes console.old }
{
    let command = read_command(alloc, console, id, form)?;
    let receipt = desk.edit(alloc, command, clock.now(), &mut Tally::new())?;
    Ok(receipt)
}

/// Reads the body of an import.
fn read_command<L: Link>(
    alloc: Global,
    console: &mut L,
    id: ImportId,
    form: Form,
) -> Result<Command, ImportFault>
    ensures made { IfOk result (λ command. IsMade id form command (L.left console.old) (L.left console.new)) }
    ensures edits { IfOk result (λ command. All IsEdit command.edits) }
    ensures unmade { IfErr result (λ fault. IsUnmade form fault (L.left console.old) (L.left console.new)) }
    ensures reads { L.failed_reads console.new ≡ reads_after result (L.failed_reads console.old) }
    ensures out { L.out console.new ≡ L.out console.old }
    ensures writes { L.failed_writes console.new ≡ L.failed_writes console.old }
{
    let body = read_body(alloc, console)?;
    let edits = form.read(alloc, &body)?;
    Ok(Command {
        id,
        digest: Sha256::digest(&body),
        edits,
    })
}

/// Tells what became of an import, and gives the status: 3 exactly where a keeper counted a fault, 4 exactly where a
/// read failed.
fn say_answer<L: Link>(alloc: Global, console: &mut L, answer: Result<Receipt, ImportFault>) -> u8
    ensures told { Tells (import_report answer) result (L.out console.old) (L.out console.new) }
    ensures faults { (n : ℕ) → faults_after answer n ≡ faults_at result n }
    ensures counted { (n : ℕ) → reads_after answer n ≡ reads_at result n }
    ensures writes { L.failed_writes console.new ≡ writes_at result (L.failed_writes console.old) }
    ensures left { L.left console.new ≡ L.left console.old }
    ensures reads { L.failed_reads console.new ≡ L.failed_reads console.old }
{
    match answer {
        Ok(Receipt { n, moment }) => {
            say_made(
                console,
                format!(in alloc; "accepted n {n} moment {moment}\n"),
                0,
            )
        }
        Err(ImportFault::Body(fault)) => say_no_body(console, fault),
        Err(ImportFault::Form(fault)) => say_malformed(alloc, console, fault),
        Err(ImportFault::Edit(fault)) => say_refused(alloc, console, fault),
    }
}

/// Tells why no body is read.
fn say_no_body<L: Link>(console: &mut L, fault: BodyFault) -> u8
    ensures told { Tells (body_report fault) result (L.out console.old) (L.out console.new) }
    ensures no_fault { result ≢ 3 }
    ensures counted { (n : ℕ) → reads_after {T = ℕ} (Err (ImportFault.Body fault)) n ≡ reads_at result n }
    ensures writes { L.failed_writes console.new ≡ writes_at result (L.failed_writes console.old) }
    ensures left { L.left console.new ≡ L.left console.old }
    ensures reads { L.failed_reads console.new ≡ L.failed_reads console.old }
{
    match fault {
        BodyFault::TooLarge => say(console, TOO_LARGE, 13),
        BodyFault::ReadFault => 4,
        BodyFault::Memory => 1,
    }
}

/// Tells why a body doesn't read.
fn say_malformed<L: Link>(alloc: Global, console: &mut L, fault: FormFault) -> u8
    ensures told { Tells (form_report fault) result (L.out console.old) (L.out console.new) }
    ensures no_fault { result ≢ 3 }
    ensures no_read { result ≢ 4 }
    ensures writes { L.failed_writes console.new ≡ writes_at result (L.failed_writes console.old) }
    ensures left { L.left console.new ≡ L.left console.old }
    ensures reads { L.failed_reads console.new ≡ L.failed_reads console.old }
{
    match fault {
        FormFault::Syntax | FormFault::Empty => say_bad_form(alloc, console, 0, 0),
        FormFault::BadRecord(row) => say_bad_form(alloc, console, row, 0),
        FormFault::BadColumn(row, column) => say_bad_form(alloc, console, row, column),
        FormFault::Memory => 1,
    }
}

/// Tells that a body doesn't read at a row and a column.
fn say_bad_form<L: Link>(alloc: Global, console: &mut L, row: u64, column: u8) -> u8
    ensures told { Tells (bad_form row column) result (L.out console.old) (L.out console.new) }
    ensures no_fault { result ≢ 3 }
    ensures no_read { result ≢ 4 }
    ensures writes { L.failed_writes console.new ≡ writes_at result (L.failed_writes console.old) }
    ensures left { L.left console.new ≡ L.left console.old }
    ensures reads { L.failed_reads console.new ≡ L.failed_reads console.old }
{
    say_made(
        console,
        format!(in alloc; "bad form row {row} column {column}\n"),
        11,
    )
}

/// Tells why an import isn't accepted.
fn say_refused<L: Link>(alloc: Global, console: &mut L, fault: EditFault) -> u8
    ensures told { Tells (edit_report fault) result (L.out console.old) (L.out console.new) }
    ensures faults { (n : ℕ) → faults_after {T = ℕ} (Err (ImportFault.Edit fault)) n ≡ faults_at result n }
    ensures no_read { result ≢ 4 }
    ensures writes { L.failed_writes console.new ≡ writes_at result (L.failed_writes console.old) }
    ensures left { L.left console.new ≡ L.left console.old }
    ensures reads { L.failed_reads console.new ≡ L.failed_reads console.old }
{
    match fault {
        EditFault::OtherBody { n } => {
            say_made(console, format!(in alloc; "other body n {n}\n"), 12)
        }
        EditFault::Broken { row, rule } => {
            say_made(
                console,
                format!(in alloc; "refused row {row} rule {rule}\n"),
                7,
            )
        }
        EditFault::Keeper => 3,
        EditFault::Memory => 1,
    }
}
