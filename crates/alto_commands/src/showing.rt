//! The command `show`: prints the document of a resource.
ghost use Rattle.std.specs.Prelude.{◌≡◌, ◌≢◌, ◌++◌, ℕ, List, Option, IfOk, option_map};
ghost use Rattle.alto_keeper.specs.Stored.{Stays};
ghost use Rattle.alto_rows.specs.Good.{AreGood};
ghost use Rattle.alto_commands.specs.Reports.{Tells, line_end};
ghost use Rattle.alto_commands.specs.Show.{Shows, document_named, show_report};
ghost use Rattle.alto_commands.specs.Status.{faults_at, writes_at};

use crate::saying::say;
use crate::store::{open_book, say_unopened};
use alto_desk::Front;
use alto_http::Link;
use alto_keeper::Vault;
use alto_rows::{RowStore, find_resource};
use edge_patch::document_text;
use std::alloc::{AllocError, Global};

/// What is printed where no declared resource has the id.
const UNKNOWN: &[u8] = b"unknown resource\n";

/// Prints the document of the declared resource that a text names, in the book of a store.
pub fn show<V: Vault, L: Link>(
    alloc: Global,
    vault: &mut V,
    console: &mut L,
    store: &str,
    resource: &str,
) -> u8
    ensures shown { Shows (V.is_clean vault.new) resource.now result (V.holds vault.old store.now)
        (L.out console.old) (L.out console.new) }
    ensures stays { V.is_clean vault.new → Stays (V.holds vault.old store.now) (V.holds vault.new store.now) }
    ensures others { V.is_clean vault.new → (other : List ℕ) → other ≢ store.now
        → Stays (V.holds vault.old other) (V.holds vault.new other) }
    ensures clean { V.is_clean vault.new → V.is_clean vault.old }
    ensures faults { V.faults vault.new ≡ faults_at result (V.faults vault.old) }

    ensures left { L.left console.new ≡ L.left console.old }
    ensures reads { L.failed_reads console.new ≡ L.failed_reads console.old }
    ensures writes { L.failed_writes console.new ≡ writes_at result (L.failed_writes console.old) }
{
    let desk = match open_book(alloc, vault, store) {
        Ok(desk) => desk,
        Err(fault) => return say_unopened(alloc, console, fault),
    };
    let text = document_line(alloc, desk.front(), resource);
    vault.close(store, desk.into_keeper());
    match text {
        Ok(text) => say_document(console, text),
        Err(_) => 1,
    }
}

/// Prints the line with a document, where there is one.
fn say_document<L: Link>(console: &mut L, text: Option<Vec<u8>>) -> u8
    ensures told { (named : Option (List ℕ))
        → option_map (λ text. text.items) text ≡ option_map (λ text. text ++ line_end) named
        → Tells (show_report named) result (L.out console.old) (L.out console.new) }
    ensures no_fault { result ≢ 3 }
    ensures writes { L.failed_writes console.new ≡ writes_at result (L.failed_writes console.old) }
    ensures left { L.left console.new ≡ L.left console.old }
    ensures reads { L.failed_reads console.new ≡ L.failed_reads console.old }
{
    match text {
        Some(text) => say(console, &text, 0),
        None => say(console, UNKNOWN, 8),
    }
}

/// The line with the document of the declared resource that a text names, if it names one.
fn document_line<R: RowStore>(
    alloc: Global,
    version: &Front<R>,
    resource: &str,
) -> Result<Option<Vec<u8>>, AllocError>
    requires { AreGood version.now.rows }
    ensures { IfOk result (λ text. option_map (λ text. text.items) text
        ≡ option_map (λ text. text ++ line_end) (document_named version.now.rows resource.now)) }
{
    let rows = &*version.rows;
    let Some(of) = find_resource(alloc, rows, resource.as_bytes())? else {
        return Ok(None);
    };
    let mut text = document_text(alloc, &of, rows)?;
    text.push(b'\n')?;
    Ok(Some(text))
}
