//! What a command prints.
ghost use Rattle.std.specs.Prelude.{◌≡◌, ◌≢◌, ◌⊎◌, ℕ, List, IfOk, string_bytes};
ghost use Rattle.alto_commands.specs.Reports.{Tells};
ghost use Rattle.alto_commands.specs.Status.{writes_at};

use alto_http::{Link, write_all};
use std::alloc::AllocError;

/// Prints a text, and gives the status, or 5 where a write fails. It costs one pass over the text.
pub fn say<L: Link>(console: &mut L, text: &[u8], status: u8) -> u8
    requires { status ≢ 5 }
    ensures told { Tells (record { status = status; text = text.now }) result (L.out console.old) (L.out console.new) }
    ensures writes { L.failed_writes console.new ≡ writes_at result (L.failed_writes console.old) }
    ensures left { L.left console.new ≡ L.left console.old }
    ensures reads { L.failed_reads console.new ≡ L.failed_reads console.old }

    ensures status { (result ≡ status) ⊎ (result ≡ 5) ⊎ (result ≡ 1) }
{
    match write_all(console, text) {
        Ok(()) => status,
        Err(_) => 5,
    }
}

/// Prints a text, where there was memory for it.
pub(crate) fn say_made<L: Link>(console: &mut L, text: Result<String, AllocError>, status: u8) -> u8
    requires { status ≢ 5 }
    ensures told { (made : List ℕ) → IfOk text (λ text. string_bytes text ≡ made)
        → Tells (record { status = status; text = made }) result (L.out console.old) (L.out console.new) }
    ensures writes { L.failed_writes console.new ≡ writes_at result (L.failed_writes console.old) }
    ensures left { L.left console.new ≡ L.left console.old }
    ensures reads { L.failed_reads console.new ≡ L.failed_reads console.old }

    ensures status { (result ≡ status) ⊎ (result ≡ 5) ⊎ (result ≡ 1) }
{
    match text {
        Ok(text) => say(console, text.as_bytes(), status),
        Err(_) => 1,
    }
}
