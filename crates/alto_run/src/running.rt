ghost use Rattle.std.specs.Prelude.{◌≡◌, ◌≢◌, ◌⊎◌, ◌≤◌, None, IfOk, IfSome, string_bytes};
ghost use Rattle.alto_keeper.specs.Stored.{one_more};
ghost use Rattle.alto_words.specs.Tasks.{IsInRange};
ghost use Rattle.alto_words.specs.Words.{task_of};
ghost use Rattle.alto_commands.specs.Status.{reads_at, writes_at};
ghost use Rattle.alto_run.specs.Runs.{Comes, IsRefused, PrintsText, drill_text};

use alto_commands::{import, init, pipe, say, show, trim};
use alto_doors::Doors;
use alto_drill::drill;
use alto_http::Link;
use alto_hub::Bell;
use alto_keeper::Vault;
use alto_serve::Clock;
use alto_service::{Plan, serve};
use alto_words::{Task, VERSION, WORDS_FAULT, WordsFault, help_text, read_words};
use json_tree::Name;
use std::alloc::{AllocError, Global};
use std::sync::Wait;
use std::thread::Threads;

/// Runs the program on its words, and gives the status that it ends with.
///
/// | status | comes where |
/// |---|---|
/// | 0 | it is done; `pipe`'s input ended between requests, or a request closed |
/// | 1 | out of memory |
/// | 2 | the words are outside the grammar |
/// | 3 | the vault counted a fault, its own or that of a keeper that was closed, and the command itself met it |
/// | 4, 5 | a read or a write of the console failed |
/// | 6 | `serve`: a door couldn't be opened, or has counted a fault |
/// | 7 | `import`: an edit breaks a rule |
/// | 8 | `show`: no declared resource has the id |
/// | 9 | the records at the store are no book's |
/// | 10 | `init` of a store where something is held |
/// | 11, 12, 13 | `import`: the body doesn't read, the id is that of another body, the body is too large |
/// | 14, 15 | `pipe`'s input ended inside a request, or brought as many requests as a connection may |
#[tactic(none)]
pub fn run<
    H: Threads + Wait + Sync,
    V: Vault<Keeper: Send>,
    L: Link,
    D: Doors<Link: Send, Door: Send>,
    B: Bell + Sync,
    C: Clock + Sync,
>(
    rt: &H,
    alloc: Global,
    words: &[Name],
    vault: &mut V,
    console: &mut L,
    doors: &mut D,
    bell: &B,
    clock: &C,
) -> u8
    ensures faulty { result ≡ 2 → task_of words.now ≡ None }
    ensures refused { task_of words.now ≡ None → IsRefused result (L.out console.old) (L.out console.new) }

    // What the task comes to. For `pipe`: the replies of a connection over the stored book, the walks along its edges,
    // and the book that is stored at the end, where the console tells its bytes and the vault what it holds.
    ensures done { IfSome (task_of words.now) (λ task. Comes task result (C.tells clock.now)
        (record {
          clean = V.is_clean vault.old;
          held = V.holds vault.old;
          faults = V.faults vault.old;
          doors = D.counts doors.old;
          left = L.left console.old;
          out = L.out console.old;
        })
        (record {
          clean = V.is_clean vault.new;
          held = V.holds vault.new;
          faults = V.faults vault.new;
          doors = D.counts doors.new;
          left = L.left console.new;
          out = L.out console.new;
        })) }

    ensures counted { result ≡ 3 → V.faults vault.new ≡ one_more (V.faults vault.old) }
    ensures reads { L.failed_reads console.new ≡ reads_at result (L.failed_reads console.old) }
    ensures writes { L.failed_writes console.new ≡ writes_at result (L.failed_writes console.old) }
{
    match read_words(alloc, words) {
        Ok(task) => do_task(rt, alloc, task, vault, console, doors, bell, clock),
        Err(WordsFault::Outside) => say(console, WORDS_FAULT.as_bytes(), 2),
        Err(WordsFault::Memory) => 1,
    }
}

/// Does a task, and gives the status.
#[tactic(none)]
fn do_task<
    H: Threads + Wait + Sync,
    V: Vault<Keeper: Send>,
    L: Link,
    D: Doors<Link: Send, Door: Send>,
    B: Bell + Sync,
    C: Clock + Sync,
>(
    rt: &H,
    alloc: Global,
    task: Task,
    vault: &mut V,
    console: &mut L,
    doors: &mut D,
    bell: &B,
    clock: &C,
) -> u8
    requires { IsInRange task }
    ensures done { Comes task result (C.tells clock.now)
        (record {
          clean = V.is_clean vault.old;
          held = V.holds vault.old;
          faults = V.faults vault.old;
          doors = D.counts doors.old;
          left = L.left console.old;
          out = L.out console.old;
        })
        (record {
          clean = V.is_clean vault.new;
          held = V.holds vault.new;
          faults = V.faults vault.new;
          doors = D.counts doors.new;
          left = L.left console.new;
          out = L.out console.new;
        }) }

    ensures counted { result ≡ 3 → V.faults vault.new ≡ one_more (V.faults vault.old) }
    ensures reads { L.failed_reads console.new ≡ reads_at result (L.failed_reads console.old) }
    ensures writes { L.failed_writes console.new ≡ writes_at result (L.failed_writes console.old) }
{
    match task {
        Task::Init {
            store,
            epoch,
            window,
        } => init(alloc, vault, console, store.as_str(), &epoch, window),
        Task::Pipe { store, turns } => pipe(alloc, vault, console, clock, store.as_str(), turns),
        Task::Serve {
            store,
            public,
            operator,
            workers,
            turns,
        } => {
            let plan = Plan {
                store: store.as_str(),
                public: public.as_str(),
                operator: operator.as_str(),
                workers,
                turns,
            };
            serve(rt, alloc, vault, console, doors, bell, clock, &plan)
        }
        Task::Import { store, id, form } => {
            import(alloc, vault, console, clock, store.as_str(), id, form)
        }
        Task::Show { store, resource } => {
            show(alloc, vault, console, store.as_str(), resource.as_str())
        }
        Task::Trim { store, keep } => trim(alloc, vault, console, store.as_str(), keep),
        Task::Drill { number, batches } => say_drilled(alloc, console, number, batches),
        Task::Help(topic) => say(console, help_text(topic).as_bytes(), 0),
        Task::Version => say(console, VERSION.as_bytes(), 0),
    }
}

/// Drills, and prints what came of it.
#[tactic(none)]
fn say_drilled<L: Link>(alloc: Global, console: &mut L, number: u32, batches: u32) -> u8
    requires at_least { 1 ≤ batches }
    requires at_most { batches ≤ 1000 }
    ensures told { PrintsText (drill_text number batches) result (L.out console.old) (L.out console.new) }
    ensures status { result ≢ 2 }
    ensures writes { L.failed_writes console.new ≡ writes_at result (L.failed_writes console.old) }
    ensures reads { L.failed_reads console.new ≡ reads_at result (L.failed_reads console.old) }
    ensures vault { result ≢ 3 }
{
    match drilled_text(alloc, number, batches) {
        Ok(text) => say(console, text.as_bytes(), 0),
        Err(_) => 1,
    }
}

/// What is printed of a drill.
#[tactic(none)]
fn drilled_text(alloc: Global, number: u32, batches: u32) -> Result<String, AllocError>
    requires at_least { 1 ≤ batches }
    requires at_most { batches ≤ 1000 }
    ensures { IfOk result (λ text. string_bytes text ≡ drill_text number batches) }
{
    match drill(alloc, number, batches) {
        Ok(drilled) => drilled.text(alloc),
        Err(fault) => Err(fault),
    }
}
