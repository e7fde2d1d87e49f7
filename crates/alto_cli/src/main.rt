//! `alto`: the server as a program. `run` is the whole of it over any vault, console, doors, bell and clock; `main`
//! gives it the real ones.
#![tactic(auto)]

mod console;
mod system_clock;
mod telling_doors;
mod words;

use alto_doors::Doors;
use alto_files::FileVault;
use alto_http::Link;
use alto_hub::{Bell, ThreadBell};
use alto_keeper::Vault;
use alto_run::run;
use alto_serve::Clock;
use console::Console;
use std::alloc::{AllocError, Global};
use std::env::{self, Args};
use std::io::{self, BufWriter};
use std::process::ExitCode;
use std::sync::Wait;
use std::thread::Threads;
use system_clock::SystemClock;
use telling_doors::TellingDoors;
use words::words_of;

/// How many bytes of standard output may be gathered before they are put out.
const MOST_GATHERED: usize = 65536;

/// The status where memory runs out before there is a console or a word.
const OUT_OF_MEMORY: u8 = 1;

/// The status where standard output couldn't be written.
const WRITE_FAULT: u8 = 5;

fn main(rt: HostRuntime) -> ExitCode {
    let Ok(output) = BufWriter::with_capacity(rt.alloc(), MOST_GATHERED, io::writer(&rt)) else {
        return ExitCode::from(OUT_OF_MEMORY);
    };
    let mut vault = FileVault::new(&rt);
    let mut console = Console::new(rt.reader(), output);
    let mut doors = TellingDoors::new(&rt);
    let bell = ThreadBell::new(&rt);
    let clock = SystemClock::new(&rt);
    let status = run_on(
        &rt,
        rt.alloc(),
        env::args(&rt),
        &mut vault,
        &mut console,
        &mut doors,
        &bell,
        &clock,
    );
    match console.flush() {
        Ok(()) => ExitCode::from(status),
        Err(_) => ExitCode::from(WRITE_FAULT),
    }
}

/// Runs the program on its arguments, as `run` does on its words, and gives the status: 1 where memory ran out before
/// the words were read.
fn run_on<
    H: Threads + Wait + Sync,
    V: Vault<Keeper: Send>,
    L: Link,
    D: Doors<Link: Send, Door: Send>,
    B: Bell + Sync,
    C: Clock + Sync,
>(
    rt: &H,
    alloc: Global,
    arguments: io::Result<Args>,
    vault: &mut V,
    console: &mut L,
    doors: &mut D,
    bell: &B,
    clock: &C,
) -> u8 {
    match words_of(alloc, arguments) {
        Ok(words) => run(rt, alloc, &words, vault, console, doors, bell, clock),
        Err(AllocError) => OUT_OF_MEMORY,
    }
}
