//! Command lines, each a run of the program.
use alto_answers::Side;
use alto_doors::{Doors, MemDoors};
use alto_http::{Link, MemLink};
use alto_hub::{Bell, IdleBell, ThreadBell};
use alto_keeper::{MemVault, Vault};
use alto_run::run;
use alto_serve::{Clock, FixedClock};
use connection_tests::{begun, parted, reply, request};
use json_tree::Name;
use std::alloc::{AllocError, Global};
use std::sync::Wait;
use std::test::Fail;
use std::thread::Threads;

/// Command lines over one vault, in turn, each with what the console gives, the status, and how what is printed begins;
/// `~` stands for an end of line.
const LINES: &str = r#"show x metro | | 9 | damaged row 0~
init x --window=8 --epoch e1 | | 0 | initialised e1 window 8~
import x --id i1 --form csv | net-add,metro,,,,~ | 0 | accepted n 1 moment 100~
import x --id i1 --form csv | net-add,metro,,,,~ | 0 | accepted n 1 moment 100~
import x --id i1 --form csv | net-add,other,,,,~ | 12 | other body n 1~
import x --id i2 --form csv | net-add,metro,,,,~ | 7 | refused row 1 rule G1~
import x --id i2 --form json | {} | 11 | bad form row 0 column 0~
init x --window=8 --epoch e1 | | 10 | already initialised~
pipe x | GET /maps/metro HTTP/1.1~~ | 0 | HTTP/1.1 200 OK
show x metro | | 0 | {"meta":{"vtag":{"resource-id":"metro","tag":"e1-1"}},"network-map":{}}~
show x other | | 8 | unknown resource~
trim x --keep 0 | | 0 | trimmed to 1~
show x metro | | 0 | {"meta":{"vtag":{"resource-id":"metro","tag":"e1-1"}},"network-map":{}}~
import x --id i1 --form csv | net-add,metro,,,,~ | 0 | accepted n 1 moment 100~
trim y --keep 0 | | 9 | damaged row 0~
serve x --public a --operator b --workers 2 | | 0 |
serve y --public a --operator b --workers 2 | | 9 | damaged row 0~
drill --number 7 --batches 2 | | 0 | batches 2 edges 9 failed 0~map
--version | | 0 | alto
show --help | | 0 | alto show
show x | | 2 | words outside the grammar; commands are init, pipe, serve, import, show, drill, trim~"#;

/// Runs the program on words, with these bytes on its console, and gives the status and the console.
fn ran<H: Threads + Wait + Sync, B: Bell + Sync>(
    rt: &H,
    alloc: Global,
    words: &str,
    input: &str,
    vault: &mut MemVault,
    doors: &mut MemDoors<MemLink>,
    bell: &B,
) -> Result<(u8, MemLink), AllocError> {
    let mut names = Vec::new(alloc);
    for word in words.split(' ') {
        names.push(Name::from_str(alloc, word)?)?;
    }
    let mut link = MemLink::new(alloc, input.as_bytes(), 10_000)?;
    let clock = FixedClock(100);
    let status = status_of(rt, alloc, &names, vault, &mut link, doors, bell, &clock);
    Ok((status, link))
}

/// The status of a run of the program. The clauses of `run` aren't computed for the vault and the console in memory,
/// since nothing here is proved by them.
fn status_of<
    H: Threads + Wait + Sync,
    V: Vault<Keeper: Send>,
    L: Link,
    D: Doors<Link: Send, Door: Send>,
    B: Bell + Sync,
    C: Clock + Sync,
>(
    rt: &H,
    alloc: Global,
    words: &[Name],
    vault: &mut V,
    console: &mut L,
    doors: &mut D,
    bell: &B,
    clock: &C,
) -> u8 {
    run(rt, alloc, words, vault, console, doors, bell, clock)
}

#[test]
fn words_ask_for_commands(rt: HostRuntime) -> Result<(), Fail> {
    let alloc = rt.alloc();
    let mut vault = MemVault::new(alloc);
    let mut doors = MemDoors::new(alloc);
    for line in LINES.lines() {
        let (words, rest) = parted(line);
        let (input, rest) = parted(rest);
        let (status, printed) = parted(rest);
        let input = input.replace(alloc, "~", "\n")?;
        let printed = printed.trim().replace(alloc, "~", "\n")?;
        let (found, link) = ran(
            &rt,
            alloc,
            words,
            input.as_str(),
            &mut vault,
            &mut doors,
            &IdleBell,
        )?;
        assert!(rt; status.parse::<u8>() == Ok(found), "{line}");
        assert!(rt; link.output().starts_with(printed.as_bytes()), "{line}");
    }
    Ok(())
}

/// A connection that sends one request and closes.
fn asking(alloc: Global, start: &str, fields: &str, body: &str) -> Result<MemLink, AllocError> {
    let asked = request(alloc, start, fields, body)?;
    MemLink::new(alloc, asked.as_bytes(), 10_000)
}

/// Adds a door with one connection.
fn add_door(
    alloc: Global,
    doors: &mut MemDoors<MemLink>,
    side: Side,
    address: &str,
    connection: MemLink,
) -> Result<(), AllocError> {
    let connections = vec![in alloc; (connection, None)]?;
    doors.add_door(alloc, side, address, connections, Vec::new(alloc))
}

#[test]
fn an_import_answers_an_edge_that_another_connection_waits_for(
    rt: HostRuntime,
) -> Result<(), Fail> {
    let alloc = rt.alloc();
    let mut vault = begun(alloc)?;
    let mut doors = MemDoors::new(alloc);
    let words = "import x --id i1 --form csv";
    ran(
        &rt,
        alloc,
        words,
        "net-add,metro,,,,\n",
        &mut vault,
        &mut doors,
        &IdleBell,
    )?;

    let edge = asking(alloc, "GET /tips/metro/ug/1/2", "", "")?;
    add_door(alloc, &mut doors, Side::Public, "a", edge)?;
    let csv = "Content-Type: text/csv~";
    let import = asking(alloc, "POST /edits/i2", csv, "pid-add,metro,east,,,~")?;
    add_door(alloc, &mut doors, Side::Operator, "b", import)?;
    let words = "serve x --public a --operator b --workers 1 --turns 1000";
    let bell = ThreadBell::new(&rt);
    let (status, _) = ran(&rt, alloc, words, "", &mut vault, &mut doors, &bell)?;

    assert_eq!(rt; status, 0);
    let patch = r#"{"meta":{"vtag":{"tag":"e1-2"}},"network-map":{"east":{}}}"#;
    let replies = [
        reply(alloc, "200 OK", "merge-patch+json", patch)?,
        reply(alloc, "200 OK", "json", r#"{"moment":100,"n":2}"#)?,
    ];
    assert_eq!(rt; doors.served().len(), 2);
    for (served, wanted) in doors.served().iter().zip(&replies) {
        assert!(rt; served.link().output() == wanted.as_bytes(), "{wanted}");
    }
    let words = "show x metro";
    let (_, link) = ran(&rt, alloc, words, "", &mut vault, &mut doors, &IdleBell)?;
    let kept =
        br#"{"meta":{"vtag":{"resource-id":"metro","tag":"e1-2"}},"network-map":{"east":{}}}"#;
    assert!(rt; link.output().starts_with(kept));
    Ok(())
}
