//! `keeper_sqlite` and `alto_desk` over files that break off: a disk passes so many calls on and fails each one after.
//! What was synced is opened again, and holds each step that was acknowledged, or one more, and the rest goes on from
//! there.
ghost use Rattle.std.specs.Prelude.{IsTrue};

use alto_desk::{Command, Desk, Tally, init};
use alto_keeper::{Keeper, MemKeeper, Stored, StoredRow};
use alto_names::{Epoch, ImportId};
use alto_rows::PlainRows;
use edit_forms::read_csv;
use keeper_sqlite::SqlKeeper;
use sqlite::Connection;
use sqlite_disk::{Crash, Disk, Files, Fuse, Memory};
use sqlite_pager::Options;
use sqlite_store::FileStore;
use std::alloc::Global;
use std::process::Abort;
use std::test::Fail;

/// The steps behind the beginning of a store: imports, `~` between their records, and a trim in their middle.
const STEPS: [&str; 5] = [
    "import net-add,metro,,,,~pid-add,metro,east,,,~pid-add,metro,west,,,",
    "import prefix-put,metro,east,192.0.2.0/24,,~prefix-put,metro,west,0.0.0.0/0,,",
    "import metric-add,metro,routingcost,,,~cost-put,metro,routingcost,east,west,7",
    "trim 1",
    "import pid-drop,metro,west,,,",
];

/// Takes the steps from one number up to another, where step 0 begins the store, until one is refused. Gives the number
/// of the first that isn't taken, and the records.
fn run<K: Keeper + Drop>(
    alloc: Global,
    mut keeper: K,
    from: usize,
    to: usize,
) -> Result<(usize, K), Fail> {
    if from == to {
        return Ok((to, keeper));
    }
    if from == 0 && init(alloc, &mut keeper, &Epoch::read(alloc, b"e1")?, 8).is_err() {
        return Ok((0, keeper));
    }
    go_on(alloc, keeper, usize::max(from, 1), to)
}

/// The same, where the store is begun.
fn go_on<K: Keeper + Drop>(
    alloc: Global,
    keeper: K,
    from: usize,
    to: usize,
) -> Result<(usize, K), Fail> {
    let mut desk: Desk<K, PlainRows> = match Desk::open(alloc, keeper) {
        Ok(desk) => desk,
        Err((keeper, _)) => return Ok((from, keeper)),
    };
    for step in from..to {
        if !is_taken(alloc, &mut desk, step)? {
            return Ok((step, desk.into_keeper()));
        }
    }
    Ok((to, desk.into_keeper()))
}

/// Whether the step of a number is acknowledged.
fn is_taken<K: Keeper + Drop>(
    alloc: Global,
    desk: &mut Desk<K, PlainRows>,
    step: usize,
) -> Result<bool, Fail> {
    let line = STEPS.get(step.saturating_sub(1)).ok_or("a step")?;
    let Some(records) = line.strip_prefix("import ") else {
        return Ok(desk.trim(alloc, 1).is_ok());
    };
    let id = format!(in alloc; "i{step}")?;
    let body = records.replace(alloc, "~", "\n")?;
    let command = Command {
        id: ImportId::read(alloc, id.as_str().as_bytes())?,
        digest: [0; 32],
        edits: read_csv(alloc, body.as_str().as_bytes())?,
    };
    Ok(desk.edit(alloc, command, 100, &mut Tally::new()).is_ok())
}

/// The records after each number of steps, kept in memory.
fn kept(alloc: Global) -> Result<Vec<Stored>, Fail> {
    let mut all = Vec::new(alloc);
    for steps in 0..STEPS.len() + 2 {
        let keeper = MemKeeper::new(alloc, Stored::empty(alloc));
        let (_, keeper) = run(alloc, keeper, 0, steps)?;
        all.push(keeper.into_stored())?;
    }
    Ok(all)
}

/// Takes all steps over two files, as far as they go. Gives the number of the first that isn't taken, and the files.
fn run_over<D: Disk + Drop>(alloc: Global, database: Files<D>) -> Result<(usize, Files<D>), Fail>
    requires log { IsTrue (D.Disk.is_usable database.log) }
    requires db { IsTrue (D.Disk.is_usable database.db) }
{
    match Connection::open_files(alloc, database, Options::new(7)) {
        Ok(connection) => {
            let (taken, records) = run(alloc, SqlKeeper::new(connection), 0, STEPS.len() + 1)?;
            Ok((taken, records.into_connection().into_store().close()))
        }
        Err((_, left)) => Ok((0, left.into_files())),
    }
}

/// The records of the files after a crash.
fn records_of<D: Crash + Drop>(
    alloc: Global,
    mut database: Files<D>,
) -> Result<SqlKeeper<FileStore<D>>, Fail> {
    database.log.crash();
    database.db.crash();
    match Connection::open_files(alloc, database, Options::new(7)) {
        Ok(connection) => Ok(SqlKeeper::new(connection)),
        Err((error, _)) => Err(Fail::from(error)),
    }
}

fn are_same_rows(rows: &[StoredRow], others: &[StoredRow]) -> bool {
    rows.len() == others.len()
        && rows.iter().zip(others).all(|(row, other)| row.n == other.n && row.bytes == other.bytes)
}

fn are_same(stored: &Stored, other: &Stored) -> bool {
    are_same_rows(&stored.base, &other.base) && are_same_rows(&stored.rows, &other.rows)
}

/// How many of the steps these records are of, one of two numbers.
fn steps_of(found: &Stored, kept: &[Stored], taken: usize) -> Option<usize> {
    for steps in taken..taken.saturating_add(2) {
        if kept
            .get(steps)
            .is_some_and(|stored| are_same(found, stored))
        {
            return Some(steps);
        }
    }
    None
}

/// That a crash of files leaves each step that was acknowledged, or one more, and that the rest goes on from there.
/// Gives whether all were acknowledged.
fn survives<D: Crash + Drop>(
    rt: &(impl Abort + AllocGlobal),
    kept: &[Stored],
    database: Files<D>,
) -> Result<bool, Fail>
    requires log { IsTrue (D.Disk.is_usable database.log) }
    requires db { IsTrue (D.Disk.is_usable database.db) }
{
    let alloc = rt.alloc();
    let all = STEPS.len() + 1;
    let (taken, database) = run_over(alloc, database)?;
    let mut records = records_of(alloc, database)?;
    let found = records.load(alloc)?;
    let steps = steps_of(&found, kept, taken).ok_or("the acknowledged steps, or one more")?;
    let (end, mut records) = run(alloc, records, steps, all)?;
    assert_eq!(rt; end, all);
    assert!(rt;
        steps_of(&records.load(alloc)?, kept, all).is_some(),
        "{taken} steps, the end"
    );
    Ok(taken == all)
}

#[test]
fn a_log_that_breaks_off_loses_no_step(rt: HostRuntime) -> Result<(), Fail> {
    let alloc = rt.alloc();
    let kept = kept(alloc)?;
    for calls in 0..1_000 {
        let log = Fuse::new(Memory::new(alloc), calls);
        let db = Fuse::new(Memory::new(alloc), u64::MAX);
        if survives(&rt, &kept, Files { log, db })? {
            assert!(rt; calls > 20, "{calls} calls");
            return Ok(());
        }
    }
    panic!(rt; "a step is refused however many calls pass");
}

#[test]
fn a_file_that_breaks_off_loses_no_step(rt: HostRuntime) -> Result<(), Fail> {
    let alloc = rt.alloc();
    let kept = kept(alloc)?;
    for calls in 0..1_000 {
        let log = Fuse::new(Memory::new(alloc), u64::MAX);
        let db = Fuse::new(Memory::new(alloc), calls);
        if survives(&rt, &kept, Files { log, db })? {
            assert!(rt; calls > 5, "{calls} calls");
            return Ok(());
        }
    }
    panic!(rt; "a step is refused however many calls pass");
}
