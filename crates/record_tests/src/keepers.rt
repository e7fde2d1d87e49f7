//! One use of each call of a keeper, over a database in memory.
use alto_keeper::{KeepFault, Keeper, StoredRow};
use keeper_sqlite::SqlKeeper;
use sqlite::{Connection, MemStore};
use std::test::Fail;

/// Rows as a text.
fn text_of(rt: &HostRuntime, rows: &[StoredRow]) -> Result<String, Fail> {
    let mut text = String::new(rt.alloc());
    for row in rows {
        let bytes = std::str::from_utf8(&row.bytes)?;
        text = format!(in rt.alloc(); "{text} {}={bytes}", row.n)?;
    }
    Ok(text)
}

/// All that is loaded: the base, a bar, and the rows.
fn loaded(rt: &HostRuntime, keeper: &mut SqlKeeper<MemStore>) -> Result<String, Fail> {
    let kept = keeper.load(rt.alloc())?;
    let base = text_of(rt, &kept.base)?;
    let rows = text_of(rt, &kept.rows)?;
    Ok(format!(in rt.alloc(); "{base} |{rows}")?)
}

/// Whether a row was added.
fn adds(
    rt: &HostRuntime,
    keeper: &mut SqlKeeper<MemStore>,
    n: i64,
    text: &str,
) -> Result<(), KeepFault> {
    keeper.append(rt.alloc(), n, text.as_bytes())
}

/// Puts the lines of a text in the place of the base.
fn moves(
    rt: &HostRuntime,
    keeper: &mut SqlKeeper<MemStore>,
    text: &str,
    upto: u32,
) -> Result<(), Fail> {
    let mut pieces = Vec::new(rt.alloc());
    for line in text.lines() {
        pieces.push(line.as_bytes().to_vec(rt.alloc())?)?;
    }
    Ok(keeper.rebase(rt.alloc(), &pieces, i64::from(upto))?)
}

#[test]
fn records_come_back_as_they_were_kept(rt: HostRuntime) -> Result<(), Fail> {
    let mut keeper = SqlKeeper::new(Connection::open_in_memory(rt.alloc())?);
    assert_eq!(rt;
        loaded(&rt, &mut keeper)?.as_str(),
        " |",
        "before the first row"
    );
    for (n, text) in [(0, "head"), (1, "first"), (2, "second")] {
        adds(&rt, &mut keeper, n, text)?;
    }
    let refused = adds(&rt, &mut keeper, 2, "other");
    assert_eq!(rt; refused, Err(KeepFault::Failed), "a number that is taken");
    assert_eq!(rt; keeper.faults(), 1, "the refusal");
    assert_eq!(rt;
        loaded(&rt, &mut keeper)?.as_str(),
        " | 0=head 1=first 2=second",
        "the rows"
    );

    moves(&rt, &mut keeper, "base\nmore", 1)?;
    assert_eq!(rt;
        loaded(&rt, &mut keeper)?.as_str(),
        " 0=base 1=more | 0=head 2=second",
        "a base"
    );
    moves(&rt, &mut keeper, "next", 3)?;
    assert_eq!(rt;
        loaded(&rt, &mut keeper)?.as_str(),
        " 0=next | 0=head",
        "another base"
    );
    assert_eq!(rt; keeper.faults(), 1, "no other refusal");
    Ok(())
}
