//! `row_chunks` beside `alto_rows`: shared rows and plain rows after the same writes.
use alto_names::{Metric, NetName, PidName};
use alto_rows::{Key, PlainRows, RowStore, Span, Value, Write, walk_from};
use row_chunks::Chunks;
use std::test::Fail;

/// The number after another, by a linear congruential generator.
fn next(number: u64) -> u64 {
    number
        .wrapping_mul(6_364_136_223_846_793_005)
        .wrapping_add(1_442_695_040_888_963_407)
}

fn pid(rt: &HostRuntime, number: u64) -> Result<PidName, Fail> {
    let name = format!(in rt.alloc(); "p{number}")?;
    Ok(PidName::read(rt.alloc(), name.as_bytes())?)
}

/// The key of one of 22,500 costs.
fn cost_key(rt: &HostRuntime, number: u64) -> Result<Key, Fail> {
    Ok(Key::Cost(
        NetName::read(rt.alloc(), b"metro")?,
        Metric::read(rt.alloc(), b"hops")?,
        pid(rt, number / 150 % 150)?,
        pid(rt, number % 150)?,
    ))
}

/// So many writes; of eight, this many are deletions.
fn writes(rt: &HostRuntime, seed: u64, count: u64, deletions: u64) -> Result<Vec<Write>, Fail> {
    let mut all = Vec::new(rt.alloc());
    let mut number = seed;
    for _write in 0..count {
        number = next(number);
        let is_deletion = number >> 40 & 7 < deletions;
        all.push(Write {
            key: cost_key(rt, number >> 33)?,
            value: if is_deletion {
                None
            } else {
                Some(Value::Num(number >> 50))
            },
        })?;
    }
    Ok(all)
}

/// Whether two stores have the same rows, walked whole.
fn are_alike<R: RowStore, S: RowStore>(rows: &R, others: &S) -> bool {
    let mut rest = walk_from(others, &Key::Epoch);
    for row in walk_from(rows, &Key::Epoch) {
        let Some(other) = rest.next() else {
            return false;
        };
        if row.0 != other.0 || row.1 != other.1 {
            return false;
        }
    }
    rest.next().is_none()
}

/// How many costs from one PID there are.
fn costs_from<R: RowStore>(rt: &HostRuntime, rows: &R, number: u64) -> Result<usize, Fail> {
    Ok(rows.count_in(&Span::CostsFrom(
        NetName::read(rt.alloc(), b"metro")?,
        Metric::read(rt.alloc(), b"hops")?,
        pid(rt, number)?,
    )))
}

#[test]
fn shared_rows_are_the_plain_rows(rt: HostRuntime) -> Result<(), Fail> {
    let mut plain = PlainRows::empty(rt.alloc())?;
    let mut shared = Chunks::empty(rt.alloc())?;
    for round in 0..80u64 {
        let deletions = if round < 40 { 1 } else { 7 };
        let count = if round % 40 < 3 {
            20_000
        } else {
            1 + round % 7 * 40
        };
        let changes = writes(&rt, round, count, deletions)?;
        plain = plain.with(rt.alloc(), &changes)?;
        shared = shared.with(rt.alloc(), &changes)?;
        assert!(rt; are_alike(&plain, &shared), "the rows after round {round}");
        assert_eq!(rt; plain.len(), shared.len());
        let from_plain = costs_from(&rt, &plain, round % 60)?;
        let from_shared = costs_from(&rt, &shared, round % 60)?;
        assert_eq!(rt; from_plain, from_shared);
    }
    Ok(())
}
