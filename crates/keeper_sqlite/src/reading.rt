ghost use Rattle.std.specs.Prelude.{◌≡◌, map, IfOk};
ghost use Rattle.keeper_sqlite.specs.Reading.{shown_in, stored_in};

use alto_keeper::{Stored, StoredRow};
use sqlite::{Error, Row};
use std::alloc::Global;

/// Rows of the table as records: those below 0 are pieces of the base, the last first.
pub fn stored_in(alloc: Global, rows: &[Row]) -> Result<Stored, Error>
    ensures { IfOk result (λ all. all ≡ stored_in (map shown_in rows.now)) }
{
    let mut stored = Stored::empty(alloc);
    for row in rows {
        let row = shown_in(row)?;
        if row.n < 0 {
            stored.base.push(StoredRow {
                n: -1 - row.n,
                bytes: row.bytes,
            })?;
        } else {
            stored.rows.push(row)?;
        }
    }
    stored.base.reverse();
    Ok(stored)
}

/// The number and the bytes that a row shows.
fn shown_in(row: &Row) -> Result<StoredRow, Error>
    ensures { IfOk result (λ shown. shown ≡ shown_in row.now) }
{
    Ok(StoredRow {
        n: row.get(0)?,
        bytes: row.get(1)?,
    })
}
