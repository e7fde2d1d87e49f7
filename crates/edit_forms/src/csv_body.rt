ghost use Rattle.std.specs.Prelude.{◌≢◌, Ok, Err, IfOk, IfErr, All};
ghost use Rattle.csv.specs.Records.{fields_of};
ghost use Rattle.alto_edits.specs.Edits.{IsEdit};
ghost use Rattle.edit_forms.specs.Csv.{CsvReads};
ghost use Rattle.edit_forms.specs.Edits.{RecordReads, RecordsRead};

use crate::before::Before;
use crate::edits::at_least_one;
use crate::fault::FormFault;
use crate::records::{Records, columns_of};
use alto_edits::Edit;
use csv::ByteRecord;
use std::alloc::Global;

/// About the length of a short line.
const SHORT_LINE: usize = 32;

/// Reads a CSV body (RFC 4180): the edits of its records, past a byte order mark and a header line. The names and
/// values of the edits are in the ranges of their columns. The time is linear in the body. A `cost-put` takes no memory
/// for a network, a metric and a source that are those of a `cost-put` right before it.
///
/// # Errors
///
/// The first fault in the order of rows and columns, a record that hasn't six fields being `BadRecord`; `Empty` where
/// there is no record.
pub fn read_csv(alloc: Global, body: &[u8]) -> Result<Vec<Edit>, FormFault>
    ensures ok { IfOk result (λ edits. CsvReads body.now (Ok edits.items)) }
    ensures err { IfErr result (λ fault. fault ≢ FormFault.Memory → CsvReads body.now (Err fault)) }
    ensures edits { IfOk result (λ edits. All IsEdit edits.items) }
{
    let mut records = Records::open(alloc, body)?;
    records.pass_header()?;
    at_least_one(edits_of(alloc, room_for(body), &mut records)?)
}

/// How many edits to make room for: about as many as a body of short lines has.
fn room_for(body: &[u8]) -> usize {
    body.len() / SHORT_LINE + 1
}

/// The edits of the records that are left, which are numbered from 1. They are put where there is room for so many, and
/// for more of them room is made.
fn edits_of(alloc: Global, room: usize, records: &mut Records<'_>) -> Result<Vec<Edit>, FormFault>
    ensures ok { IfOk result (λ edits. RecordsRead 1 records.old (Ok edits.items)) }
    ensures err { IfErr result (λ fault. fault ≢ FormFault.Memory → RecordsRead 1 records.old (Err fault)) }
    ensures edits { IfOk result (λ edits. All IsEdit edits.items) }
{
    let mut edits = Vec::with_capacity(alloc, room)?;
    while let Some(at_hand) = records.at_hand() {
        let row = edits.len() as u64 + 1;
        let edit = edit_of(alloc, row, at_hand, Before::of(&edits))?;
        edits.push(edit)?;
        records.advance()?;
    }
    Ok(edits)
}

/// The edit of the record of this number. Takes no memory for names that it has from `before`.
fn edit_of(
    alloc: Global,
    row: u64,
    fields: &ByteRecord,
    before: Before<'_>,
) -> Result<Edit, FormFault>
    ensures ok { IfOk result (λ edit. RecordReads row (fields_of fields.now) (Ok edit)) }
    ensures err { IfErr result (λ fault. fault ≢ FormFault.Memory
        → RecordReads row (fields_of fields.now) (Err fault)) }
    ensures edit { IfOk result IsEdit }
{
    match columns_of(fields) {
        Some(columns) => columns.row_edit(alloc, row, before),
        None => Err(FormFault::BadRecord(row)),
    }
}
