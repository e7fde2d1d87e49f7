ghost use Rattle.std.specs.Prelude.{◌≡◌, ◌≢◌, ◌<◌, Some, IfOk, IfErr, IfSome, IfNone, OnOk, OnErr, [], drop, length};
ghost use Rattle.std.specs.Prelude.{option_map, slice_get};
ghost use Rattle.std.specs.Cmp.Lexicographic.{pointwise};
ghost use Rattle.csv.specs.Reading.{default_config, records, strip_bom};
ghost use Rattle.csv.specs.Records.{field_at, fields_of};
ghost use Rattle.edit_forms.specs.Columns.{texts_of};
ghost use Rattle.edit_forms.specs.Csv.{header, without_header};
ghost use Rattle.edit_forms.specs.Operations.{same_text};
ghost use Rattle.edit_forms.specs.Records.{IsPlain, from_here, unread};

use crate::columns::Columns;
use crate::fault::FormFault;
use csv::{ByteRecord, ErrorKind, Reader, ReaderBuilder};
use std::alloc::Global;
use std::marker::Model;

/// The records of a body, one at a time. A contract sees those from the one at hand on.
#[derive(Drop)]
pub(crate) struct Records<'a> {
    reader: Box<Reader<&'a [u8]>>,
    at_hand: ByteRecord,
    found: bool,
}

impl<'a> Model for Records<'a> {
    ghost use Rattle.std.specs.Prelude.{◌≡◌, ℕ, List, true};
    ghost use Rattle.csv.specs.Records.{fields_of};

    ghost Value = { List (List (List ℕ)) };

    ghost use Rattle.edit_forms.specs.Records.{IsPlain, from_here, unread};

    ghost view = { λ records. from_here records.found (fields_of records.at_hand) (unread records.reader.value) };

    ghost invariant = { λ records. records.found ≡ true → IsPlain records.reader.value };
}

impl<'a> Records<'a> {
    /// The records of this body.
    pub(crate) fn open(alloc: Global, body: &'a [u8]) -> Result<Records<'a>, FormFault>
        ensures ok { IfOk result (λ all. all ≡ records default_config (strip_bom body.now)) }
        ensures err { IfErr result (λ fault. fault ≡ FormFault.Memory) }
    {
        // in a box, since the reader holds tables of some thousand bytes, which would be copied at each move
        let mut reader = Box::new(alloc, plain_reader(alloc, body))?;
        let mut at_hand = ByteRecord::new(alloc);
        let found = read_next(&mut reader, &mut at_hand)?;
        Ok(Records {
            reader,
            at_hand,
            found,
        })
    }

    /// The record at hand, if one is left.
    pub(crate) fn at_hand(&self) -> Option<&ByteRecord>
        ensures { option_map (λ found. fields_of found.now) result ≡ slice_get self.now 0 }
    {
        if self.found {
            Some(&self.at_hand)
        } else {
            None
        }
    }

    /// Goes on to the next record. An error leaves none.
    pub(crate) fn advance(&mut self) -> Result<(), FormFault>
        requires { 0 < length self.old }
        ensures ok { OnOk result (self.new ≡ drop 1 self.old) }
        ensures err { IfErr result (λ fault. fault ≡ FormFault.Memory) }
        ensures lost { OnErr result (self.new ≡ []) }
    {
        self.found = false;
        self.found = read_next(&mut self.reader, &mut self.at_hand)?;
        Ok(())
    }

    /// Passes over the record at hand if it is a header line.
    pub(crate) fn pass_header(&mut self) -> Result<(), FormFault>
        ensures ok { OnOk result (self.new ≡ without_header self.old) }
        ensures err { IfErr result (λ fault. fault ≡ FormFault.Memory) }
    {
        match self.at_hand() {
            Some(first) if is_header(first) => self.advance(),
            _ => Ok(()),
        }
    }
}

/// The six columns of a record that has six fields.
pub(crate) fn columns_of(fields: &ByteRecord) -> Option<Columns<'_>>
    ensures six { IfSome result (λ columns. fields_of fields.now ≡ texts_of columns) }
    ensures other { IfNone result (length (fields_of fields.now) ≢ 6) }
{
    if fields.len() != 6 {
        return None;
    }
    Some(Columns {
        op: field(fields, 0),
        net: field(fields, 1),
        a: field(fields, 2),
        b: field(fields, 3),
        c: field(fields, 4),
        d: field(fields, 5),
    })
}

/// The field of a record at this place.
fn field(fields: &ByteRecord, place: usize) -> &[u8]
    requires { place < length (fields_of fields.now) }
    ensures { field_at (fields_of fields.now) place ≡ Some result.now }
{
    fields.get(place).unwrap()
}

/// Whether a record is a header line.
fn is_header(fields: &ByteRecord) -> bool
    ensures { result ≡ pointwise same_text (fields_of fields.now) header }
{
    match columns_of(fields) {
        Some(columns) => columns.is_header(),
        None => false,
    }
}

/// A reader of the records of a body, of any length, none of which is a header.
fn plain_reader(alloc: Global, body: &[u8]) -> Reader<&[u8]>
    ensures plain { IsPlain result }
    ensures unread { unread result ≡ records default_config (strip_bom body.now) }
{
    ReaderBuilder::new()
        .has_headers(false)
        .flexible(true)
        .from_reader(alloc, body)
}

/// Reads the next record into `into`, if there is one.
fn read_next(reader: &mut Reader<&[u8]>, into: &mut ByteRecord) -> Result<bool, FormFault>
    requires { IsPlain reader.old }
    ensures next { IfOk result (λ found. unread reader.old ≡ from_here found (fields_of into.new) (unread reader.new)) }
    ensures plain { IfOk result (λ found. IsPlain reader.new) }
    ensures err { IfErr result (λ fault. fault ≡ FormFault.Memory) }
{
    match reader.read_byte_record(into) {
        Ok(found) => Ok(found),
        Err(error) => match error.into_kind() {
            ErrorKind::Io(_) | ErrorKind::OutOfMemory => Err(FormFault::Memory),
            _ => unreachable!(),
        },
    }
}
