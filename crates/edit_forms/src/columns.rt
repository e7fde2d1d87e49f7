ghost use Rattle.std.specs.Prelude.{◌≡◌, ◌≢◌, IfOk, IfErr, Ok, Err};
ghost use Rattle.std.specs.Cmp.Lexicographic.{pointwise};
ghost use Rattle.alto_edits.specs.Edits.{IsEdit};
ghost use Rattle.edit_forms.specs.Answers.{IsAnswer};
ghost use Rattle.edit_forms.specs.Columns.{texts_of};
ghost use Rattle.edit_forms.specs.Csv.{header};
ghost use Rattle.edit_forms.specs.Edits.{RecordReads};
ghost use Rattle.edit_forms.specs.Operations.{same_text};
ghost use Rattle.edit_forms.specs.Table.{ColumnsRead};

use crate::before::Before;
use crate::fault::FormFault;
use crate::operation::Operation;
use crate::values::name_like;
use alto_edits::Edit;
use alto_names::NetKind;
use std::alloc::{AllocError, AllocFailed, Global};

/// Why columns read as no edit.
#[derive(Clone, Copy, Debug, PartialEq, Eq)]
pub(crate) enum ColumnFault {
    /// The column of this number, from 1, is the first with a fault.
    Bad(u8),
    /// The memory couldn't be had.
    Memory,
}

impl From<AllocError> for ColumnFault {
    ghost use Rattle.std.specs.Prelude.{◌≡◌};
    ghost use Rattle.edit_forms.specs.declared.columns.ColumnFault.TheVariants.{Memory};

    ghost from_gives = { λ _ fault. fault ≡ Memory };

    fn from(_: AllocError) -> ColumnFault {
        ColumnFault::Memory
    }
}

impl<T: Drop> From<AllocFailed<T>> for ColumnFault {
    ghost use Rattle.std.specs.Prelude.{◌≡◌};
    ghost use Rattle.edit_forms.specs.declared.columns.ColumnFault.TheVariants.{Memory};

    ghost from_gives = { λ _ fault. fault ≡ Memory };

    fn from(_: AllocFailed<T>) -> ColumnFault {
        ColumnFault::Memory
    }
}

/// The six columns of a record, in order.
#[derive(Clone, Copy)]
pub(crate) struct Columns<'a> {
    pub(crate) op: &'a [u8],
    pub(crate) net: &'a [u8],
    pub(crate) a: &'a [u8],
    pub(crate) b: &'a [u8],
    pub(crate) c: &'a [u8],
    pub(crate) d: &'a [u8],
}

impl Columns<'_> {
    /// The edit that the columns of this row make. Takes no memory for the network, nor for the metric and source of a
    /// `cost-put`, where `before` has the same.
    pub(crate) fn row_edit(
        &self,
        alloc: Global,
        row: u64,
        before: Before<'_>,
    ) -> Result<Edit, FormFault>
        ensures ok { IfOk result (λ edit. RecordReads row (texts_of self.now) (Ok edit)) }
        ensures err { IfErr result (λ fault. fault ≢ FormFault.Memory
            → RecordReads row (texts_of self.now) (Err fault)) }
        ensures edit { IfOk result IsEdit }
    {
        match self.edit(alloc, before) {
            Ok(edit) => Ok(edit),
            Err(ColumnFault::Bad(column)) => Err(FormFault::BadColumn(row, column)),
            Err(ColumnFault::Memory) => Err(FormFault::Memory),
        }
    }

    /// Whether the columns are those of a header line.
    pub(crate) fn is_header(&self) -> bool
        ensures { result ≡ pointwise same_text (texts_of self.now) header }
    {
        self.op == b"op".as_slice()
            && self.net == b"net".as_slice()
            && self.a == b"a".as_slice()
            && self.b == b"b".as_slice()
            && self.c == b"c".as_slice()
            && self.d == b"d".as_slice()
    }

    /// The edit that the columns make. Takes no memory for the network where `before` has the same.
    fn edit(&self, alloc: Global, before: Before<'_>) -> Result<Edit, ColumnFault>
        ensures answer { IsAnswer (ColumnsRead self.now.op.now self.now.net.now
            self.now.a.now self.now.b.now self.now.c.now self.now.d.now) result }
        ensures edit { IfOk result IsEdit }
    {
        let Some(operation) = Operation::read(self.op) else {
            return Err(ColumnFault::Bad(1));
        };
        let net = name_like::<NetKind>(alloc, 2, self.net, before.net)?;
        self.edit_of(alloc, operation, net, before)
    }
}
