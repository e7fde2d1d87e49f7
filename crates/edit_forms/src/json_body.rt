ghost use Rattle.std.specs.Prelude.{◌≡◌, ◌≢◌, [], Some, Ok, Err, IfOk, IfErr, IfSome, IfNone, IsErr, All, length};
ghost use Rattle.std.specs.Prelude.{option_map, slice_get};
ghost use Rattle.std.specs.Option.{option_map_or};
ghost use Rattle.serde_json.specs.Find.{as_array, as_str};
ghost use Rattle.json_tree.specs.Tree.{data_of, items_data};
ghost use Rattle.json_tree.specs.Whole.{whole_value};
ghost use Rattle.alto_edits.specs.Edits.{IsEdit};
ghost use Rattle.edit_forms.specs.Columns.{texts_of};
ghost use Rattle.edit_forms.specs.Edits.{RecordReads, RecordsRead};
ghost use Rattle.edit_forms.specs.Json.{item_record, item_records, JsonReads, listed_edits, texts_in, texts_record};

use crate::before::Before;
use crate::columns::Columns;
use crate::edits::at_least_one;
use crate::fault::FormFault;
use alto_edits::Edit;
use json_tree::{Tree, TreeFault, read};
use std::alloc::Global;

/// Reads a JSON body (RFC 8259): the edits of the items of its member `edits`, each a list of 2 to 6 texts, which are
/// the columns in order. Those left out at the end are empty. Other members are ignored. The names and values of the
/// edits are in the ranges of their columns. The time is linear in the body, but for the order of the members of its
/// objects. A `cost-put` takes no memory for a network, a metric and a source that are those of a `cost-put` right
/// before it.
///
/// # Errors
///
/// `Syntax` where the body doesn't read as a tree, or isn't an object whose member `edits` is a list; else the first
/// fault in the order of items and columns, an item that isn't such a list being `BadRecord`; `Empty` where there is
/// no item.
pub fn read_json(alloc: Global, body: &[u8]) -> Result<Vec<Edit>, FormFault>
    ensures ok { IfOk result (λ edits. JsonReads body.now (Ok edits.items)) }
    ensures err { IfErr result (λ fault. fault ≢ FormFault.Memory → JsonReads body.now (Err fault)) }
    ensures edits { IfOk result (λ edits. All IsEdit edits.items) }
{
    let tree = tree_of(alloc, body)?;
    match listed(&tree) {
        Some(items) => at_least_one(edits_of(alloc, items)?),
        None => Err(FormFault::Syntax),
    }
}

/// The tree that a body writes.
fn tree_of(alloc: Global, body: &[u8]) -> Result<Tree, FormFault>
    ensures ok { IfOk result (λ tree. whole_value body.now ≡ Ok (data_of tree)) }
    ensures err { IfErr result (λ fault. fault ≢ FormFault.Memory
        → (fault ≡ FormFault.Syntax) × IsErr (whole_value body.now)) }
{
    match read(alloc, body) {
        Ok(tree) => Ok(tree),
        Err(fault) => match fault {
            TreeFault::Memory => Err(FormFault::Memory),
            _ => Err(FormFault::Syntax),
        },
    }
}

/// The list that the member `edits` of an object is.
fn listed(body: &Tree) -> Option<&[Tree]>
    ensures { option_map (λ items. items_data items.now) result ≡ listed_edits (data_of body.now) }
{
    body.member("edits")?.as_list()
}

/// The edits of the items, which are numbered from 1.
fn edits_of(alloc: Global, items: &[Tree]) -> Result<Vec<Edit>, FormFault>
    ensures ok { IfOk result (λ edits. RecordsRead 1 (item_records (items_data items.now)) (Ok edits.items)) }
    ensures err { IfErr result (λ fault. fault ≢ FormFault.Memory
        → RecordsRead 1 (item_records (items_data items.now)) (Err fault)) }
    ensures edits { IfOk result (λ edits. All IsEdit edits.items) }
{
    let mut edits = Vec::with_capacity(alloc, items.len())?;
    for (place, item) in items.iter().enumerate() {
        let row = place as u64 + 1;
        let edit = edit_of(alloc, row, item, Before::of(&edits))?;
        edits.push(edit)?;
    }
    Ok(edits)
}

/// The edit of the item of this number. Takes no memory for names that it has from `before`.
fn edit_of(alloc: Global, row: u64, item: &Tree, before: Before<'_>) -> Result<Edit, FormFault>
    ensures ok { IfOk result (λ edit. RecordReads row (item_record (data_of item.now)) (Ok edit)) }
    ensures err { IfErr result (λ fault. fault ≢ FormFault.Memory
        → RecordReads row (item_record (data_of item.now)) (Err fault)) }
    ensures edit { IfOk result IsEdit }
{
    match columns_of(item) {
        Some(columns) => columns.row_edit(alloc, row, before),
        None => Err(FormFault::BadRecord(row)),
    }
}

/// The six columns of an item, if it is a list of 2 to 6 texts.
fn columns_of(item: &Tree) -> Option<Columns<'_>>
    ensures six { IfSome result (λ columns. item_record (data_of item.now) ≡ texts_of columns) }
    ensures other { IfNone result (length (item_record (data_of item.now)) ≢ 6) }
{
    columns_in(item.as_list()?)
}

/// The six columns in 2 to 6 texts, those left out at the end being empty.
fn columns_in(texts: &[Tree]) -> Option<Columns<'_>>
    ensures six { IfSome result (λ columns. texts_record (texts_in (items_data texts.now)) ≡ texts_of columns) }
    ensures other { IfNone result (length (texts_record (texts_in (items_data texts.now))) ≢ 6) }
{
    if texts.len() < 2 || 6 < texts.len() {
        return None;
    }
    Some(Columns {
        op: column(texts, 0)?,
        net: column(texts, 1)?,
        a: column(texts, 2)?,
        b: column(texts, 3)?,
        c: column(texts, 4)?,
        d: column(texts, 5)?,
    })
}

/// The text in this place, which is empty past the last item.
fn column(texts: &[Tree], place: usize) -> Option<&[u8]>
    ensures { option_map (λ text. text.now) result
        ≡ option_map_or (λ item. as_str (data_of item)) (slice_get texts.now place) (Some []) }
{
    match texts.get(place) {
        Some(item) => Some(item.as_text()?.as_bytes()),
        None => Some(&[]),
    }
}
