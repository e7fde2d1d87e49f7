//! A desk that tests import into, and what came of an import as a line of text.
use alto_desk::{Command, Desk, EditFault, Tally, desk_in_memory};
use alto_keeper::MemKeeper;
use alto_names::{Epoch, ImportId};
use alto_rows::{PlainRows, RowStore, find_resource, print_resource};
use edit_forms::read_csv;
use json_tree::Name;
use std::alloc::Global;
use std::test::Fail;

/// A desk over plain rows, whose records are in memory.
pub(crate) type MemDesk = Desk<MemKeeper, PlainRows>;

/// A new book with epoch `e1` and window 8.
pub(crate) fn new_desk(alloc: Global) -> Result<MemDesk, Fail> {
    Ok(desk_in_memory(alloc, &Epoch::read(alloc, b"e1")?, 8)?)
}

/// What an import is answered: the number of its batch, or the row and the rule that it breaks.
pub(crate) fn imported(
    alloc: Global,
    desk: &mut MemDesk,
    id: &str,
    body: &str,
) -> Result<String, Fail> {
    let command = Command {
        id: ImportId::read(alloc, id.as_bytes())?,
        digest: [0; 32],
        edits: read_csv(alloc, body.as_bytes())?,
    };
    match desk.edit(alloc, command, 100, &mut Tally::new()) {
        Ok(receipt) => Ok(format!(in alloc; "{}", receipt.n)?),
        Err(EditFault::Broken { row, rule }) => Ok(format!(in alloc; "row {row} {rule}")?),
        Err(fault) => Ok(format!(in alloc; "{fault}")?),
    }
}

/// How many batches and rows there are, and the first and the last kept number of each declared resource.
pub(crate) fn listing(alloc: Global, desk: &MemDesk) -> Result<String, Fail> {
    let front = desk.front();
    let mut text = format!(in alloc; "{} with {} rows", front.n, front.rows.len())?;
    for (of, followed) in &front.graphs {
        let graph = followed.graph();
        let name = print_resource(alloc, of)?;
        let numbers = format!(in alloc; ", {} {}-{}", name.as_str(), graph.first(), graph.last())?;
        text.push_str(numbers.as_str())?;
    }
    Ok(text)
}

/// The declared resource that an id names, as its id, or `none`.
pub(crate) fn found(alloc: Global, desk: &MemDesk, id: &str) -> Result<Name, Fail> {
    let rows = &desk.front().rows;
    match find_resource(alloc, &**rows, id.as_bytes())? {
        Some(of) => Ok(print_resource(alloc, &of)?),
        None => Ok(Name::from_str(alloc, "none")?),
    }
}
