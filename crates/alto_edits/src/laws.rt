//! What holds of the batches that edits make. Each law is the contract of a function that does nothing.

ghost use Rattle.alto_edits.specs.Laws.{CompiledRowsAreGood, CompiledRowsAreWithin, CompiledWritesFit, EditsWritesFit};

/// Good rows are good after a batch of edits.
pub fn compiled_rows_are_good()
    ensures { CompiledRowsAreGood }
{}

/// Each write of a batch has a key that a batch may write, and puts only a value that fits it. None deletes a version,
/// and those of the edits are of none.
pub fn compiled_writes_fit()
    ensures whole { CompiledWritesFit }
    ensures edits { EditsWritesFit }
{}

/// Rows within the limits stay within them, whatever batch of edits comes.
pub fn compiled_rows_are_within()
    ensures { CompiledRowsAreWithin }
{}
