ghost use Rattle.std.specs.Prelude.{◌≡◌, ◌≢◌, Ok, Err, IfOk, IfErr};
ghost use Rattle.alto_rows.specs.Good.{AreGood};
ghost use Rattle.alto_rows.specs.Rows.{AreSorted};
ghost use Rattle.alto_edits.specs.Compiled.{broken_by_batch, compiled, edits_writes};
ghost use Rattle.alto_edits.specs.Laws.{HaveNextVersions};
ghost use Rattle.alto_rules.specs.Draft.{HaveOneOwner};

use crate::draft::Draft;
use alto_edits::{CompileFault, Edit, Past, Rule};
use alto_rows::{RowStore, Write};
use std::alloc::{AllocError, Global};

/// How many rows there may be after a batch.
const MOST_ROWS: usize = 400_000;

/// How many writes a batch may have.
const MOST_BATCH_WRITES: usize = 16_384;

/// How many batches may be kept past a book's base.
const MOST_BATCHES: u32 = 4_096;

/// How many writes those batches may have together.
const MOST_WRITES: usize = 524_288;

/// How many prefixes a batch puts by a walk over its network's prefixes for each, before it indexes them.
const MOST_WALKS: usize = 32;

/// The writes of a batch: those of its edits, each made in the rows after those before it, and then the version rows
/// of what they touch. `past` is what is kept before the batch.
///
/// Fails with the first rule that is broken, edit by edit, and of the batch as a whole after all edits. Costs some
/// searches for each write. A withdrawal also walks the spans that can name what it withdraws and the keys written so
/// far; the version of a network's map walks its metrics, and each `prefix-put` the network's prefixes, or only the
/// first in a network where the batch has more than 32.
pub fn compile<R: RowStore>(
    alloc: Global,
    rows: &R,
    edits: &[Edit],
    past: Past,
) -> Result<Vec<Write>, CompileFault>
    requires good { AreGood (R.rows rows.now) }
    requires room { HaveNextVersions (R.rows rows.now) }

    ensures ok { IfOk result (λ writes. compiled (R.rows rows.now) edits.now past ≡ Ok writes.items) }
    ensures err { IfErr result (λ fault. fault ≢ CompileFault.Memory
        → compiled (R.rows rows.now) edits.now past ≡ Err fault) }
{
    let draft = drafted(alloc, rows, edits)?.versioned()?;
    match draft.broken_by_batch(past) {
        Some(rule) => Err(CompileFault::Broken { row: 0, rule }),
        None => Ok(draft.into_writes()),
    }
}

/// The draft of the edits alone.
fn drafted<'a, R: RowStore>(
    alloc: Global,
    rows: &'a R,
    edits: &[Edit],
) -> Result<Draft<'a, R>, CompileFault>
    requires sorted { AreSorted (R.rows rows.now) }
    requires owners { HaveOneOwner (R.rows rows.now) }
    ensures rows { IfOk result (λ draft. draft.rows ≡ R.rows rows.now) }
    ensures ok { IfOk result (λ draft. edits_writes (R.rows rows.now) 1 edits.now ≡ Ok draft.writes) }
    ensures err { IfErr result (λ fault. fault ≢ CompileFault.Memory
        → edits_writes (R.rows rows.now) 1 edits.now ≡ Err fault) }
{
    let indexes = puts_many(edits);
    let mut draft = Draft::new(alloc, rows)?;
    for (index, edit) in edits.iter().enumerate() {
        draft = prepared(draft, edit, indexes)?;
        if let Some(rule) = draft.broken_rule(edit)? {
            return Err(CompileFault::Broken {
                row: index as u64 + 1,
                rule,
            });
        }
        draft = draft.with(edit)?;
    }
    Ok(draft)
}

/// Whether edits put so many prefixes that an index of a network's prefixes costs less than a walk for each.
fn puts_many(edits: &[Edit]) -> bool {
    let puts = edits
        .iter()
        .filter(|edit| matches!(**edit, Edit::PrefixPut { .. }));
    puts.count() > MOST_WALKS
}

/// The same draft, which knows the owners of the prefixes of the network that an edit puts a prefix in, where the batch
/// indexes them, and has sought the PID that a cost goes to which it puts.
fn prepared<'a, R: RowStore>(
    draft: Draft<'a, R>,
    edit: &Edit,
    indexes: bool,
) -> Result<Draft<'a, R>, AllocError>
    ensures { IfOk result (λ same. same ≡ draft.entry) }
{
    match edit {
        Edit::PrefixPut { net, .. } if indexes => draft.knowing(net),
        Edit::CostPut {
            net,
            metric,
            source,
            destination,
            ..
        } => {
            // asked only where no PIDs are known, since nothing else depends on it
            let follows = draft.kept.pids.is_empty()
                && draft.last_origin(net, metric, source).is_some();
            draft.seeking(net, destination, follows)
        }
        _ => Ok(draft),
    }
}

impl<'a, R: RowStore> Draft<'a, R> {
    /// The rule that a batch of the draft's writes breaks as a whole.
    fn broken_by_batch(&self, past: Past) -> Option<Rule>
        ensures { result ≡ broken_by_batch self.now.rows past self.now.writes }
    {
        if self.total() > MOST_ROWS {
            return Some(Rule::G16);
        }
        let writes = self.writes_len();
        if writes > MOST_BATCH_WRITES {
            return Some(Rule::G17);
        }
        if past.batches >= MOST_BATCHES || writes + past.writes as usize > MOST_WRITES {
            return Some(Rule::G18);
        }
        None
    }
}
