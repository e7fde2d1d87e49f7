//! What a desk looks up among its receipts and batches.
ghost use Rattle.std.specs.Prelude.{◌≡◌, ◌<◌, ◌+◌, ◌^◌, ◌++◌, ℕ, false, List, IfNone, IfSome, Some, fold, length, map};
ghost use Rattle.std.specs.Prelude.{option_map, slice_get};
ghost use Rattle.std.specs.Arc.{arc_value};
ghost use Rattle.alto_names.specs.Name.{IsImportId};
ghost use Rattle.alto_rows.specs.Order.{same_name};
ghost use Rattle.alto_book.specs.Acceptance as book;
ghost use Rattle.alto_book.specs.Book.{kept_of};
ghost use Rattle.alto_desk.specs.Known as told;
ghost use Rattle.alto_desk.specs.Ledger.{ArePlaced, kept_in, receipt_of};

use crate::places::Places;
use alto_book::{Command, EditFault, Receipt};
use alto_names::ImportId;
use alto_rows::{Batch, Write};
use base_code::Kept;
use std::sync::Arc;

/// What is kept of an import: the number of its batch, from 1, its digest and its moment.
#[derive(Drop)]
pub(crate) struct Found<'a> {
    n: u64,
    digest: &'a [u8; 32],
    moment: u64,
}

/// What an import is answered whose id has a batch, from the receipts of the base, the batches behind it, and their
/// places. One search, and takes no memory.
pub(crate) fn answer_if_known(
    places: &Places,
    receipts: &[Kept],
    batches: &[Arc<Batch>],
    command: &Command,
) -> Option<Result<Receipt, EditFault>>
    requires { ArePlaced (kept_in receipts.now (map arc_value batches.now)) places.now }
    ensures { result ≡ told.answer_if_known (kept_in receipts.now (map arc_value batches.now)) command.now }
{
    let found = known(places, receipts, batches, &command.id)?;
    Some(answer(found.n, found.digest, found.moment, command))
}

/// What is kept of the import that has an id. One search.
pub(crate) fn known<'a>(
    places: &Places,
    receipts: &'a [Kept],
    batches: &'a [Arc<Batch>],
    id: &ImportId,
) -> Option<Found<'a>>
    requires { ArePlaced (kept_in receipts.now (map arc_value batches.now)) places.now }
    ensures { option_map
        (λ found. (found.n, record { id = id.now; digest = found.digest.now; moment = found.moment })) result
        ≡ book.known (kept_in receipts.now (map arc_value batches.now)) id.now }
{
    known_at(receipts, batches, places.find(id)?, id)
}

/// What is kept at a place, where it is of this id.
fn known_at<'a>(
    receipts: &'a [Kept],
    batches: &'a [Arc<Batch>],
    place: usize,
    id: &ImportId,
) -> Option<Found<'a>>
    ensures number { IfSome result (λ found. found.n ≡ place + 1) }
    ensures kept { IfSome result (λ found. slice_get (kept_in receipts.now (map arc_value batches.now)) place
        ≡ Some (record { id = id.now; digest = found.digest.now; moment = found.moment })) }
    ensures other { IfNone result (IfSome (slice_get (kept_in receipts.now (map arc_value batches.now)) place)
        (λ one. same_name one.id id.now ≡ false)) }
{
    if let Some(kept) = receipts.get(place) {
        return (kept.id == *id).then_some(Found {
            n: place as u64 + 1,
            digest: &kept.digest,
            moment: kept.moment,
        });
    }
    let batch: &Batch = batches.get(place - receipts.len())?;
    (batch.id == *id).then_some(Found {
        n: place as u64 + 1,
        digest: &batch.digest,
        moment: batch.moment,
    })
}

/// What an import is answered whose id has the batch with this number, digest and moment: its receipt, where the bodies
/// have one digest.
fn answer(n: u64, digest: &[u8; 32], moment: u64, command: &Command) -> Result<Receipt, EditFault>
    ensures { (id : List ℕ) → result
        ≡ book.answer_known (n, record { id = id; digest = digest.now; moment = moment }) command.now }
{
    if *digest == command.digest {
        Ok(Receipt { n, moment })
    } else {
        Err(EditFault::OtherBody { n })
    }
}

/// The moment of the last batch, behind the base or before it, 0 where there is none.
pub(crate) fn last_moment(receipts: &[Kept], batches: &[Arc<Batch>]) -> u64
    ensures { result ≡ book.last_moment (map receipt_of receipts.now ++ map kept_of (map arc_value batches.now)) }
{
    last_of_batches(batches, last_of_receipts(receipts))
}

/// The moment of the last receipt, 0 where there is none.
fn last_of_receipts(receipts: &[Kept]) -> u64
    ensures { result ≡ book.last_moment (map receipt_of receipts.now) }
{
    receipts.last().map_or(0, |kept| kept.moment)
}

/// The moment of the last batch behind the base, or the one before where there is none.
fn last_of_batches(batches: &[Arc<Batch>], before: u64) -> u64
    ensures { result ≡ fold (λ _ one. one.moment) before (map kept_of (map arc_value batches.now)) }
{
    batches.last().map_or(before, |batch| batch.moment)
}

/// The batch of an import.
pub(crate) fn batch_of(command: Command, moment: u64, writes: Vec<Write>) -> Batch
    ensures batch { result
        ≡ record { id = command.id; digest = command.digest; moment = moment; writes = writes.items } }
    ensures id { IsImportId result.id }
    ensures digest { length result.digest ≡ 32 }
    ensures moment { result.moment < 2 ^ 64 }
{
    let Command {
        id,
        digest,
        edits: _,
    } = command;
    // A name says that it is one.
    let _name = id.as_bytes();
    Batch {
        id,
        digest,
        moment,
        writes,
    }
}
