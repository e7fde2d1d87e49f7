ghost use Rattle.std.specs.Prelude.{◌≡◌, Decides, IfOk, OnOk, not, true};
ghost use Rattle.std.specs.BTreeSet.{Updates, contains};
ghost use Rattle.std.specs.List.{IsDistinct};
ghost use Rattle.alto_rows.specs.Order.{name_cmp, same_name};
ghost use Rattle.base_check.specs.Receipts as told;
ghost use Rattle.base_check.specs.Rules.{KeepReceipts, ids_of};

use alto_names::ImportId;
use base_code::Kept;
use std::alloc::{AllocError, Global};
use std::collections::BTreeSet;

/// Whether a base may have these receipts. A search for each.
pub(crate) fn keep_receipts(alloc: Global, receipts: &[Kept]) -> Result<bool, AllocError>
    ensures { IfOk result (λ keep. Decides keep (KeepReceipts receipts.now)) }
{
    if !never_fall(receipts) {
        return Ok(false);
    }
    are_distinct(alloc, receipts)
}

/// Whether no moment is below the one before it.
fn never_fall(receipts: &[Kept]) -> bool
    ensures { result ≡ told.never_fall 0 receipts.now }
{
    let mut last = 0;
    for kept in receipts {
        if kept.moment < last {
            return false;
        }
        last = kept.moment;
    }
    true
}

/// Whether no two receipts have one id. A search for each.
fn are_distinct(alloc: Global, receipts: &[Kept]) -> Result<bool, AllocError>
    ensures { IfOk result (λ distinct. Decides distinct (IsDistinct same_name (ids_of receipts.now))) }
{
    let mut ids = BTreeSet::new(alloc);
    for kept in receipts {
        if !add(&mut ids, &kept.id)? {
            return Ok(false);
        }
    }
    Ok(true)
}

/// Adds an id, and tells whether it is new.
fn add(ids: &mut BTreeSet<ImportId>, id: &ImportId) -> Result<bool, AllocError>
    ensures test { IfOk result (λ added. added ≡ not (contains name_cmp ids.old id.now)) }
    ensures updates { OnOk result (Updates name_cmp ids.old ids.new id.now true) }
{
    Ok(ids.insert(id.clone()?)?)
}
