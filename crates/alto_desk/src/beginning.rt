ghost use Rattle.std.specs.Prelude.{◌≡◌, ◌≢◌, ◌≤◌, Err, MatchBool, OnErr, OnOk};
ghost use Rattle.alto_keeper.specs.Stored.{StoredData, Stays, nothing};
ghost use Rattle.alto_desk.specs.Counts.{after_init};
ghost use Rattle.alto_desk.specs.Records.{first_records};

use crate::fault::InitFault;
use alto_keeper::{Keeper, Stored};
use alto_names::Epoch;
use batch_code::encode_head;
use std::alloc::Global;

/// Begins a store: records without any get the row of this epoch and window.
pub fn init<K: Keeper>(
    alloc: Global,
    keeper: &mut K,
    epoch: &Epoch,
    window: u32,
) -> Result<(), InitFault>
    requires at_least { 2 ≤ window }
    requires at_most { window ≤ 32 }

    ensures clean { K.is_clean keeper.new → K.is_clean keeper.old }
    ensures done { OnOk result (K.is_clean keeper.new → (stored : StoredData) → K.holds keeper.old stored
        → (stored ≡ nothing) × K.holds keeper.new (first_records epoch.now window)) }
    ensures already { result ≡ Err InitFault.Already → K.is_clean keeper.new → (stored : StoredData)
        → K.holds keeper.old stored → stored ≢ nothing }
    ensures refused { OnErr result (K.is_clean keeper.new → Stays (K.holds keeper.old) (K.holds keeper.new)) }
    ensures counted { K.faults keeper.new ≡ after_init result (K.faults keeper.old) }
{
    let stored = keeper.load(alloc)?;
    if !is_nothing(&stored) {
        return Err(InitFault::Already);
    }
    let head = encode_head(alloc, epoch, window)?;
    keeper.append(alloc, 0, &head)?;
    Ok(())
}

/// Whether nothing is stored.
fn is_nothing(stored: &Stored) -> bool
    ensures { MatchBool result (stored.now ≡ nothing) (stored.now ≢ nothing) }
{
    stored.base.is_empty() && stored.rows.is_empty()
}
