ghost use Rattle.std.specs.Prelude.{◌≡◌, IfOk, OnErr, OnOk, map};
ghost use Rattle.std.specs.Arc.{arc_value};
ghost use Rattle.std.specs.List.{IsDistinct};
ghost use Rattle.alto_rows.specs.Order.{same_name};
ghost use Rattle.alto_desk.specs.Ledger.{ArePlaced, HasPut, kept_in, place_of};

use alto_names::ImportId;
use alto_rows::Batch;
use base_code::Kept;
use std::alloc::{AllocError, Global};
use std::collections::BTreeMap;
use std::marker::Model;
use std::sync::Arc;

/// The places of ids, from 0: each import's among all that were accepted. An id may have a place that no import took.
#[derive(Drop)]
pub(crate) struct Places {
    by_id: BTreeMap<ImportId, usize>,
}

impl Model for Places {
    ghost use Rattle.alto_desk.specs.Ledger as ledger;

    ghost Value = { ledger.Places };

    ghost view = { λ places. places.by_id.entries };
}

impl Places {
    /// The places of receipts, and of the batches behind them. One search each.
    pub(crate) fn of(
        alloc: Global,
        receipts: &[Kept],
        batches: &[Arc<Batch>],
    ) -> Result<Places, AllocError>
        requires { IsDistinct same_name (map (λ kept. kept.id) (kept_in receipts.now (map arc_value batches.now))) }
        ensures { IfOk result (ArePlaced (kept_in receipts.now (map arc_value batches.now))) }
    {
        let mut places = Places {
            by_id: BTreeMap::new(alloc),
        };
        for (before, kept) in receipts.iter().enumerate() {
            places.put(&kept.id, before)?;
        }
        for (before, batch) in batches.iter().enumerate() {
            places.put(&batch.id, receipts.len() + before)?;
        }
        Ok(places)
    }

    /// The place of an id. One search.
    pub(crate) fn find(&self, id: &ImportId) -> Option<usize>
        ensures { result ≡ place_of self.now id.now }
    {
        self.by_id.get(id).copied()
    }

    /// Gives an id a place, instead of one that it has. One search.
    pub(crate) fn put(&mut self, id: &ImportId, place: usize) -> Result<(), AllocError>
        ensures put { OnOk result (HasPut self.old self.new id.now place) }
        ensures unchanged { OnErr result (self.new ≡ self.old) }
    {
        self.by_id.insert(id.clone()?, place)?;
        Ok(())
    }
}
