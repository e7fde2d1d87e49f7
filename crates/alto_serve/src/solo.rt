ghost use Rattle.std.specs.Prelude.{◌≡◌};

use crate::office::{Look, Looks, Office};
use alto_answers::Client;
use alto_desk::{Command, Desk, EditFault, Receipt, Tally};
use alto_http::Request;
use alto_keeper::Keeper;
use alto_rows::RowStore;
use std::alloc::{AllocError, Global};

/// The office over one desk, which nobody else edits. Its wait ends at once.
#[derive(Drop)]
pub struct Solo<K: Keeper + Drop, R: RowStore> {
    desk: Desk<K, R>,
    tally: Tally<K>,
    looks: u64,
    waits: u64,
}

impl<K: Keeper + Drop, R: RowStore> Solo<K, R> {
    /// The office over this desk. Takes no memory.
    pub fn new(desk: Desk<K, R>) -> Solo<K, R>
        ensures desk { result.desk ≡ desk }
        ensures tally { result.tally.count ≡ 0 }
        ensures looks { result.looks ≡ 0 }
        ensures waits { result.waits ≡ 0 }
    {
        Solo {
            desk,
            tally: Tally::new(),
            looks: 0,
            waits: 0,
        }
    }

    /// The desk again. Takes no memory.
    pub fn into_desk(self) -> Desk<K, R>
        ensures { result ≡ self.desk }
    {
        let Solo {
            desk,
            tally: _,
            looks: _,
            waits: _,
        } = self;
        desk
    }
}

impl<K: Keeper + Drop, R: RowStore> Looks for Solo<K, R> {
    ghost use Rattle.std.specs.Prelude.{true, []};
    ghost use Rattle.alto_desk.specs.Records.{Backs};

    ghost alone = { true };

    ghost known = { λ solo. record {
      seen = solo.desk.ledger.book;
      looks = solo.looks;
      waits = solo.waits;
      faults = solo.tally.count;
      looked_at = [];
    } };

    ghost is_backed = { λ solo.
        K.is_clean solo.desk.keeper → Backs (K.holds solo.desk.keeper) solo.desk.ledger.book };

    ghost is_clean = { λ solo. K.is_clean solo.desk.keeper };

    fn look(
        &mut self,
        alloc: Global,
        client: &Client,
        request: &Request,
    ) -> Result<Look, AllocError> {
        self.looks = self.looks.saturating_add(1);
        Look::at(self.desk.front(), alloc, client, request)
    }
}

impl<K: Keeper + Drop, R: RowStore> Office for Solo<K, R> {
    fn edit(&mut self, alloc: Global, command: Command, moment: u64) -> Result<Receipt, EditFault> {
        self.looks = self.looks.saturating_add(1);
        self.desk.edit(alloc, command, moment, &mut self.tally)
    }

    fn wait(&mut self, _known: u64) {
        self.waits = self.waits.saturating_add(1);
    }
}
