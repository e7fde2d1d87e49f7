ghost use Rattle.std.specs.Prelude.{◌≡◌};

use alto_keeper::{KeepFault, Keeper, Stored};
use keeper_sqlite::SqlKeeper;
use sqlite::Connection;
use sqlite_std_file::File;
use sqlite_store::FileStore;
use std::alloc::Global;

/// The records in one database file, while it is open. It tells nothing of what it holds.
#[derive(Drop)]
pub struct FileKeeper {
    records: SqlKeeper<FileStore<File>>,
}

impl FileKeeper {
    /// The records of a connection, which has refused nothing so far. Runs no statement.
    pub(crate) fn new(connection: Connection<FileStore<File>>) -> FileKeeper
        ensures { result.records.faults ≡ 0 }
    {
        FileKeeper {
            records: SqlKeeper::new(connection),
        }
    }

    /// How many calls the database has refused.
    pub(crate) fn faults(&self) -> u64
        ensures { result ≡ self.now.records.faults }
    {
        self.records.faults()
    }

    /// Closes the database, and copies its log into it. Where that can't be done the log stays beside it, and the next
    /// open reads both.
    pub(crate) fn close(self) {
        drop(self.records.into_connection().close());
    }
}

impl Keeper for FileKeeper {
    ghost holds = { λ _ _. ⊥ };

    ghost is_clean = { λ _. ⊥ };

    ghost is_faithful = { λ _. ⊥ };

    ghost may_leave = { λ _ _. ⊥ };

    ghost faults = { λ keeper. keeper.records.faults };

    ghost faithful_if_clean = { λ _ clean. clean };

    ghost leaves_some = { λ _ faithful. absurd faithful };

    fn load(&mut self, alloc: Global) -> Result<Stored, KeepFault> {
        self.records.load(alloc)
    }

    fn append(&mut self, alloc: Global, n: i64, bytes: &[u8]) -> Result<(), KeepFault> {
        self.records.append(alloc, n, bytes)
    }

    fn rebase(&mut self, alloc: Global, pieces: &[Vec<u8>], upto: i64) -> Result<(), KeepFault> {
        self.records.rebase(alloc, pieces, upto)
    }
}
