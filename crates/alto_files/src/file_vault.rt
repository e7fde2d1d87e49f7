ghost use Rattle.std.specs.Prelude.{◌≡◌};
ghost use Rattle.alto_keeper.specs.Stored.{faults_closed};

use crate::file_keeper::FileKeeper;
use alto_keeper::{KeepFault, Vault};
use sqlite::{Connection, Error, ErrorCode};
use std::alloc::Global;

/// Records in database files, by their paths. It tells nothing of what they hold.
#[derive(Drop)]
pub struct FileVault<'a> {
    rt: &'a HostRuntime,
    faults: u64,
}

impl<'a> FileVault<'a> {
    /// The files of a runtime, and no fault so far.
    pub fn new(rt: &'a HostRuntime) -> Self {
        FileVault { rt, faults: 0 }
    }

    /// Counts a fault, where a keeper that is closed has counted any.
    fn count_closed(&mut self, counted: u64)
        ensures { self.new.faults ≡ faults_closed counted self.old.faults }
    {
        if counted > 0 {
            self.faults = self.faults.saturating_add(1);
        }
    }
}

impl Vault for FileVault<'_> {
    ghost use Rattle.std.specs.Prelude.{◌≡◌, true, IfOk};
    ghost use Rattle.alto_keeper.specs.Stored.{faults_after, faults_closed};

    type Keeper = FileKeeper;

    ghost holds = { λ _ _ _. ⊥ };

    ghost is_clean = { λ _. ⊥ };

    ghost knows = { λ _ _. true };

    ghost faults = { λ vault. vault.faults };

    /// Opens the database at a path, which is made where there is none. Whatever the system refuses is counted, but out
    /// of memory: a file that can't be read or written, that is no database, or that another program has open.
    fn open(&mut self, _alloc: Global, path: &str) -> Result<Self::Keeper, KeepFault> {
        match Connection::open(self.rt, path) {
            Ok(connection) => Ok(FileKeeper::new(connection)),
            Err(Error::SqliteFailure(ErrorCode::OutOfMemory)) => Err(KeepFault::Memory),
            Err(_) => {
                self.faults = self.faults.saturating_add(1);
                Err(KeepFault::Failed)
            }
        }
    }

    /// Closes the database, and copies its log into it. Where that can't be done the log stays beside it, and the next
    /// open reads both.
    fn close(&mut self, _path: &str, keeper: Self::Keeper) {
        self.count_closed(keeper.faults());
        keeper.close();
    }
}
