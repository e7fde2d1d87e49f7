ghost use Rattle.std.specs.Prelude.{◌≡◌, ◌≤ℤ◌, pos, false, map, ⊤, OnOk, OnErr, vec_items};
ghost use Rattle.sqlite.specs.Held.{state};
ghost use Rattle.alto_keeper.specs.Stored.{StoredData, IsNext, with_row, rebased, faults_after, Stays};
ghost use Rattle.alto_keeper.specs.Stored.{IsKept, IsKeptOrAdded, IsKeptOrRebased, LeavesFrom, LeavesOnly};
ghost use Rattle.keeper_sqlite.specs.Store.{table_rows};
ghost use Rattle.keeper_sqlite.specs.SqlKeeper.{IsSure, IsFaithful, Holds, MayLeave, leaves_some, told};
ghost use Rattle.keeper_sqlite.specs.SqlKeeper.{StaysSure, StaysFaithful, Makes, Reads, Keeps, Adds, Moves, Settles};
ghost use Rattle.keeper_sqlite.specs.SqlKeeper.{CrashFinds, CrashKeeps, CrashAdds, CrashMoves};

use crate::{base, reading, statements};
use alto_keeper::{KeepFault, Keeper, Stored};
use sqlite::{Alter, Connection, Error, ErrorCode};
use std::alloc::Global;
use std::marker::Model;

/// Records in a database.
#[derive(Drop)]
pub struct SqlKeeper<S: Alter + Drop> {
    conn: Connection<S>,
    is_made: bool,
    faults: u64,
}

impl<S: Alter + Drop> Model for SqlKeeper<S> {
    ghost use Rattle.keeper_sqlite.specs.SqlKeeper.{SqlKeeperData, keeper_code};

    ghost Value = { SqlKeeperData S };

    ghost coded = { keeper_code S.code };

    ghost view = { λ keeper. record { conn = keeper.conn; is_made = keeper.is_made; faults = keeper.faults } };
}

impl<S: Alter + Drop> SqlKeeper<S> {
    /// Records in the database of a connection. Runs no statement.
    pub fn new(conn: Connection<S>) -> SqlKeeper<S>
        ensures { result ≡ record { conn = conn; is_made = false; faults = 0 } }
    {
        SqlKeeper {
            conn,
            is_made: false,
            faults: 0,
        }
    }

    /// The connection again. Runs no statement.
    pub fn into_connection(self) -> Connection<S>
        ensures { result ≡ self.conn }
    {
        let SqlKeeper {
            conn,
            is_made: _,
            faults: _,
        } = self;
        conn
    }

    /// How many calls the database has refused.
    pub fn faults(&self) -> u64
        ensures { result ≡ self.now.faults }
    {
        self.faults
    }
}

impl<S: Alter + Drop> Keeper for SqlKeeper<S> {
    ghost holds = { λ keeper stored. Holds S.Store keeper stored };

    ghost is_clean = { λ keeper. IsSure S.Store keeper };

    ghost is_faithful = { λ keeper. IsFaithful S.Store keeper };

    ghost may_leave = { λ keeper stored. MayLeave S.Store keeper stored };

    ghost faults = { λ keeper. keeper.faults };

    ghost faithful_if_clean = { λ _ sure. sure.0 };

    ghost leaves_some = { λ keeper faithful. leaves_some _ _ S.Store.survives keeper.conn.store faithful };

    fn load(&mut self, alloc: Global) -> Result<Stored, KeepFault>
        ensures clean { StaysSure S.Store self.old self.new }
        ensures loaded { Reads S.Store self.old self.new result }
        ensures stays { Keeps S.Store self.old self.new }
        ensures crash { CrashKeeps S.Store self.old self.new }
        ensures faithful { StaysFaithful S.Store self.old self.new }
        ensures left { IsFaithful S.Store self.new → LeavesFrom (MayLeave S.Store self.old) (Holds S.Store self.old)
            (IsSure S.Store self.old) IsKept (MayLeave S.Store self.new) }
        ensures settled { OnOk result (IsFaithful S.Store self.new → IsSure S.Store self.old × ((kept : StoredData)
            → Holds S.Store self.old kept → IsSure S.Store self.new × LeavesOnly (MayLeave S.Store self.new) kept)) }
        ensures counted { self.new.faults ≡ faults_after result self.old.faults }
    {
        let read = self.read(alloc);
        self.counted(read)
    }

    fn append(&mut self, alloc: Global, n: i64, bytes: &[u8]) -> Result<(), KeepFault>
        ensures clean { StaysSure S.Store self.old self.new }
        ensures added { Adds S.Store self.old self.new n bytes.now result }
        ensures refused { OnErr result (Keeps S.Store self.old self.new) }
        ensures crash { CrashAdds S.Store self.old self.new n bytes.now }
        ensures faithful { StaysFaithful S.Store self.old self.new }
        ensures left { IsFaithful S.Store self.new → LeavesFrom (MayLeave S.Store self.old) (Holds S.Store self.old)
            (IsSure S.Store self.old) (IsKeptOrAdded n bytes.now) (MayLeave S.Store self.new) }
        ensures settled { OnOk result (IsFaithful S.Store self.new → IsSure S.Store self.old × ((kept : StoredData)
            → Holds S.Store self.old kept → IsNext kept n
            → IsSure S.Store self.new × LeavesOnly (MayLeave S.Store self.new) (with_row n bytes.now kept))) }
        ensures counted { self.new.faults ≡ faults_after result self.old.faults }
    {
        let added = self.add(n, bytes);
        self.counted(added)
    }

    fn rebase(&mut self, alloc: Global, pieces: &[Vec<u8>], upto: i64) -> Result<(), KeepFault>
        requires upto { pos 0 ≤ℤ upto }
        ensures clean { StaysSure S.Store self.old self.new }
        ensures rebased { Moves S.Store self.old self.new (map vec_items pieces.now) upto result }
        ensures refused { OnErr result (Keeps S.Store self.old self.new) }
        ensures crash { CrashMoves S.Store self.old self.new (map vec_items pieces.now) upto }
        ensures faithful { StaysFaithful S.Store self.old self.new }
        ensures left { IsFaithful S.Store self.new → LeavesFrom (MayLeave S.Store self.old) (Holds S.Store self.old)
            (IsSure S.Store self.old) (IsKeptOrRebased (map vec_items pieces.now) upto) (MayLeave S.Store self.new) }
        ensures settled { OnOk result (IsFaithful S.Store self.new → IsSure S.Store self.old × ((kept : StoredData)
            → Holds S.Store self.old kept → IsSure S.Store self.new
            × LeavesOnly (MayLeave S.Store self.new) (rebased (map vec_items pieces.now) upto kept))) }
        ensures counted { self.new.faults ≡ faults_after result self.old.faults }
    {
        let moved = self.move_base(pieces, upto);
        self.counted(moved)
    }
}

impl<S: Alter + Drop> SqlKeeper<S> {
    /// Counts a refusal, unless it is out of memory.
    fn counted<T: Drop>(&mut self, outcome: Result<T, Error>) -> Result<T, KeepFault>
        ensures told { result ≡ told outcome }
        ensures counted { self.new ≡ record self.old { faults = faults_after result self.old.faults } }
    {
        match outcome {
            Ok(value) => Ok(value),
            Err(Error::SqliteFailure(ErrorCode::OutOfMemory)) => Err(KeepFault::Memory),
            Err(_) => {
                self.faults = self.faults.saturating_add(1);
                Err(KeepFault::Failed)
            }
        }
    }

    /// Refuses where a fault has shut the database: then nothing is written any more.
    fn probe(&mut self) -> Result<(), Error>
        ensures clean { StaysSure S.Store self.old self.new }
        ensures faithful { StaysFaithful S.Store self.old self.new }
        ensures sure { OnOk result (IsFaithful S.Store self.new → IsSure S.Store self.old) }
        ensures stays { OnOk result (IsFaithful S.Store self.new
            → Stays (Holds S.Store self.old) (Holds S.Store self.new)) }
        ensures refused { OnErr result (Keeps S.Store self.old self.new) }
        ensures crash { CrashFinds (state S.Store self.old.conn) (state S.Store self.new.conn) (λ _. ⊥) }
        ensures uncounted { self.new.faults ≡ self.old.faults }
    {
        statements::probe(&mut self.conn)
    }

    /// Makes the table, until one run of its text was accepted.
    fn make_table(&mut self) -> Result<(), Error>
        ensures clean { StaysSure S.Store self.old self.new }
        ensures faithful { StaysFaithful S.Store self.old self.new }
        ensures made { Makes S.Store self.old self.new result }
        ensures refused { OnErr result (Keeps S.Store self.old self.new) }
        ensures crash { CrashFinds (state S.Store self.old.conn) (state S.Store self.new.conn)
            (λ found. (stored : StoredData) → Holds S.Store self.old stored → found 0 ≡ table_rows stored) }
        ensures uncounted { self.new.faults ≡ self.old.faults }
    {
        if !self.is_made {
            statements::create(&mut self.conn)?;
            self.is_made = true;
        }
        Ok(())
    }

    /// Makes the table, where no fault has shut the database.
    fn make(&mut self) -> Result<(), Error>
        ensures clean { StaysSure S.Store self.old self.new }
        ensures faithful { StaysFaithful S.Store self.old self.new }
        ensures sure { OnOk result (IsFaithful S.Store self.new → IsSure S.Store self.old) }
        ensures made { Makes S.Store self.old self.new result }
        ensures refused { OnErr result (Keeps S.Store self.old self.new) }
        ensures crash { CrashKeeps S.Store self.old self.new }
        ensures uncounted { self.new.faults ≡ self.old.faults }
    {
        self.probe()?;
        self.make_table()
    }

    /// All that is kept.
    fn read(&mut self, alloc: Global) -> Result<Stored, Error>
        ensures clean { StaysSure S.Store self.old self.new }
        ensures loaded { Reads S.Store self.old self.new result }
        ensures stays { Keeps S.Store self.old self.new }
        ensures crash { CrashKeeps S.Store self.old self.new }
        ensures faithful { StaysFaithful S.Store self.old self.new }
        ensures settled { Settles S.Store self.old self.new (λ _. ⊤) (λ stored. stored) result }
        ensures uncounted { self.new.faults ≡ self.old.faults }
    {
        self.make()?;
        let rows = statements::select(&mut self.conn)?;
        reading::stored_in(alloc, &rows)
    }

    /// Adds a row.
    fn add(&mut self, n: i64, bytes: &[u8]) -> Result<(), Error>
        ensures clean { StaysSure S.Store self.old self.new }
        ensures added { Adds S.Store self.old self.new n bytes.now result }
        ensures refused { OnErr result (Keeps S.Store self.old self.new) }
        ensures crash { CrashAdds S.Store self.old self.new n bytes.now }
        ensures faithful { StaysFaithful S.Store self.old self.new }
        ensures settled { Settles S.Store self.old self.new (λ stored. IsNext stored n) (with_row n bytes.now) result }
        ensures uncounted { self.new.faults ≡ self.old.faults }
    {
        self.make()?;
        statements::insert(&mut self.conn, n, bytes)?;
        Ok(())
    }

    /// Puts another base in place of the one before, in one transaction.
    fn move_base(&mut self, pieces: &[Vec<u8>], upto: i64) -> Result<(), Error>
        requires upto { pos 0 ≤ℤ upto }
        ensures clean { StaysSure S.Store self.old self.new }
        ensures moved { Moves S.Store self.old self.new (map vec_items pieces.now) upto result }
        ensures refused { OnErr result (Keeps S.Store self.old self.new) }
        ensures crash { CrashMoves S.Store self.old self.new (map vec_items pieces.now) upto }
        ensures faithful { StaysFaithful S.Store self.old self.new }
        ensures settled { Settles S.Store self.old self.new (λ _. ⊤) (rebased (map vec_items pieces.now) upto) result }
        ensures uncounted { self.new.faults ≡ self.old.faults }
    {
        self.make()?;
        base::replace_base(&mut self.conn, pieces, upto)
    }
}
