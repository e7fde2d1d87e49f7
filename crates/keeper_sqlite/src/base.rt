ghost use Rattle.std.specs.Prelude.{◌≡◌, ◌<◌, ◌^◌, ◌≤ℤ◌, ◌-ℤ◌, pos, map, IsTrue, OnOk, OnErr, vec_items};
ghost use Rattle.sqlite.specs.Held.{state};
ghost use Rattle.sqlite.specs.State.{HasCleanDisk, KeepsCommit, Survives};
ghost use Rattle.alto_keeper.specs.Stored.{StoredData, rebased};
ghost use Rattle.keeper_sqlite.specs.Store.{HasRows, table_rows};
ghost use Rattle.keeper_sqlite.specs.SqlKeeper.{IsClean, IsIdle, HoldsRows, HasAdded, CrashFinds, IsSettled};

use crate::statements;
use sqlite::{Alter, Connection, Error, ErrorCode, Transaction};

/// Replaces the base, in a transaction that a refusal takes back whole.
pub fn replace_base<S: Alter>(
    conn: &mut Connection<S>,
    pieces: &[Vec<u8>],
    upto: i64,
) -> Result<(), Error>
    requires upto { pos 0 ≤ℤ upto }
    ensures clean { IsClean (state S.Store conn.new) → IsClean (state S.Store conn.old) }
    ensures moved { OnOk result (IsClean (state S.Store conn.new) → (stored : StoredData)
        → HoldsRows (state S.Store conn.old) stored
        → HoldsRows (state S.Store conn.new) (rebased (map vec_items pieces.now) upto stored)) }
    ensures refused { OnErr result (IsClean (state S.Store conn.new) → IsIdle (state S.Store conn.old)
        → IsIdle (state S.Store conn.new) × ((state S.Store conn.new).now ≡ (state S.Store conn.old).now)) }
    ensures faithful { HasCleanDisk (state S.Store conn.new) → HasCleanDisk (state S.Store conn.old) }
    ensures crash { CrashFinds (state S.Store conn.old) (state S.Store conn.new) (λ found. (stored : StoredData)
        → HoldsRows (state S.Store conn.old) stored
        → found 0 ≡ table_rows (rebased (map vec_items pieces.now) upto stored)) }
    ensures settled { OnOk result (HasCleanDisk (state S.Store conn.new) → (stored : StoredData)
        → HoldsRows (state S.Store conn.old) stored
        → IsSettled (state S.Store conn.new) (rebased (map vec_items pieces.now) upto stored)) }
{
    if !conn.is_autocommit() {
        return Err(Error::SqliteFailure(ErrorCode::TransactionState));
    }
    let mut tx = conn.transaction();
    fill(&mut tx, pieces, upto)?;
    tx.commit()
}

/// Takes the rows away that a base takes in, and adds its pieces.
fn fill<S: Alter>(tx: &mut Transaction<'_, S>, pieces: &[Vec<u8>], upto: i64) -> Result<(), Error>
    requires upto { pos 0 ≤ℤ upto }
    requires inside { IsTrue tx.old.conn.now.in_transaction }
    ensures same { tx.new.conn.ghost_name ≡ tx.old.conn.ghost_name }
    ensures filled { OnOk result (HasCleanDisk (state S.Store tx.new.conn.now) → (stored : StoredData)
        → HasRows (state S.Store tx.old.conn.now).now stored
        → HasRows (state S.Store tx.new.conn.now).now (rebased (map vec_items pieces.now) upto stored)) }
    ensures inside { OnOk result (HasCleanDisk (state S.Store tx.new.conn.now)
        → IsTrue tx.new.conn.now.in_transaction) }
    ensures kept { HasCleanDisk (state S.Store tx.new.conn.now)
        → KeepsCommit (state S.Store tx.old.conn.now) (state S.Store tx.new.conn.now) }
    ensures survives { Survives (state S.Store tx.old.conn.now) (state S.Store tx.new.conn.now) (λ _. ⊥) }
{
    statements::delete(tx, upto)?;
    add_pieces(tx, pieces)
}

/// Adds the pieces of a base where there is none.
fn add_pieces<S: Alter>(tx: &mut Transaction<'_, S>, pieces: &[Vec<u8>]) -> Result<(), Error>
    ensures same { tx.new.conn.ghost_name ≡ tx.old.conn.ghost_name }
    ensures added { OnOk result (HasAdded S.Store tx.old.conn.now tx.new.conn.now (map vec_items pieces.now)) }
    ensures kept { HasCleanDisk (state S.Store tx.new.conn.now) → IsTrue tx.old.conn.now.in_transaction
        → KeepsCommit (state S.Store tx.old.conn.now) (state S.Store tx.new.conn.now) }
    ensures survives { Survives (state S.Store tx.old.conn.now) (state S.Store tx.new.conn.now) (λ _. ⊥) }
{
    for (index, piece) in pieces.iter().enumerate() {
        statements::put(tx, row_of(index), piece)?;
    }
    Ok(())
}

/// The number of the row in which a piece of a base stands.
fn row_of(piece: usize) -> i64
    requires { piece < 2 ^ 63 }
    ensures { result ≡ pos 0 -ℤ pos 1 -ℤ pos piece }
{
    -1 - piece as i64
}
