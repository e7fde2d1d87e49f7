ghost use Rattle.std.specs.Prelude.{◌≡◌, [], ◌∷◌, IsTrue, IfOk, IfErr, OnOk};
ghost use Rattle.sqlite.specs.declared.types.Value.TheVariants.{Int, Blob};
ghost use Rattle.sqlite.specs.Held.{state};
ghost use Rattle.sqlite.specs.State.{HasCleanDisk, Executes, ExecutesInside, Shown, FailsToQuery, IsUnchanged};
ghost use Rattle.sqlite.specs.State.{IsNotRun};
ghost use Rattle.sqlite.specs.State.{Survives, CommitsBy, CommitsShowing};
ghost use Rattle.keeper_sqlite.specs.Texts.{probe_text, create_text, select_text, insert_text, delete_text};

use sqlite::{Alter, Connection, Error, Row, Transaction, params};

/// Asks whether the database is open. Commits nothing.
pub fn probe<S: Alter>(conn: &mut Connection<S>) -> Result<(), Error>
    ensures unchanged { HasCleanDisk (state S.Store conn.new)
        → OnOk result (IsUnchanged (state S.Store conn.old) (state S.Store conn.new)) }
    ensures fails { HasCleanDisk (state S.Store conn.new)
        → IfErr result (IsNotRun (state S.Store conn.old) (state S.Store conn.new) probe_text []) }
    ensures survives { Survives (state S.Store conn.old) (state S.Store conn.new) (λ _. ⊥) }
{
    conn.prepare("SELECT 1")?;
    Ok(())
}

/// Makes the table, unless it is there.
pub fn create<S: Alter>(conn: &mut Connection<S>) -> Result<usize, Error>
    ensures runs { HasCleanDisk (state S.Store conn.new)
        → Executes create_text [] (state S.Store conn.old) (state S.Store conn.new) result }
    ensures survives { Survives (state S.Store conn.old) (state S.Store conn.new)
        (CommitsBy create_text [] (state S.Store conn.old)) }
{
    conn.execute(
        "CREATE TABLE IF NOT EXISTS alto_row (n INTEGER PRIMARY KEY, bytes BLOB NOT NULL) STRICT",
        &[],
    )
}

/// All rows, by their numbers.
pub fn select<S: Alter>(conn: &mut Connection<S>) -> Result<Vec<Row>, Error>
    ensures shows { HasCleanDisk (state S.Store conn.new)
        → IfOk result (λ rows. Shown select_text [] (state S.Store conn.old) (state S.Store conn.new) rows.items) }
    ensures fails { HasCleanDisk (state S.Store conn.new)
        → IfErr result (FailsToQuery select_text [] (state S.Store conn.old) (state S.Store conn.new)) }
    ensures survives { Survives (state S.Store conn.old) (state S.Store conn.new)
        (CommitsShowing select_text [] (state S.Store conn.old)) }
{
    conn.query_all("SELECT n, bytes FROM alto_row ORDER BY n", &[])
}

/// Adds a row.
pub fn insert<S: Alter>(conn: &mut Connection<S>, n: i64, bytes: &[u8]) -> Result<usize, Error>
    ensures runs { HasCleanDisk (state S.Store conn.new)
        → Executes insert_text (Int n ∷ Blob bytes.now ∷ []) (state S.Store conn.old) (state S.Store conn.new) result }
    ensures survives { Survives (state S.Store conn.old) (state S.Store conn.new)
        (CommitsBy insert_text (Int n ∷ Blob bytes.now ∷ []) (state S.Store conn.old)) }
{
    conn.execute(
        "INSERT INTO alto_row (n, bytes) VALUES (?1, ?2)",
        params![n, bytes],
    )
}

/// Takes away, in a transaction, the base and the rows with the numbers 1 to `upto`.
pub fn delete<S: Alter>(tx: &mut Transaction<'_, S>, upto: i64) -> Result<usize, Error>
    ensures same { tx.new.conn.ghost_name ≡ tx.old.conn.ghost_name }
    ensures runs { HasCleanDisk (state S.Store tx.new.conn.now) → IsTrue tx.old.conn.now.in_transaction
        → ExecutesInside 0 delete_text (Int upto ∷ []) (state S.Store tx.old.conn.now)
        (state S.Store tx.new.conn.now) result }
    ensures survives { Survives (state S.Store tx.old.conn.now) (state S.Store tx.new.conn.now) (λ _. ⊥) }
{
    tx.execute(
        "DELETE FROM alto_row WHERE n <= ?1 AND n <> 0",
        params![upto],
    )
}

/// Adds a row in a transaction.
pub fn put<S: Alter>(tx: &mut Transaction<'_, S>, n: i64, bytes: &[u8]) -> Result<usize, Error>
    ensures same { tx.new.conn.ghost_name ≡ tx.old.conn.ghost_name }
    ensures runs { HasCleanDisk (state S.Store tx.new.conn.now) → IsTrue tx.old.conn.now.in_transaction
        → ExecutesInside 0 insert_text (Int n ∷ Blob bytes.now ∷ []) (state S.Store tx.old.conn.now)
        (state S.Store tx.new.conn.now) result }
    ensures survives { Survives (state S.Store tx.old.conn.now) (state S.Store tx.new.conn.now) (λ _. ⊥) }
{
    tx.execute(
        "INSERT INTO alto_row (n, bytes) VALUES (?1, ?2)",
        params![n, bytes],
    )
}
