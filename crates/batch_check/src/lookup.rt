ghost use Rattle.std.specs.Prelude.{◌≡◌};
ghost use Rattle.alto_rows.specs.Rows.{has_row};

use alto_rows::{Key, RowStore};

/// Whether a key has a row.
pub fn has_row<R: RowStore>(rows: &R, key: &Key) -> bool
    ensures { result ≡ has_row (R.rows rows.now) key.now }
{
    rows.get(key).is_some()
}
