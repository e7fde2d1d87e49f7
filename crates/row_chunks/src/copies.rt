ghost use Rattle.std.specs.Prelude.{◌≡◌, IfOk};

use alto_rows::{Key, Value};
use std::alloc::AllocError;

/// The same key once more. Takes no memory: names are shared.
pub(crate) fn copy_of_key(key: &Key) -> Result<Key, AllocError>
    ensures { IfOk result (λ copy. copy ≡ key.now) }
{
    Ok(key.clone()?)
}

/// The same value once more, if there is one.
pub(crate) fn copy_of_value(value: &Option<Value>) -> Result<Option<Value>, AllocError>
    ensures { IfOk result (λ copy. copy ≡ value.now) }
{
    match value {
        Some(value) => Ok(Some(value.clone()?)),
        None => Ok(None),
    }
}

/// The same row once more.
pub(crate) fn copy_of_row(key: &Key, value: &Value) -> Result<(Key, Value), AllocError>
    ensures { IfOk result (λ copy. copy ≡ (key.now, value.now)) }
{
    Ok((key.clone()?, value.clone()?))
}
