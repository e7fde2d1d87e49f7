ghost use Rattle.std.specs.Prelude.{◌≡◌, Ok, IfOk};
ghost use Rattle.alto_rows.specs.declared.key.Key.TheVariants as key;
ghost use Rattle.alto_rows.specs.Rows.{has_row};
ghost use Rattle.alto_answers.specs.Queries.{declared_net, net_named};

use alto_names::{NameFault, NetName};
use alto_rows::{Key, RowStore};
use std::alloc::{AllocError, Global};

/// The declared network that a text names, if it names one. One search.
pub(crate) fn find_net<R: RowStore>(
    alloc: Global,
    rows: &R,
    text: &[u8],
) -> Result<Option<NetName>, AllocError>
    ensures { IfOk result (λ found. found ≡ net_named (R.rows rows.now) text.now) }
{
    match NetName::read(alloc, text) {
        Ok(net) => if_declared(rows, net),
        Err(NameFault::Memory) => Err(AllocError),
        Err(_) => Ok(None),
    }
}

/// The name, where a network of this name is declared.
fn if_declared<R: RowStore>(rows: &R, net: NetName) -> Result<Option<NetName>, AllocError>
    ensures { IfOk result (λ found. found ≡ declared_net (R.rows rows.now) (Ok net)) }
{
    if is_declared(rows, &net)? {
        Ok(Some(net))
    } else {
        Ok(None)
    }
}

fn is_declared<R: RowStore>(rows: &R, net: &NetName) -> Result<bool, AllocError>
    ensures { IfOk result (λ declared. declared ≡ has_row (R.rows rows.now) (key.Net net.now)) }
{
    let key = Key::Net(net.clone()?);
    Ok(rows.get(&key).is_some())
}
