//! The addresses that lists ask for.
ghost use Rattle.std.specs.Prelude.{◌≡◌, ◌≢◌, Ok, Err, IfOk, IfErr, option_map};
ghost use Rattle.serde_json.specs.Find.{get};
ghost use Rattle.json_tree.specs.Tree.{data_of, items_data};
ghost use Rattle.endpoint_costs.specs.Ask.{ReadsAddr, ReadsAddrs, ReadsMember, ReadsText, ends_field, if_any};
ghost use Rattle.endpoint_costs.specs.Ask.{object_at};

use alto_addr::Addr;
use alto_asks::{AskFault, text_in};
use alto_rows::read_typed_addr;
use cost_filters::{items_at, nested, object_in};
use json_tree::Tree;
use std::alloc::Global;

/// The object of `endpoints`.
pub(crate) fn ends_in(alloc: Global, ask: &Tree) -> Result<&Tree, AskFault>
    ensures ok { IfOk result (λ object. object_at (get ends_field (data_of ask.now)) ≡ Ok (data_of object.now)) }
    ensures err { IfErr result (λ fault. fault ≢ AskFault.Memory
        → object_at (get ends_field (data_of ask.now)) ≡ Err fault) }
{
    match ask.member("endpoints") {
        Some(value) => object_in(alloc, "endpoints", value),
        None => Err(AskFault::missing(alloc, "endpoints")?),
    }
}

/// The addresses that a list in the object of `endpoints` asks for, if there are any.
pub(crate) fn addrs_at(
    alloc: Global,
    name: &str,
    object: &Tree,
) -> Result<Option<Vec<Addr>>, AskFault>
    ensures ok { IfOk result (λ found.
        ReadsMember name.now (data_of object.now) (Ok (option_map (λ addrs. addrs.items) found))) }
    ensures err { IfErr result (λ fault. fault ≢ AskFault.Memory
        → ReadsMember name.now (data_of object.now) (Err fault)) }
{
    let items = items_at(alloc, "endpoints", name, object)?;
    let path = nested(alloc, "endpoints", name)?;
    Ok(if_any(addrs_in(alloc, &path, items)?))
}

/// Addresses, if there are any.
fn if_any(addrs: Vec<Addr>) -> Option<Vec<Addr>>
    ensures { option_map (λ addrs. addrs.items) result ≡ if_any addrs.items }
{
    if addrs.is_empty() { None } else { Some(addrs) }
}

/// The addresses that the items of a field's list write.
fn addrs_in(alloc: Global, field: &str, items: &[Tree]) -> Result<Vec<Addr>, AskFault>
    ensures ok { IfOk result (λ addrs. ReadsAddrs field.now (items_data items.now) (Ok addrs.items)) }
    ensures err { IfErr result (λ fault. fault ≢ AskFault.Memory
        → ReadsAddrs field.now (items_data items.now) (Err fault)) }
{
    let mut addrs = Vec::with_capacity(alloc, items.len())?;
    for item in items {
        addrs.push(addr_in(alloc, field, item)?)?;
    }
    Ok(addrs)
}

/// The address that an item of a field's list writes.
fn addr_in(alloc: Global, field: &str, item: &Tree) -> Result<Addr, AskFault>
    ensures ok { IfOk result (λ addr. ReadsAddr field.now (data_of item.now) (Ok addr)) }
    ensures err { IfErr result (λ fault. fault ≢ AskFault.Memory
        → ReadsAddr field.now (data_of item.now) (Err fault)) }
{
    let text = text_in(alloc, field, item)?;
    addr_of(alloc, field, text)
}

/// The address that a text writes behind its type.
fn addr_of(alloc: Global, field: &str, text: &str) -> Result<Addr, AskFault>
    ensures ok { IfOk result (λ addr. ReadsText field.now text.now (Ok addr)) }
    ensures err { IfErr result (λ fault. fault ≢ AskFault.Memory → ReadsText field.now text.now (Err fault)) }
{
    match read_typed_addr(text.as_bytes()) {
        Some(addr) => Ok(addr),
        None => Err(AskFault::wrong_text(alloc, field, text)?),
    }
}
