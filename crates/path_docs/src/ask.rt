ghost use Rattle.std.specs.Prelude.{◌≡◌, ◌≢◌, Ok, Err, IfOk, IfErr, OnOk};
ghost use Rattle.serde_json.specs.Data.{no_items};
ghost use Rattle.serde_json.specs.Find.{get};
ghost use Rattle.json_tree.specs.Tree.{data_of, items_data};
ghost use Rattle.net_docs.specs.Ask.{pids_field};
ghost use Rattle.path_docs.specs.Ask.{ends_in, has_item, only_bandwidth, path_ask, path_type, type_field, type_member};

use crate::fields::{nested, object_in, only, text_at, without};
use crate::picks::picked;
use alto_asks::{AskFault, optional_items, text_in};
use json_tree::Tree;
use net_docs::Pick;
use std::alloc::Global;

/// What is asked of the paths of a network (RFC 9275, section 7.2.3).
#[derive(Debug, Drop)]
pub struct PathAsk {
    pub srcs: Pick,
    pub dsts: Pick,
    /// Whether the bandwidth is asked for that can be reserved on each ANE.
    pub bandwidth: bool,
}

/// Which sources and which destinations are asked for.
#[derive(Debug, Drop)]
struct Ends {
    srcs: Pick,
    dsts: Pick,
}

/// What the body of a request asks of the paths of a network. Linear in the body.
///
/// # Errors
///
/// `Bad` with the first fault in the order of the fields: of `cost-type`, which must be there, an object, with the
/// `cost-mode` `array` and the `cost-metric` `ane-path`; `InvalidFieldValue` without a value where there are
/// `constraints` or `or-constraints`; `InvalidFieldType` where `pids` is no object, or its `srcs` or `dsts` no list of
/// texts; of `ane-property-names`, a list of texts that are all `max-reservable-bandwidth`.
#[tactic(auto, unfolding(crate::specs::Ask::path_ask))]
pub fn read_path_ask(alloc: Global, ask: &Tree) -> Result<PathAsk, AskFault>
    ensures ok { IfOk result (λ read. path_ask (data_of ask.now) ≡ Ok read) }
    ensures err { IfErr result (λ fault. fault ≢ AskFault.Memory → path_ask (data_of ask.now) ≡ Err fault) }
{
    read_type(alloc, ask)?;
    without(alloc, "constraints", ask)?;
    without(alloc, "or-constraints", ask)?;
    let Ends { srcs, dsts } = read_ends(alloc, ask)?;
    let items = optional_items(alloc, ask, "ane-property-names")?;
    only_bandwidth(alloc, items)?;
    Ok(PathAsk {
        srcs,
        dsts,
        bandwidth: has_item(items),
    })
}

/// The cost type is that of path vectors.
fn read_type<'t>(alloc: Global, ask: &'t Tree) -> Result<&'t Tree, AskFault>
    ensures ok { IfOk result (λ found. path_type (get type_field (data_of ask.now)) ≡ Ok (data_of found.now)) }
    ensures err { IfErr result (λ fault. fault ≢ AskFault.Memory
        → path_type (get type_field (data_of ask.now)) ≡ Err fault) }
{
    match ask.member("cost-type") {
        Some(value) => {
            let found = object_in(alloc, "cost-type", value)?;
            read_member(alloc, "cost-mode", "array", found)?;
            read_member(alloc, "cost-metric", "ane-path", found)?;
            Ok(found)
        }
        None => Err(AskFault::missing(alloc, "cost-type")?),
    }
}

/// The member of a cost type that is this text.
fn read_member<'t>(
    alloc: Global,
    name: &str,
    allowed: &str,
    value: &'t Tree,
) -> Result<&'t str, AskFault>
    ensures ok { IfOk result (λ text. type_member name.now allowed.now (data_of value.now) ≡ Ok text.now) }
    ensures err { IfErr result (λ fault. fault ≢ AskFault.Memory
        → type_member name.now allowed.now (data_of value.now) ≡ Err fault) }
{
    let text = text_at(alloc, "cost-type", name, value)?;
    let field = nested(alloc, "cost-type", name)?;
    only(alloc, allowed, &field, text)?;
    Ok(text)
}

/// The sources and the destinations that are asked for.
fn read_ends(alloc: Global, ask: &Tree) -> Result<Ends, AskFault>
    ensures ok { IfOk result (λ ends. ends_in (get pids_field (data_of ask.now)) ≡ Ok ends) }
    ensures err { IfErr result (λ fault. fault ≢ AskFault.Memory
        → ends_in (get pids_field (data_of ask.now)) ≡ Err fault) }
{
    match ask.member("pids") {
        Some(value) => {
            let pids = object_in(alloc, "pids", value)?;
            let srcs = picked(alloc, "srcs", pids)?;
            let dsts = picked(alloc, "dsts", pids)?;
            Ok(Ends { srcs, dsts })
        }
        None => Ok(Ends {
            srcs: Pick::All,
            dsts: Pick::All,
        }),
    }
}

/// Each item asks for the bandwidth.
fn only_bandwidth(alloc: Global, items: &[Tree]) -> Result<(), AskFault>
    ensures ok { OnOk result (only_bandwidth (items_data items.now) ≡ Ok no_items) }
    ensures err { IfErr result (λ fault. fault ≢ AskFault.Memory → only_bandwidth (items_data items.now) ≡ Err fault) }
{
    for item in items {
        let text = text_in(alloc, "ane-property-names", item)?;
        only(
            alloc,
            "max-reservable-bandwidth",
            "ane-property-names",
            text,
        )?;
    }
    Ok(())
}

/// Whether there is an item.
fn has_item(items: &[Tree]) -> bool
    ensures { result ≡ has_item (items_data items.now) }
{
    match items.first() {
        Some(_) => true,
        None => false,
    }
}
