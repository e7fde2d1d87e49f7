//! What each query answers.
ghost use Rattle.std.specs.Prelude.{◌≡◌, ◌≢◌, true, Ok, Err, IfOk, IfErr};
ghost use Rattle.json_tree.specs.Tree.{data_of};
ghost use Rattle.alto_versions.specs.Front.{tables_in};
ghost use Rattle.alto_rows.specs.declared.key.Key.TheVariants as key;
ghost use Rattle.alto_rows.specs.Good.{AreGood};
ghost use Rattle.alto_rows.specs.Prefixes.{prefixes_in};
ghost use Rattle.alto_rows.specs.Rows.{has_row};
ghost use Rattle.endpoint_costs.specs.Costs.{endpoint_costs};
ghost use Rattle.alto_replies.specs.Replies.{document_reply};
ghost use Rattle.alto_replies.specs.Reply.{IsReply};
ghost use Rattle.alto_answers.specs.Queries.{Queried, seen_in};
ghost use Rattle.alto_answers.specs.Types.{endpoint_cost_type};

use crate::client::Client;
use crate::route::Query;
use crate::types::{COST_MAP, ENDPOINT_COST, NETWORK_MAP, PATH_VECTOR, PROPERTY_MAP};
use alto_asks::AskFault;
use alto_names::NetName;
use alto_replies::{Body, Reply, document_reply, ok_reply};
use alto_rows::RowStore;
use alto_versions::Front;
use cost_filters::{filter_cost_text, read_cost_ask};
use endpoint_costs::{EndAsk, endpoint_cost_text, read_end_ask};
use json_tree::Tree;
use net_docs::{filter_net, read_net_ask};
use path_docs::{multipart, path_vector, read_path_ask};
use pid_prefix::RangeTable;
use prop_docs::read_prop_ask;
use prop_filters::filter_prop;
use std::alloc::{AllocError, Global};

/// The network map, cut to what an object asks, or the object's first fault.
pub(crate) fn network<R: RowStore>(
    alloc: Global,
    front: &Front<R>,
    client: &Client,
    net: &NetName,
    value: &Tree,
) -> Result<Reply, AskFault>
    requires good { AreGood front.now.rows }
    requires declared { has_row front.now.rows (key.Net net.now) ≡ true }
    ensures has_bytes { IfOk result IsReply }
    ensures ok { IfOk result (λ reply. Queried Query.NetworkMap (seen_in front.now client.now.peer) net.now
        (data_of value.now) (Ok reply)) }
    ensures err { IfErr result (λ fault. fault ≢ AskFault.Memory
        → Queried Query.NetworkMap (seen_in front.now client.now.peer) net.now (data_of value.now) (Err fault)) }
{
    let ask = read_net_ask(alloc, value)?;
    let map = filter_net(alloc, &*front.rows, net, &ask)?;
    Ok(document_reply(alloc, NETWORK_MAP, &map)?)
}

/// The costs of the types that an object asks for, cut to what it asks, or the object's first fault.
pub(crate) fn costs<R: RowStore>(
    alloc: Global,
    front: &Front<R>,
    client: &Client,
    net: &NetName,
    value: &Tree,
) -> Result<Reply, AskFault>
    requires good { AreGood front.now.rows }
    requires declared { has_row front.now.rows (key.Net net.now) ≡ true }
    ensures has_bytes { IfOk result IsReply }
    ensures ok { IfOk result (λ reply. Queried Query.CostMap (seen_in front.now client.now.peer) net.now
        (data_of value.now) (Ok reply)) }
    ensures err { IfErr result (λ fault. fault ≢ AskFault.Memory
        → Queried Query.CostMap (seen_in front.now client.now.peer) net.now (data_of value.now) (Err fault)) }
{
    let ask = read_cost_ask(alloc, &*front.rows, net, value)?;
    let map = filter_cost_text(alloc, &*front.rows, front.costs(), net, &ask)?;
    Ok(ok_reply(COST_MAP, Body::of_bytes(map)))
}

/// The costs between the addresses that an object asks for, or the object's first fault.
pub(crate) fn endpoints<R: RowStore>(
    alloc: Global,
    front: &Front<R>,
    client: &Client,
    net: &NetName,
    value: &Tree,
) -> Result<Reply, AskFault>
    requires good { AreGood front.now.rows }
    requires tables { front.now.tables ≡ tables_in front.now.rows }
    requires declared { has_row front.now.rows (key.Net net.now) ≡ true }
    ensures has_bytes { IfOk result IsReply }
    ensures ok { IfOk result (λ reply. Queried Query.EndpointCosts (seen_in front.now client.now.peer) net.now
        (data_of value.now) (Ok reply)) }
    ensures err { IfErr result (λ fault. fault ≢ AskFault.Memory
        → Queried Query.EndpointCosts (seen_in front.now client.now.peer) net.now (data_of value.now) (Err fault)) }
{
    let ask = read_end_ask(alloc, &*front.rows, net, value)?;
    let reply = endpoint_reply(alloc, front, client, net, &ask)?;
    Ok(reply)
}

/// The reply with the costs that are asked for.
fn endpoint_reply<R: RowStore>(
    alloc: Global,
    front: &Front<R>,
    client: &Client,
    net: &NetName,
    ask: &EndAsk,
) -> Result<Reply, AllocError>
    requires good { AreGood front.now.rows }
    requires tables { front.now.tables ≡ tables_in front.now.rows }
    requires declared { has_row front.now.rows (key.Net net.now) ≡ true }
    ensures has_bytes { IfOk result IsReply }
    ensures reply { IfOk result (λ reply. reply ≡ document_reply endpoint_cost_type
        (endpoint_costs front.now.rows net.now ask.now client.now.peer)) }
{
    let table = table_of(front, net);
    let costs = endpoint_cost_text(
        alloc,
        &*front.rows,
        front.costs(),
        net,
        table,
        ask,
        client.peer,
    )?;
    Ok(ok_reply(ENDPOINT_COST, Body::of_bytes(costs)))
}

/// The properties of the entities that an object asks for, or the object's first fault.
pub(crate) fn properties<R: RowStore>(
    alloc: Global,
    front: &Front<R>,
    client: &Client,
    net: &NetName,
    value: &Tree,
) -> Result<Reply, AskFault>
    requires good { AreGood front.now.rows }
    requires tables { front.now.tables ≡ tables_in front.now.rows }
    requires declared { has_row front.now.rows (key.Net net.now) ≡ true }
    ensures has_bytes { IfOk result IsReply }
    ensures ok { IfOk result (λ reply. Queried Query.PropertyMap (seen_in front.now client.now.peer) net.now
        (data_of value.now) (Ok reply)) }
    ensures err { IfErr result (λ fault. fault ≢ AskFault.Memory
        → Queried Query.PropertyMap (seen_in front.now client.now.peer) net.now (data_of value.now) (Err fault)) }
{
    let ask = read_prop_ask(alloc, net, value)?;
    let table = table_of(front, net);
    let map = filter_prop(alloc, &*front.rows, net, table, &ask)?;
    Ok(document_reply(alloc, PROPERTY_MAP, &map)?)
}

/// The paths between the PIDs that an object asks for, or the object's first fault.
pub(crate) fn paths<R: RowStore>(
    alloc: Global,
    front: &Front<R>,
    client: &Client,
    net: &NetName,
    value: &Tree,
) -> Result<Reply, AskFault>
    requires good { AreGood front.now.rows }
    requires declared { has_row front.now.rows (key.Net net.now) ≡ true }
    ensures has_bytes { IfOk result IsReply }
    ensures ok { IfOk result (λ reply. Queried Query.PathVector (seen_in front.now client.now.peer) net.now
        (data_of value.now) (Ok reply)) }
    ensures err { IfErr result (λ fault. fault ≢ AskFault.Memory
        → Queried Query.PathVector (seen_in front.now client.now.peer) net.now (data_of value.now) (Err fault)) }
{
    let ask = read_path_ask(alloc, value)?;
    let (costs, properties) = path_vector(alloc, &*front.rows, net, &ask, front.n)?;
    let body = multipart(alloc, &costs, &properties)?;
    Ok(ok_reply(PATH_VECTOR, Body::of_bytes(body)))
}

/// The range table of a declared network.
fn table_of<'f, R: RowStore>(front: &'f Front<R>, net: &NetName) -> &'f RangeTable
    requires tables { front.now.tables ≡ tables_in front.now.rows }
    requires declared { has_row front.now.rows (key.Net net.now) ≡ true }
    ensures { result.now ≡ prefixes_in front.now.rows net.now }
{
    match front.table(net) {
        Some(table) => table,
        None => unreachable!(),
    }
}
