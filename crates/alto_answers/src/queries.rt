//! Queries of a network by a body: filtered maps (RFC 7285, section 11.3; RFC 8189, section 4.1; RFC 9240, section 8),
//! costs between addresses (RFC 7285, section 11.5) and path vectors (RFC 9275, section 7.2).
ghost use Rattle.std.specs.Prelude.{◌≡◌, ◌≢◌, true, Ok, Err, IfOk, IfErr};
ghost use Rattle.std.specs.Str.{str_to_ascii_lowercase};
ghost use Rattle.json_tree.specs.Tree.{data_of};
ghost use Rattle.alto_book.specs.Book.{Book};
ghost use Rattle.alto_versions.specs.Front.{StandsFor, tables_in};
ghost use Rattle.alto_rows.specs.declared.key.Key.TheVariants as key;
ghost use Rattle.alto_rows.specs.Good.{AreGood};
ghost use Rattle.alto_rows.specs.Rows.{has_row};
ghost use Rattle.alto_replies.specs.Reply.{IsReply};
ghost use Rattle.alto_answers.specs.Answers.{BringsEdits, HasBytes, seen_at};
ghost use Rattle.alto_answers.specs.Target.{segment};
ghost use Rattle.alto_answers.specs.Queries as spec;
ghost use Rattle.alto_asks.specs.Asks.{ask_of};
ghost use Rattle.alto_answers.specs.Queries.{Asked, Queried, QueryAnswer, QueryReply, net_named, net_segment, seen_in};

use crate::client::Client;
use crate::content::has_type;
use crate::filters::{costs, endpoints, network, paths, properties};
use crate::nets::find_net;
use crate::outcome::Answer;
use crate::route::Query;
use crate::target::segment;
use alto_asks::{AskFault, read_ask};
use alto_http::{Request, Verb};
use alto_names::NetName;
use alto_replies::{Reply, not_found, reply_or_error, status_alone, wrong_method};
use alto_rows::RowStore;
use alto_versions::Front;
use json_tree::Tree;
use std::alloc::{AllocError, Global};

/// What a query comes to of the network that a path names.
pub(crate) fn query<R: RowStore>(
    alloc: Global,
    front: &Front<R>,
    client: &Client,
    request: &Request,
    of: Query,
    path: &[u8],
) -> Result<Answer, AllocError>
    requires good { AreGood front.now.rows }
    requires tables { front.now.tables ≡ tables_in front.now.rows }
    ensures has_bytes { IfOk result HasBytes }
    ensures edits { IfOk result BringsEdits }
    ensures answer { IfOk result (λ answer. (book : Book) → StandsFor front.now book
        → QueryAnswer of request.now.verb request.now.content_type (seen_at book client.now.peer)
        (segment path.now (net_segment of)) request.now.body answer) }
{
    match request.verb {
        Verb::Post => {
            let text = segment(alloc, path, net_segment(of))?;
            posted(alloc, front, client, request, of, &text)
        }
        Verb::Get | Verb::Other => Ok(Answer::Reply(wrong_method(alloc, Verb::Post)?)),
    }
}

fn posted<R: RowStore>(
    alloc: Global,
    front: &Front<R>,
    client: &Client,
    request: &Request,
    of: Query,
    text: &[u8],
) -> Result<Answer, AllocError>
    requires good { AreGood front.now.rows }
    requires tables { front.now.tables ≡ tables_in front.now.rows }
    ensures has_bytes { IfOk result HasBytes }
    ensures edits { IfOk result BringsEdits }
    ensures answer { IfOk result (λ answer. QueryAnswer of Verb.Post request.now.content_type
        (seen_in front.now client.now.peer) text.now request.now.body answer) }
{
    if has_type(request, body_type(of)) {
        let reply = query_reply(alloc, front, client, of, text, &request.body)?;
        Ok(Answer::Reply(reply))
    } else {
        Ok(Answer::Reply(status_alone(alloc, 415)?))
    }
}

/// The media type of a query's body.
fn body_type(of: Query) -> &'static [u8]
    ensures is { result.now ≡ spec.body_type of }
    ensures lower { str_to_ascii_lowercase result.now ≡ result.now }
{
    match of {
        Query::NetworkMap => b"application/alto-networkmapfilter+json",
        Query::CostMap | Query::PathVector => b"application/alto-costmapfilter+json",
        Query::EndpointCosts => b"application/alto-endpointcostparams+json",
        Query::PropertyMap => b"application/alto-propmapparams+json",
    }
}

/// Which segment of a query's path names the network.
fn net_segment(of: Query) -> usize
    ensures { result ≡ net_segment of }
{
    match of {
        Query::NetworkMap | Query::CostMap | Query::PropertyMap => 3,
        Query::EndpointCosts | Query::PathVector => 2,
    }
}

/// What the network that a text names answers to a body, if it is declared.
fn query_reply<R: RowStore>(
    alloc: Global,
    front: &Front<R>,
    client: &Client,
    of: Query,
    text: &[u8],
    body: &[u8],
) -> Result<Reply, AllocError>
    requires good { AreGood front.now.rows }
    requires tables { front.now.tables ≡ tables_in front.now.rows }
    ensures has_bytes { IfOk result IsReply }
    ensures reply { IfOk result (QueryReply of (seen_in front.now client.now.peer)
        (net_named front.now.rows text.now) body.now) }
{
    match find_net(alloc, &*front.rows, text)? {
        Some(net) => {
            let answer = asked(alloc, front, client, of, &net, body);
            reply_or_error(alloc, answer)
        }
        None => not_found(alloc, "resource"),
    }
}

/// What a declared network answers to a body, or the body's first fault.
fn asked<R: RowStore>(
    alloc: Global,
    front: &Front<R>,
    client: &Client,
    of: Query,
    net: &NetName,
    body: &[u8],
) -> Result<Reply, AskFault>
    requires good { AreGood front.now.rows }
    requires tables { front.now.tables ≡ tables_in front.now.rows }
    requires declared { has_row front.now.rows (key.Net net.now) ≡ true }
    ensures has_bytes { IfOk result IsReply }
    ensures ok { IfOk result (λ reply.
        Asked of (seen_in front.now client.now.peer) net.now (ask_of body.now) (Ok reply)) }
    ensures err { IfErr result (λ fault. fault ≢ AskFault.Memory
        → Asked of (seen_in front.now client.now.peer) net.now (ask_of body.now) (Err fault)) }
{
    let value = read_ask(alloc, body)?;
    queried(alloc, front, client, of, net, &value)
}

/// What a declared network answers to the object that a body is, or the object's first fault.
fn queried<R: RowStore>(
    alloc: Global,
    front: &Front<R>,
    client: &Client,
    of: Query,
    net: &NetName,
    value: &Tree,
) -> Result<Reply, AskFault>
    requires good { AreGood front.now.rows }
    requires tables { front.now.tables ≡ tables_in front.now.rows }
    requires declared { has_row front.now.rows (key.Net net.now) ≡ true }
    ensures has_bytes { IfOk result IsReply }
    ensures ok { IfOk result (λ reply.
        Queried of (seen_in front.now client.now.peer) net.now (data_of value.now) (Ok reply)) }
    ensures err { IfErr result (λ fault. fault ≢ AskFault.Memory
        → Queried of (seen_in front.now client.now.peer) net.now (data_of value.now) (Err fault)) }
{
    match of {
        Query::NetworkMap => network(alloc, front, client, net, value),
        Query::CostMap => costs(alloc, front, client, net, value),
        Query::EndpointCosts => endpoints(alloc, front, client, net, value),
        Query::PropertyMap => properties(alloc, front, client, net, value),
        Query::PathVector => paths(alloc, front, client, net, value),
    }
}
