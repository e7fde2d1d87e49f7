ghost use Rattle.std.specs.Prelude.{◌≡◌, ◌≢◌, Ok, Err, IfOk, IfErr, option_and_then, option_map};
ghost use Rattle.json_tree.specs.Tree.{data_of};
ghost use Rattle.tips_graph.specs.Graph.{first_of, last_of};
ghost use Rattle.alto_asks.specs.Asks.{required_text, wrong_text};
ghost use Rattle.alto_answers.specs.Opening as spec;
ghost use Rattle.alto_answers.specs.Opening.{resource_field, held_number, edge_data, graph_summary, view_summary};
ghost use Rattle.alto_answers.specs.Opening.{view_data, view_uri, opened};
ghost use Rattle.alto_replies.specs.Reply.{IsReply};

use crate::authority::authority_of;
use crate::held::held_number;
use alto_asks::{AskFault, optional_text, required_text};
use alto_http::Request;
use alto_replies::{Reply, document_reply};
use alto_rows::RowStore;
use json_tree::{Members, Name, Tree};
use std::alloc::{AllocError, Global};
use tips_graph::Graph;

/// The media type of an opened view (RFC 9569, section 6.2).
const VIEW: &str = "application/alto-tips+json";

const RESOURCE: &str = "resource-id";

/// The resource whose view an ask is to open (RFC 9569, section 6.1).
///
/// # Errors
///
/// `Bad` where the ask doesn't name it by a text.
pub(crate) fn asked_resource<'t>(alloc: Global, ask: &'t Tree) -> Result<&'t str, AskFault>
    ensures ok { IfOk result (λ resource. required_text resource_field (data_of ask.now) ≡ Ok resource.now) }
    ensures err { IfErr result (λ fault. fault ≢ AskFault.Memory
        → required_text resource_field (data_of ask.now) ≡ Err fault) }
{
    required_text(alloc, ask, RESOURCE)
}

/// The fault of an ask whose resource isn't declared.
pub(crate) fn undeclared(alloc: Global, resource: &str) -> Result<AskFault, AllocError>
    ensures { IfOk result (λ fault. fault ≡ wrong_text resource_field resource.now) }
{
    AskFault::wrong_text(alloc, RESOURCE, resource)
}

/// The view of a resource with this graph, opened by an ask whose resource it is (RFC 9569, section 6). The tags of the
/// kept numbers are of this epoch.
///
/// # Errors
///
/// `Bad` with `InvalidFieldType` where the tag is no text.
#[tactic(auto, unfolding(crate::specs::Opening::opened))]
pub(crate) fn opened<R: RowStore>(
    alloc: Global,
    request: &Request,
    ask: &Tree,
    resource: &str,
    graph: &Graph<R>,
    epoch: &str,
) -> Result<Reply, AskFault>
    ensures ok { IfOk result (λ reply.
        opened epoch.now request.now.host (data_of ask.now) resource.now graph.now ≡ Ok reply) }
    ensures err { IfErr result (λ fault. fault ≢ AskFault.Memory
        → opened epoch.now request.now.host (data_of ask.now) resource.now graph.now ≡ Err fault) }
    ensures has_bytes { IfOk result IsReply }
{
    let tag = optional_text(alloc, ask, "tag")?;
    let held = held_in(alloc, epoch, graph, tag)?;
    let edge = graph.recommend(held);
    let authority = authority_of(request);
    Ok(view_reply(
        alloc,
        authority,
        resource,
        graph.first(),
        graph.last(),
        edge,
    )?)
}

/// The number of a graph that a tag holds, if there is a tag and it holds one.
fn held_in<R: RowStore>(
    alloc: Global,
    epoch: &str,
    graph: &Graph<R>,
    tag: Option<&str>,
) -> Result<Option<u64>, AllocError>
    ensures { IfOk result (λ held. held
        ≡ option_and_then (held_number epoch.now (first_of graph.now) (last_of graph.now))
        (option_map (λ tag. tag.now) tag.entry)) }
{
    match tag {
        Some(tag) => held_number(alloc, epoch, graph.first(), graph.last(), tag),
        None => Ok(None),
    }
}

/// The reply with a view: its URI at this authority, its first and its last kept number, and the first edge that is
/// recommended.
#[tactic(auto, unfolding(crate::specs::Opening::view_reply))]
pub(crate) fn view_reply(
    alloc: Global,
    authority: &str,
    resource: &str,
    first: u64,
    last: u64,
    edge: (u64, u64),
) -> Result<Reply, AllocError>
    ensures reply { IfOk result (λ reply. reply ≡ spec.view_reply authority.now resource.now first last edge) }
    ensures has_bytes { IfOk result IsReply }
{
    let graph = graph_summary(alloc, first, last, edge)?;
    let uri = view_uri(alloc, authority, resource)?;
    let view = view_tree(alloc, view_summary(alloc, graph)?, uri)?;
    document_reply(alloc, VIEW, &view)
}

fn view_uri(alloc: Global, authority: &str, resource: &str) -> Result<Name, AllocError>
    ensures { IfOk result (λ uri. uri ≡ view_uri authority.now resource.now) }
{
    Ok(Name::new(format!(in alloc; "http://{authority}/tips/{resource}")?))
}

fn view_tree(alloc: Global, summary: Tree, uri: Name) -> Result<Tree, AllocError>
    ensures { IfOk result (λ tree. data_of tree ≡ view_data (data_of summary) uri) }
{
    let mut members = Members::new(alloc);
    members.put(alloc, "tips-view-summary", summary)?;
    members.put(alloc, "tips-view-uri", Tree::from_name(uri))?;
    Ok(members.into_tree())
}

fn view_summary(alloc: Global, graph: Tree) -> Result<Tree, AllocError>
    ensures { IfOk result (λ tree. data_of tree ≡ view_summary (data_of graph)) }
{
    let mut members = Members::new(alloc);
    members.put(alloc, "updates-graph-summary", graph)?;
    Ok(members.into_tree())
}

fn graph_summary(alloc: Global, first: u64, last: u64, edge: (u64, u64)) -> Result<Tree, AllocError>
    ensures { IfOk result (λ tree. data_of tree ≡ graph_summary first last edge) }
{
    let mut members = Members::new(alloc);
    members.put(alloc, "end-seq", Tree::number(last))?;
    members.put(alloc, "start-edge-rec", edge_tree(alloc, edge)?)?;
    members.put(alloc, "start-seq", Tree::number(first))?;
    Ok(members.into_tree())
}

fn edge_tree(alloc: Global, edge: (u64, u64)) -> Result<Tree, AllocError>
    ensures { IfOk result (λ tree. data_of tree ≡ edge_data edge) }
{
    let mut members = Members::new(alloc);
    members.put(alloc, "seq-i", Tree::number(edge.0))?;
    members.put(alloc, "seq-j", Tree::number(edge.1))?;
    Ok(members.into_tree())
}
