//! Opening the view of a resource (RFC 9569, section 6).
ghost use Rattle.std.specs.Prelude.{◌≡◌, ◌≢◌, Ok, Err, IfOk, IfErr, option_map};
ghost use Rattle.alto_rows.specs.Versions.{epoch_of};
ghost use Rattle.alto_book.specs.Book.{Book, rows_of};
ghost use Rattle.alto_book.specs.Legal.{IsLegal};
ghost use Rattle.alto_versions.specs.Front.{StandsFor};
ghost use Rattle.alto_answers.specs.Answers.{BringsEdits, HasBytes};
ghost use Rattle.alto_answers.specs.Graphs.{IsVersion};
ghost use Rattle.alto_answers.specs.Opening.{opening, opening_reply};
ghost use Rattle.alto_replies.specs.Reply.{IsReply};
ghost use Rattle.alto_answers.specs.Tips.{graph_named, tips_answer};

use crate::content::has_type;
use crate::opening::{asked_resource, opened, undeclared};
use crate::outcome::Answer;
use alto_asks::{AskFault, read_ask};
use alto_http::{Request, Verb};
use alto_replies::{Reply, reply_or_error, status_alone, wrong_method};
use alto_rows::{RowStore, find_resource};
use alto_versions::Front;
use net_docs::epoch;
use std::alloc::{AllocError, Global};
use tips_graph::Graph;

/// What a request comes to whose path is `/tips`.
pub(crate) fn tips<R: RowStore>(
    alloc: Global,
    front: &Front<R>,
    request: &Request,
) -> Result<Answer, AllocError>
    requires { IsVersion front.now }
    ensures has_bytes { IfOk result HasBytes }
    ensures edits { IfOk result BringsEdits }
    ensures answer { IfOk result (λ answer. (book : Book) → IsLegal book → StandsFor front.now book
        → answer ≡ tips_answer request.now.verb request.now.content_type book request.now.host request.now.body) }
{
    match request.verb {
        Verb::Post => posted(alloc, front, request),
        Verb::Get | Verb::Other => Ok(Answer::Reply(wrong_method(alloc, Verb::Post)?)),
    }
}

fn posted<R: RowStore>(
    alloc: Global,
    front: &Front<R>,
    request: &Request,
) -> Result<Answer, AllocError>
    requires { IsVersion front.now }
    ensures has_bytes { IfOk result HasBytes }
    ensures edits { IfOk result BringsEdits }
    ensures answer { IfOk result (λ answer. (book : Book) → IsLegal book → StandsFor front.now book
        → answer ≡ tips_answer Verb.Post request.now.content_type book request.now.host request.now.body) }
{
    if has_type(request, b"application/alto-tipsparams+json") {
        Ok(Answer::Reply(view(alloc, front, request)?))
    } else {
        Ok(Answer::Reply(status_alone(alloc, 415)?))
    }
}

/// The reply with the view, or the one that tells what is wrong with the ask.
#[tactic(auto, unfolding(crate::specs::Opening::opening_reply))]
fn view<R: RowStore>(
    alloc: Global,
    front: &Front<R>,
    request: &Request,
) -> Result<Reply, AllocError>
    requires { IsVersion front.now }
    ensures has_bytes { IfOk result IsReply }
    ensures reply { IfOk result (λ reply. (book : Book) → IsLegal book → StandsFor front.now book
        → reply ≡ opening_reply (epoch_of (rows_of book)) (graph_named book) request.now.host request.now.body) }
{
    let view = open(alloc, front, request);
    reply_or_error(alloc, view)
}

/// Opens the view that the body of a request asks for.
fn open<R: RowStore>(alloc: Global, front: &Front<R>, request: &Request) -> Result<Reply, AskFault>
    requires { IsVersion front.now }
    ensures has_bytes { IfOk result IsReply }
    ensures ok { IfOk result (λ reply. (book : Book) → IsLegal book → StandsFor front.now book
        → opening (epoch_of (rows_of book)) (graph_named book) request.now.host request.now.body ≡ Ok reply) }
    ensures err { IfErr result (λ fault. fault ≢ AskFault.Memory
        → (book : Book) → IsLegal book → StandsFor front.now book
        → opening (epoch_of (rows_of book)) (graph_named book) request.now.host request.now.body ≡ Err fault) }
{
    let ask = read_ask(alloc, &request.body)?;
    let resource = asked_resource(alloc, &ask)?;
    match graph_named(alloc, front, resource)? {
        Some(graph) => opened(alloc, request, &ask, resource, graph, epoch(&*front.rows)),
        None => Err(undeclared(alloc, resource)?),
    }
}

/// The updates graph of the resource that a text names, if it names one.
fn graph_named<'f, R: RowStore>(
    alloc: Global,
    front: &'f Front<R>,
    text: &str,
) -> Result<Option<&'f Graph<R>>, AllocError>
    requires { IsVersion front.now }
    ensures { IfOk result (λ found. (book : Book) → IsLegal book → StandsFor front.now book
        → graph_named book text.now ≡ option_map (λ graph. graph.now) found) }
{
    match find_resource(alloc, &*front.rows, text.as_bytes())? {
        Some(of) => Ok(front.graph(&of)),
        None => Ok(None),
    }
}
