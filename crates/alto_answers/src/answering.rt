ghost use Rattle.std.specs.Prelude.{IfOk};
ghost use Rattle.alto_book.specs.Book.{Book};
ghost use Rattle.alto_book.specs.Legal.{IsLegal};
ghost use Rattle.alto_versions.specs.Front.{StandsFor};
ghost use Rattle.alto_answers.specs.Answers.{AnswersTo, BringsEdits, HasBytes};
ghost use Rattle.alto_answers.specs.Graphs.{IsVersion};

use crate::client::Client;
use crate::directory::directory;
use crate::edges::edges;
use crate::edits::edits;
use crate::lookup::lookup;
use crate::maps::maps;
use crate::outcome::Answer;
use crate::queries::query;
use crate::route::Place;
use crate::target::path_of;
use crate::tips::tips;
use alto_http::Request;
use alto_replies::not_found;
use alto_rows::RowStore;
use alto_versions::Front;
use std::alloc::{AllocError, Global};

/// What a request of a client comes to at a version: a refusal for the first of no route, another
/// method, another content type, an unknown resource or no import id, an edge that can't be had, and an invalid body;
/// else a document, a patch, the next edge, which is awaited, or an import.
#[tactic(auto, unfolding(crate::specs::Answers::AnswersTo))]
pub fn answer<R: RowStore>(
    alloc: Global,
    client: &Client,
    request: &Request,
    front: &Front<R>,
) -> Result<Answer, AllocError>
    requires { IsVersion front.now }
    ensures answer { IfOk result (λ answer. (book : Book) → IsLegal book → StandsFor front.now book
        → AnswersTo request.now book client.now answer) }
    ensures edits { IfOk result BringsEdits }
    ensures replies { IfOk result HasBytes }
{
    let path = path_of(&request.target);
    match client.routes.place(path) {
        None => Ok(Answer::Reply(not_found(alloc, "route")?)),
        Some(Place::Maps) => maps(alloc, front, request.verb, path),
        Some(Place::Directory) => directory(alloc, &*front.rows, request.verb),
        Some(Place::Lookup) => lookup(alloc, front, request.verb, path),
        Some(Place::Query(of)) => query(alloc, front, client, request, of, path),
        Some(Place::Tips) => tips(alloc, front, request),
        Some(Place::Edge) => edges(alloc, front, request, path),
        Some(Place::Edits) => edits(alloc, request, path),
    }
}
