//! Documents of resources (RFC 7285, section 11.2; RFC 9240, section 7).
ghost use Rattle.std.specs.Prelude.{◌≡◌, true, IfOk};
ghost use Rattle.serde_json.specs.Written.{compact_text};
ghost use Rattle.alto_rows.specs.Good.{AreGood};
ghost use Rattle.alto_rows.specs.Ids.{resource_named};
ghost use Rattle.alto_rows.specs.Versions.{is_declared};
ghost use Rattle.edge_patch.specs.Documents.{document};
ghost use Rattle.alto_answers.specs.Answers.{HasBytes, map_reply, maps_answer};
ghost use Rattle.alto_answers.specs.Target.{segment};
ghost use Rattle.alto_answers.specs.Types.{media_type_of};
ghost use Rattle.alto_replies.specs.Replies.{document_reply};
ghost use Rattle.alto_replies.specs.Reply.{IsReply};

use crate::outcome::Answer;
use crate::target::segment;
use crate::types::media_type;
use alto_http::Verb;
use alto_replies::{Body, Reply, not_found, ok_reply, wrong_method};
use alto_rows::{Resource, RowStore, find_resource};
use alto_versions::Front;
use std::alloc::{AllocError, Global};
use std::sync::Arc;

/// What a request comes to whose path leads to `/maps/{resource}`.
pub(crate) fn maps<R: RowStore>(
    alloc: Global,
    front: &Front<R>,
    verb: Verb,
    path: &[u8],
) -> Result<Answer, AllocError>
    requires { AreGood front.now.rows }
    ensures has_bytes { IfOk result HasBytes }
    ensures answer { IfOk result (λ answer. answer ≡ maps_answer verb front.now.rows (segment path.now 2)) }
{
    match verb {
        Verb::Get => {
            let resource = segment(alloc, path, 2)?;
            Ok(Answer::Reply(map_reply(alloc, front, &resource)?))
        }
        Verb::Post | Verb::Other => Ok(Answer::Reply(wrong_method(alloc, Verb::Get)?)),
    }
}

/// The document of the resource that a text names, if it names one.
fn map_reply<R: RowStore>(alloc: Global, front: &Front<R>, text: &[u8]) -> Result<Reply, AllocError>
    requires { AreGood front.now.rows }
    ensures has_bytes { IfOk result IsReply }
    ensures reply { IfOk result (λ reply. reply
        ≡ map_reply front.now.rows (resource_named front.now.rows text.now)) }
{
    match find_resource(alloc, &*front.rows, text)? {
        Some(of) => newest_reply(alloc, front, &of),
        None => not_found(alloc, "resource"),
    }
}

/// The reply with the document of a declared resource.
pub(crate) fn newest_reply<R: RowStore>(
    alloc: Global,
    front: &Front<R>,
    of: &Resource,
) -> Result<Reply, AllocError>
    requires { is_declared front.now.rows of.now ≡ true }
    ensures has_bytes { IfOk result IsReply }
    ensures reply { IfOk result (λ reply. reply
        ≡ document_reply (media_type_of of.now) (document of.now front.now.rows)) }
{
    Ok(ok_reply(media_type(of), document_of(front, of)?))
}

/// The text of the document of a declared resource, which the version keeps.
fn document_of<R: RowStore>(front: &Front<R>, of: &Resource) -> Result<Body, AllocError>
    requires { is_declared front.now.rows of.now ≡ true }
    ensures { IfOk result (λ body. body ≡ compact_text (document of.now front.now.rows)) }
{
    match front.text(of) {
        Some(pieces) => Ok(Body::of_map(Arc::try_clone(pieces)?)),
        None => unreachable!(),
    }
}
