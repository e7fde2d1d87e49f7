ghost use Rattle.std.specs.Prelude.{◌≡◌, ◌≢◌, fold, Err, IfOk, OnOk};
ghost use Rattle.serde_json.specs.Data.{Data, string};
ghost use Rattle.json_tree.specs.Document.{with_member};
ghost use Rattle.json_tree.specs.Members.{members_data};
ghost use Rattle.json_tree.specs.Tree.{data_of};
ghost use Rattle.alto_asks.specs.declared.fault.AskFault.TheVariants as ask_fault;
ghost use Rattle.alto_asks.specs.Asks.{code_text};
ghost use Rattle.alto_replies.specs.Errors.{told, error_meta, alto_error, reply_or_error};
ghost use Rattle.alto_replies.specs.Reply.{IsReply};

use crate::body::Body;
use crate::reply::Reply;
use alto_asks::{AskCode, AskFault};
use json_tree::{Members, Name, Tree, text};
use std::alloc::{AllocError, Global};

/// The media type of an error (RFC 7285, section 8.5.1).
const ALTO_ERROR: &str = "application/alto-error+json";

/// The reply to an ask, or the one that tells its error.
pub fn reply_or_error(alloc: Global, outcome: Result<Reply, AskFault>) -> Result<Reply, AllocError>
    requires { IfOk outcome IsReply }
    ensures reply { IfOk result (λ reply. reply ≡ reply_or_error outcome) }
    ensures known { IfOk result (λ _. outcome ≢ Err ask_fault.Memory) }
    ensures has_bytes { IfOk result IsReply }
{
    match outcome {
        Ok(reply) => Ok(reply),
        Err(AskFault::Bad { code, field, value }) => alto_error(alloc, code, field, value),
        Err(AskFault::Memory) => Err(AllocError),
    }
}

/// The reply that tells an error.
pub fn alto_error(
    alloc: Global,
    code: AskCode,
    field: Option<Name>,
    value: Option<Name>,
) -> Result<Reply, AllocError>
    ensures reply { IfOk result (λ reply. reply ≡ alto_error code field value) }
    ensures has_bytes { IfOk result IsReply }
{
    let mut members = Members::new(alloc);
    members.put(alloc, "meta", error_meta(alloc, code, field, value)?)?;
    Ok(Reply {
        status: 400,
        content_type: ALTO_ERROR,
        allow: None,
        body: Body::of_bytes(text(alloc, &members.into_tree())?),
    })
}

fn error_meta(
    alloc: Global,
    code: AskCode,
    field: Option<Name>,
    value: Option<Name>,
) -> Result<Tree, AllocError>
    ensures { IfOk result (λ tree. data_of tree ≡ error_meta code field value) }
{
    let mut members = Members::new(alloc);
    members.put(alloc, "code", Tree::text(alloc, code.as_str())?)?;
    put_told(alloc, &mut members, "field", field)?;
    put_told(alloc, &mut members, "value", value)?;
    Ok(members.into_tree())
}

/// Puts the member that tells a text, where there is one.
fn put_told(
    alloc: Global,
    members: &mut Members,
    name: &str,
    text: Option<Name>,
) -> Result<(), AllocError>
    ensures { OnOk result (members_data members.new
        ≡ fold (λ before m. with_member m.0 m.1 before) (members_data members.old) (told name.now text)) }
{
    match text {
        Some(text) => members.put(alloc, name, Tree::from_name(text)),
        None => Ok(()),
    }
}
