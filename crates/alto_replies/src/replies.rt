ghost use Rattle.std.specs.Prelude.{◌≡◌, ◌≢◌, ℕ, None, Err, IfOk, IfSome, OnOk};
ghost use Rattle.serde_json.specs.Data.{object};
ghost use Rattle.serde_json.specs.Written.{compact_text};
ghost use Rattle.json_tree.specs.Document.{with_member};
ghost use Rattle.json_tree.specs.Members.{members_data};
ghost use Rattle.json_tree.specs.Tree.{data_of};
ghost use Rattle.alto_http.specs.declared.request.Verb.TheVariants as verb;
ghost use Rattle.alto_book.specs.declared.fault.EditFault.TheVariants as edit_fault;
ghost use Rattle.edit_forms.specs.declared.fault.FormFault.TheVariants as form_fault;
ghost use Rattle.alto_replies.specs.Reply.{IsReply};
ghost use Rattle.alto_replies.specs.Replies.{json_type, whole, ok_reply, document_reply, status_alone, not_found};
ghost use Rattle.alto_replies.specs.Replies.{wrong_method, bad_form, form_reply, gone, too_early, receipt_reply};
ghost use Rattle.alto_replies.specs.Replies.{fault_reply, edit_reply, head_status};

use crate::body::Body;
use crate::reply::Reply;
use alto_book::{EditFault, Receipt};
use alto_edits::Rule;
use alto_http::{HeadFault, Verb};
use edit_forms::FormFault;
use json_tree::{Members, Name, Tree, text};
use std::alloc::{AllocError, Global};

const JSON: &str = "application/json";

/// The reply 200 with a body of this media type. Takes no memory.
pub fn ok_reply(media_type: &'static str, body: Body) -> Reply
    ensures reply { result ≡ ok_reply media_type.now body }
    ensures has_bytes { IsReply result }
{
    Reply {
        status: 200,
        content_type: media_type,
        allow: None,
        body,
    }
}

/// The reply 200 with a document of this media type.
pub fn document_reply(
    alloc: Global,
    media_type: &'static str,
    document: &Tree,
) -> Result<Reply, AllocError>
    ensures reply { IfOk result (λ reply. reply ≡ document_reply media_type.now (data_of document.now)) }
    ensures has_bytes { IfOk result IsReply }
{
    Ok(ok_reply(media_type, Body::of_bytes(text(alloc, document)?)))
}

/// The reply that nothing is here, and why.
pub fn not_found(alloc: Global, why: &str) -> Result<Reply, AllocError>
    ensures reply { IfOk result (λ reply. reply ≡ not_found why.now) }
    ensures has_bytes { IfOk result IsReply }
{
    let mut members = Members::new(alloc);
    put_number(alloc, &mut members, "status", 404)?;
    members.put(alloc, "why", Tree::text(alloc, why)?)?;
    refusal(alloc, 404, members)
}

/// The refusal of this status, which tells nothing more.
pub fn status_alone(alloc: Global, status: u16) -> Result<Reply, AllocError>
    ensures { IfOk result (λ reply. reply ≡ status_alone status) }
{
    let mut members = Members::new(alloc);
    put_number(alloc, &mut members, "status", u64::from(status))?;
    refusal(alloc, status, members)
}

/// The refusal of a method where this one is allowed.
pub fn wrong_method(alloc: Global, allowed: Verb) -> Result<Reply, AllocError>
    ensures has_bytes { allowed ≢ verb.Other → IfOk result IsReply }
    ensures reply { IfOk result (λ reply. reply ≡ wrong_method allowed) }
{
    let mut reply = status_alone(alloc, 405)?;
    reply.allow = Some(allowed);
    Ok(reply)
}

/// The refusal of a body that doesn't read at this row and column, 0 for a number that isn't known.
pub fn bad_form(alloc: Global, row: u64, column: u8) -> Result<Reply, AllocError>
    ensures reply { IfOk result (λ reply. reply ≡ bad_form row column) }
    ensures has_bytes { IfOk result IsReply }
{
    let mut members = Members::new(alloc);
    put_number(alloc, &mut members, "column", u64::from(column))?;
    put_number(alloc, &mut members, "row", row)?;
    put_number(alloc, &mut members, "status", 400)?;
    refusal(alloc, 400, members)
}

/// The refusal of a body of edits.
pub fn form_reply(alloc: Global, fault: FormFault) -> Result<Reply, AllocError>
    requires { fault ≢ form_fault.Memory }
    ensures reply { IfOk result (λ reply. reply ≡ form_reply fault) }
    ensures has_bytes { IfOk result IsReply }
{
    match fault {
        FormFault::Syntax | FormFault::Empty => bad_form(alloc, 0, 0),
        FormFault::BadRecord(row) => bad_form(alloc, row, 0),
        FormFault::BadColumn(row, column) => bad_form(alloc, row, column),
        FormFault::Memory => unreachable!(),
    }
}

/// The refusal of an edge from or to a number that is kept no more, with the first that is.
pub fn gone(alloc: Global, first: u64) -> Result<Reply, AllocError>
    ensures reply { IfOk result (λ reply. reply ≡ gone first) }
    ensures has_bytes { IfOk result IsReply }
{
    let mut members = Members::new(alloc);
    put_number(alloc, &mut members, "start-seq", first)?;
    put_number(alloc, &mut members, "status", 410)?;
    refusal(alloc, 410, members)
}

/// The refusal of an edge that leads past the last number, with that number.
pub fn too_early(alloc: Global, last: u64) -> Result<Reply, AllocError>
    ensures reply { IfOk result (λ reply. reply ≡ too_early last) }
    ensures has_bytes { IfOk result IsReply }
{
    let mut members = Members::new(alloc);
    put_number(alloc, &mut members, "end-seq", last)?;
    put_number(alloc, &mut members, "status", 425)?;
    refusal(alloc, 425, members)
}

/// What an import is answered.
pub fn edit_reply(alloc: Global, outcome: Result<Receipt, EditFault>) -> Result<Reply, AllocError>
    requires { outcome ≢ Err edit_fault.Memory }
    ensures reply { IfOk result (λ reply. reply ≡ edit_reply outcome) }
    ensures has_bytes { IfOk result IsReply }
{
    match outcome {
        Ok(receipt) => receipt_reply(alloc, receipt),
        Err(EditFault::OtherBody { n }) => other_body(alloc, n),
        Err(EditFault::Broken { row, rule }) => broken(alloc, row, rule),
        Err(EditFault::Keeper) => status_alone(alloc, 503),
        Err(EditFault::Memory) => unreachable!(),
    }
}

/// The status that refuses a head, where the fault has one. The refusal tells it alone.
pub fn head_status(fault: HeadFault) -> Option<u16>
    ensures status { result ≡ head_status fault }
    ensures has_bytes { IfSome result (λ status. IsReply (status_alone status)) }
{
    match fault {
        HeadFault::TooLarge => Some(431),
        HeadFault::BadHead => Some(400),
        HeadFault::Coded => Some(501),
        HeadFault::NoLength => Some(411),
        HeadFault::BodyTooLarge => Some(413),
        HeadFault::Cut | HeadFault::ReadFault | HeadFault::Memory => None,
    }
}

fn receipt_reply(alloc: Global, receipt: Receipt) -> Result<Reply, AllocError>
    ensures reply { IfOk result (λ reply. reply ≡ receipt_reply receipt) }
    ensures has_bytes { IfOk result IsReply }
{
    let mut members = Members::new(alloc);
    put_number(alloc, &mut members, "moment", receipt.moment)?;
    put_number(alloc, &mut members, "n", receipt.n)?;
    document_reply(alloc, JSON, &members.into_tree())
}

fn other_body(alloc: Global, n: u64) -> Result<Reply, AllocError>
    ensures reply { IfOk result (λ reply. reply ≡ fault_reply (edit_fault.OtherBody n)) }
    ensures has_bytes { IfOk result IsReply }
{
    let mut members = Members::new(alloc);
    put_number(alloc, &mut members, "n", n)?;
    put_number(alloc, &mut members, "status", 409)?;
    refusal(alloc, 409, members)
}

fn broken(alloc: Global, row: u64, rule: Rule) -> Result<Reply, AllocError>
    ensures reply { IfOk result (λ reply. reply ≡ fault_reply (edit_fault.Broken row rule)) }
    ensures has_bytes { IfOk result IsReply }
{
    let mut members = Members::new(alloc);
    put_number(alloc, &mut members, "row", row)?;
    let name = Name::new(rule.to_string(alloc)?);
    members.put(alloc, "rule", Tree::from_name(name))?;
    put_number(alloc, &mut members, "status", 422)?;
    refusal(alloc, 422, members)
}

fn put_number(
    alloc: Global,
    members: &mut Members,
    name: &str,
    value: u64,
) -> Result<(), AllocError>
    ensures { OnOk result (members_data members.new ≡ with_member name.now (whole value) (members_data members.old)) }
{
    members.put(alloc, name, Tree::number(value))
}

/// A refusal with an object of JSON.
fn refusal(alloc: Global, status: u16, members: Members) -> Result<Reply, AllocError>
    ensures { IfOk result (λ reply. reply ≡ record {
      status = status;
      content_type = json_type;
      allow = None;
      body = compact_text (object (members_data members));
    }) }
{
    Ok(Reply {
        status,
        content_type: JSON,
        allow: None,
        body: Body::of_bytes(text(alloc, &members.into_tree())?),
    })
}
