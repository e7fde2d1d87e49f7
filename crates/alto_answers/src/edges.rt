//! Edges of updates graphs, asked for by their numbers (RFC 9569, section 7).
ghost use Rattle.std.specs.Prelude.{◌≡◌, ℕ, true, IfOk, Some};
ghost use Rattle.serde_json.specs.Written.{compact_text};
ghost use Rattle.std.specs.List.Sorted.{IsStrictlySortedBy};
ghost use Rattle.std.specs.Str.Parse.{digits_value};
ghost use Rattle.alto_rows.specs.Good.{AreGood};
ghost use Rattle.alto_rows.specs.Ids.{resource_named};
ghost use Rattle.alto_rows.specs.Order.{key_cmp};
ghost use Rattle.alto_rows.specs.Versions.{is_declared};
ghost use Rattle.alto_book.specs.Book.{Book, rows_of};
ghost use Rattle.alto_book.specs.Legal.{IsLegal};
ghost use Rattle.alto_book.specs.NumberLaws.{TellsNumbers};
ghost use Rattle.alto_book.specs.Numbers.{status_at};
ghost use Rattle.alto_book.specs.Walks.{content_data, patch};
ghost use Rattle.alto_versions.specs.Front.{StandsFor};
ghost use Rattle.edge_patch.specs.Documents as documents;
ghost use Rattle.tips_graph.specs.Graph.{last_of, rows_at, status_of};
ghost use Rattle.tips_graph.specs.declared.status.EdgeStatus.TheVariants.{Here};
ghost use Rattle.alto_answers.specs.Accept.{patch_form};
ghost use Rattle.alto_answers.specs.Answers.{HasBytes};
ghost use Rattle.alto_replies.specs.Reply.{IsReply};
ghost use Rattle.alto_answers.specs.Edges.{edge_by, edge_number, edge_reply, edges_answer, has_leading_zero};
ghost use Rattle.alto_answers.specs.Edges.{is_edge_number, named_edge, numbered_edge, patch_type};
ghost use Rattle.alto_answers.specs.Graphs.{IsVersion};
ghost use Rattle.alto_answers.specs.Target.{segment};

use crate::accept::patch_form;
use crate::maps::newest_reply;
use crate::outcome::Answer;
use crate::target::segment;
use crate::types::{JSON_PATCH, MERGE_PATCH, media_type};
use alto_http::{Request, Verb, is_decimal};
use alto_replies::{Body, Reply, gone, not_found, ok_reply, too_early, wrong_method};
use alto_rows::{Key, Resource, RowStore, find_resource};
use alto_versions::{Followed, Front};
use edge_patch::{PatchForm, document_text};
use edge_text::{merge_text, operations_text};
use std::alloc::{AllocError, Global};
use std::sync::Arc;
use tips_graph::{EdgeStatus, Graph};

/// The most digits of a number in the path of an edge.
const MOST_DIGITS: usize = 18;

/// What a request comes to whose path leads to `/tips/{resource}/ug/{i}/{j}`.
pub(crate) fn edges<R: RowStore>(
    alloc: Global,
    front: &Front<R>,
    request: &Request,
    path: &[u8],
) -> Result<Answer, AllocError>
    requires { IsVersion front.now }
    ensures has_bytes { IfOk result HasBytes }
    ensures answer { IfOk result (λ answer. (book : Book) → IsLegal book → StandsFor front.now book
        → answer ≡ edges_answer request.now.verb book (patch_form request.now.accept)
        (segment path.now 2) (segment path.now 4) (segment path.now 5)) }
{
    match request.verb {
        Verb::Get => {
            let resource = segment(alloc, path, 2)?;
            let i = segment(alloc, path, 4)?;
            let j = segment(alloc, path, 5)?;
            named_edge(alloc, front, &resource, patch_form(request), &i, &j)
        }
        Verb::Post | Verb::Other => Ok(Answer::Reply(wrong_method(alloc, Verb::Get)?)),
    }
}

/// The edge of the resource that a text names, if it names one.
fn named_edge<R: RowStore>(
    alloc: Global,
    front: &Front<R>,
    resource: &[u8],
    form: PatchForm,
    i: &[u8],
    j: &[u8],
) -> Result<Answer, AllocError>
    requires { IsVersion front.now }
    ensures has_bytes { IfOk result HasBytes }
    ensures answer { IfOk result (λ answer. (book : Book) → IsLegal book → StandsFor front.now book
        → answer ≡ named_edge book (resource_named (rows_of book) resource.now) form i.now j.now) }
{
    let Some(of) = find_resource(alloc, &*front.rows, resource)? else {
        return Ok(Answer::Reply(not_found(alloc, "resource")?));
    };
    let Some(followed) = front.followed(&of) else {
        unreachable!();
    };
    let (i, j) = (edge_number(i), edge_number(j));
    if is_newest(followed.graph(), i, j) {
        return Ok(Answer::Reply(newest_reply(alloc, front, &of)?));
    }
    numbered_edge(alloc, followed, of, form, i, j)
}

/// Whether an edge is the one from 0 to the last number: it holds the document of the rows now, whose text the version
/// keeps.
fn is_newest<R: RowStore>(graph: &Graph<R>, i: Option<u64>, j: Option<u64>) -> bool
    ensures { result ≡ true → (i ≡ Some 0) × (j ≡ Some (last_of graph.now))
        × (status_of graph.now 0 (last_of graph.now) ≡ Here) }
{
    match (i, j) {
        (Some(0), Some(j)) => j == graph.last() && graph.status(0, j) == EdgeStatus::Here,
        _ => false,
    }
}

/// The edge between two numbers, if they are numbers.
fn numbered_edge<R: RowStore>(
    alloc: Global,
    followed: &Followed<R>,
    resource: Resource,
    form: PatchForm,
    i: Option<u64>,
    j: Option<u64>,
) -> Result<Answer, AllocError>
    requires { (book : Book) × TellsNumbers followed.now book resource }
    ensures has_bytes { IfOk result HasBytes }
    ensures answer { IfOk result (λ answer. (book : Book) → TellsNumbers followed.now book resource
        → answer ≡ numbered_edge book resource form i j) }
{
    let Some(i) = i else {
        return Ok(Answer::Reply(not_found(alloc, "edge")?));
    };
    let Some(j) = j else {
        return Ok(Answer::Reply(not_found(alloc, "edge")?));
    };
    edge_by(alloc, followed, resource, form, i, j)
}

/// What an edge is answered by its status.
fn edge_by<R: RowStore>(
    alloc: Global,
    followed: &Followed<R>,
    resource: Resource,
    form: PatchForm,
    i: u64,
    j: u64,
) -> Result<Answer, AllocError>
    requires { (book : Book) × TellsNumbers followed.now book resource }
    ensures has_bytes { IfOk result HasBytes }
    ensures answer { IfOk result (λ answer. (book : Book) → TellsNumbers followed.now book resource
        → answer ≡ edge_by (status_at book resource i j) book resource form i j) }
{
    let graph = followed.graph();
    match graph.status(i, j) {
        EdgeStatus::Absent => Ok(Answer::Reply(not_found(alloc, "edge")?)),
        EdgeStatus::Gone => Ok(Answer::Reply(gone(alloc, graph.first())?)),
        EdgeStatus::Awaited => Ok(Answer::Hold { resource, i, j }),
        EdgeStatus::Ahead => Ok(Answer::Reply(too_early(alloc, graph.last())?)),
        EdgeStatus::Here => Ok(Answer::Reply(edge_reply(alloc, followed, &resource, form, i, j)?)),
    }
}

/// The document or the patch of an edge that can be had.
fn edge_reply<R: RowStore>(
    alloc: Global,
    followed: &Followed<R>,
    resource: &Resource,
    form: PatchForm,
    i: u64,
    j: u64,
) -> Result<Reply, AllocError>
    requires { (book : Book) × TellsNumbers followed.now book resource.now × (status_at book resource.now i j ≡ Here) }
    ensures has_bytes { IfOk result IsReply }
    ensures reply { IfOk result (λ reply. (book : Book) → TellsNumbers followed.now book resource.now
        → reply ≡ edge_reply book resource.now form i j) }
{
    let graph = followed.graph();
    let Some(rows) = graph.rows_at(j) else {
        unreachable!();
    };
    let Some(keys) = graph.span(alloc, i, j)? else {
        let document = document_at(alloc, followed, resource, &**rows, j)?;
        return Ok(ok_reply(media_type(resource), document));
    };
    let Some(before) = graph.rows_at(i) else {
        unreachable!();
    };
    let patch = match followed.patch(resource, form, i, j) {
        Some(text) => text.to_vec(alloc)?,
        None => patch_text(alloc, resource, form, &**before, &**rows, &keys)?,
    };
    Ok(ok_reply(patch_type(form), Body::of_bytes(patch)))
}

/// The text of the document at a number, at which these are the rows. It is written where no text of it is kept.
fn document_at<R: RowStore>(
    alloc: Global,
    followed: &Followed<R>,
    resource: &Resource,
    rows: &R,
    number: u64,
) -> Result<Body, AllocError>
    requires good { AreGood (R.rows rows.now) }
    requires declared { is_declared (R.rows rows.now) resource.now ≡ true }
    requires number { Some (R.rows rows.now) ≡ rows_at followed.now number }
    ensures { IfOk result (λ body. body ≡ compact_text (documents.document resource.now (R.rows rows.now))) }
{
    match followed.document(resource, number) {
        Some(pieces) => Ok(Body::of_map(Arc::try_clone(pieces)?)),
        None => Ok(Body::of_bytes(document_text(alloc, resource, rows)?)),
    }
}

/// The text of the patch that leads from rows to others which differ at these keys, which rise.
fn patch_text<R: RowStore>(
    alloc: Global,
    resource: &Resource,
    form: PatchForm,
    before: &R,
    after: &R,
    keys: &[Key],
) -> Result<Vec<u8>, AllocError>
    requires good_before { AreGood (R.rows before.now) }
    requires good { AreGood (R.rows after.now) }
    requires declared { is_declared (R.rows after.now) resource.now ≡ true }
    requires rising { IsStrictlySortedBy key_cmp keys.now }
    ensures { IfOk result (λ bytes. bytes.items
        ≡ compact_text (content_data (patch form resource.now (R.rows before.now) (R.rows after.now) keys.now))) }
{
    match form {
        PatchForm::Merge => merge_text(alloc, resource, after, keys),
        PatchForm::Operations => operations_text(alloc, resource, before, after, keys),
    }
}

/// The media type of a patch in a form.
fn patch_type(form: PatchForm) -> &'static str
    ensures { result.now ≡ patch_type form }
{
    match form {
        PatchForm::Merge => MERGE_PATCH,
        PatchForm::Operations => JSON_PATCH,
    }
}

/// The number that a text is, as in the path of an edge: 1 to 18 decimal digits, the first of several not 0.
pub fn edge_number(text: &[u8]) -> Option<u64>
    ensures { result ≡ edge_number text.now }
{
    if is_edge_number(text) {
        Some(number(text))
    } else {
        None
    }
}

fn is_edge_number(text: &[u8]) -> bool
    ensures { result ≡ is_edge_number text.now }
{
    is_decimal(text) && text.len() <= MOST_DIGITS && !has_leading_zero(text)
}

fn has_leading_zero(text: &[u8]) -> bool
    ensures { result ≡ has_leading_zero text.now }
{
    matches!(text, [b'0', _, ..])
}

/// The number that the digits write.
fn number(digits: &[u8]) -> u64
    requires { is_edge_number digits.now ≡ true }
    ensures { result ≡ digits_value 10 digits.now }
{
    let mut number = 0;
    for digit in digits {
        number = number * 10 + u64::from(*digit - b'0');
    }
    number
}
