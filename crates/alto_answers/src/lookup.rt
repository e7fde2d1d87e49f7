//! Which PID of a network an address belongs to.
ghost use Rattle.std.specs.Prelude.{◌≡◌, ◌++◌, IfOk, option_copied, option_map};
ghost use Rattle.serde_json.specs.Written.{compact_text};
ghost use Rattle.alto_book.specs.Book.{Book, rows_of};
ghost use Rattle.alto_versions.specs.Front.{StandsFor};
ghost use Rattle.alto_replies.specs.Reply.{IsReply};
ghost use Rattle.alto_answers.specs.Answers.{BringsEdits, HasBytes};
ghost use Rattle.alto_answers.specs.Lookup as spec;
ghost use Rattle.alto_answers.specs.Lookup.{LookupAnswer, ReadsAddr, pid_document};
ghost use Rattle.alto_answers.specs.Target.{segment};

use crate::outcome::Answer;
use crate::target::two_segments;
use alto_addr::Addr;
use alto_http::Verb;
use alto_names::PidName;
use alto_replies::{Body, Reply, not_found, ok_reply, wrong_method};
use alto_rows::{RowStore, read_typed_addr};
use alto_versions::Front;
use pid_prefix::RangeTable;
use std::alloc::{AllocError, Global};
use text_buffer::TextBuffer;

/// The length of the longest body: a PID of 64 bytes, and the ten bytes round it.
const LONGEST: usize = 74;

/// What a request comes to whose path leads to `/lookup/{net}/{address}`. The version's table of the network is
/// searched, in at most log2(4p + 4) comparisons for p prefixes.
pub(crate) fn lookup<R: RowStore>(
    alloc: Global,
    front: &Front<R>,
    verb: Verb,
    path: &[u8],
) -> Result<Answer, AllocError>
    ensures has_bytes { IfOk result HasBytes }
    ensures edits { IfOk result BringsEdits }
    ensures answer { IfOk result (λ answer. (book : Book) → StandsFor front.now book
        → LookupAnswer verb (rows_of book) (segment path.now 2) (segment path.now 3) answer) }
{
    match verb {
        Verb::Get => {
            let (net, address) = two_segments(alloc, path, 2)?;
            let table = front.table_named(&net);
            Ok(Answer::Reply(lookup_reply(alloc, table, read_addr(&address))?))
        }
        Verb::Post | Verb::Other => Ok(Answer::Reply(wrong_method(alloc, Verb::Get)?)),
    }
}

/// The address that a text writes behind its type.
fn read_addr(text: &[u8]) -> Option<Addr>
    ensures { ReadsAddr text.now result }
{
    read_typed_addr(text)
}

/// The reply with the PID that a table gives an address.
fn lookup_reply(
    alloc: Global,
    table: Option<&RangeTable>,
    addr: Option<Addr>,
) -> Result<Reply, AllocError>
    ensures has_bytes { IfOk result IsReply }
    ensures reply { IfOk result (λ reply. reply
        ≡ spec.lookup_reply (option_map (λ table. table.now) table.entry) addr) }
{
    let Some(table) = table else {
        return not_found(alloc, "resource");
    };
    let Some(addr) = addr else {
        return not_found(alloc, "resource");
    };
    let body = pid_text(alloc, table.pid_of(&addr))?;
    Ok(ok_reply("application/json", Body::of_bytes(body)))
}

/// The text that tells a PID, or that there is none. No byte of a PID is escaped in it.
fn pid_text(alloc: Global, pid: Option<&PidName>) -> Result<Vec<u8>, AllocError>
    ensures { IfOk result (λ bytes. bytes.items ≡ compact_text (pid_document (option_copied pid.entry))) }
{
    match pid {
        Some(pid) => between(alloc, b"{\"pid\":\"", pid.as_bytes(), b"\"}"),
        None => between(alloc, b"{\"pid\":", b"null", b"}"),
    }
}

/// The bytes of a text between two others.
fn between(alloc: Global, first: &[u8], text: &[u8], last: &[u8]) -> Result<Vec<u8>, AllocError>
    ensures { IfOk result (λ bytes. bytes.items ≡ first.now ++ (text.now ++ last.now)) }
{
    let mut bytes = TextBuffer::with_room(alloc, LONGEST)?;
    bytes.push(first)?;
    bytes.push(text)?;
    bytes.push(last)?;
    Ok(bytes.into_bytes())
}
