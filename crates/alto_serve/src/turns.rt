//! The turn of one request: looks at the office, waits for the next edge, and has an import accepted.
ghost use Rattle.std.specs.Prelude.{◌≡◌, ◌≢◌, ◌++◌, [], ℕ, Err, IfOk, OnErr, All, unwrap_or};
ghost use Rattle.alto_edits.specs.Edits.{IsEdit};
ghost use Rattle.alto_book.specs.Book.{number_of};
ghost use Rattle.alto_book.specs.declared.fault.EditFault.TheVariants as fault;
ghost use Rattle.alto_answers.specs.Answers.{AnswersTo, BringsEdits, HasBytes};
ghost use Rattle.alto_replies.specs.Reply.{IsReply};
ghost use Rattle.alto_serve.specs.Events.{Emits, IsGrown, IsSubmitted, OneLook, PrefixOf, Submits};
ghost use Rattle.alto_serve.specs.Steps.{Concludes, HasLooked, HasSettled, IsConcluded, RepliesWith, is_pending};
ghost use Rattle.alto_serve.specs.Turns.{IsCutOff, IsMoment, TakesTurn, setting_of};

use crate::clock::Clock;
use crate::office::{Looks, Office};
use alto_answers::{Answer, Client};
use alto_desk::{Command, EditFault, Receipt};
use alto_http::Request;
use alto_replies::{Body, Reply, edit_reply, too_early, write_reply};
use std::alloc::{AllocError, Global};
use text_buffer::TextBuffer;

/// Writes the bytes of the reply to a request into a text, in place of what it had. A long body isn't copied: it is
/// given, to be written behind the text.
pub(crate) fn answered<F: Office, C: Clock>(
    alloc: Global,
    client: &Client,
    office: &mut F,
    clock: &C,
    request: &Request,
    most_waits: u32,
    text: &mut TextBuffer,
) -> Result<Option<Body>, AllocError>
    ensures ok { IfOk result (λ rest. Emits F.alone (RepliesWith
        (setting_of client.now (C.tells clock.now) F.alone most_waits) request.now (text.new ++ unwrap_or rest []))
        (F.known office.old) (F.known office.new)) }
    ensures err { OnErr result (Emits F.alone
        (IsCutOff (setting_of client.now (C.tells clock.now) F.alone most_waits) request.now)
        (F.known office.old) (F.known office.new)) }
    ensures book { IsGrown (F.known office.new).seen (F.known office.old).seen }
    ensures backed { F.is_backed office.old → F.is_backed office.new }
    ensures clean { F.is_clean office.new → F.is_clean office.old }
{
    let reply = take_turn(alloc, client, office, clock, request, most_waits)?;
    write_reply(text, reply, request.close)
}

/// The reply to a request, which may change the book.
fn take_turn<F: Office, C: Clock>(
    alloc: Global,
    client: &Client,
    office: &mut F,
    clock: &C,
    request: &Request,
    most_waits: u32,
) -> Result<Reply, AllocError>
    ensures ok { IfOk result (λ reply. Emits F.alone
        (λ events. TakesTurn (setting_of client.now (C.tells clock.now) F.alone most_waits) request.now events reply)
        (F.known office.old) (F.known office.new)) }
    ensures bytes { IfOk result IsReply }
    ensures err { OnErr result (Emits F.alone
        (IsCutOff (setting_of client.now (C.tells clock.now) F.alone most_waits) request.now)
        (F.known office.old) (F.known office.new)) }
    ensures backed { F.is_backed office.old → F.is_backed office.new }
    ensures clean { F.is_clean office.new → F.is_clean office.old }
{
    let answer = settled(alloc, client, office, request, most_waits)?;
    conclude(alloc, office, clock, answer)
}

/// What a request comes to in the end: the next edge is looked for again after each wait, and waited for at most
/// `most_waits` times.
fn settled<F: Office>(
    alloc: Global,
    client: &Client,
    office: &mut F,
    request: &Request,
    most_waits: u32,
) -> Result<Answer, AllocError>
    ensures ok { IfOk result (λ answer. Emits F.alone
        (HasSettled client.now request.now most_waits (F.known office.new).seen answer)
        (F.known office.old) (F.known office.new)) }
    ensures edits { IfOk result BringsEdits }
    ensures replies { IfOk result HasBytes }
    ensures err { OnErr result (Emits F.alone (PrefixOf (HasLooked client.now request.now most_waits))
        (F.known office.old) (F.known office.new)) }
    ensures backed { F.is_backed office.old → F.is_backed office.new }
    ensures clean { F.is_clean office.new → F.is_clean office.old }
{
    for _wait in 0..most_waits {
        let look = office.look(alloc, client, request)?;
        if !is_pending(&look.answer) {
            return Ok(look.answer);
        }
        office.wait(look.number);
    }
    let look = office.look(alloc, client, request)?;
    Ok(look.answer)
}

/// Whether a request stays pending: it asks for the edge that comes next.
fn is_pending(answer: &Answer) -> bool
    ensures { result ≡ is_pending answer.now }
{
    matches!(answer, Answer::Hold { .. })
}

/// The reply to an answer that isn't waited for: an import is accepted or refused, and the next edge comes too early.
fn conclude<F: Office, C: Clock>(
    alloc: Global,
    office: &mut F,
    clock: &C,
    answer: Answer,
) -> Result<Reply, AllocError>
    requires edits { BringsEdits answer }
    requires replies { HasBytes answer }
    ensures ok { IfOk result (λ reply. Emits F.alone (λ events. Concludes (C.tells clock.now) answer events reply)
        (F.known office.old) (F.known office.new)) }
    ensures bytes { IfOk result IsReply }
    ensures err { OnErr result (Emits F.alone (PrefixOf (IsConcluded (C.tells clock.now) answer))
        (F.known office.old) (F.known office.new)) }
    ensures backed { F.is_backed office.old → F.is_backed office.new }
    ensures clean { F.is_clean office.new → F.is_clean office.old }
{
    match answer {
        Answer::Reply(reply) => Ok(reply),
        Answer::Hold { i, .. } => too_early(alloc, i),
        Answer::Edit(command) => {
            let outcome = edit(alloc, office, clock, command)?;
            edit_reply(alloc, outcome)
        }
    }
}

/// What becomes of an import that comes now.
fn edit<F: Office, C: Clock>(
    alloc: Global,
    office: &mut F,
    clock: &C,
    command: Command,
) -> Result<Result<Receipt, EditFault>, AllocError>
    requires { All IsEdit command.edits }
    ensures decided { IfOk result (λ outcome. (moment : ℕ) × IsMoment (C.tells clock.now) moment
        × Emits F.alone (Submits command moment outcome) (F.known office.old) (F.known office.new)) }
    ensures in_memory { IfOk result (λ outcome. outcome ≢ Err fault.Memory) }
    ensures lost { OnErr result ((moment : ℕ) × IsMoment (C.tells clock.now) moment
        × Emits F.alone (PrefixOf (IsSubmitted command moment)) (F.known office.old) (F.known office.new)) }
    ensures backed { F.is_backed office.old → F.is_backed office.new }
    ensures clean { F.is_clean office.new → F.is_clean office.old }
{
    match office.edit(alloc, command, clock.now()) {
        Ok(receipt) => Ok(Ok(receipt)),
        Err(fault) => match fault {
            EditFault::Memory => Err(AllocError),
            _ => Ok(Err(fault)),
        },
    }
}
