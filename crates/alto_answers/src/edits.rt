ghost use Rattle.std.specs.Prelude.{Ok, IfOk};
ghost use Rattle.alto_http.specs.declared.request.Verb.TheVariants as verb;
ghost use Rattle.alto_names.specs.Name.{named, is_import_byte};
ghost use Rattle.alto_answers.specs.Answers.{BringsEdits, EditsAnswer, HasBytes, ImportAnswers};
ghost use Rattle.alto_answers.specs.Target.{segment};

use crate::form::form_of;
use crate::outcome::Answer;
use crate::target::segment;
use alto_book::Command;
use alto_http::{Request, Verb};
use alto_names::{ImportId, NameFault};
use alto_replies::{bad_form, form_reply, status_alone, wrong_method};
use edit_forms::{Form, FormFault};
use sha2::{Digest, Sha256};
use std::alloc::{AllocError, Global};

/// What a request comes to whose path leads to `/edits/{id}`.
pub(crate) fn edits(alloc: Global, request: &Request, path: &[u8]) -> Result<Answer, AllocError>
    ensures answer { IfOk result (λ answer.
        EditsAnswer request.now.verb request.now.content_type (segment path.now 2) request.now.body answer) }
    ensures edits { IfOk result BringsEdits }
    ensures has_bytes { IfOk result HasBytes }
{
    match request.verb {
        Verb::Post => posted(alloc, request, path),
        Verb::Get | Verb::Other => Ok(Answer::Reply(wrong_method(alloc, Verb::Post)?)),
    }
}

fn posted(alloc: Global, request: &Request, path: &[u8]) -> Result<Answer, AllocError>
    ensures answer { IfOk result (λ answer.
        EditsAnswer verb.Post request.now.content_type (segment path.now 2) request.now.body answer) }
    ensures edits { IfOk result BringsEdits }
    ensures has_bytes { IfOk result HasBytes }
{
    let Some(form) = form_of(request) else {
        return Ok(Answer::Reply(status_alone(alloc, 415)?));
    };
    let id = segment(alloc, path, 2)?;
    import_under(alloc, &id, form, &request.body)
}

fn import_under(alloc: Global, id: &[u8], form: Form, body: &[u8]) -> Result<Answer, AllocError>
    ensures answer { IfOk result (λ answer. ImportAnswers (named is_import_byte 64 id.now) form body.now answer) }
    ensures edits { IfOk result BringsEdits }
    ensures has_bytes { IfOk result HasBytes }
{
    match ImportId::read(alloc, id) {
        Ok(id) => import_of(alloc, id, form, body),
        Err(NameFault::Memory) => Err(AllocError),
        Err(_) => Ok(Answer::Reply(bad_form(alloc, 0, 0)?)),
    }
}

fn import_of(alloc: Global, id: ImportId, form: Form, body: &[u8]) -> Result<Answer, AllocError>
    ensures answer { IfOk result (λ answer. ImportAnswers (Ok id) form body.now answer) }
    ensures edits { IfOk result BringsEdits }
    ensures has_bytes { IfOk result HasBytes }
{
    match form.read(alloc, body) {
        Ok(edits) => Ok(Answer::Edit(Command {
            id,
            digest: Sha256::digest(body),
            edits,
        })),
        Err(FormFault::Memory) => Err(AllocError),
        Err(fault) => Ok(Answer::Reply(form_reply(alloc, fault)?)),
    }
}
