//! What there is to ask for (RFC 7285, section 9).
ghost use Rattle.std.specs.Prelude.{◌≡◌, IfOk};
ghost use Rattle.alto_rows.specs.Good.{AreGood};
ghost use Rattle.alto_answers.specs.Answers.{BringsEdits, HasBytes, directory_answer};

use crate::outcome::Answer;
use crate::types::DIRECTORY;
use alto_directory::directory as resources;
use alto_http::Verb;
use alto_replies::{document_reply, wrong_method};
use alto_rows::RowStore;
use std::alloc::{AllocError, Global};

/// What a request comes to whose path is `/directory`.
pub(crate) fn directory<R: RowStore>(
    alloc: Global,
    rows: &R,
    verb: Verb,
) -> Result<Answer, AllocError>
    requires { AreGood (R.rows rows.now) }
    ensures has_bytes { IfOk result HasBytes }
    ensures edits { IfOk result BringsEdits }
    ensures answer { IfOk result (λ answer. answer ≡ directory_answer verb (R.rows rows.now)) }
{
    match verb {
        Verb::Get => {
            let document = resources(alloc, rows)?;
            Ok(Answer::Reply(document_reply(alloc, DIRECTORY, &document)?))
        }
        Verb::Post | Verb::Other => Ok(Answer::Reply(wrong_method(alloc, Verb::Get)?)),
    }
}
