ghost use Rattle.std.specs.Prelude.{◌≡◌};
ghost use Rattle.alto_answers.specs.Forms.{form_of};

use crate::content::has_type;
use alto_http::Request;
use edit_forms::Form;

/// The form that the content type of a request names, if it names one: `text/csv` or `application/json`.
pub(crate) fn form_of(request: &Request) -> Option<Form>
    ensures { result ≡ form_of request.now.content_type }
{
    if has_type(request, b"text/csv") {
        Some(Form::Csv)
    } else if has_type(request, b"application/json") {
        Some(Form::Json)
    } else {
        None
    }
}
