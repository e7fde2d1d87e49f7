//! In which form a client takes patches.
ghost use Rattle.std.specs.Prelude.{◌≡◌, Some};
ghost use Rattle.alto_answers.specs.Accept.{is_type, lists_type, patch_form};

use crate::bytes::trim;
use crate::content::before_parameters;
use crate::types::{JSON_PATCH, MERGE_PATCH};
use alto_http::Request;
use edge_patch::PatchForm;

/// The form in which a request takes patches, by its Accept field (RFC 9110, section 12.5.1): operations, where they
/// are listed and merge patches aren't; else a merge patch. Parameters don't count, weights neither.
pub(crate) fn patch_form(request: &Request) -> PatchForm
    ensures { result ≡ patch_form request.now.accept }
{
    match &request.accept {
        Some(value) => form_listed(value),
        None => PatchForm::Merge,
    }
}

fn form_listed(value: &[u8]) -> PatchForm
    ensures { result ≡ patch_form (Some value.now) }
{
    if lists_type(value, JSON_PATCH.as_bytes()) && !lists_type(value, MERGE_PATCH.as_bytes()) {
        PatchForm::Operations
    } else {
        PatchForm::Merge
    }
}

fn lists_type(value: &[u8], wanted: &[u8]) -> bool
    ensures { result ≡ lists_type wanted.now value.now }
{
    value
        .split(|b| *b == b',')
        .any(|item| is_type(item, wanted))
}

fn is_type(item: &[u8], wanted: &[u8]) -> bool
    ensures { result ≡ is_type wanted.now item.now }
{
    trim(before_parameters(item)) == wanted
}
