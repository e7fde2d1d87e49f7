ghost use Rattle.std.specs.Prelude.{◌≡◌, ◌<◌, ◌^◌, IfOk, bytes_eq};
ghost use Rattle.alto_answers.specs.Opening.{tag, held_number};

use std::alloc::{AllocError, Global};

/// The kept number whose tag this text is, where these are the first and the last that are kept: no number has two
/// tags, so a leading zero has none. Makes a tag for each kept number.
#[tactic(auto, unfolding(crate::specs::Opening::held_number))]
pub(crate) fn held_number(
    alloc: Global,
    epoch: &str,
    first: u64,
    last: u64,
    text: &str,
) -> Result<Option<u64>, AllocError>
    requires { last < 2 ^ 63 }
    ensures { IfOk result (λ held. held ≡ held_number epoch.now first last text.now) }
{
    for number in first..last + 1 {
        if is_tag(alloc, epoch, number, text)? {
            return Ok(Some(number));
        }
    }
    Ok(None)
}

fn is_tag(alloc: Global, epoch: &str, number: u64, text: &str) -> Result<bool, AllocError>
    ensures { IfOk result (λ same. same ≡ bytes_eq text.now (tag epoch.now number)) }
{
    let tag = format!(in alloc; "{epoch}-{number}")?;
    Ok(text == tag.as_str())
}
