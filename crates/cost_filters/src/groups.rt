//! The groups of sources as JSON text.
ghost use Rattle.std.specs.Prelude.{◌≡◌, List, IfOk, map};
ghost use Rattle.alto_maps.specs.Shape.{Name};
ghost use Rattle.cost_filters.specs.Text.{PutsIfAny, found_object, member_start};

use crate::pairs_from::PairsFrom;
use crate::starts::MemberStarts;
use doc_pieces::{push_comma, push_name};
use std::alloc::AllocError;
use text_buffer::TextBuffer;

/// Puts the pairs of a source with destinations as a member with its name, if it has any. Tells whether a member stands
/// before the next.
pub fn push_group(
    multi: bool,
    name: &str,
    dsts: &MemberStarts,
    pairs: &PairsFrom<'_, '_>,
    later: bool,
    out: &mut TextBuffer,
) -> Result<bool, AllocError>
    ensures { IfOk result (λ after. (names : List Name) → dsts.now ≡ map member_start names
        → PutsIfAny name.now (found_object multi names pairs.now) later out.old after out.new) }
{
    if !pairs.has_pair() {
        return Ok(later);
    }
    push_comma(later, out)?;
    push_name(name, out)?;
    out.push(b"{")?;
    pairs.push_members(multi, dsts, out)?;
    Ok(true)
}
