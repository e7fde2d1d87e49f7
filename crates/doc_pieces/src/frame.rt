//! What stands in a document round the groups.
ghost use Rattle.std.specs.Prelude.{◌≡◌, ◌++◌, IfOk, OnOk, codes};
ghost use Rattle.json.specs.Print.{quoted};
ghost use Rattle.alto_maps.specs.Writing.{AddsMember};
ghost use Rattle.doc_pieces.specs.Pieces as spec;
ghost use Rattle.doc_pieces.specs.Pieces.{member_text};

use alto_maps::Walked;
use json::Writer;
use std::alloc::{AllocError, Global};

/// What stands before the groups of a map with this meta.
pub(crate) fn beginning<M: Walked>(
    alloc: Global,
    source: &M,
    meta: &[u8],
) -> Result<Vec<u8>, AllocError>
    ensures { IfOk result (λ text. text.items ≡ spec.beginning M.shape.section meta.now) }
{
    let mut text = Vec::new(alloc);
    text.push(b'{')?;
    if source.section().cmp("meta").is_gt() {
        text.extend_from_slice(meta)?;
        text.push(b',')?;
    }
    text.extend_from_slice(&name_text(alloc, source.section())?)?;
    text.push(b'{')?;
    Ok(text)
}

/// What stands behind them.
pub(crate) fn ending<M: Walked>(
    alloc: Global,
    source: &M,
    meta: &[u8],
) -> Result<Vec<u8>, AllocError>
    ensures { IfOk result (λ text. text.items ≡ spec.ending M.shape.section meta.now) }
{
    let mut text = Vec::new(alloc);
    text.push(b'}')?;
    if source.section().cmp("meta").is_lt() {
        text.push(b',')?;
        text.extend_from_slice(meta)?;
    }
    text.push(b'}')?;
    Ok(text)
}

/// The meta of a map as a member.
pub(crate) fn meta_text<M: Walked>(alloc: Global, source: &M) -> Result<Vec<u8>, AllocError>
    ensures { IfOk result (λ text. text.items ≡ member_text (codes "meta") (M.face source.now).meta) }
{
    let mut out = Writer::new(Vec::new(alloc));
    write_meta(alloc, source, &mut out)?;
    Ok(out.into_inner())
}

/// Writes the meta with its name.
fn write_meta<M: Walked>(alloc: Global, source: &M, out: &mut Writer) -> Result<(), AllocError>
    ensures { OnOk result (AddsMember (codes "meta") (M.face source.now).meta out.old out.new) }
{
    out.key("meta")?;
    source.write_meta(alloc, out)
}

/// A member's name, and its colon.
#[tactic(auto, unfolding(json::specs::Print::print_from))]
fn name_text(alloc: Global, name: &str) -> Result<Vec<u8>, AllocError>
    ensures { IfOk result (λ text. text.items ≡ quoted name.now ++ codes ":") }
{
    let mut out = Writer::new(Vec::new(alloc));
    out.key(name)?;
    Ok(out.into_inner())
}
