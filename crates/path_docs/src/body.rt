ghost use Rattle.std.specs.Prelude.{◌≡◌, ◌++◌, IfOk, OnOk, string_bytes};
ghost use Rattle.json_tree.specs.Tree.{data_of};
ghost use Rattle.path_docs.specs.Multipart.{closing, multipart, part, part_head};

use json_tree::{Tree, text};
use std::alloc::{AllocError, Global};

/// The body of an answer with these parts, of the type
/// `multipart/related;boundary=alto-part;type="application/alto-costmap+json"` (RFC 9275, section 7.2.6). Linear in
/// the parts' texts.
pub fn multipart(alloc: Global, costs: &Tree, properties: &Tree) -> Result<Vec<u8>, AllocError>
    ensures { IfOk result (λ body. body.items ≡ multipart (data_of costs.now) (data_of properties.now)) }
{
    let mut body = Vec::new(alloc);
    push_part(alloc, &mut body, "costmap", &text(alloc, costs)?)?;
    push_part(alloc, &mut body, "propmap", &text(alloc, properties)?)?;
    push_closing(&mut body)?;
    Ok(body)
}

/// Adds the boundary behind the last part.
#[tactic(auto, unfolding(crate::specs::Multipart::closing))]
fn push_closing(body: &mut Vec<u8>) -> Result<(), AllocError>
    ensures { OnOk result (body.new.items ≡ body.old.items ++ closing) }
{
    body.extend_from_slice(b"--alto-part--\r\n")
}

/// Adds a part of this kind.
#[tactic(auto, unfolding(crate::specs::Multipart::part))]
fn push_part(alloc: Global, body: &mut Vec<u8>, kind: &str, text: &[u8]) -> Result<(), AllocError>
    ensures { OnOk result (body.new.items ≡ body.old.items ++ part kind.now text.now) }
{
    let head = part_head(alloc, kind)?;
    body.extend_from_slice(head.as_bytes())?;
    body.extend_from_slice(text)?;
    body.extend_from_slice(b"\r\n")
}

/// The boundary and the fields before a part of this kind.
fn part_head(alloc: Global, kind: &str) -> Result<String, AllocError>
    ensures { IfOk result (λ head. string_bytes head ≡ part_head kind.now) }
{
    let mut head = String::new(alloc);
    head.push_str("--alto-part\r\nContent-ID: <")?;
    head.push_str(kind)?;
    head.push_str("@alto>\r\nContent-Type: application/alto-")?;
    head.push_str(kind)?;
    head.push_str("+json\r\n\r\n")?;
    Ok(head)
}
