//! Parts of a JSON text (RFC 8259) with no space, which are put at the end of bytes. A writer of tokens looks at each
//! token anew, and costs some hundred steps a member more.
ghost use Rattle.std.specs.Prelude.{◌≡◌, ◌++◌, ◌∷◌, [], IfOk, OnOk};
ghost use Rattle.std.specs.List.{list_all};
ghost use Rattle.json.specs.Print.{quoted};
ghost use Rattle.serde_json.specs.Written.{comma_if};
ghost use Rattle.doc_pieces.specs.Text.{is_plain};

use json::Writer;
use std::alloc::{AllocError, Global};
use text_buffer::TextBuffer;

/// Puts a comma, where a member or an item stands before.
pub fn push_comma(later: bool, out: &mut TextBuffer) -> Result<(), AllocError>
    ensures { OnOk result (out.new ≡ out.old ++ comma_if later) }
{
    if later {
        out.push(b",")?;
    }
    Ok(())
}

/// Puts the name of a member, with its colon. Linear in the name.
pub fn push_name(name: &str, out: &mut TextBuffer) -> Result<(), AllocError>
    ensures { OnOk result (out.new ≡ out.old ++ (quoted name.now ++ 58 ∷ [])) }
{
    if are_plain(name.as_bytes()) {
        push_plain(name.as_bytes(), out)
    } else {
        push_escaped(name, out)
    }
}

/// Puts the name of a member whose bytes stand for themselves.
fn push_plain(name: &[u8], out: &mut TextBuffer) -> Result<(), AllocError>
    ensures { OnOk result (out.new ≡ out.old ++ 34 ∷ (name.now ++ 34 ∷ 58 ∷ [])) }
{
    out.push(b"\"")?;
    out.push(name)?;
    out.push(b"\":")
}

/// Puts the name of a member, whatever its bytes are.
fn push_escaped(name: &str, out: &mut TextBuffer) -> Result<(), AllocError>
    ensures { OnOk result (out.new ≡ out.old ++ (quoted name.now ++ 58 ∷ [])) }
{
    let text = name_text(out.allocator(), name)?;
    out.push(&text)
}

/// The name of a member, as a writer of tokens has it.
fn name_text(alloc: Global, name: &str) -> Result<Vec<u8>, AllocError>
    ensures { IfOk result (λ text. text.items ≡ quoted name.now ++ 58 ∷ []) }
{
    let mut writer = Writer::new(Vec::new(alloc));
    writer.key(name)?;
    Ok(writer.into_inner())
}

/// Whether all bytes of a text stand for themselves between quotes.
fn are_plain(text: &[u8]) -> bool
    ensures { result ≡ list_all is_plain text.now }
{
    text.iter().all(|byte| is_plain(*byte))
}

fn is_plain(byte: u8) -> bool
    ensures { result ≡ is_plain byte }
{
    byte >= b' ' && byte != b'"' && byte != b'\\'
}
