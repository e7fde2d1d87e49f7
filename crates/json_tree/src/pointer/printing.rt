ghost use Rattle.std.specs.Prelude.{◌≡◌, ◌++◌, IfOk, OnOk, map, string_bytes, encode_utf8};
ghost use Rattle.json_tree.specs.Pointer.{token_of, pointer_text};

use crate::name::Name;
use std::alloc::{AllocError, Global};

/// The JSON pointer along these names, from the root down (RFC 6901, section 3).
pub fn print_pointer(alloc: Global, names: &[Name]) -> Result<Vec<u8>, AllocError>
    ensures { IfOk result (λ text. text.items ≡ pointer_text names.now) }
{
    Ok(pointer_string(alloc, names)?.into_bytes())
}

/// The same as a text.
pub fn pointer_string(alloc: Global, names: &[Name]) -> Result<String, AllocError>
    ensures { IfOk result (λ text. string_bytes text ≡ pointer_text names.now) }
{
    let mut text = String::new(alloc);
    for name in names {
        text.push('/')?;
        push_token(name.as_str(), &mut text)?;
    }
    Ok(text)
}

fn push_token(name: &str, text: &mut String) -> Result<(), AllocError>
    ensures { OnOk result (string_bytes text.new ≡ string_bytes text.old ++ token_of name.now) }
{
    for c in name.chars() {
        push_escaped(c, text)?;
    }
    Ok(())
}

fn push_escaped(c: char, text: &mut String) -> Result<(), AllocError>
    ensures { OnOk result
        (string_bytes text.new ≡ string_bytes text.old ++ token_of (encode_utf8 c)) }
{
    match c {
        '~' => text.push_str("~0"),
        '/' => text.push_str("~1"),
        _ => text.push(c),
    }
}
