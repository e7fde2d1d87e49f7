ghost use Rattle.std.specs.Prelude.{◌≡◌, ◌≢◌, ◌+◌, ◌<◌, ◌^◌, ◌∷◌, ◌++◌, length, slice_index, EachIndex, IfOk, IfErr};
ghost use Rattle.std.specs.Prelude.{MatchOption, encode_utf8};
ghost use Rattle.json_tree.specs.Escape.{EndsNoEscape, IsFaultOfToken};
ghost use Rattle.json_tree.specs.Pointer.{tilde, slash, escaped, token_of, pointer_text, IsFaultOf};

use crate::name::Name;
use crate::pointer::fault::PointerFault;
use std::alloc::Global;

/// The names along a JSON pointer, from the root down (RFC 6901, section 3). Each token is a name, also one of digits.
///
/// # Errors
///
/// `BadAt` where the text is no pointer, with the length of its longest prefix that begins one.
pub fn read_pointer(alloc: Global, text: &str) -> Result<Vec<Name>, PointerFault>
    ensures ok { IfOk result (λ names. pointer_text names.items ≡ text.now) }
    ensures err { IfErr result (IsFaultOf text.now) }
{
    if text.is_empty() {
        return Ok(Vec::new(alloc));
    }
    match text.strip_prefix('/') {
        Some(tokens) => read_tokens(alloc, tokens),
        None => Err(PointerFault::BadAt(0)),
    }
}

/// The names of the tokens of a pointer, from behind its first slash on.
fn read_tokens(alloc: Global, tokens: &str) -> Result<Vec<Name>, PointerFault>
    requires { length tokens.now + 1 < 2 ^ 64 }
    ensures ok { IfOk result (λ names. pointer_text names.items ≡ slash ∷ tokens.now) }
    ensures err { IfErr result (IsFaultOf (slash ∷ tokens.now)) }
{
    let mut names = Vec::new(alloc);
    let mut rest = tokens;
    while let Some((token, behind)) = cut(rest, '/') {
        let start = tokens.len() - rest.len() + 1;
        names.push(read_token(alloc, token, start)?)?;
        rest = behind;
    }
    let start = tokens.len() - rest.len() + 1;
    names.push(read_token(alloc, rest, start)?)?;
    Ok(names)
}

/// The name of a token that stands at the start.
fn read_token(alloc: Global, token: &str, start: usize) -> Result<Name, PointerFault>
    requires fits { start + length token.now < 2 ^ 64 }
    requires one { EachIndex token.now (λ i. slice_index token.now i ≢ slash) }
    ensures ok { IfOk result (λ name. token_of name ≡ token.now) }
    ensures err { IfErr result (IsFaultOfToken token.now start) }
{
    let mut name = String::new(alloc);
    let mut rest = token;
    while let Some((plain, behind)) = cut(rest, '~') {
        name.push_str(plain)?;
        let Some((c, left)) = unescaped(behind) else {
            return Err(PointerFault::BadAt(start + (token.len() - behind.len())));
        };
        name.push(c)?;
        rest = left;
    }
    name.push_str(rest)?;
    Ok(Name::new(name))
}

/// The character of the escape whose `~` stands before the text, and what is left of the text.
fn unescaped(text: &str) -> Option<(char, &str)>
    ensures { MatchOption result (EndsNoEscape text.now)
        (λ read. (tilde ∷ text.now ≡ escaped read.0 ++ read.1.now) × (read.0 < 128)) }
{
    if let Some(left) = text.strip_prefix('0') {
        return Some(('~', left));
    }
    match text.strip_prefix('1') {
        Some(left) => Some(('/', left)),
        None => None,
    }
}

/// The text before the first mark, and the text behind it.
fn cut(text: &str, mark: char) -> Option<(&str, &str)>
    requires { mark < 128 }
    ensures { MatchOption result (EachIndex text.now (λ i. slice_index text.now i ≢ mark))
        (λ parts. (text.now ≡ parts.0.now ++ mark ∷ parts.1.now)
        × EachIndex parts.0.now (λ i. slice_index parts.0.now i ≢ mark)) }
{
    text.split_once(mark)
}
