ghost use Rattle.std.specs.Prelude.{◌≡◌, ◌==◌, ◌≤◌, ◌<◌, ◌∷◌, [], All, IfOk, IfSome, drop, length, MatchOption};
ghost use Rattle.std.specs.List.{position_from};
ghost use Rattle.alto_names.specs.Name.{IsAneName};
ghost use Rattle.edit_forms.specs.Answers.{IsValue};
ghost use Rattle.edit_forms.specs.Columns.{WritesAnes, spaced};

use crate::columns::ColumnFault;
use crate::values::name_in;
use alto_names::{AneKind, AneName};
use alto_rows::AneNames;
use std::alloc::Global;

/// The most names that a path has.
const MOST: usize = 64;

/// The names of abstract network elements in this column.
pub(crate) fn anes_in(alloc: Global, column: u8, text: &[u8]) -> Result<AneNames, ColumnFault>
    ensures answer { IsValue column (WritesAnes text.now) result }
    ensures anes { IfOk result (λ anes. All IsAneName anes × (1 ≤ length anes) × (length anes ≤ 64)) }
{
    let mut names: Vec<AneName> = Vec::new(alloc);
    let mut left = Some(text);
    while let Some(rest) = left {
        if names.len() == MOST {
            return Err(ColumnFault::Bad(column));
        }
        let (first, more) = cut(rest);
        names.push(name_in::<AneKind>(alloc, column, first)?)?;
        left = more;
    }
    Ok(AneNames::new(names))
}

/// What is before the first space, and what is behind it, if there is one.
fn cut(text: &[u8]) -> (&[u8], Option<&[u8]>)
    ensures { MatchOption result.1 (spaced text.now ≡ result.0.now ∷ [])
        (λ more. spaced text.now ≡ result.0.now ∷ spaced more.now) }
{
    match space_place(text) {
        Some(place) => (&text[..place], Some(behind(text, place + 1))),
        None => (text, None),
    }
}

/// What is behind the first bytes of a text.
fn behind(text: &[u8], n: usize) -> &[u8]
    requires { n ≤ length text.now }
    ensures { result.now ≡ drop n text.now }
{
    &text[n..]
}

/// The place of the first space.
fn space_place(text: &[u8]) -> Option<usize>
    ensures place { result ≡ position_from (λ byte. byte == 0x20) 0 text.now }
    ensures within { IfSome result (λ place. place < length text.now) }
{
    text.iter().position(|byte| *byte == b' ')
}
