ghost use Rattle.std.specs.Prelude.{◌≡◌, ◌≤◌, ◌++◌, All, IfOk, IfErr, IsUtf8, length};
ghost use Rattle.std.specs.List.{flat_map};
ghost use Rattle.alto_names.specs.Name.{IsAneName};
ghost use Rattle.code_bytes.specs.Pieces.{Counted, Texts, name, number};
ghost use Rattle.code_bytes.specs.Stuck.{Stops, Tagged, Times};
ghost use Rattle.batch_code.specs.Grammar.{AneNames as AneTexts, Values, form_number, has_form, least_of, most_of};
ghost use Rattle.batch_code.specs.Spelling.{value_bytes};
ghost use Rattle.batch_code.specs.Values.{IsValueOf};

use crate::kinds::{Form, Shape};
use alto_names::{AneKind, AneName};
use alto_rows::{AneNames, Value};
use code_bytes::{Stop, first_byte, read_name, read_number, read_text};
use json_tree::Name;
use std::alloc::Global;

/// Reads a value of a key whose values are of this shape, or a deletion.
pub(crate) fn read_value(
    alloc: Global,
    of: Shape,
    bytes: &[u8],
) -> Result<(Option<Value>, &[u8]), Stop>
    ensures ok { IfOk result (λ x. IsValueOf of x.0 × (bytes.now ≡ value_bytes x.0 ++ x.1.now)) }
    ensures stops { IfErr result (Stops (Tagged form_number (Values of)) bytes.now) }
{
    let Some((number, rest)) = first_byte(bytes) else {
        return Err(Stop::Left(0));
    };
    let Some(form) = Form::of(number) else {
        return Err(Stop::Left(bytes.len()));
    };
    if !of.has(form) {
        return Err(Stop::Left(bytes.len()));
    }
    match form {
        Form::Deletion => Ok((None, rest)),
        Form::Unit => Ok((Some(Value::Unit), rest)),
        Form::Number => {
            let (number, rest) = read_number(rest, 8, of.least(), of.most())?;
            Ok((Some(Value::Num(number)), rest))
        }
        Form::Text => {
            let (text, rest) = read_long(alloc, rest)?;
            Ok((Some(Value::Text(text)), rest))
        }
        Form::Names => {
            let (names, rest) = read_anes(alloc, rest)?;
            Ok((Some(Value::Names(names)), rest))
        }
    }
}

/// Reads a text behind its length.
fn read_long(alloc: Global, bytes: &[u8]) -> Result<(Name, &[u8]), Stop>
    ensures ok { IfOk result (λ x. IsUtf8 x.0 × (length x.0 ≤ 65535)
        × (bytes.now ≡ (number 2 (length x.0) ++ x.0) ++ x.1.now)) }
    ensures stops { IfErr result (Stops (Counted 2 0 65535 Texts) bytes.now) }
{
    let (count, rest) = read_number(bytes, 2, 0, 65535)?;
    let (text, rest) = read_text(rest, count as usize)?;
    Ok((Name::from_str(alloc, text)?, rest))
}

/// Reads 1 to 64 names of abstract network elements behind their number.
fn read_anes(alloc: Global, bytes: &[u8]) -> Result<(AneNames, &[u8]), Stop>
    ensures ok { IfOk result (λ x. All IsAneName x.0 × (1 ≤ length x.0) × (length x.0 ≤ 64)
        × (bytes.now ≡ (number 2 (length x.0) ++ flat_map name x.0) ++ x.1.now)) }
    ensures stops { IfErr result (Stops (Counted 2 1 64 (λ count. Times count AneTexts)) bytes.now) }
{
    let (count, rest) = read_number(bytes, 2, 1, 64)?;
    let (names, rest) = anes_of(alloc, count, rest)?;
    Ok((AneNames::new(names), rest))
}

/// Reads so many names of abstract network elements.
fn anes_of(alloc: Global, count: u64, bytes: &[u8]) -> Result<(Vec<AneName>, &[u8]), Stop>
    ensures ok { IfOk result (λ x. All IsAneName x.0.items × (length x.0.items ≡ count)
        × (bytes.now ≡ flat_map name x.0.items ++ x.1.now)) }
    ensures stops { IfErr result (Stops (Times count AneTexts) bytes.now) }
{
    let mut names = Vec::new(alloc);
    let mut rest = bytes;
    for _ in 0..count {
        let (ane, after) = read_name::<AneKind>(alloc, rest)?;
        names.push(ane)?;
        rest = after;
    }
    Ok((names, rest))
}

impl Shape {
    /// Whether keys with such values have one of this form.
    fn has(self, form: Form) -> bool
        ensures { result ≡ has_form self form }
    {
        match (self, form) {
            (Shape::Version, Form::Deletion) => false,
            (_, Form::Deletion)
            | (Shape::Unit, Form::Unit)
            | (Shape::Amount | Shape::Property | Shape::Version, Form::Number)
            | (Shape::Property, Form::Text)
            | (Shape::Names, Form::Names) => true,
            _ => false,
        }
    }

    /// The least number among such values.
    fn least(self) -> u64
        ensures { result ≡ least_of self }
    {
        match self {
            Shape::Version => 1,
            _ => 0,
        }
    }

    /// The greatest number among such values.
    fn most(self) -> u64
        ensures { result ≡ most_of self }
    {
        match self {
            Shape::Version => (1 << 63) - 1,
            _ => (1 << 53) - 1,
        }
    }
}
