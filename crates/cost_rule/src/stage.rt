ghost use Rattle.std.specs.Prelude.{◌≡◌, ◌<◌, ◌^◌, IfSome, option_map, if◌then◌else◌};
ghost use Rattle.cost_rule.specs.Grammar.{is_blank};
ghost use Rattle.cost_rule.specs.Stages.{IsCounted, IsSound, finish, first_letter, more, second_letter, step};

use crate::constraint::{Constraint, Relation};
use crate::digits::Digits;

/// How far a constraint is read.
#[derive(Clone, Copy)]
pub(crate) enum Stage {
    /// Nothing is read.
    Start,
    /// `[`.
    Bracket,
    /// `[` and digits of the index.
    Index(Digits),
    /// The index and `]`.
    Closed(u8),
    /// The index and a blank.
    Spaced(u8),
    /// `g`.
    Greater(Option<u8>),
    /// `l`.
    Less(Option<u8>),
    /// `e`.
    Equal(Option<u8>),
    /// The relation's word.
    Related(Option<u8>, Relation),
    /// The word and a blank.
    Apart(Option<u8>, Relation),
    /// Digits of the bound.
    Whole(Option<u8>, Relation, Digits),
    /// The whole part of the bound and `.`.
    Point(Option<u8>, Relation, u64),
    /// The whole part, `.` and digits of the fraction.
    Fraction(Option<u8>, Relation, u64, Digits),
}

impl Stage {
    /// One byte further, if some constraint goes on with it.
    pub(crate) fn after(self, byte: u8) -> Option<Stage>
        requires { IsSound self }
        ensures next { result ≡ step self byte }
        ensures sound { IfSome result IsSound }
    {
        match self {
            Stage::Start => from_start(byte),
            Stage::Bracket => index_digit(Digits::none(), byte),
            Stage::Index(digits) => in_index(digits, byte),
            Stage::Closed(index) => if_blank(byte, Stage::Spaced(index)),
            Stage::Spaced(index) => {
                if is_blank(byte) {
                    Some(Stage::Spaced(index))
                } else {
                    first_letter(Some(index), byte)
                }
            }
            Stage::Greater(index) => second_letter(index, byte, Relation::Gt, Relation::Ge),
            Stage::Less(index) => second_letter(index, byte, Relation::Lt, Relation::Le),
            Stage::Equal(index) => equal_letter(index, byte),
            Stage::Related(index, relation) => if_blank(byte, Stage::Apart(index, relation)),
            Stage::Apart(index, relation) => {
                if is_blank(byte) {
                    Some(Stage::Apart(index, relation))
                } else {
                    whole_digit(index, relation, Digits::none(), byte)
                }
            }
            Stage::Whole(index, relation, digits) => {
                if byte == b'.' {
                    Some(Stage::Point(index, relation, digits.number))
                } else {
                    whole_digit(index, relation, digits, byte)
                }
            }
            Stage::Point(index, relation, whole) => {
                fraction_digit(index, relation, whole, Digits::none(), byte)
            }
            Stage::Fraction(index, relation, whole, digits) => {
                fraction_digit(index, relation, whole, digits, byte)
            }
        }
    }

    /// The constraint of a text that ends here.
    pub(crate) fn finish(self) -> Option<Constraint>
        requires { IsSound self }
        ensures { result ≡ finish self }
    {
        match self {
            Stage::Whole(index, relation, digits) => Some(Constraint {
                index,
                relation,
                millionths: u128::from(digits.number) * 1_000_000,
            }),
            Stage::Fraction(index, relation, whole, digits) => Some(Constraint {
                index,
                relation,
                millionths: u128::from(whole) * 1_000_000 + digits.millionths(),
            }),
            _ => None,
        }
    }
}

/// The first byte of a constraint.
fn from_start(byte: u8) -> Option<Stage>
    ensures next { result ≡ step Stage.Start byte }
    ensures sound { IfSome result IsSound }
{
    if byte == b'[' {
        Some(Stage::Bracket)
    } else {
        first_letter(None, byte)
    }
}

/// A further digit of the index.
fn index_digit(digits: Digits, byte: u8) -> Option<Stage>
    requires { IsCounted 2 digits }
    ensures next { result ≡ option_map Stage.Index (more 2 digits byte) }
    ensures sound { IfSome result IsSound }
{
    let digits = digits.after(byte, 2)?;
    Some(Stage::Index(digits))
}

/// A further digit of the index, or the bracket that closes it.
fn in_index(digits: Digits, byte: u8) -> Option<Stage>
    requires { IsCounted 2 digits }
    ensures next { result ≡ step (Stage.Index digits) byte }
    ensures sound { IfSome result IsSound }
{
    if byte == b']' {
        Some(Stage::Closed(digits.number as u8))
    } else {
        index_digit(digits, byte)
    }
}

/// The first byte of a relation's word.
fn first_letter(index: Option<u8>, byte: u8) -> Option<Stage>
    ensures next { result ≡ first_letter index byte }
    ensures sound { IfSome result IsSound }
{
    match byte {
        b'g' => Some(Stage::Greater(index)),
        b'l' => Some(Stage::Less(index)),
        b'e' => Some(Stage::Equal(index)),
        _ => None,
    }
}

/// The second byte of a relation's word: of `strict` where it is `t`, and of `wide` where it is `e`.
fn second_letter(index: Option<u8>, byte: u8, strict: Relation, wide: Relation) -> Option<Stage>
    ensures next { result ≡ second_letter index byte strict wide }
    ensures sound { IfSome result IsSound }
{
    match byte {
        b't' => Some(Stage::Related(index, strict)),
        b'e' => Some(Stage::Related(index, wide)),
        _ => None,
    }
}

/// The second byte of `eq`.
fn equal_letter(index: Option<u8>, byte: u8) -> Option<Stage>
    ensures next { result ≡ step (Stage.Equal index) byte }
    ensures sound { IfSome result IsSound }
{
    if byte == b'q' {
        Some(Stage::Related(index, Relation::Eq))
    } else {
        None
    }
}

/// A further digit of the whole part.
fn whole_digit(index: Option<u8>, relation: Relation, digits: Digits, byte: u8) -> Option<Stage>
    requires { IsCounted 16 digits }
    ensures next { result ≡ option_map (Stage.Whole index relation) (more 16 digits byte) }
    ensures sound { IfSome result IsSound }
{
    let digits = digits.after(byte, 16)?;
    Some(Stage::Whole(index, relation, digits))
}

/// A further digit of the fraction.
fn fraction_digit(
    index: Option<u8>,
    relation: Relation,
    whole: u64,
    digits: Digits,
    byte: u8,
) -> Option<Stage>
    requires whole { whole < 10 ^ 16 }
    requires counted { IsCounted 6 digits }
    ensures next { result ≡ option_map (Stage.Fraction index relation whole) (more 6 digits byte) }
    ensures sound { IfSome result IsSound }
{
    let digits = digits.after(byte, 6)?;
    Some(Stage::Fraction(index, relation, whole, digits))
}

/// The stage, if the byte is a blank.
fn if_blank(byte: u8, next: Stage) -> Option<Stage>
    ensures { result ≡ (if is_blank byte then Some next else None) }
{
    if is_blank(byte) { Some(next) } else { None }
}

/// Whether the byte is a space or a tab.
fn is_blank(byte: u8) -> bool
    ensures { result ≡ is_blank byte }
{
    byte == b' ' || byte == b'\t'
}
