ghost use Rattle.std.specs.Prelude.{◌≡◌, ◌∷◌, ℕ, List, MatchOption};
ghost use Rattle.std.specs.Str.Lossy.{second_byte_max, second_byte_min};
ghost use Rattle.code_bytes.specs.Chars.{IsLead};
ghost use Rattle.code_bytes.specs.Inside.{GoesOn, Passes};
ghost use Rattle.code_bytes.specs.Pieces.{Texts};
ghost use Rattle.code_bytes.specs.Stuck.{IsOutside, IsStuck};

use crate::first::first_byte;

/// What a reader inside a text in UTF-8 expects: the rest of a character, and then so many bytes.
#[derive(Clone, Copy)]
struct Inside {
    /// How many bytes the character still has.
    many: usize,
    /// The least that the next of them may be.
    least: u8,
    /// The greatest that the next of them may be.
    most: u8,
    /// How many bytes of the text are behind the character.
    behind: usize,
}

/// How many of these bytes are left behind their longest prefix that begins a text of `count` bytes.
pub(crate) fn left_in_text(bytes: &[u8], count: usize) -> usize
    requires { IsOutside (Texts count) bytes.now }
    ensures { IsStuck (Texts count) bytes.now result }
{
    let mut at = Inside {
        many: 0,
        least: 0x80,
        most: 0xBF,
        behind: count,
    };
    let mut rest = bytes;
    while let Some((byte, after)) = first_byte(rest) {
        let Some(next) = at.behind_byte(byte) else {
            return rest.len();
        };
        at = next;
        rest = after;
    }
    0
}

impl Inside {
    /// What is expected behind this byte.
    fn behind_byte(self, byte: u8) -> Option<Inside>
        ensures { MatchOption result ((text : List ℕ) → GoesOn self (byte ∷ text) → ⊥)
            (λ next. Passes (GoesOn self) byte next) }
    {
        if self.many == 0 {
            return behind_lead(byte, self.behind);
        }
        if byte < self.least || self.most < byte {
            return None;
        }
        Some(Inside {
            many: self.many - 1,
            least: 0x80,
            most: 0xBF,
            behind: self.behind,
        })
    }
}

/// What is expected behind this byte, the first of a text of `count` bytes.
fn behind_lead(byte: u8, count: usize) -> Option<Inside>
    ensures { MatchOption result ((text : List ℕ) → Texts count (byte ∷ text) → ⊥)
        (λ next. Passes (Texts count) byte next) }
{
    let many = tails(byte)?;
    if count <= many {
        return None;
    }
    Some(Inside {
        many,
        least: second_least(byte),
        most: second_most(byte),
        behind: count - many - 1,
    })
}

/// How many bytes a character has behind this one, its first.
fn tails(byte: u8) -> Option<usize>
    ensures { MatchOption result ((many : ℕ) → IsLead many byte → ⊥) (λ many. IsLead many byte) }
{
    match byte {
        0x00..=0x7F => Some(0),
        0xC2..=0xDF => Some(1),
        0xE0..=0xEF => Some(2),
        0xF0..=0xF4 => Some(3),
        _ => None,
    }
}

/// The least byte that may follow this one, the first of a character.
fn second_least(byte: u8) -> u8
    ensures { result ≡ second_byte_min byte }
{
    match byte {
        0xE0 => 0xA0,
        0xF0 => 0x90,
        _ => 0x80,
    }
}

/// The greatest byte that may follow this one, the first of a character.
fn second_most(byte: u8) -> u8
    ensures { result ≡ second_byte_max byte }
{
    match byte {
        0xED => 0x9F,
        0xF4 => 0x8F,
        _ => 0xBF,
    }
}
