ghost use Rattle.std.specs.Prelude.{◌≡◌, ◌≤◌, IfOk, IsTrue, length};
ghost use Rattle.std.specs.Str.Parse.{digits_value};
ghost use Rattle.alto_rows.specs.Good.{IsAmount};
ghost use Rattle.edit_forms.specs.Answers.{IsValue};
ghost use Rattle.edit_forms.specs.Columns.{WritesAmount, is_decimal};

use crate::columns::ColumnFault;

/// The greatest cost or number of a property: 2^53 - 1.
const GREATEST: u64 = 9_007_199_254_740_991;

/// The most digits that a cost or a number of a property is written with.
const MOST_DIGITS: usize = 16;

/// The cost, or number of a property, in this column.
pub(crate) fn amount_in(column: u8, text: &[u8]) -> Result<u64, ColumnFault>
    ensures answer { IsValue column (WritesAmount text.now) result }
    ensures amount { IfOk result IsAmount }
{
    if !is_decimal(text) {
        return Err(ColumnFault::Bad(column));
    }
    if MOST_DIGITS < text.len() {
        return Err(ColumnFault::Bad(column));
    }
    let number = number(text);
    if GREATEST < number {
        return Err(ColumnFault::Bad(column));
    }
    Ok(number)
}

/// Whether the text is 1 decimal digit or more, and nothing else.
fn is_decimal(text: &[u8]) -> bool
    ensures { result ≡ is_decimal text.now }
{
    !text.is_empty() && text.iter().all(|byte| byte.is_ascii_digit())
}

/// The number that up to 16 digits write.
fn number(digits: &[u8]) -> u64
    requires decimal { IsTrue (is_decimal digits.now) }
    requires few { length digits.now ≤ 16 }
    ensures { result ≡ digits_value 10 digits.now }
{
    let mut number = 0;
    for digit in digits {
        number = number * 10 + u64::from(*digit - b'0');
    }
    number
}
