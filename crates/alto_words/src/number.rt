ghost use Rattle.std.specs.Prelude.{◌≡◌, ◌≤◌, IfSome};
ghost use Rattle.alto_words.specs.Numbers.{is_decimal, is_number, number_in};

/// The most digits of a number.
const MOST_DIGITS: usize = 10;

/// The number that a word writes, if it is from `least` to `most`.
pub(crate) fn number_in(word: &str, least: u32, most: u32) -> Option<u32>
    ensures number { result ≡ number_in least most word.now }
    ensures range { IfSome result (λ number. (least ≤ number) × (number ≤ most)) }
{
    if !is_number(word) {
        return None;
    }
    let Ok(number) = word.parse::<u32>() else {
        return None;
    };
    if least <= number && number <= most {
        Some(number)
    } else {
        None
    }
}

/// Whether a word is a number: 1 to 10 decimal digits.
fn is_number(word: &str) -> bool
    ensures { result ≡ is_number word.now }
{
    is_decimal(word.as_bytes()) && word.len() <= MOST_DIGITS
}

/// Whether the bytes are 1 decimal digit or more, and nothing else.
fn is_decimal(bytes: &[u8]) -> bool
    ensures { result ≡ is_decimal bytes.now }
{
    !bytes.is_empty() && bytes.iter().all(|byte| byte.is_ascii_digit())
}
