ghost use Rattle.std.specs.Prelude.{◌≡◌, ◌≤◌, true};
ghost use Rattle.std.specs.Char.{is_digit};
ghost use Rattle.std.specs.List.{list_all};
ghost use Rattle.std.specs.Str.Parse.{digits_value};
ghost use Rattle.alto_addr.specs.Languages.{IsTokenFront};
ghost use Rattle.alto_addr.specs.Tokens.{IsDecimal, IsOctet, IsLength, IsGroup, decimal_test, group_test};

pub(crate) fn is_decimal(text: &[u8], limit: u32) -> bool
    ensures { result ≡ decimal_test limit text.now }
{
    match text {
        [a] => a.is_ascii_digit(),
        [a, b] => a.is_ascii_digit() && *a != b'0' && b.is_ascii_digit(),
        [a, b, c] => {
            a.is_ascii_digit()
                && *a != b'0'
                && b.is_ascii_digit()
                && c.is_ascii_digit()
                && u32::from(*a - b'0') * 100 + u32::from(*b - b'0') * 10 + u32::from(*c - b'0')
                    < limit
        }
        _ => false,
    }
}

fn is_hexadecimal(text: &[u8]) -> bool
    ensures { result ≡ list_all (λ byte. is_digit byte 16) text.now }
{
    text.iter().all(|byte| char::from(*byte).is_digit(16))
}

fn is_group(text: &[u8]) -> bool
    ensures { result ≡ group_test text.now }
{
    !text.is_empty() && text.len() <= 4 && is_hexadecimal(text)
}

/// How many bytes the longest number below the limit at the front has, 0 where none stands there.
fn decimal_front(text: &[u8], limit: u32) -> usize
    requires above { 100 ≤ limit }
    requires within { limit ≤ 1000 }
    ensures { IsTokenFront (IsDecimal limit) text.now result }
{
    for n in 0..text.len() {
        if !is_decimal(&text[..n + 1], limit) {
            return n;
        }
    }
    text.len()
}

/// How many bytes the longest number from 0 to 255 at the front has, 0 where none stands there.
pub(crate) fn octet_front(text: &[u8]) -> usize
    ensures { IsTokenFront IsOctet text.now result }
{
    decimal_front(text, 256)
}

/// How many bytes the longest length of a prefix at the front has, 0 where none stands there.
pub(crate) fn length_front(text: &[u8]) -> usize
    ensures { IsTokenFront IsLength text.now result }
{
    decimal_front(text, 1000)
}

/// The value of up to three digits.
pub(crate) fn value(digits: &[u8]) -> u32
    requires { decimal_test 1000 digits.now ≡ true }
    ensures { result ≡ digits_value 10 digits.now }
{
    match digits {
        [a] => u32::from(*a - b'0'),
        [a, b] => u32::from(*a - b'0') * 10 + u32::from(*b - b'0'),
        [a, b, c] => u32::from(*a - b'0') * 100 + u32::from(*b - b'0') * 10 + u32::from(*c - b'0'),
        _ => 0,
    }
}

/// How many bytes the longest group of hexadecimal digits at the front has, 0 where none stands there.
pub(crate) fn group_front(text: &[u8]) -> usize
    ensures { IsTokenFront IsGroup text.now result }
{
    for n in 0..text.len() {
        if !is_group(&text[..n + 1]) {
            return n;
        }
    }
    text.len()
}
