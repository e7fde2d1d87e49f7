//! Where the head of a request stands among the bytes.
ghost use Rattle.std.specs.Prelude.{◌≡◌, ◌<◌, ◌≤◌, ◌+◌, length, take, drop, IfSome, IfNone};
ghost use Rattle.alto_http.specs.Head.{is_break, breaks_before, ends_in_empty_line, HasNoEnd, IsHeadEnd, line_feeds};

use memchr::memchr;

/// How many CR and LF bytes come first, where the first `passed` are such; only what stands behind
/// those is looked at.
pub(crate) fn breaks_before(bytes: &[u8], passed: usize) -> usize
    requires within { passed ≤ length bytes.now }
    requires breaks { breaks_before (take passed bytes.now) ≡ passed }
    ensures value { result ≡ breaks_before bytes.now }
    ensures within { result ≤ length bytes.now }
{
    passed + leading_breaks(&bytes[passed..])
}

fn leading_breaks(bytes: &[u8]) -> usize
    ensures value { result ≡ breaks_before bytes.now }
    ensures within { result ≤ length bytes.now }
{
    bytes.iter().take_while(|b| is_break(**b)).count()
}

fn is_break(byte: u8) -> bool
    ensures { result ≡ is_break byte }
{
    byte == b'\r' || byte == b'\n'
}

/// How many LF bytes there are.
pub(crate) fn line_feeds(bytes: &[u8]) -> usize
    ensures { result ≡ line_feeds bytes.now }
{
    bytes.iter().filter(|b| **b == b'\n').count()
}

fn ends_in_empty_line(bytes: &[u8]) -> bool
    ensures { result ≡ ends_in_empty_line bytes.now }
{
    bytes.ends_with(b"\n\n") || bytes.ends_with(b"\n\r\n")
}

/// Where the first LF stands behind `from` bytes. No prefix of up to `from` bytes is a head.
fn next_line_feed(bytes: &[u8], from: usize) -> Option<usize>
    requires within { from ≤ length bytes.now }
    requires passed { HasNoEnd from bytes.now }
    ensures found { IfSome result (λ at. (from ≤ at) × (at < length bytes.now) × HasNoEnd at bytes.now) }
    ensures none { IfNone result (HasNoEnd (length bytes.now) bytes.now) }
{
    match memchr(b'\n', &bytes[from..]) {
        Some(passed) => Some(from + passed),
        None => None,
    }
}

/// How many bytes the head has that begins here, where its end is there. No prefix of up to `from`
/// bytes is a head; only what stands behind them is looked at, many bytes at a time.
pub(crate) fn head_end(bytes: &[u8], from: usize) -> Option<usize>
    requires within { from ≤ length bytes.now }
    requires passed { HasNoEnd from bytes.now }
    ensures found { IfSome result (IsHeadEnd bytes.now) }
    ensures none { IfNone result (HasNoEnd (length bytes.now) bytes.now) }
{
    let mut passed = from;
    'lines: while let Some(at) = next_line_feed(bytes, passed) {
        passed = at + 1;
        if ends_in_empty_line(&bytes[..passed]) {
            return Some(passed);
        }
    }
    None
}

/// The `size` bytes behind the first `start`.
pub(crate) fn part(bytes: &[u8], start: usize, size: usize) -> &[u8]
    requires { start + size ≤ length bytes.now }
    ensures { result.now ≡ take size (drop start bytes.now) }
{
    &bytes[start..][..size]
}
