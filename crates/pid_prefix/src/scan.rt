ghost use Rattle.std.specs.Prelude.{◌≡◌, option_copied};
ghost use Rattle.pid_prefix.specs.Longest.{longest_prefix};
ghost use Rattle.pid_prefix.specs.Longest as spec;

use alto_addr::{Addr, Prefix, holds};
use alto_names::PidName;

/// The PID of the longest prefix that holds the address, the first where two are as long; `None` where none holds it.
/// Each prefix is read.
pub fn find_by_scan<'a>(prefixes: &'a [(Prefix, PidName)], addr: &Addr) -> Option<&'a PidName>
    ensures { option_copied result ≡ longest_prefix prefixes.now addr.now }
{
    let mut longest = None;
    for row in prefixes {
        if holds(&row.0, addr) {
            longest = Some(longer(longest, row));
        }
    }
    let row = longest?;
    Some(&row.1)
}

/// Of a row and one behind it, that with the longer prefix, the first where they are as long.
fn longer<'a>(
    best: Option<&'a (Prefix, PidName)>,
    row: &'a (Prefix, PidName),
) -> &'a (Prefix, PidName)
    ensures { result.now ≡ spec.longer (option_copied best.entry) row.now }
{
    match best {
        Some(best) if best.0.len >= row.0.len => best,
        _ => row,
    }
}
