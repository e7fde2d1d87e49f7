ghost use Rattle.std.specs.Prelude.{◌≡◌, ◌↔◌, ◌≤◌, IsTrue, IfOk, string_bytes};
ghost use Rattle.alto_addr.specs.Text.{prefix_text};
ghost use Rattle.alto_addr.specs.Bits.{IsPrefix, Holds, IsInside};

use crate::addr::{Addr, print_addr};
use crate::bits::first;
use std::alloc::{AllocError, Global};

/// The addresses whose first `len` bits are those of `addr`. The bits past the length are zero.
/// Prefixes are ordered by family, then by address, then by length.
#[derive(Clone, Copy, Debug, PartialEq, Eq, PartialOrd, Ord, Hash)]
pub struct Prefix {
    /// The first address.
    pub addr: Addr,
    /// How many bits are fixed: at most 32 or 128.
    pub len: u8,
    ghost is_prefix: { IsPrefix addr len },
}

/// The prefix holds the address: the families are the same, and the first bits, as many as the length says, agree.
pub fn holds(prefix: &Prefix, addr: &Addr) -> bool
    ensures { IsTrue result ↔ Holds prefix.now.addr prefix.now.len addr.now }
{
    let len = u32::from(prefix.len);
    match (prefix.addr, *addr) {
        (Addr::V4(fixed), Addr::V4(number)) => {
            first(32, len, u128::from(fixed)) == first(32, len, u128::from(number))
        }
        (Addr::V6(fixed), Addr::V6(number)) => first(128, len, fixed) == first(128, len, number),
        _ => false,
    }
}

/// Each address of the inner prefix is one of the outer: the outer isn't longer, and holds the inner's address.
pub fn inside(inner: &Prefix, outer: &Prefix) -> bool
    ensures { IsTrue result ↔ IsInside inner.now.addr inner.now.len outer.now.addr outer.now.len }
{
    outer.len <= inner.len && holds(outer, &inner.addr)
}

/// Writes a prefix: its address in its one form, `/` and its length.
pub fn print_prefix(alloc: Global, prefix: &Prefix) -> Result<String, AllocError>
    ensures { IfOk result (λ text. string_bytes text ≡ prefix_text prefix.now.addr prefix.now.len) }
{
    let addr = print_addr(alloc, &prefix.addr)?;
    let len = prefix.len;
    format!(in alloc; "{addr}/{len}")
}
