ghost use Rattle.std.specs.Prelude.{◌≡◌, ◌+◌, ℕ, IfNone, IfSome};
ghost use Rattle.pid_prefix.specs.Families.{address_of, leading_bits};

use crate::block::Block;
use alto_addr::{Addr, Prefix};

/// A version of the Internet Protocol. Its addresses are numbers of 128 bits, of which the first 96 are zero in IPv4.
#[derive(Clone, Copy)]
pub(crate) enum Family {
    V4,
    V6,
}

/// The block of a prefix, where this is of the family, for a row at a place.
pub(crate) fn block_of(family: Family, prefix: &Prefix, row: usize) -> Option<Block>
    ensures some { IfSome result (λ block. (prefix.now.addr ≡ address_of family block.first)
        × (block.len ≡ leading_bits family + prefix.now.len) × (block.row ≡ row)) }
    ensures none { IfNone result ((number : ℕ) → prefix.now.addr ≡ address_of family number → ⊥) }
{
    match (family, prefix.addr) {
        (Family::V4, Addr::V4(number)) => {
            Some(Block::new(u128::from(number), 96 + prefix.len, row))
        }
        (Family::V6, Addr::V6(number)) => Some(Block::new(number, prefix.len, row)),
        _ => None,
    }
}
