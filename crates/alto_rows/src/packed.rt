ghost use Rattle.std.specs.Prelude.{◌≡◌};
ghost use Rattle.std.proofs.Common.{rules};
ghost use Rattle.std.specs.Cmp.{partial_order_from_agreeing_total};
ghost use Rattle.std.specs.Cmp.Rules.{comparing};
ghost use Rattle.std.specs.Ordering.{as_partial_cmp};
ghost use Rattle.alto_addr.specs.Bits.{IsPrefix};
ghost use Rattle.alto_addr.specs.contracts.prefix.PrefixOrd.TheImpl as prefix_order;
ghost use Rattle.alto_addr.specs.contracts.prefix.PrefixPartialEq.TheImpl as prefix_eq;
ghost use Rattle.alto_rows.specs.Packed.{addr_of};
ghost use Rattle.alto_rows.specs.PrefixOrder.{prefix_order_total};

use alto_addr::{Addr, Prefix};
use std::alloc::AllocError;
use std::cmp::Ordering;
use std::marker::Model;

/// A prefix as keys keep it, in 24 bytes where one of `alto_addr` has 48. A contract sees the prefix, and packed
/// prefixes are ordered as these are.
#[derive(Debug, Drop)]
pub struct PackedPrefix {
    high: u64,
    low: u64,
    len: u8,
    is_v6: bool,
    ghost is_prefix: { IsPrefix (addr_of is_v6 high low) len },
}

impl Model for PackedPrefix {
    ghost use Rattle.alto_addr.specs.declared.prefix.Prefix.{Prefix};
    ghost use Rattle.alto_rows.specs.Packed.{addr_of};

    ghost Value = { Prefix };

    ghost view = { λ packed. record {
      addr = addr_of packed.is_v6 packed.high packed.low;
      len = packed.len;
      is_prefix = packed.is_prefix;
    } };
}

impl PackedPrefix {
    /// Packs a prefix.
    pub fn new(prefix: &Prefix) -> PackedPrefix
        ensures { result ≡ prefix.now }
    {
        let len = prefix.len;
        match prefix.addr {
            Addr::V4(number) => PackedPrefix {
                high: 0,
                low: u64::from(number),
                len,
                is_v6: false,
            },
            Addr::V6(number) => PackedPrefix {
                high: (number >> 64) as u64,
                low: (number % (1 << 64)) as u64,
                len,
                is_v6: true,
            },
        }
    }

    /// The prefix.
    pub fn prefix(&self) -> Prefix
        ensures { result ≡ self.now }
    {
        let len = self.len;
        let addr = self.addr();
        Prefix { addr, len }
    }

    fn addr(&self) -> Addr
        ensures { result ≡ self.now.addr }
    {
        if self.is_v6 {
            Addr::V6(u128::from(self.high) * (1 << 64) + u128::from(self.low))
        } else {
            Addr::V4((self.low % (1 << 32)) as u32)
        }
    }
}

impl Clone for PackedPrefix {
    ghost is_clone = { λ prefix copy. copy ≡ prefix };

    fn clone(&self) -> Result<PackedPrefix, AllocError> {
        Ok(PackedPrefix::new(&self.prefix()))
    }
}

impl PartialEq for PackedPrefix {
    ghost eq = { prefix_eq.eq-value.it };

    ghost laws = { Prim.search (comparing, rules) };

    fn eq(&self, other: &PackedPrefix) -> bool {
        self.prefix() == other.prefix()
    }
}

impl Eq for PackedPrefix {
    ghost laws = { Prim.search (comparing, rules) };
}

impl PartialOrd for PackedPrefix {
    ghost partial_cmp = { as_partial_cmp prefix_order.cmp-value.it };

    ghost laws = { partial_order_from_agreeing_total prefix_order.cmp-value.it prefix_order_total
        (Prim.search (comparing, rules)) (Prim.search (comparing, rules)) };

    fn partial_cmp(&self, other: &PackedPrefix) -> Option<Ordering> {
        Some(self.cmp(other))
    }
}

impl Ord for PackedPrefix {
    ghost cmp = { prefix_order.cmp-value.it };

    ghost total = { prefix_order_total };

    ghost matches_partial_cmp = { Prim.search (comparing, rules) };

    ghost matches_eq = { Prim.search (comparing, rules) };

    fn cmp(&self, other: &PackedPrefix) -> Ordering {
        self.prefix().cmp(&other.prefix())
    }
}
