ghost use Rattle.std.specs.Prelude.{◌≡◌, ◌<◌, ◌^◌, ℕ, List};
ghost use Rattle.alto_addr.specs.contracts.addr.AddrOrd.TheImpl as addr_order;
ghost use Rattle.alto_addr.specs.contracts.prefix.PrefixOrd.TheImpl as prefix_order;
ghost use Rattle.alto_addr.specs.declared.addr.Addr.{Addr};
ghost use Rattle.alto_addr.specs.declared.prefix.Prefix.{Prefix};
ghost use Rattle.alto_addr.specs.Bits.{HasBits, HasLength, Holds, IsInside, IsPrefix};
ghost use Rattle.alto_addr.specs.Order.{addr_cmp, prefix_cmp};
ghost use Rattle.alto_addr.specs.Text.{IsAddrText, IsPrefixText, IsCompressed, addr_text, groups_of, prefix_text};

use crate::addr::Addr;

/// A text writes one address at most.
pub fn text_writes_one_address()
    ensures { (text : List ℕ) (one other : Addr) → IsAddrText text one → IsAddrText text other → one ≡ other }
{}

/// A text writes one prefix at most.
pub fn text_writes_one_prefix()
    ensures { (text : List ℕ) (one other : Addr) (len size : ℕ)
        → IsPrefixText text one len → IsPrefixText text other size
        → (one ≡ other) × (len ≡ size) }
{}

/// What is written of an address reads as that address. So what is written of it is the same whichever of its texts was
/// read.
pub fn address_reads_as_written()
    ensures { (addr : Addr) → HasBits addr → IsAddrText (addr_text addr) addr }
{}

/// What is written of a prefix reads as that prefix.
pub fn prefix_reads_as_written()
    ensures { (addr : Addr) (len : ℕ) → HasBits addr → IsPrefix addr len
        → IsPrefixText (prefix_text addr len) addr len }
{}

/// What is written of an IPv6 address has its longest run of two or more zero groups as `::`, the first on a tie.
pub fn longest_run_is_elided()
    ensures { (number : ℕ) → IsCompressed (addr_text (Addr.V6 number)) (groups_of number) }
{}

/// Addresses are ordered by family, IPv4 first, and then by number; prefixes by address, and then by length.
pub fn order_is_by_family()
    ensures addresses { (a b : Addr) → addr_order.cmp-value.it a b ≡ addr_cmp a b }
    ensures prefixes { (a b : Prefix) → prefix_order.cmp-value.it a b ≡ prefix_cmp a b }
{}

/// The addresses of a prefix that is inside another are the other's.
pub fn inner_addresses_are_outer()
    ensures { (inner outer addr : Addr) (inner_len outer_len : ℕ)
        → HasLength inner inner_len → IsInside inner inner_len outer outer_len
        → Holds inner inner_len addr → Holds outer outer_len addr }
{}
