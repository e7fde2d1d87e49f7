ghost use Rattle.std.specs.Prelude.{◌≡◌, ◌+◌, ◌-◌, ◌*◌, ◌^◌, ◌<◌, ◌≤◌, ℕ, IfOk, length, option_copied};
ghost use Rattle.std.specs.List.Sorted.{IsNonDecreasingBy};
ghost use Rattle.alto_addr.specs.Bits.{HasBits};
ghost use Rattle.pid_prefix.specs.Longest.{AreDistinct, longest_prefix};
ghost use Rattle.pid_prefix.specs.Table as spec;

use crate::blocks::ranges_of;
use crate::family::Family;
use crate::ranges::Ranges;
use crate::sought::Sought;
use crate::steps::Steps;
use alto_addr::{Addr, Prefix};
use alto_names::PidName;
use std::alloc::{AllocError, Global};
use std::marker::{Brand, Model};
use std::sync::ledger::{Blank, Ledger};

/// Distinct prefixes with their PIDs, built for look-ups. A contract sees the list that it was built from.
///
/// It keeps the list, 64 bytes for each prefix, and 2 ranges for a prefix at most: of 14 bytes each in IPv4, of which a
/// search reads 4, and of 26 in IPv6, of which it reads 16. Of the other 10, 9 are the range's PID or none, so that a
/// look-up reads nothing between its search and the PID, and 1 is the index that says where the search begins. Names
/// are shared.
#[derive(Drop)]
pub struct RangeTable {
    rows: Vec<(Prefix, PidName)>,
    v4: Ranges<u32>,
    v6: Ranges<u128>,
}

const _: () = prove!(size_of::<(Prefix, PidName)>() == 64);

impl Model for RangeTable {
    ghost use Rattle.std.specs.Prelude.{List};
    ghost use Rattle.pid_prefix.specs.Longest.{Row};
    ghost use Rattle.pid_prefix.specs.Table.{AreNarrowed};

    ghost Value = { List Row };

    ghost view = { λ table. table.rows.items };

    ghost invariant = { λ table. AreNarrowed table.rows.items table.v4 table.v6 };
}

impl RangeTable {
    /// The table of distinct prefixes, in any order. It costs p log p for p prefixes: for each family one sort, one
    /// pass, and one search for every eighth range.
    pub fn build(alloc: Global, prefixes: &[(Prefix, PidName)]) -> Result<RangeTable, AllocError>
        requires { AreDistinct prefixes.now }
        ensures { IfOk result (λ table. table ≡ prefixes.now) }
    {
        let v4 = Ranges::narrowed(alloc, &ranges_of(alloc, Family::V4, prefixes)?, prefixes)?;
        let v6 = Ranges::narrowed(alloc, &ranges_of(alloc, Family::V6, prefixes)?, prefixes)?;
        let rows = copied(alloc, prefixes)?;
        Ok(RangeTable { rows, v4, v6 })
    }

    /// The PID of the longest prefix that holds the address; `None` where none holds it. A step is one comparison of
    /// the search: at most the binary logarithm of 4p + 4 for p prefixes. It takes no memory.
    pub fn find<L: Ledger>(&self, addr: &Addr, steps: &mut Steps<L>) -> Option<&PidName>
        ensures pid { option_copied result ≡ longest_prefix self.now addr.now }
        ensures counted { steps.old ≤ steps.new }
        ensures cost { 2 ^ (steps.new - steps.old) ≤ 4 * length self.now + 4 }
    {
        pid_in(&self.v4, &self.v6, addr, steps)
    }

    /// The same as `find`, for a caller that counts no steps.
    pub fn pid_of(&self, addr: &Addr) -> Option<&PidName>
        ensures { option_copied result ≡ longest_prefix self.now addr.now }
    {
        self.find_from::<Brand>(addr, Blank::new(1))
    }

    /// The same, with the steps counted in a new ledger.
    fn find_from<L: Ledger>(&self, addr: &Addr, blank: Blank) -> Option<&PidName>
        requires name { blank.name ≡ L.name }
        requires parts { blank.parts ≡ L.parts }
        requires some { 0 < blank.parts }
        ensures { option_copied result ≡ longest_prefix self.now addr.now }
    {
        let mut steps = Steps::<L>::new(blank);
        self.find(addr, &mut steps)
    }
}

/// The PID that the ranges of the address's family give it.
fn pid_in<'a, L: Ledger>(
    v4: &'a Ranges<u32>,
    v6: &'a Ranges<u128>,
    addr: &Addr,
    steps: &mut Steps<L>,
) -> Option<&'a PidName>
    requires v4 { IsNonDecreasingBy (λ range. range.0) v4.now }
    requires v6 { IsNonDecreasingBy (λ range. range.0) v6.now }
    ensures pid { option_copied result ≡ spec.pid_in v4.now v6.now addr.now }
    ensures fits { HasBits addr.now }
    ensures counted { steps.old ≤ steps.new }
    ensures cost { (most : ℕ) → length v4.now ≤ most → length v6.now ≤ most
        → 2 ^ (steps.new - steps.old) ≤ 2 * most + 1 }
{
    match *addr {
        Addr::V4(number) => v4.pid_at(&Sought::new(number), steps),
        Addr::V6(number) => v6.pid_at(&Sought::new(number), steps),
    }
}

/// The rows once more, with their names shared.
fn copied(alloc: Global, rows: &[(Prefix, PidName)]) -> Result<Vec<(Prefix, PidName)>, AllocError>
    ensures { IfOk result (λ copy. copy.items ≡ rows.now) }
{
    let mut copy = Vec::new(alloc);
    for row in rows {
        copy.push((row.0, row.1.clone()?))?;
    }
    Ok(copy)
}
