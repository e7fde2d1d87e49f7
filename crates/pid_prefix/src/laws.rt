ghost use Rattle.std.specs.Prelude.{◌≡◌, ◌+◌, ◌*◌, ◌^◌, ◌≤◌, ℕ, List, Option};
ghost use Rattle.alto_addr.specs.declared.addr.Addr.{Addr};
ghost use Rattle.pid_prefix.specs.Longest.{Row, AreDistinct, IsLongest, longest_prefix};

use crate::table::RangeTable;

/// What `longest_prefix` gives is the PID of a row whose prefix holds the address, where no prefix that holds it is
/// longer, and nothing exactly where no prefix holds it.
pub fn longest_prefix_is_longest()
    ensures { (rows : List Row) (addr : Addr) → IsLongest rows addr (longest_prefix rows addr) }
{}

/// Where no prefix stands twice, one PID at most is that of the longest prefix.
pub fn one_pid_is_longest()
    ensures { (rows : List Row) (addr : Addr) (one other : Option (List ℕ)) → AreDistinct rows
        → IsLongest rows addr one → IsLongest rows addr other → one ≡ other }
{}

/// The cost that `find` states is at most 16 steps where there are 16,384 prefixes or fewer.
pub fn sixteen_steps_are_enough()
    ensures { (steps prefixes : ℕ) → prefixes ≤ 16384 → 2 ^ steps ≤ 4 * prefixes + 4 → steps ≤ 16 }
{}

/// A table is sent between threads and shared among them.
pub fn a_table_crosses_threads() {
    crosses_threads::<RangeTable>();
}

fn crosses_threads<T: Send + Sync>() {}
