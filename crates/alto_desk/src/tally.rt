ghost use Rattle.std.specs.Prelude.{◌≡◌};
ghost use Rattle.alto_keeper.specs.Stored.{one_more};

use std::marker::PhantomData;

/// A count of the faults of keepers of one type, which only the edits of desks over such a keeper raise.
#[derive(Drop)]
pub struct Tally<K> {
    count: u64,
    of: PhantomData<K>,
}

impl<K> Tally<K> {
    /// No faults.
    pub fn new() -> Tally<K>
        ensures { result.count ≡ 0 }
    {
        Tally {
            count: 0,
            of: PhantomData,
        }
    }

    /// How many faults there were. It stops at the last number of 64 bits.
    pub fn count(&self) -> u64
        ensures { result ≡ self.now.count }
    {
        self.count
    }

    /// One fault more.
    pub(crate) fn raise(&mut self)
        ensures { self.new.count ≡ one_more self.old.count }
    {
        self.count = self.count.saturating_add(1);
    }
}
