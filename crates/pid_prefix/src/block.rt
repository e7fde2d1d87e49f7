ghost use Rattle.std.specs.Prelude.{◌≡◌, ◌+◌, ◌-◌, ◌*◌, ◌%◌, ◌^◌, ◌<◌, ◌≤◌};
ghost use Rattle.pid_prefix.specs.Bits.{IsBlock, end_of};

/// The numbers whose first bits, of 128, are those of `first`, as many as `len` says, and the place of the row that
/// they come from. Blocks are ordered by their firsts, and then by length: each stands behind those that it is inside.
#[derive(Clone, Copy, PartialEq, Eq, PartialOrd, Ord)]
pub(crate) struct Block {
    pub(crate) first: u128,
    pub(crate) len: u8,
    pub(crate) row: usize,
    ghost is_block: { IsBlock first len },
}

impl Block {
    /// The block that begins with a number, where the bits past its length are zero.
    pub(crate) fn new(first: u128, len: u8, row: usize) -> Block
        requires len { len ≤ 128 }
        requires aligned { first % 2 ^ (128 - len) ≡ 0 }
        ensures first { result.first ≡ first }
        ensures len { result.len ≡ len }
        ensures row { result.row ≡ row }
    {
        Block { first, len, row }
    }

    /// The last of the numbers.
    pub(crate) fn last(&self) -> u128
        ensures { result + 1 ≡ end_of self.now.first self.now.len }
    {
        self.first + past_bits(self.len)
    }
}

/// The greatest number of the bits past the first ones.
fn past_bits(len: u8) -> u128
    requires { len ≤ 128 }
    ensures { result + 1 ≡ 2 ^ (128 - len) }
{
    if len == 0 {
        u128::MAX
    } else {
        (1 << (128 - u32::from(len))) - 1
    }
}
