ghost use Rattle.std.specs.Prelude.{◌≡◌, ◌^◌, ◌<◌, ◌≤◌, ◌↔◌, ℕ, IsTrue, IfNone, IfSome};
ghost use Rattle.pid_prefix.specs.Index.{leading};

/// A number of an address, in as few bytes as the addresses of its family take.
pub(crate) trait Number: Copy + Drop {
    ghost value: { Self → ℕ };

    ghost limit: { ℕ };

    /// How many bits there are.
    const BITS: u32;

    /// The number in these bytes, where it fits them.
    fn narrowed(wide: u128) -> Option<Self>
        ensures some { IfSome result (λ number. (value number ≡ wide) × (wide < limit)) }
        ensures none { IfNone result (limit ≤ wide) };

    /// Whether the number is the other or less.
    fn is_at_or_before(&self, other: &Self) -> bool
        ensures { IsTrue result ↔ (value self.now ≤ value other.now) };

    /// The number without so many of its last bits, where that fits a `usize`; else the greatest `usize`.
    fn leading(&self, shift: u32) -> usize
        ensures { result ≡ leading shift (value self.now) };
}

impl Number for u32 {
    ghost value = { λ number. number };

    ghost limit = { 2 ^ 32 };

    const BITS: u32 = 32;

    fn narrowed(wide: u128) -> Option<u32> {
        u32::try_from(wide).ok()
    }

    fn is_at_or_before(&self, other: &u32) -> bool {
        *self <= *other
    }

    fn leading(&self, shift: u32) -> usize {
        match self.checked_shr(shift) {
            Some(leading) => leading as usize,
            None => 0,
        }
    }
}

impl Number for u128 {
    ghost value = { λ number. number };

    ghost limit = { 2 ^ 128 };

    const BITS: u32 = 128;

    fn narrowed(wide: u128) -> Option<u128> {
        Some(wide)
    }

    fn is_at_or_before(&self, other: &u128) -> bool {
        *self <= *other
    }

    fn leading(&self, shift: u32) -> usize {
        match self.checked_shr(shift) {
            Some(leading) => usize::try_from(leading).unwrap_or(usize::MAX),
            None => 0,
        }
    }
}
