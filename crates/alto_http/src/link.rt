ghost use Rattle.std.specs.Prelude.{◌≡◌, ◌<◌, ◌≤◌, ◌+◌, ℕ, List, Option, length, take, slice_range, IfOk, OnErr};
ghost use Rattle.alto_http.specs.Link.{count_after, followed_by, extended, IsAtEnd};

/// An input or an output that failed. The link has counted it.
#[derive(Clone, Copy, Debug, PartialEq, Eq)]
pub struct Failed;

/// A connection, as bytes that come in and bytes that go out. Each direction may fail, and counts
/// how often it has. Of a link in memory the bytes themselves are known; of a socket they are not.
pub trait Link {
    /// The bytes that reads have still to give, where they are known.
    ghost left: { Self → Option (List ℕ) };

    /// The bytes that writes have put out, where they are known.
    ghost out: { Self → Option (List ℕ) };

    /// How many reads have failed.
    ghost failed_reads: { Self → ℕ };

    /// How many writes have failed.
    ghost failed_writes: { Self → ℕ };

    /// Puts bytes at the front of `into`, and answers how many: 0 only at the end of the input or
    /// for an empty `into`. The rest of `into` may be anything.
    fn read(&mut self, into: &mut [u8]) -> Result<usize, Failed>
        ensures within { IfOk result (λ k. k ≤ length into.new) }
        ensures given { IfOk result (λ k. left self.old ≡ followed_by (take k into.new) (left self.new)) }
        ensures at_end { IfOk result (λ k. k ≡ 0 → 0 < length into.new → IsAtEnd (left self.new)) }
        ensures refused { OnErr result (left self.new ≡ left self.old) }

        ensures counted { failed_reads self.new ≡ count_after result (failed_reads self.old) }
        ensures out { out self.new ≡ out self.old }
        ensures failed_writes { failed_writes self.new ≡ failed_writes self.old };

    /// Puts out the first bytes of the piece, and answers how many: at least 1 of a nonempty one.
    fn write(&mut self, piece: &[u8]) -> Result<usize, Failed>
        ensures within { IfOk result (λ k. k ≤ length piece.now) }
        ensures some { IfOk result (λ k. 0 < length piece.now → 0 < k) }
        ensures put { IfOk result (λ k. out self.new ≡ extended (out self.old) (take k piece.now)) }
        ensures refused { OnErr result (out self.new ≡ out self.old) }

        ensures counted { failed_writes self.new ≡ count_after result (failed_writes self.old) }
        ensures left { left self.new ≡ left self.old }
        ensures failed_reads { failed_reads self.new ≡ failed_reads self.old };
}

/// Reads once behind the first `end` bytes, which stay.
pub(crate) fn read_behind<L: Link>(
    link: &mut L,
    buffer: &mut [u8],
    end: usize,
) -> Result<usize, Failed>
    requires { end < length buffer.old }
    ensures within { IfOk result (λ k. end + k ≤ length buffer.new) }
    ensures front { take end buffer.new ≡ take end buffer.old }
    ensures given { IfOk result (λ k. L.left link.old
        ≡ followed_by (slice_range buffer.new end (end + k)) (L.left link.new)) }
    ensures at_end { IfOk result (λ k. k ≡ 0 → IsAtEnd (L.left link.new)) }
    ensures refused { OnErr result (L.left link.new ≡ L.left link.old) }

    ensures counted { L.failed_reads link.new ≡ count_after result (L.failed_reads link.old) }
    ensures out { L.out link.new ≡ L.out link.old }
    ensures failed_writes { L.failed_writes link.new ≡ L.failed_writes link.old }
{
    link.read(&mut buffer[end..])
}
