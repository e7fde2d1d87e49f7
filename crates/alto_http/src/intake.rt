ghost use Rattle.std.specs.Prelude.{◌≡◌, ◌<◌, ◌≤◌, ◌+◌, ◌-◌, ℕ, List, [], length, min, take, drop, slice_range, IfOk};
ghost use Rattle.std.specs.Prelude.{OnErr};
ghost use Rattle.alto_http.specs.Link.{count_after, IsAtEnd};

use crate::link::{Failed, Link, read_behind};
use std::alloc::{AllocError, Global};
use std::marker::Model;

/// The most bytes that a head has up to its end, with the line breaks before it.
pub(crate) const HEAD_BYTES: usize = 16384;

/// The bytes that were read ahead of the requests taken so far. It has room for one head.
#[derive(Drop)]
pub struct Intake {
    buffer: Vec<u8>,
    start: usize,
    end: usize,
}

impl Model for Intake {
    ghost use Rattle.std.specs.Prelude.{◌≡◌, ◌≤◌, ℕ, List, slice_range, vec_len};

    ghost Value = { List ℕ };

    ghost view = { λ i. slice_range i.buffer.items i.start i.end };

    ghost invariant = { λ i. (vec_len i.buffer ≡ 16384) × (i.start ≤ i.end) × (i.end ≤ 16384) };
}

impl Intake {
    ghost use Rattle.alto_http.specs.Intake.{ReadsAhead};

    /// An intake with nothing in it. Takes 16 KiB.
    pub fn new(alloc: Global) -> Result<Intake, AllocError>
        ensures { IfOk result (λ intake. intake ≡ []) }
    {
        Ok(Intake {
            buffer: vec![in alloc; 0; HEAD_BYTES]?,
            start: 0,
            end: 0,
        })
    }

    /// The bytes that are ahead.
    pub(crate) fn bytes(&self) -> &[u8]
        ensures bytes { result.now ≡ self.now }
        ensures room { length self.now ≤ HEAD_BYTES }
    {
        &self.buffer[self.start..self.end]
    }

    /// Takes bytes from the front.
    pub(crate) fn consume(&mut self, count: usize)
        requires { count ≤ length self.old }
        ensures { self.new ≡ drop count self.old }
    {
        self.start += count;
    }

    /// Moves bytes from the front to `into`, as many as there are and fit, and answers how many.
    pub(crate) fn hand_over(&mut self, into: &mut [u8]) -> usize
        ensures count { result ≡ min (length self.old) (length into.new) }
        ensures handed { take result into.new ≡ take result self.old }
        ensures rest { self.new ≡ drop result self.old }
    {
        let count = self.bytes().len().min(into.len());
        copy_front(into, self.bytes(), count);
        self.consume(count);
        count
    }

    /// Reads once, and answers how many bytes came: 0 only at the end of the input.
    pub(crate) fn fill<L: Link>(&mut self, link: &mut L) -> Result<usize, Failed>
        requires { length self.old < HEAD_BYTES }
        ensures ahead { ReadsAhead self.old (L.left link.old) self.new (L.left link.new) }
        ensures count { IfOk result (λ k. length self.new ≡ length self.old + k) }
        ensures at_end { IfOk result (λ k. k ≡ 0 → IsAtEnd (L.left link.new)) }
        ensures refused { OnErr result (self.new ≡ self.old) }

        ensures counted { L.failed_reads link.new ≡ count_after result (L.failed_reads link.old) }
        ensures out { L.out link.new ≡ L.out link.old }
        ensures failed_writes { L.failed_writes link.new ≡ L.failed_writes link.old }
    {
        move_to_front(&mut self.buffer, self.start, self.end);
        self.end -= self.start;
        self.start = 0;
        let count = read_behind(link, &mut self.buffer, self.end)?;
        self.end += count;
        Ok(count)
    }
}

/// Moves the bytes `start..end` to the front.
fn move_to_front(buffer: &mut [u8], start: usize, end: usize)
    requires ordered { start ≤ end }
    requires within { end ≤ length buffer.old }
    ensures { take (end - start) buffer.new ≡ slice_range buffer.old start end }
{
    buffer.copy_within(start..end, 0);
}

/// Copies the first `count` bytes.
pub(crate) fn copy_front(into: &mut [u8], bytes: &[u8], count: usize)
    requires room { count ≤ length into.old }
    requires there { count ≤ length bytes.now }
    ensures { take count into.new ≡ take count bytes.now }
{
    into[..count].copy_from_slice(&bytes[..count]);
}
