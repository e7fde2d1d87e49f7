ghost use Rattle.std.specs.Prelude.{◌≡◌, ◌<◌, ◌≤◌, ◌++◌, min, [], length, take, is_err, IfOk, OnErr};
ghost use Rattle.alto_http.specs.Link.{count_after};
ghost use Rattle.alto_http.specs.MemLink.{piece_size};

use crate::intake::copy_front;
use crate::link::{Failed, Link};
use std::alloc::{AllocError, Global};
use std::marker::Model;

/// A link in memory, for tests. Its reads give its input in pieces of chosen sizes, its writes fill
/// room that is reserved when it is made, and chosen calls fail.
#[derive(Drop)]
pub struct MemLink {
    input: Vec<u8>,
    given: usize,
    output: Vec<u8>,
    sizes: Vec<usize>,
    room: usize,
    failing_reads: Vec<u64>,
    failing_writes: Vec<u64>,
    reads: u64,
    writes: u64,
    failed_reads: u64,
    failed_writes: u64,
}

impl Model for MemLink {
    ghost use Rattle.std.specs.Prelude.{◌≤◌, drop, length, vec_len, vec_capacity};
    ghost use Rattle.alto_http.specs.MemLink.{MemLinkData};

    ghost Value = { MemLinkData };

    ghost view = { λ m. record {
      left = drop m.given m.input.items;
      out = m.output.items;
      sizes = m.sizes.items;
      room = m.room;
      failing_reads = m.failing_reads.items;
      failing_writes = m.failing_writes.items;
      reads = m.reads;
      writes = m.writes;
      failed_reads = m.failed_reads;
      failed_writes = m.failed_writes;
    } };

    ghost invariant = { λ m. (m.given ≤ vec_len m.input) × (vec_len m.output ≤ m.room)
        × (m.room ≤ vec_capacity m.output) };
}

impl MemLink {
    /// A link that gives this input, all that fits in each read, and takes `room` bytes of output.
    pub fn new(alloc: Global, input: &[u8], room: usize) -> Result<MemLink, AllocError>
        ensures { IfOk result (λ link. link ≡ record {
          left = input.now;
          out = [];
          sizes = [];
          room = room;
          failing_reads = [];
          failing_writes = [];
          reads = 0;
          writes = 0;
          failed_reads = 0;
          failed_writes = 0;
        }) }
    {
        Ok(MemLink {
            input: input.to_vec(alloc)?,
            given: 0,
            output: Vec::with_capacity(alloc, room)?,
            sizes: Vec::new(alloc),
            room,
            failing_reads: Vec::new(alloc),
            failing_writes: Vec::new(alloc),
            reads: 0,
            writes: 0,
            failed_reads: 0,
            failed_writes: 0,
        })
    }

    /// The same, where each read gives at most the next of `sizes`, from the first again behind the
    /// last; a 0 counts as 1.
    pub fn with_sizes(mut self, sizes: Vec<usize>) -> MemLink
        ensures { result ≡ record self { sizes = sizes.items } }
    {
        self.sizes = sizes;
        self
    }

    /// The same, where the reads of these numbers fail, counted from 0.
    pub fn with_failing_reads(mut self, calls: Vec<u64>) -> MemLink
        ensures { result ≡ record self { failing_reads = calls.items } }
    {
        self.failing_reads = calls;
        self
    }

    /// The same, where the writes of these numbers fail, counted from 0.
    pub fn with_failing_writes(mut self, calls: Vec<u64>) -> MemLink
        ensures { result ≡ record self { failing_writes = calls.items } }
    {
        self.failing_writes = calls;
        self
    }

    /// The bytes that were put out.
    pub fn output(&self) -> &[u8]
        ensures { result.now ≡ self.now.out }
    {
        &self.output
    }

    /// How many reads have failed.
    pub fn failed_reads(&self) -> u64
        ensures { result ≡ self.now.failed_reads }
    {
        self.failed_reads
    }

    /// How many writes have failed.
    pub fn failed_writes(&self) -> u64
        ensures { result ≡ self.now.failed_writes }
    {
        self.failed_writes
    }
}

impl Link for MemLink {
    ghost use Rattle.std.specs.Prelude.{Some};
    ghost use Rattle.alto_http.specs.Link.{one_more};
    ghost use Rattle.alto_http.specs.MemLink.{read_fails, write_fails, read_count, write_count};

    ghost left = { λ m. Some m.left };

    ghost out = { λ m. Some m.out };

    ghost failed_reads = { λ m. m.failed_reads };

    ghost failed_writes = { λ m. m.failed_writes };

    fn read(&mut self, into: &mut [u8]) -> Result<usize, Failed>
        ensures fails { is_err result ≡ read_fails self.old }
        ensures count { IfOk result (λ k. k ≡ read_count self.old (length into.new)) }
        ensures called { self.new ≡ record self.old {
          left = self.new.left;
          reads = one_more self.old.reads;
          failed_reads = count_after result self.old.failed_reads;
        } }

        ensures within { IfOk result (λ k. k ≤ length into.new) }
        ensures given { IfOk result (λ k. self.old.left ≡ take k into.new ++ self.new.left) }
        ensures at_end { IfOk result (λ k. k ≡ 0 → 0 < length into.new → self.new.left ≡ []) }
        ensures refused { OnErr result (self.new.left ≡ self.old.left) }

        ensures counted { self.new.failed_reads ≡ count_after result self.old.failed_reads }
        ensures out { self.new.out ≡ self.old.out }
        ensures failed_writes { self.new.failed_writes ≡ self.old.failed_writes }
    {
        let call = self.reads;
        self.reads = call.saturating_add(1);
        if self.failing_reads.contains(&call) {
            self.failed_reads = self.failed_reads.saturating_add(1);
            return Err(Failed);
        }
        let most = piece_size(&self.sizes, call);
        let count = give(into, &self.input[self.given..], most);
        self.given += count;
        Ok(count)
    }

    fn write(&mut self, piece: &[u8]) -> Result<usize, Failed>
        ensures fails { is_err result ≡ write_fails self.old piece.now }
        ensures count { IfOk result (λ k. k ≡ write_count self.old piece.now) }
        ensures called { self.new ≡ record self.old {
          out = self.new.out;
          writes = one_more self.old.writes;
          failed_writes = count_after result self.old.failed_writes;
        } }

        ensures within { IfOk result (λ k. k ≤ length piece.now) }
        ensures some { IfOk result (λ k. 0 < length piece.now → 0 < k) }
        ensures put { IfOk result (λ k. self.new.out ≡ self.old.out ++ take k piece.now) }
        ensures refused { OnErr result (self.new.out ≡ self.old.out) }

        ensures counted { self.new.failed_writes ≡ count_after result self.old.failed_writes }
        ensures left { self.new.left ≡ self.old.left }
        ensures failed_reads { self.new.failed_reads ≡ self.old.failed_reads }
    {
        let call = self.writes;
        self.writes = call.saturating_add(1);
        let room = self.room - self.output.len();
        if !piece.is_empty() && (self.failing_writes.contains(&call) || room == 0) {
            self.failed_writes = self.failed_writes.saturating_add(1);
            return Err(Failed);
        }
        let count = piece.len().min(room);
        self.output.extend_from_slice(&piece[..count]).unwrap();
        Ok(count)
    }
}

/// How many bytes the read of this number gives at most.
fn piece_size(sizes: &[usize], call: u64) -> usize
    ensures size { result ≡ piece_size sizes.now call }
    ensures some { 0 < result }
{
    if sizes.is_empty() {
        return usize::MAX;
    }
    sizes[(call % sizes.len() as u64) as usize].max(1)
}

/// Copies as many bytes as there are and fit, and at most `most`.
fn give(into: &mut [u8], bytes: &[u8], most: usize) -> usize
    requires { 0 < most }
    ensures count { result ≡ min most (min (length into.new) (length bytes.now)) }
    ensures given { take result into.new ≡ take result bytes.now }
{
    let count = most.min(into.len().min(bytes.len()));
    copy_front(into, bytes, count);
    count
}
