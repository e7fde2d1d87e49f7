ghost use Rattle.std.specs.Prelude.{◌≡◌, false, true, OnErr, OnOk};
ghost use Rattle.std.specs.Io.KnownBytes.{Keeps};

use alto_http::{Failed, Link};
use std::io::{Read, Write};

/// The console: a reader and a writer, with counts of their faults. It tells nothing of its bytes.
///
/// The output may gather what is put out, as a `BufWriter` does. It is flushed before each read, so whoever waits for a
/// reply has it before the input is waited for, and replies to requests that came together go out together. What no
/// read follows is put out by `flush`.
#[derive(Drop)]
pub struct Console<I: Read + Drop, O: Write + Drop> {
    input: I,
    output: O,
    is_broken: bool,
    failed_reads: u64,
    failed_writes: u64,
}

impl<I: Read + Drop, O: Write + Drop> Console<I, O> {
    /// A console without a fault so far.
    pub fn new(input: I, output: O) -> Self
        ensures input { result.input ≡ input }
        ensures output { result.output ≡ output }
        ensures reads { result.failed_reads ≡ 0 }
        ensures writes { result.failed_writes ≡ 0 }
    {
        Console {
            input,
            output,
            is_broken: false,
            failed_reads: 0,
            failed_writes: 0,
        }
    }

    /// Puts out what the output has gathered, and tells whether the output has failed in this or in an earlier flush.
    pub fn flush(&mut self) -> Result<(), Failed>
        ensures bytes { Keeps (O.contents self.old.output) (O.contents self.new.output) }
        ensures broken { OnErr result (self.new.is_broken ≡ true) }
        ensures whole { OnOk result (self.new.is_broken ≡ false) }
        ensures input { self.new.input ≡ self.old.input }
        ensures reads { self.new.failed_reads ≡ self.old.failed_reads }
        ensures writes { self.new.failed_writes ≡ self.old.failed_writes }
    {
        if self.output.flush().is_err() {
            self.is_broken = true;
        }
        if self.is_broken {
            return Err(Failed);
        }
        Ok(())
    }
}

impl<I: Read + Drop, O: Write + Drop> Link for Console<I, O> {
    ghost use Rattle.std.specs.Prelude.{◌≡◌, ◌<◌, ◌≤◌, None, length, take, IfOk, OnErr};
    ghost use Rattle.std.specs.Io.KnownBytes.{Keeps, ReadConsumes, WriteAppends};
    ghost use Rattle.alto_http.specs.Link.{count_after, extended, followed_by, IsAtEnd};

    ghost left = { λ _. None };

    ghost out = { λ _. None };

    ghost failed_reads = { λ console. console.failed_reads };

    ghost failed_writes = { λ console. console.failed_writes };

    /// What the input gives is what is read, where it tells its bytes. The output is flushed first. Where it fails, the
    /// next write is refused.
    fn read(&mut self, into: &mut [u8]) -> Result<usize, Failed>
        ensures bytes { ReadConsumes (I.remaining self.old.input) (I.remaining self.new.input) result into.new }
        ensures output { Keeps (O.contents self.old.output) (O.contents self.new.output) }

        ensures within { IfOk result (λ k. k ≤ length into.new) }
        ensures given { IfOk result (λ k. None ≡ followed_by (take k into.new) None) }
        ensures at_end { IfOk result (λ k. k ≡ 0 → 0 < length into.new → IsAtEnd None) }
        ensures counted { self.new.failed_reads ≡ count_after result self.old.failed_reads }
        ensures failed_writes { self.new.failed_writes ≡ self.old.failed_writes }
    {
        let _flushed = self.flush();
        match self.input.read(into) {
            Ok(count) => Ok(count),
            Err(_) => {
                self.failed_reads = self.failed_reads.saturating_add(1);
                Err(Failed)
            }
        }
    }

    /// What is put out is what the output takes, where it tells its bytes. A write that takes nothing of a nonempty
    /// piece is a fault, and so is one behind a flush that failed.
    fn write(&mut self, piece: &[u8]) -> Result<usize, Failed>
        ensures bytes { WriteAppends (O.contents self.old.output) (O.contents self.new.output) result piece.now }
        ensures input { self.new.input ≡ self.old.input }

        ensures within { IfOk result (λ k. k ≤ length piece.now) }
        ensures some { IfOk result (λ k. 0 < length piece.now → 0 < k) }
        ensures put { IfOk result (λ k. None ≡ extended None (take k piece.now)) }
        ensures counted { self.new.failed_writes ≡ count_after result self.old.failed_writes }
        ensures failed_reads { self.new.failed_reads ≡ self.old.failed_reads }
    {
        if self.is_broken {
            self.failed_writes = self.failed_writes.saturating_add(1);
            return Err(Failed);
        }
        match self.output.write(piece) {
            Ok(count) if count > 0 || piece.is_empty() => Ok(count),
            _ => {
                self.failed_writes = self.failed_writes.saturating_add(1);
                Err(Failed)
            }
        }
    }
}
