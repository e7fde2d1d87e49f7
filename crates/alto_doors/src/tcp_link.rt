ghost use Rattle.std.specs.Prelude.{◌≡◌, IfOk};

use alto_http::{Failed, Link};
use std::io::{Read, Write};
use std::net::TcpStream;
use std::time::Duration;

/// How many seconds a read or a write of a connection waits for the peer before it fails.
pub const IDLE_SECONDS: u64 = 10;

/// A TCP connection, with counts of its faults. It tells nothing of its bytes.
#[derive(Drop)]
pub struct TcpLink {
    stream: TcpStream,
    failed_reads: u64,
    failed_writes: u64,
}

impl TcpLink {
    /// A connection without a fault so far. Its small writes go out at once, and a read or a write that waits for
    /// longer than `IDLE_SECONDS` fails.
    pub(crate) fn new(stream: TcpStream) -> std::io::Result<TcpLink>
        ensures fresh { IfOk result (λ link. (link.failed_reads ≡ 0) × (link.failed_writes ≡ 0)) }
    {
        let idle = Some(Duration::from_secs(IDLE_SECONDS));
        stream.set_nodelay(true)?;
        stream.set_read_timeout(idle)?;
        stream.set_write_timeout(idle)?;
        Ok(TcpLink {
            stream,
            failed_reads: 0,
            failed_writes: 0,
        })
    }

    /// How many reads have failed.
    pub fn failed_reads(&self) -> u64
        ensures { result ≡ self.now.failed_reads }
    {
        self.failed_reads
    }

    /// How many writes have failed.
    pub fn failed_writes(&self) -> u64
        ensures { result ≡ self.now.failed_writes }
    {
        self.failed_writes
    }
}

impl Link for TcpLink {
    ghost use Rattle.std.specs.Prelude.{None};

    ghost left = { λ _. None };

    ghost out = { λ _. None };

    ghost failed_reads = { λ link. link.failed_reads };

    ghost failed_writes = { λ link. link.failed_writes };

    /// A read of nothing is the end of the input.
    fn read(&mut self, into: &mut [u8]) -> Result<usize, Failed> {
        match self.stream.read(into) {
            Ok(count) => Ok(count),
            Err(_) => {
                self.failed_reads = self.failed_reads.saturating_add(1);
                Err(Failed)
            }
        }
    }

    /// A write that takes nothing of a nonempty piece is a fault.
    fn write(&mut self, piece: &[u8]) -> Result<usize, Failed> {
        match self.stream.write(piece) {
            Ok(count) if count > 0 || piece.is_empty() => Ok(count),
            _ => {
                self.failed_writes = self.failed_writes.saturating_add(1);
                Err(Failed)
            }
        }
    }
}
