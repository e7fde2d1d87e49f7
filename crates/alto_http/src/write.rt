ghost use Rattle.std.specs.Prelude.{◌≡◌, ◌<◌, ℕ, length, take, OnOk, OnErr};
ghost use Rattle.alto_http.specs.Link.{count_after, extended};

use crate::link::{Failed, Link};

/// A write to the link failed.
#[derive(Clone, Copy, Debug, PartialEq, Eq)]
pub struct WriteFault;

impl From<Failed> for WriteFault {
    fn from(_: Failed) -> WriteFault {
        WriteFault
    }
}

/// Puts all the bytes out, in as many writes as the link asks for. After an `Err` only a part of
/// them is out, from their beginning on. Takes no memory.
pub fn write_all<L: Link>(link: &mut L, bytes: &[u8]) -> Result<(), WriteFault>
    ensures ok { OnOk result (L.out link.new ≡ extended (L.out link.old) bytes.now) }
    ensures err { OnErr result ((k : ℕ) × (k < length bytes.now)
        × (L.out link.new ≡ extended (L.out link.old) (take k bytes.now))) }

    ensures counted { L.failed_writes link.new ≡ count_after result (L.failed_writes link.old) }
    ensures left { L.left link.new ≡ L.left link.old }
    ensures failed_reads { L.failed_reads link.new ≡ L.failed_reads link.old }
{
    let mut at = 0;
    while at < bytes.len() {
        at += link.write(&bytes[at..])?;
    }
    Ok(())
}
