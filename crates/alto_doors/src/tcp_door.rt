ghost use Rattle.std.specs.Prelude.{◌≡◌, false};
ghost use Rattle.alto_doors.specs.Addresses.{addr_of};
ghost use Rattle.alto_doors.specs.Door.{just_opened};

use crate::door::Door;
use crate::state::DoorState;
use crate::tcp_link::TcpLink;
use alto_addr::Addr;
use alto_http::Failed;
use alto_serve::Served;
use std::io;
use std::net::{IpAddr, TcpListener};
use std::sync::Arc;

/// A door of a TCP listener, which other doors share. It never ends by itself, and tells nothing of what comes.
#[derive(Drop)]
pub struct TcpDoor {
    listener: Arc<TcpListener>,
    state: DoorState,
    ghost endless: { state.has_ended ≡ false },
}

impl TcpDoor {
    /// A door that was just opened.
    pub(crate) fn new(listener: Arc<TcpListener>) -> TcpDoor
        ensures listener { result.listener ≡ listener }
        ensures state { result.state ≡ just_opened }
    {
        TcpDoor {
            listener,
            state: DoorState::new(),
        }
    }

    /// What has happened to it since it was opened.
    pub fn state(&self) -> DoorState
        ensures { result ≡ self.now.state }
    {
        self.state
    }
}

impl Door for TcpDoor {
    ghost use Rattle.std.specs.Prelude.{None};
    ghost use Rattle.alto_doors.specs.Door.{given_back};

    type Link = TcpLink;

    ghost left = { λ _. None };

    ghost state = { λ door. door.state };

    /// Waits for the next connection. One whose limits the system doesn't set is closed, and counts as a failed accept.
    fn accept(&mut self) -> Result<Option<(TcpLink, Option<Addr>)>, Failed> {
        match next_connection(&self.listener) {
            Ok((link, peer)) => {
                self.state.give();
                Ok(Some((link, Some(peer))))
            }
            Err(_) => Err(self.state.fail()),
        }
    }

    /// The connection ends here, with its link.
    fn give_back(&mut self, _served: Served<TcpLink>)
        ensures listener { self.new.listener ≡ self.old.listener }
        ensures noted { self.new.state ≡ given_back self.old.state }
    {
        self.state.give_back();
    }
}

/// The next connection of a listener, and its client's address. An IPv4 address that comes mapped into IPv6, as it does
/// where a listener takes both, is told as IPv4.
fn next_connection(listener: &TcpListener) -> io::Result<(TcpLink, Addr)> {
    let (stream, peer) = listener.accept()?;
    Ok((TcpLink::new(stream)?, addr_of(peer.ip().to_canonical())))
}

/// An address of the system's.
fn addr_of(ip: IpAddr) -> Addr
    ensures { result ≡ addr_of ip }
{
    match ip {
        IpAddr::V4(ip) => Addr::V4(ip.to_bits()),
        IpAddr::V6(ip) => Addr::V6(ip.to_bits()),
    }
}
