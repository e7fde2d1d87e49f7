ghost use Rattle.std.specs.Prelude.{◌≡◌, ◌++◌, ◌∷◌, [], true, None, IfOk, OnOk, IsSome, IsSomeAnd, option_copied};
ghost use Rattle.std.specs.Arc.{arc_value};
ghost use Rattle.alto_doors.specs.Door.{just_opened};
ghost use Rattle.alto_doors.specs.Doors.{at_first, opened};
ghost use Rattle.alto_doors.specs.Keys.{is_key};
ghost use Rattle.alto_doors.specs.Listeners.{listener_at};

use crate::counts::DoorCounts;
use crate::doors::Doors;
use crate::fault::DoorFault;
use crate::key::DoorKey;
use crate::tcp_door::TcpDoor;
use crate::tcp_link::TcpLink;
use alto_answers::Side;
use alto_http::Failed;
use std::alloc::{AllocError, Global};
use std::net::{Net, SocketAddr, TcpListener, TcpStream};
use std::sync::Arc;

/// Doors over TCP: one listener for each side and address, which its doors share.
#[derive(Drop)]
pub struct TcpDoors<'a, R: Net<Listener = TcpListener, Stream = TcpStream>> {
    net: &'a R,
    listeners: Vec<SharedListener>,
    counts: DoorCounts,
}

/// A listener, with the side and the address that it was opened for.
#[derive(Drop)]
struct SharedListener {
    key: DoorKey,
    listener: Arc<TcpListener>,
}

impl SharedListener {
    /// A listener of a side and an address.
    fn new(
        alloc: Global,
        side: Side,
        address: &str,
        listener: TcpListener,
    ) -> Result<SharedListener, AllocError>
        ensures { IfOk result (λ shared. is_key side address.now shared.key ≡ true) }
    {
        let key = DoorKey::new(alloc, side, address)?;
        let listener = Arc::new(alloc, listener)?;
        Ok(SharedListener { key, listener })
    }
}

impl<'a, R: Net<Listener = TcpListener, Stream = TcpStream>> TcpDoors<'a, R> {
    /// Doors of this network, none of them opened.
    pub fn new(alloc: Global, net: &'a R) -> TcpDoors<'a, R>
        ensures listeners { result.listeners.items ≡ [] }
        ensures counts { result.counts ≡ at_first }
    {
        TcpDoors {
            net,
            listeners: Vec::new(alloc),
            counts: DoorCounts::new(),
        }
    }

    /// What was counted.
    pub fn counts(&self) -> DoorCounts
        ensures { result ≡ self.now.counts }
    {
        self.counts
    }

    /// The address at which a listener takes connections, where one was opened for this side and address, and the
    /// system tells it. Its port is the system's choice where the address has port 0.
    pub fn local_addr(&self, side: Side, address: &str) -> Option<SocketAddr>
        ensures none { listener_at side address.now self.now.listeners.items ≡ None → result ≡ None }
    {
        let shared = listener_at(&self.listeners, side, address)?;
        shared.listener.local_addr().ok()
    }

    /// The listener of a side and an address.
    fn listener(
        &mut self,
        alloc: Global,
        side: Side,
        address: &str,
    ) -> Result<Arc<TcpListener>, DoorFault>
        ensures one_each { IsSome (listener_at side address.now self.old.listeners.items)
            → self.new.listeners.items ≡ self.old.listeners.items }
        ensures shared { IfOk result (λ listener. IsSomeAnd (listener_at side address.now self.new.listeners.items)
            (λ shared. arc_value listener ≡ arc_value shared.listener)) }
        ensures counted { self.new.counts ≡ opened result self.old.counts }
    {
        match listener_at(&self.listeners, side, address) {
            Some(shared) => Ok(Arc::try_clone(&shared.listener)?),
            None => self.bind(alloc, side, address),
        }
    }

    /// Binds a listener, which is kept.
    #[tactic(auto, using(crate::proofs::KeyLemmas::found_last))]
    fn bind(
        &mut self,
        alloc: Global,
        side: Side,
        address: &str,
    ) -> Result<Arc<TcpListener>, DoorFault>
        requires none { listener_at side address.now self.old.listeners.items ≡ None }
        ensures shared { IfOk result (λ listener. IsSomeAnd (listener_at side address.now self.new.listeners.items)
            (λ shared. arc_value listener ≡ arc_value shared.listener)) }
        ensures counted { self.new.counts ≡ opened result self.old.counts }
    {
        match TcpListener::bind(self.net, address) {
            Ok(listener) => {
                let shared = SharedListener::new(alloc, side, address, listener)?;
                Ok(keep(&mut self.listeners, shared)?)
            }
            Err(_) => Err(self.counts.fail_open()),
        }
    }
}

impl<'a, R: Net<Listener = TcpListener, Stream = TcpStream>> Doors for TcpDoors<'a, R> {
    type Link = TcpLink;

    type Door = TcpDoor;

    ghost counts = { λ doors. doors.counts };

    /// Where a listener was opened for the side and the address, the door shares it; else one is bound.
    fn open(&mut self, alloc: Global, side: Side, address: &str) -> Result<TcpDoor, DoorFault>
        ensures one_each { IsSome (listener_at side address.now self.old.listeners.items)
            → self.new.listeners.items ≡ self.old.listeners.items }
        ensures shared { IfOk result (λ door. IsSomeAnd (listener_at side address.now self.new.listeners.items)
            (λ shared. arc_value door.listener ≡ arc_value shared.listener)) }

        ensures fresh { IfOk result (λ door. door.state ≡ just_opened) }
        ensures counted { self.new.counts ≡ opened result self.old.counts }
    {
        let listener = self.listener(alloc, side, address)?;
        Ok(TcpDoor::new(listener))
    }

    fn close(&mut self, door: TcpDoor) -> Result<(), Failed> {
        self.counts.close(door.state())
    }
}

/// The listener that was opened for a side and an address.
fn listener_at<'a>(
    listeners: &'a [SharedListener],
    side: Side,
    address: &str,
) -> Option<&'a SharedListener>
    ensures { option_copied result ≡ listener_at side address.now listeners.now }
{
    listeners.iter().find(|shared| shared.key.is(side, address))
}

/// Keeps a listener behind the others, and shares it.
fn keep(
    listeners: &mut Vec<SharedListener>,
    shared: SharedListener,
) -> Result<Arc<TcpListener>, AllocError>
    ensures kept { OnOk result (listeners.new.items ≡ listeners.old.items ++ shared ∷ []) }
    ensures same { IfOk result (λ listener. arc_value listener ≡ arc_value shared.listener) }
{
    let listener = Arc::try_clone(&shared.listener)?;
    listeners.push(shared)?;
    Ok(listener)
}
