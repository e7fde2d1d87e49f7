use crate::tcp_door::TcpDoor;
use crate::tcp_link::TcpLink;
use alto_serve::Served;

/// A door over TCP may go to a thread, with the links that come through it.
pub fn tcp_doors_cross_threads(door: &TcpDoor, link: &TcpLink, served: &Served<TcpLink>) {
    cross_threads(door);
    cross_threads(link);
    cross_threads(served);
}

fn cross_threads<T: Send>(_value: &T) {}
