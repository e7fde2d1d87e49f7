//! `alto_doors`.
use alto_addr::Addr;
use alto_desk::desk_in_memory;
use alto_doors::{Door, DoorFault, Doors, MemDoors, Side, TcpDoors, serve_door};
use alto_http::MemLink;
use alto_keeper::MemKeeper;
use alto_names::Epoch;
use alto_serve::{End, FixedClock, Solo, serve_link};
use row_chunks::Chunks;
use std::alloc::{AllocError, Global};
use std::io::{Read, Write};
use std::net::TcpStream;
use std::test::Fail;
use std::time::Duration;

/// An import of a network, and the question for its map.
const IMPORT: &[u8] =
    b"POST /edits/i1 HTTP/1.1\r\nContent-Type: text/csv\r\nContent-Length: 18\r\n\r\nnet-add,metro,,,,\n";

const QUESTION: &[u8] = b"GET /maps/metro HTTP/1.1\r\nConnection: close\r\n\r\n";

/// The bodies of their replies.
const RECEIPT: &[u8] = br#"{"moment":100,"n":1}"#;

const MAP: &[u8] = br#"{"meta":{"vtag":{"resource-id":"metro","tag":"e1-1"}},"network-map":{}}"#;

const CLOCK: FixedClock = FixedClock(100);

/// The office over a new book.
fn office(alloc: Global) -> Result<Solo<MemKeeper, Chunks>, Fail> {
    let desk = desk_in_memory(alloc, &Epoch::read(alloc, b"e1")?, 8)?;
    Ok(Solo::new(desk))
}

/// Two connections: one imports a network, the other asks for its map.
fn connections(alloc: Global) -> Result<Vec<(MemLink, Option<Addr>)>, AllocError> {
    let mut all = Vec::new(alloc);
    all.push((MemLink::new(alloc, IMPORT, 1000)?, None))?;
    all.push((MemLink::new(alloc, QUESTION, 1000)?, Some(Addr::V4(1))))?;
    Ok(all)
}

/// Doors of which one waits at each side of an address. That of the operator's side gives two connections, and its
/// accept number 1 fails. The open number 1 fails.
fn two_doors(alloc: Global) -> Result<MemDoors<MemLink>, AllocError> {
    let opens = [1].to_vec(alloc)?;
    let accepts = [1].to_vec(alloc)?;
    let mut doors = MemDoors::new(alloc).with_failing(opens);
    doors.add_door(alloc, Side::Public, "a:1", Vec::new(alloc), Vec::new(alloc))?;
    doors.add_door(alloc, Side::Both, "a:1", connections(alloc)?, accepts)?;
    Ok(doors)
}

/// What a link put out is a reply 200 with this body.
fn replies(link: &MemLink, body: &[u8]) -> bool {
    link.output().starts_with(b"HTTP/1.1 200 OK\r\n") && link.output().ends_with(body)
}

#[test]
fn a_worker_serves_each_connection_of_its_door(rt: HostRuntime) -> Result<(), Fail> {
    let alloc = rt.alloc();
    let mut doors = two_doors(alloc)?;
    let mut office = office(alloc)?;
    let mut door = doors.open(alloc, Side::Both, "a:1")?;
    serve_door(&rt, alloc, &mut office, &mut door, &CLOCK, Side::Both, 0);
    assert_eq!(rt; door.state().faults, 1, "one accept failed");
    assert!(rt; door.state().has_ended, "and then the door ended");
    assert!(rt; doors.close(door).is_err(), "a door that has failed");
    assert!(rt;
        doors.open(alloc, Side::Public, "a:1").is_err(),
        "the open that fails"
    );
    let counts = doors.counts();
    assert_eq!(rt;
        (counts.faults, counts.served, counts.failed_opens),
        (2, 1, 1)
    );
    let served = doors.served();
    assert_eq!(rt; served.len(), 2);
    assert!(rt;
        served[0].end() == End::Closed && replies(served[0].link(), RECEIPT),
        "the import"
    );
    assert!(rt;
        served[1].end() == End::Closed && replies(served[1].link(), MAP),
        "the map"
    );
    Ok(())
}

/// An address of which the system picks the port.
const LOOPBACK: &str = "127.0.0.1:0";

#[test]
fn a_connection_over_loopback_is_served(rt: HostRuntime) -> Result<(), Fail> {
    let alloc = rt.alloc();
    let mut doors = TcpDoors::new(alloc, &rt);
    let mut office = office(alloc)?;
    let mut door = doors.open(alloc, Side::Public, LOOPBACK)?;
    let address = doors
        .local_addr(Side::Public, LOOPBACK)
        .ok_or("no address")?;
    let mut client = TcpStream::connect(&rt, address)?;
    client.set_read_timeout(Some(Duration::from_secs(10)))?;
    client.write_all(QUESTION)?;
    let Ok(Some((link, peer))) = door.accept() else {
        return Err(Fail::new("no connection"));
    };
    assert_eq!(rt; peer, Some(Addr::V4(0x7f00_0001)));
    let served = serve_link(alloc, &mut office, link, &CLOCK, Side::Public, peer, 0);
    assert_eq!(rt; served.end(), End::Closed);
    door.give_back(served);
    let mut reply = Vec::new(alloc);
    client.read_to_end(&mut reply)?;
    assert!(rt;
        reply.starts_with(b"HTTP/1.1 404 Not Found\r\n"),
        "no map yet"
    );
    assert!(rt; doors.close(door).is_ok(), "no fault");
    assert!(rt;
        doors.open(alloc, Side::Public, "127.0.0.1").is_err(),
        "an address without a port"
    );
    let counts = doors.counts();
    assert_eq!(rt;
        (counts.faults, counts.served, counts.failed_opens),
        (1, 0, 1)
    );
    Ok(())
}
