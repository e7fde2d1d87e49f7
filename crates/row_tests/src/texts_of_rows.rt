//! `alto_rows`: ids and entities.
use alto_names::NetName;
use alto_rows::{print_entity, print_resource, read_entity, read_resource};
use json_tree::Name;
use std::alloc::{AllocError, Global};
use std::test::Fail;

/// Texts of ids, and what is written of the resource that each is read as, or `none`.
const IDS: &str = "\
metro metro
metro:prop metro:prop
metro:cost:routingcost metro:cost:routingcost
metro:cost:a:prop metro:cost:a:prop
metro:cost:cost:x metro:cost:cost:x
prop prop
a23456789b123456789c1234 a23456789b123456789c1234
a23456789b123456789c12345 none
metro:cost: none
metro:cost none
metro:costs:x none
metro:cost:x@y none
metro:cost:a23456789b123456789c123456789d123 none
metro:prop: none
metro:props none
metro:prop:cost:x none
metro: none
metro::prop none
metro.prop none
:prop none
:cost:x none
: none";

#[test]
fn ids_are_read_and_written(rt: HostRuntime) -> Result<(), Fail> {
    for line in IDS.lines() {
        let (text, written) = line.split_once(' ').unwrap_or((line, ""));
        let again = read_again(rt.alloc(), text.as_bytes())?;
        assert_eq!(rt; again.as_str(), written, "{text}");
    }
    Ok(())
}

fn read_again(alloc: Global, text: &[u8]) -> Result<Name, AllocError> {
    match read_resource(alloc, text)? {
        Some(of) => print_resource(alloc, &of),
        None => Name::from_str(alloc, "none"),
    }
}

/// Texts of entities of the network `metro`, and what is written of each, or `none`.
const ENTITIES: &str = "\
ipv4:192.0.2.0/24 ipv4:192.0.2.0/24
ipv4:192.0.2.1 ipv4:192.0.2.1
ipv4:192.0.2.1/32 ipv4:192.0.2.1
ipv4:0.0.0.0/0 ipv4:0.0.0.0/0
ipv6:2001:DB8::/32 ipv6:2001:db8::/32
ipv6:2001:db8::1/128 ipv6:2001:db8::1
metro.pid:east metro.pid:east
metro.pid:e@st:1 metro.pid:e@st:1
ipv4:192.0.2.1/24 none
ipv4:192.0.2.0/33 none
ipv4:2001:db8::1 none
ipv6:192.0.2.1 none
ipv4:2001:db8::/32 none
IPv4:192.0.2.1 none
ipv4: none
ipv4 none
192.0.2.1 none
other.pid:east none
metro.pid: none
metro.pid:ea.st none
metro:pid:east none
metro.pids:east none
metro none
: none";

#[test]
fn entities_are_read_and_written(rt: HostRuntime) -> Result<(), Fail> {
    let metro = NetName::read(rt.alloc(), b"metro")?;
    for line in ENTITIES.lines() {
        let (text, written) = line.split_once(' ').unwrap_or((line, ""));
        let again = entity_again(rt.alloc(), &metro, text.as_bytes())?;
        assert_eq!(rt; again.as_str(), written, "{text}");
    }
    Ok(())
}

fn entity_again(alloc: Global, net: &NetName, text: &[u8]) -> Result<Name, AllocError> {
    match read_entity(alloc, net, text)? {
        Some(entity) => print_entity(alloc, net, &entity),
        None => Name::from_str(alloc, "none"),
    }
}
