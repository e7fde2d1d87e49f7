//! `alto_addr`.
use crate::near_addresses::TEXTS;
use alto_addr::{Addr, AddrFault, print_addr, print_prefix, read_addr, read_prefix};
use std::alloc::{AllocError, Global};
use std::test::Fail;

/// Spellings of RFC 5952, sections 1, 2 and 4, and others, and what is printed of each.
const SPELLINGS: &str = "\
2001:db8:0:0:1:0:0:1 2001:db8::1:0:0:1
2001:0db8:0:0:1:0:0:1 2001:db8::1:0:0:1
2001:db8::1:0:0:1 2001:db8::1:0:0:1
2001:db8::0:1:0:0:1 2001:db8::1:0:0:1
2001:0db8::1:0:0:1 2001:db8::1:0:0:1
2001:db8:0:0:1::1 2001:db8::1:0:0:1
2001:db8:0000:0:1::1 2001:db8::1:0:0:1
2001:DB8:0:0:1::1 2001:db8::1:0:0:1
2001:db8:aaaa:bbbb:cccc:dddd:eeee:0001 2001:db8:aaaa:bbbb:cccc:dddd:eeee:1
2001:db8:aaaa:bbbb:cccc:dddd:eeee:001 2001:db8:aaaa:bbbb:cccc:dddd:eeee:1
2001:db8:aaaa:bbbb:cccc:dddd:eeee:01 2001:db8:aaaa:bbbb:cccc:dddd:eeee:1
2001:db8:aaaa:bbbb:cccc:dddd:eeee:1 2001:db8:aaaa:bbbb:cccc:dddd:eeee:1
2001:db8:aaaa:bbbb:cccc:dddd::1 2001:db8:aaaa:bbbb:cccc:dddd:0:1
2001:db8:aaaa:bbbb:cccc:dddd:0:1 2001:db8:aaaa:bbbb:cccc:dddd:0:1
2001:db8:0:0:0::1 2001:db8::1
2001:db8:0:0::1 2001:db8::1
2001:db8:0::1 2001:db8::1
2001:db8::1 2001:db8::1
2001:0db8::0001 2001:db8::1
2001:db8::0:1 2001:db8::1
2001:db8::aaaa:0:0:1 2001:db8::aaaa:0:0:1
2001:db8:0:0:aaaa::1 2001:db8::aaaa:0:0:1
2001:db8:aaaa:bbbb:cccc:dddd:eeee:aaaa 2001:db8:aaaa:bbbb:cccc:dddd:eeee:aaaa
2001:db8:aaaa:bbbb:cccc:dddd:eeee:AAAA 2001:db8:aaaa:bbbb:cccc:dddd:eeee:aaaa
2001:db8:aaaa:bbbb:cccc:dddd:eeee:AaAa 2001:db8:aaaa:bbbb:cccc:dddd:eeee:aaaa
2001:db8:0:0:0:0:2:1 2001:db8::2:1
2001:db8:0:1:1:1:1:1 2001:db8:0:1:1:1:1:1
2001:0:0:1:0:0:0:1 2001:0:0:1::1
1:0:3:4:5:6:7:8 1:0:3:4:5:6:7:8
::ffff:192.0.2.1 ::ffff:c000:201
0:0:0:0:0:0:0:0 ::
1:2:3:4:5:6:7:: 1:2:3:4:5:6:7:0
1::3:4:5:6:1.2.3.4 1:0:3:4:5:6:102:304
192.0.2.1 192.0.2.1";

#[test]
fn spellings_are_printed_alike(rt: HostRuntime) -> Result<(), Fail> {
    for line in SPELLINGS.lines() {
        let (text, printed) = line.split_once(' ').unwrap_or((line, ""));
        let Ok(addr) = read_addr(text.as_bytes()) else {
            panic!(rt; "{text}")
        };
        let again = print_addr(rt.alloc(), &addr)?;
        assert_eq!(rt; again.as_str(), printed, "{text}");
    }
    Ok(())
}

/// What a text is read as: its family and number, or how far it goes along with an address.
fn outcome(alloc: Global, text: &str) -> Result<String, AllocError> {
    match read_addr(text.as_bytes()) {
        Ok(Addr::V4(number)) => format!(in alloc; "v4 {number:x}"),
        Ok(Addr::V6(number)) => format!(in alloc; "v6 {number:x}"),
        Err(AddrFault::BadText(place)) => format!(in alloc; "at {place}"),
        Err(fault) => format!(in alloc; "{fault}"),
    }
}

#[test]
fn near_texts_are_answered_as_by_another_program(rt: HostRuntime) -> Result<(), Fail> {
    for line in TEXTS.lines() {
        let (text, expected) = line.split_once(' ').unwrap_or((line, ""));
        assert_eq!(rt; outcome(rt.alloc(), text)?.as_str(), expected, "{text}");
    }
    Ok(())
}

/// Texts of prefixes, and what is printed of each, or the fault.
const PREFIXES: &str = "\
0.0.0.0/0 0.0.0.0/0
192.0.2.0/24 192.0.2.0/24
192.0.2.1/32 192.0.2.1/32
2001:DB8::/32 2001:db8::/32
::1/128 ::1/128
192.0.2.0/33 BadLength
192.0.2.1/999 BadLength
::/129 BadLength
192.0.2.1/24 HostBits
::1/127 HostBits
192.0.2.1 BadText(9)
192.0.2.0/ BadText(10)
192.0.2.0/024 BadText(11)
192.0.2.0/1000 BadText(13)
192.0.2/24 BadText(7)
192.0.02.1 BadText(7)
/24 BadText(0)";

/// What is printed of the prefix that a text writes, or the fault.
fn printed(alloc: Global, text: &str) -> Result<String, AllocError> {
    match read_prefix(text.as_bytes()) {
        Ok(prefix) => print_prefix(alloc, &prefix),
        Err(fault) => format!(in alloc; "{fault:?}"),
    }
}

#[test]
fn a_prefix_has_zero_bits_past_its_length(rt: HostRuntime) -> Result<(), Fail> {
    for line in PREFIXES.lines() {
        let (text, expected) = line.split_once(' ').unwrap_or((line, ""));
        assert_eq!(rt; printed(rt.alloc(), text)?.as_str(), expected, "{text}");
    }
    Ok(())
}
