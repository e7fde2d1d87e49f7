//! `alto_names`.
use alto_names::{
    AneKind, EpochKind, ImportKind, Kind, Label, MetricKind, NameFault, NetKind, PidKind, PidName,
    PropKind,
};
use std::cmp::Ordering;
use std::test::Fail;
use std::thread::join;

/// What reading a text answers, without the name.
fn outcome<K: Kind>(rt: &HostRuntime, text: &[u8]) -> Result<(), NameFault> {
    let _name = Label::<K>::read(rt.alloc(), text)?;
    Ok(())
}

/// The bytes that are names of the kind by themselves, how many of the lengths from 1 to 65 a name may have, and the
/// least name.
fn bounds_of<K: Kind>(rt: &HostRuntime) -> Result<String, Fail> {
    let mut bounds = String::new(rt.alloc());
    for byte in 0..=u8::MAX {
        if outcome::<K>(rt, &[byte]).is_ok() {
            bounds.push(char::from(byte))?;
        }
    }
    let longest = vec![in rt.alloc(); b'a'; 65]?;
    let mut lengths = 0u8;
    for length in 1..=65usize {
        if outcome::<K>(rt, longest.get(..length).unwrap_or(b"")).is_ok() {
            lengths = lengths.saturating_add(1);
        }
    }
    let least = Label::<K>::least(rt.alloc())?;
    Ok(format!(in rt.alloc(); "{bounds} {lengths} {least}")?)
}

const EPOCHS: &str = "0123456789ABCDEFGHIJKLMNOPQRSTUVWXYZabcdefghijklmnopqrstuvwxyz 20 0";

const NETS: &str = "-0123456789ABCDEFGHIJKLMNOPQRSTUVWXYZ_abcdefghijklmnopqrstuvwxyz 24 -";

const METRICS: &str = "-0123456789:ABCDEFGHIJKLMNOPQRSTUVWXYZ_abcdefghijklmnopqrstuvwxyz 32 -";

const ANES: &str = "-0123456789:@ABCDEFGHIJKLMNOPQRSTUVWXYZ_abcdefghijklmnopqrstuvwxyz 32 -";

const PIDS: &str = "-0123456789:@ABCDEFGHIJKLMNOPQRSTUVWXYZ_abcdefghijklmnopqrstuvwxyz 64 -";

const IMPORTS: &str =
    "!\"#$%&'()*+,-./0123456789:;<=>?@ABCDEFGHIJKLMNOPQRSTUVWXYZ[\\]^_`abcdefghijklmnopqrstuvwxyz{|}~ 64 !";

#[test]
fn each_kind_has_its_alphabet_and_length(rt: HostRuntime) -> Result<(), Fail> {
    assert_eq!(rt; bounds_of::<EpochKind>(&rt)?.as_str(), EPOCHS);
    assert_eq!(rt; bounds_of::<NetKind>(&rt)?.as_str(), NETS);
    assert_eq!(rt; bounds_of::<MetricKind>(&rt)?.as_str(), METRICS);
    assert_eq!(rt; bounds_of::<PropKind>(&rt)?.as_str(), METRICS);
    assert_eq!(rt; bounds_of::<AneKind>(&rt)?.as_str(), ANES);
    assert_eq!(rt; bounds_of::<PidKind>(&rt)?.as_str(), PIDS);
    assert_eq!(rt; bounds_of::<ImportKind>(&rt)?.as_str(), IMPORTS);
    Ok(())
}

#[test]
fn two_threads_share_a_name(rt: HostRuntime) -> Result<(), Fail> {
    let name = PidName::read(rt.alloc(), b"pid1")?;
    let (one, other) = join(&rt, || name.clone(), || name.clone());
    let (one, other) = (one?, other?);
    drop(name);
    let printed = format!(in rt.alloc(); "{one} {other:?}")?;
    assert_eq!(rt; printed.as_str(), "pid1 pid1");
    assert!(rt;
        one == other && one.matches(b"pid1"),
        "both threads' clones are the name, also once it is dropped"
    );
    assert_eq!(rt; one.cmp_bytes(b"pid 1"), Ordering::Greater);
    Ok(())
}
