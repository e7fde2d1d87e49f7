//! The first bytes of names as numbers. They lie together, so a search among them waits for no name.

use crate::pid_text::PidText;

/// The first eight bytes of a name as a number, with zeros behind a shorter one: of two names whose heads differ, that
/// with the lesser head is the lesser.
pub(crate) fn head_of(name: &PidText) -> u64 {
    let bytes = name.as_bytes();
    u64::from_be_bytes([
        byte_at(bytes, 0),
        byte_at(bytes, 1),
        byte_at(bytes, 2),
        byte_at(bytes, 3),
        byte_at(bytes, 4),
        byte_at(bytes, 5),
        byte_at(bytes, 6),
        byte_at(bytes, 7),
    ])
}

fn byte_at(bytes: &[u8], place: usize) -> u8 {
    match bytes.get(place) {
        Some(byte) => *byte,
        None => 0,
    }
}

/// Where a head stands among rising ones, or would.
pub(crate) fn place_of(head: u64, heads: &[u64]) -> usize {
    heads.partition_point(|other| *other < head)
}
