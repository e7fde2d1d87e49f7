//! The first bytes of names as numbers. They lie together, so a search among them waits for no name.

/// The first eight bytes of a name as a number, with zeros behind a shorter one: of two names whose heads differ, that
/// with the lesser head is the lesser.
pub(crate) fn head_of(name: &[u8]) -> u64 {
    u64::from_be_bytes([
        byte_at(name, 0),
        byte_at(name, 1),
        byte_at(name, 2),
        byte_at(name, 3),
        byte_at(name, 4),
        byte_at(name, 5),
        byte_at(name, 6),
        byte_at(name, 7),
    ])
}

fn byte_at(bytes: &[u8], place: usize) -> u8 {
    match bytes.get(place) {
        Some(byte) => *byte,
        None => 0,
    }
}

/// Where a head stands among rising ones, or would.
pub(crate) fn place_of(head: u64, heads: &[u64]) -> usize {
    heads.partition_point(|other| *other < head)
}
