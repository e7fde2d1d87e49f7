use crate::packed::PackedPrefix;
use alto_names::PidName;

/// What properties are of (RFC 9240, section 5.1). Blocks sort before PIDs.
#[derive(Clone, Debug, PartialEq, Eq, PartialOrd, Ord, Drop)]
pub enum Entity {
    /// A block of addresses; one of full length is an address.
    Block(PackedPrefix),
    /// A PID of the network.
    Pid(PidName),
}
