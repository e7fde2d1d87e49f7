use alto_names::NetName;
use alto_rows::PackedPrefix;

/// A prefix of a network.
#[derive(Clone, Debug, PartialEq, Eq, PartialOrd, Ord, Drop)]
pub struct Place {
    /// The network.
    pub net: NetName,
    /// The prefix.
    pub prefix: PackedPrefix,
}
