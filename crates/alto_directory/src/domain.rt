ghost use Rattle.std.specs.Prelude.{◌≡◌};
ghost use Rattle.alto_directory.specs.Network as spec;

use alto_addr::Addr;
use alto_rows::Entity;

/// A domain of entities (RFC 9240, section 6).
#[derive(Clone, Copy, Debug, PartialEq, Eq)]
pub(crate) enum Domain {
    /// Blocks and addresses of IPv4.
    Ipv4,
    /// Blocks and addresses of IPv6.
    Ipv6,
    /// The PIDs of a network.
    Pid,
}

/// The domain of an entity.
pub(crate) fn domain_of(entity: &Entity) -> Domain
    ensures { result ≡ spec.domain_of entity.now }
{
    match entity {
        Entity::Block(block) => match block.prefix().addr {
            Addr::V4(_) => Domain::Ipv4,
            Addr::V6(_) => Domain::Ipv6,
        },
        Entity::Pid(_) => Domain::Pid,
    }
}
