ghost use Rattle.alto_directory.specs.Laws.{AddressesHavePids, NothingWithoutNetworks};

/// With no network there is no entry and no cost type.
pub fn nothing_without_networks()
    ensures { NothingWithoutNetworks }
{}

/// The filtered property map of a network without properties still has the PIDs of addresses.
pub fn addresses_have_pids()
    ensures { AddressesHavePids }
{}
