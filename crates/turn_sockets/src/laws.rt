//! Laws over the definitions.

ghost use Rattle.turn_sockets.specs.Own.{RelayPortsAreOneAddress};

/// What one relay port sends to another comes from the address that clients are told of it.
pub fn relay_ports_are_one_address()
    ensures { RelayPortsAreOneAddress }
{}
