//! Laws of octets that came, and of what the network seals. Each is the contract of a function that does nothing.
ghost use Rattle.node_rules.specs.Ciphers.{OpensWhatItSeals, network};
ghost use Rattle.node_rules.specs.OctetLaws.{ArrivedBodiesAreOctets, NetworkOpensOctets, UnreadsAreOctets};

/// A joining command that a station hands on, of a payload of octets, is octets, and came from one node where it came over
/// the mesh.
pub fn unreads_are_octets()
    ensures { UnreadsAreOctets }
{}

/// The body of a frame in octets is octets, and so is what the network opens of it under a key of octets.
pub fn the_network_opens_octets()
    ensures body { ArrivedBodiesAreOctets }
    ensures payload { NetworkOpensOctets }
{}

/// What a key of the network seals, the same key opens, under the same head; a sealed body is four octets longer than
/// its payload.
pub fn the_network_opens_what_it_seals()
    ensures { OpensWhatItSeals network }
{}
