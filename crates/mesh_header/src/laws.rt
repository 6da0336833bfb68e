//! Laws of units, over their definitions alone: each stands as the contract of a function that does nothing.
ghost use Rattle.mesh_header.specs.Laws.{UnitsAreRead, ReadUnitsAreSpelled, OneHopLessIsNoLonger, UnitSpellingsAreOctets, ReadUnitsHaveOctets};

/// The unit that octets spell is read out of them.
pub fn units_are_read()
    ensures { UnitsAreRead }
{}

/// The unit that is read out of octets is the one that they spell.
pub fn read_units_are_spelled()
    ensures { ReadUnitsAreSpelled }
{}

/// A mesh header with one hop less has no more octets.
pub fn one_hop_less_is_no_longer()
    ensures { OneHopLessIsNoLonger }
{}

/// A unit of octets spells octets.
pub fn unit_spellings_are_octets()
    ensures { UnitSpellingsAreOctets }
{}

/// A unit that is read out of octets is one of octets.
pub fn read_units_have_octets()
    ensures { ReadUnitsHaveOctets }
{}
