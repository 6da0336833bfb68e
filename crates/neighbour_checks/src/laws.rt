//! Laws of acknowledgements and of histories, over their definitions alone: each stands as the contract of a function that does
//! nothing.
ghost use Rattle.neighbour_checks.specs.Laws.{AcksAreRead, ReadAcksAreSpelled, OneMoreEntry, NobodyAtTheStart, AtMost64, HeldOnce};

/// The acknowledgement that octets spell is read out of them.
pub fn acks_are_read()
    ensures { AcksAreRead }
{}

/// The acknowledgement that is read out of octets is the one that they spell.
pub fn read_acks_are_spelled()
    ensures { ReadAcksAreSpelled }
{}

/// What is open and listed after one more entry of a history follows from what was open and listed before it.
pub fn one_more_entry()
    ensures start { NobodyAtTheStart }
    ensures more { OneMoreEntry }
{}

/// After every history at most 64 neighbours are open or listed, none of them twice.
pub fn at_most_64()
    ensures neighbours { AtMost64 }
    ensures once { HeldOnce }
{}
