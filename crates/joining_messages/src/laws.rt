//! Laws of joining messages and grants, over their definitions alone: each stands as the contract of a function that does
//! nothing.
ghost use Rattle.joining_messages.specs.Laws.{JoinsAreRead, ReadJoinsAreSpelled, GrantsAreRead, ReadGrantsAreSpelled, JoinSpellingsAreOctets, ReadJoinsFit};
ghost use Rattle.joining_messages.specs.Laws.{ReadJoinsHaveOctets, GrantSpellingsAreOctets, ReadGrantsHaveOctets};

/// The joining message that octets spell is read out of them.
pub fn joins_are_read()
    ensures { JoinsAreRead }
{}

/// The joining message that is read out of octets is the one that they spell.
pub fn read_joins_are_spelled()
    ensures { ReadJoinsAreSpelled }
{}

/// The grant that octets spell is read out of them.
pub fn grants_are_read()
    ensures { GrantsAreRead }
{}

/// The grant that is read out of octets is the one that they spell.
pub fn read_grants_are_spelled()
    ensures { ReadGrantsAreSpelled }
{}

/// A joining message of octets spells octets, and so does a grant.
pub fn spellings_are_octets()
    ensures message { JoinSpellingsAreOctets }
    ensures grant { GrantSpellingsAreOctets }
{}

/// A joining message that is read out of octets is one of octets.
pub fn read_joins_have_octets()
    ensures { ReadJoinsHaveOctets }
{}

/// A joining message that is read is in its ranges, also where it is read out of numbers past 255.
pub fn read_joins_fit()
    ensures { ReadJoinsFit }
{}

/// A grant that is read out of octets is one of octets.
pub fn read_grants_have_octets()
    ensures { ReadGrantsHaveOctets }
{}
