//! Laws of route messages, over their definitions alone: each stands as the contract of a function that does nothing.
ghost use Rattle.loadng_messages.specs.Laws.{MessagesAreRead, ReadMessagesAreSpelled, SpellingsAreOctets};

/// The message that octets spell is read out of them.
pub fn messages_are_read()
    ensures { MessagesAreRead }
{}

/// The message that is read out of octets is the one that they spell.
pub fn read_messages_are_spelled()
    ensures { ReadMessagesAreSpelled }
{}

/// Each message spells octets.
pub fn spellings_are_octets()
    ensures { SpellingsAreOctets }
{}
