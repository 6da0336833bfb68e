//! The laws of claims.
ghost use Rattle.event_sentences.specs.Truth.{SaysOne, UpsAreTrue};

/// Two claims that are true of one event are one: what is said of it is determined.
pub fn says_one()
    ensures { SaysOne }
{}

/// Where a datagram was handed up, the sentence of the event is that of a claim which is true of it: that the datagram is one of a send of the run,
/// and of which, or of none.
pub fn ups_are_true()
    ensures { UpsAreTrue }
{}
