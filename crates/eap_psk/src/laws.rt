//! Laws of the four messages: what one end makes, the other takes, and both then hold the same random values and the same grant.
//!
//! The functions do nothing: each states laws over the definitions as its contract. With the clauses of [`Server`] and [`Peer`],
//! which say that a message is taken exactly where it has no fault, and of which session it then is, they say that two ends with
//! the same pair key whose messages are passed on reach the same end.
//!
//! [`Server`]: crate::Server
//! [`Peer`]: crate::Peer
ghost use Rattle.eap_psk.specs.Laws.{FirstIsTaken, FirstNamesTheSession, SecondIsTaken, ThirdIsTaken, ThirdGrantsOneThing, FourthIsTaken, GrantingTagsAgree};
ghost use Rattle.eap_psk.specs.Laws.{SuccessTagsAgree, FirstPacketsAreOctets, SecondPacketsAreOctets, ThirdPacketsAreOctets, FourthPacketsAreOctets};
ghost use Rattle.eap_psk.specs.Laws.{FirstPacketsFit, SecondPacketsFit, ThirdPacketsFit, FourthPacketsFit};

/// A first message is taken, and is of one session.
pub fn first_is_taken()
    ensures taken { FirstIsTaken }
    ensures session { FirstNamesTheSession }
{}

/// A second message of the session is taken, with its RAND_P.
pub fn second_is_taken()
    ensures { SecondIsTaken }
{}

/// A third message of the session is taken, and grants one thing.
pub fn third_is_taken()
    ensures taken { ThirdIsTaken }
    ensures grant { ThirdGrantsOneThing }
{}

/// A fourth message of the session is taken.
pub fn fourth_is_taken()
    ensures { FourthIsTaken }
{}

/// Two equal tags of channels that grant are of one node, of the same random values and of the same grant.
pub fn granting_tags_agree()
    ensures { GrantingTagsAgree }
{}

/// Two equal tags of channels that say success are of one node and of the same random values.
pub fn success_tags_agree()
    ensures { SuccessTagsAgree }
{}

/// Of names, random values and keys that are octets, the four packets of a session are octets.
pub fn packets_are_octets()
    ensures first { FirstPacketsAreOctets }
    ensures second { SecondPacketsAreOctets }
    ensures third { ThirdPacketsAreOctets }
    ensures fourth { FourthPacketsAreOctets }
{}

/// Of random values of at most 16 octets and names of 8, the four packets of a session have at most 30, 62, 105 and 43 octets.
pub fn packets_fit()
    ensures first { FirstPacketsFit }
    ensures second { SecondPacketsFit }
    ensures third { ThirdPacketsFit }
    ensures fourth { FourthPacketsFit }
{}
