//! What is said of an answer alone.
ghost use Rattle.std.specs.Prelude.{◌≡◌};
ghost use Rattle.event_sentences.specs.Reasons as reasons;

use line_events::Answer;
use line_script::answer_word;

/// What a refused frame is refused for, where the sentence is always the same.
pub fn plain_reason(answer: Answer) -> &'static str
    ensures { result.now ≡ reasons.plain_reason answer }
{
    match answer {
        Answer::HopsSpent => "no hops are left",
        Answer::NoSession => "no session awaits this message",
        Answer::OtherSession => "the message belongs to another session",
        Answer::Form => "this is not the message that is awaited",
        Answer::SessionsFull => "8 sessions are open",
        Answer::NotAllowed => "this meter is not allowed",
        Answer::BadMac => "the message was changed, or made with another pair key",
        Answer::BadUnit => "this may not come this way",
        Answer::BufferFull => "its buffers are full",
        Answer::NotHeld => "it holds no key at that index",
        Answer::RoutesFull => "64 ranks are kept, all fresh",
        Answer::PeersFull => "64 senders are known already",
        Answer::CounterSpent => "its counters are used up",
        Answer::SeqSpent => "its own numbers are used up",
        Answer::BadChannel => "the protected part does not open",
        Answer::NoSuccess => "the protected part says no success",
        Answer::CostSpent => "the way would cost more than 65,535",
        Answer::Blacklisted => "the neighbour did not acknowledge a reply",
        Answer::NotAwaited => "no reply awaits this acknowledgement",
        Answer::Old => "the broadcast is its own, or not above the mark of its origin",
        Answer::OriginsFull => "32 origins of broadcasts are known already",
        Answer::NotScanning => "it does not look for agents",
        Answer::Revisited => "the request has been here before",
        Answer::PathLong => "the way has as many nodes as it may",
        _ => answer_word(answer),
    }
}

/// The same for what somebody asked for.
pub fn plain_refusal(answer: Answer) -> &'static str
    ensures { result.now ≡ reasons.plain_refusal answer }
{
    match answer {
        Answer::ToSelf => "the target is the node itself",
        Answer::WaitingFull => "8 bodies wait already, or their room is used up",
        Answer::BadSize => "more than 1,280 octets",
        Answer::RandomsFull => "8 random values are held",
        Answer::NotAllowed => "this meter is not allowed",
        Answer::NotIssued => "this key was not issued to the meter",
        Answer::NotHeld => "no key is held at this index",
        Answer::IndexActive => "the coordinator seals with this index",
        Answer::NoRandom => "the coordinator holds no random value",
        Answer::SessionsFull => "8 sessions are open",
        Answer::CounterSpent => "the counters are used up",
        Answer::SeqSpent => "the own numbers are used up",
        Answer::NumberSpent => "the numbers of its broadcasts are used up",
        Answer::NoRoute => "there is no route",
        Answer::NoBeacon => "fewer agents were heard",
        _ => answer_word(answer),
    }
}

/// Which keys a node holds: at index 0, at index 1.
pub fn held_keys(key0: bool, key1: bool) -> &'static str
    ensures { result.now ≡ reasons.held_keys key0 key1 }
{
    match (key0, key1) {
        (true, true) => "; it holds index 0, 1",
        (true, false) => "; it holds index 0",
        (false, true) => "; it holds index 1",
        (false, false) => "; it holds none",
    }
}
