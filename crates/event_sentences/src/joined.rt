//! Sentences of joining messages and frames of further reach that a node took.
ghost use Rattle.std.specs.Prelude.{◌≡◌, IfOk, string_bytes};
ghost use Rattle.event_sentences.specs.Scenes.{scene_of};
ghost use Rattle.event_sentences.specs.Joined as spec_joined;

use crate::heard::Heard;
use crate::moment::Moment;
use frame_facts::{Detail, Gist};
use line_events::Answer;
use line_script::answer_word;
use plc_base::Eui;
use sentence_parts::{Part, node, node_with, number, place, words};
use std::alloc::AllocError;

fn ordered_index(detail: Detail) -> u8
    ensures { result ≡ spec_joined.ordered_index detail }
{
    match detail {
        Detail::Activate { index } => index,
        _ => 0,
    }
}

fn device_part<'a>(eui: Eui, euis: &[Eui]) -> Part<'a>
    ensures { result ≡ spec_joined.device_part eui euis.now }
{
    match node_with(eui, euis) {
        Some(meter) => node(meter),
        None => words("the meter"),
    }
}

// The meter that a joining message is about.
fn meter_part<'a>(gist: &Gist, euis: &[Eui]) -> Part<'a>
    ensures { result ≡ spec_joined.meter_part gist.now euis.now }
{
    match gist {
        Gist::Joins { eui } => device_part(*eui, euis),
        _ => words("the meter"),
    }
}

impl<'a> Moment<'a> {
    fn took_address(&self, address: u16) -> Result<String, AllocError>
        ensures { IfOk result (λ text. string_bytes text ≡ spec_joined.took_address_text address (scene_of self.now)) }
    {
        self.with_flights(&[
            node(self.node),
            words(" takes its address "),
            Part::Short { address },
            words(" and keys, and sends message 4"),
        ])
    }

    fn took(&self) -> Result<String, AllocError>
        ensures { IfOk result (λ text. string_bytes text ≡ spec_joined.took_text self.now.shown.now.address (scene_of self.now)) }
    {
        match self.shown.address {
            None => self.with_flights(&[
                node(self.node),
                words(" takes its address and keys, and sends message 4"),
            ]),
            Some(address) => self.took_address(address.number()),
        }
    }

    fn declined(&self) -> Result<String, AllocError>
        ensures { IfOk result (λ text. string_bytes text ≡ spec_joined.declined_text (scene_of self.now)) }
    {
        if self.node == 0 {
            return self.with_flights(&[words(
                "the coordinator does not allow this meter, and declines",
            )]);
        }
        self.say(&[node(self.node), words(" is declined; its joining is over")])
    }

    fn seals(&self, detail: Detail) -> Result<String, AllocError>
        ensures { IfOk result (λ text. string_bytes text ≡ spec_joined.seals_text self.now.node detail) }
    {
        self.say(&[
            node(self.node),
            words(" seals with key "),
            number(ordered_index(detail) as usize),
            words(" from now"),
        ])
    }

    fn challenged_by(&self, heard: &Heard) -> Result<String, AllocError>
        ensures { IfOk result (λ text. string_bytes text ≡ spec_joined.challenged_by_text heard.now (scene_of self.now)) }
    {
        self.with_flights(&[
            words("the coordinator opens a session with "),
            meter_part(&heard.gist, self.euis),
            words(": EAP-PSK message 1"),
        ])
    }

    fn keyed(&self, heard: &Heard) -> Result<String, AllocError>
        ensures { IfOk result (λ text. string_bytes text ≡ spec_joined.keyed_text heard.now (scene_of self.now)) }
    {
        self.with_flights(&[
            words("the coordinator finds message 2 right: message 3 carries address and keys of "),
            meter_part(&heard.gist, self.euis),
        ])
    }

    fn joining_done(&self, heard: &Heard) -> Result<String, AllocError>
        ensures { IfOk result (λ text. string_bytes text ≡ spec_joined.joining_done_text heard.now (scene_of self.now)) }
    {
        self.with_flights(&[
            words("the coordinator finds message 4 right: the joining of "),
            meter_part(&heard.gist, self.euis),
            words(" is done"),
        ])
    }

    // Of a frame about a joining.
    fn joining(&self, heard: &Heard) -> Result<String, AllocError>
        ensures { IfOk result (λ text. string_bytes text ≡ spec_joined.joining_text self.now.recorded.answer heard.now (scene_of self.now)) }
    {
        match self.recorded.answer {
            Answer::Challenged => self.challenged_by(heard),
            Answer::Replied => {
                self.with_flights(&[node(self.node), words(" answers with message 2")])
            }
            Answer::Keyed => self.keyed(heard),
            Answer::Took => self.took(),
            Answer::Done => self.joining_done(heard),
            Answer::Noted => self.with_flights(&[
                node(self.node),
                words(" takes note that it is accepted"),
            ]),
            Answer::Declined => self.declined(),
            Answer::Left => self.say(&[
                node(self.node),
                words(" hears that it is shut out: it forgets its address and keys"),
            ]),
            Answer::Activated => self.seals(heard.more.detail),
            _ => self.say(&[words(answer_word(self.recorded.answer))]),
        }
    }

    fn acked(&self, heard: &Heard) -> Result<String, AllocError>
        ensures { IfOk result (λ text. string_bytes text ≡ spec_joined.acked_text self.now.node heard.now) }
    {
        self.say(&[
            node(self.node),
            words(" hears that "),
            place(heard.by),
            words(" has its reply"),
        ])
    }

    fn way_is_known(&self) -> Result<String, AllocError>
        ensures { IfOk result (λ text. string_bytes text ≡ spec_joined.way_is_known_text self.now.node) }
    {
        self.say(&[node(self.node), words(" has the answer: the way is known")])
    }

    /// Of a frame of further reach or about a joining that was taken.
    pub fn further(&self, heard: &Heard) -> Result<String, AllocError>
        ensures { IfOk result (λ text. string_bytes text ≡ spec_joined.further_text self.now.recorded.answer heard.now (scene_of self.now)) }
    {
        match self.recorded.answer {
            Answer::Acked => self.acked(heard),
            Answer::Bup => self.with_flights(&[
                node(self.node),
                words(" hands up the broadcast and passes it on"),
            ]),
            Answer::Beacon => self.with_flights(&[
                node(self.node),
                words(" answers with a beacon"),
            ]),
            Answer::Beaconed => self.say(&[node(self.node), words(" takes note of the beacon")]),
            Answer::Path => self.way_is_known(),
            _ => self.joining(heard),
        }
    }
}
