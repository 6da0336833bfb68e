//! Sentences of datagrams and route messages that a node took.
ghost use Rattle.std.specs.Prelude.{◌≡◌, IfOk, string_bytes};
ghost use Rattle.std.specs.Option.{option_copied};
ghost use Rattle.event_sentences.specs.Scenes.{scene_of};
ghost use Rattle.event_sentences.specs.Taken as spec_taken;

use crate::claim::{Deed, deed_said};
use crate::flights::{Meant, is_request};
use crate::heard::Heard;
use crate::moment::Moment;
use frame_facts::{Detail, Gist};
use line_events::Answer;
use line_record::RecordedFlight;
use sentence_parts::{node, number, place, words};
use std::alloc::AllocError;

// The datagram of a send by its number, 0 where it is of none.
fn handed_up_of(send: u32) -> Deed
    ensures { result ≡ spec_taken.sent_up send }
{
    if send == 0 {
        return Deed::HandsUpStray;
    }
    Deed::HandsUp { send }
}

fn handed_up(up: Option<u32>) -> Deed
    ensures { result ≡ spec_taken.handed_up up }
{
    match up {
        Some(send) => handed_up_of(send),
        None => Deed::HandsUpStray,
    }
}

fn lost_of(gist: &Gist) -> u16
    ensures { result ≡ spec_taken.lost_of gist.now }
{
    match gist {
        Gist::Ends { lost, .. } => *lost,
        _ => 0xFFFF,
    }
}

fn first_gist(flights: &[RecordedFlight]) -> Gist
    ensures { result ≡ spec_taken.first_gist flights.now }
{
    match flights.first() {
        Some(flight) => flight.gist,
        None => Gist::Unread,
    }
}

fn end_words(ended: bool) -> &'static str
    ensures { result.now ≡ spec_taken.end_words ended }
{
    if ended {
        return ": its route ends";
    }
    "; it had no such route"
}

fn way_words(detail: Detail) -> &'static str
    ensures { result.now ≡ spec_taken.way_words detail }
{
    match detail {
        Detail::Up => "up to the coordinator",
        _ => "down to the meter",
    }
}

impl<'a> Moment<'a> {
    fn holds_octets(&self, start: u32, end: u32, size: u32) -> Result<String, AllocError>
        ensures { IfOk result (λ text. string_bytes text ≡ spec_taken.holds_octets_text self.now.node start end size) }
    {
        self.say(&[
            node(self.node),
            words(" holds octets "),
            number(start as usize),
            words(" to "),
            number(end as usize),
            words(" of "),
            number(size as usize),
            words(" and waits for the rest"),
        ])
    }

    fn held(&self, detail: Detail) -> Result<String, AllocError>
        ensures { IfOk result (λ text. string_bytes text ≡ spec_taken.held_text self.now.node detail) }
    {
        match detail {
            Detail::Piece { start, end, size } => self.holds_octets(start, end, size),
            _ => self.say(&[
                node(self.node),
                words(" holds a piece and waits for the rest"),
            ]),
        }
    }

    fn relayed_request(&self, origin: u16, sought: u16) -> Result<String, AllocError>
        ensures { IfOk result (λ text. string_bytes text ≡ spec_taken.relayed_request_text origin sought (scene_of self.now)) }
    {
        let follows = self.follows(Meant::Requests, origin)?;
        self.say(&[
            node(self.node),
            words(" passes the request for "),
            self.at(sought),
            words(" on to all"),
            words(follows.as_str()),
        ])
    }

    fn relayed_reply(&self, origin: u16) -> Result<String, AllocError>
        ensures { IfOk result (λ text. string_bytes text ≡ spec_taken.relayed_reply_text origin (scene_of self.now)) }
    {
        let follows = self.follows(Meant::Replies, origin)?;
        self.say(&[
            node(self.node),
            words(" passes the reply on to "),
            place(self.target(Meant::Replies)),
            words(follows.as_str()),
        ])
    }

    fn relayed(&self, gist: &Gist) -> Result<String, AllocError>
        ensures { IfOk result (λ text. string_bytes text ≡ spec_taken.relayed_text gist.now (scene_of self.now)) }
    {
        match gist {
            Gist::Seeks { origin, sought, .. } => self.relayed_request(*origin, *sought),
            Gist::Replies { origin, .. } => self.relayed_reply(*origin),
            _ => self.with_flights(&[
                node(self.node),
                words(" passes it on to "),
                place(self.target(Meant::All)),
            ]),
        }
    }

    fn answered_request(&self, heard: &Heard, origin: u16) -> Result<String, AllocError>
        ensures { IfOk result (λ text. string_bytes text ≡ spec_taken.answered_request_text heard.now origin (scene_of self.now)) }
    {
        let follows = self.follows(Meant::Replies, origin)?;
        self.say(&[
            node(self.node),
            words(" is the one that is sought: it replies to "),
            place(heard.by),
            words(follows.as_str()),
        ])
    }

    fn answered(&self, heard: &Heard) -> Result<String, AllocError>
        ensures { IfOk result (λ text. string_bytes text ≡ spec_taken.answered_text heard.now.gist heard.now (scene_of self.now)) }
    {
        match &heard.gist {
            Gist::Seeks { origin, .. } => self.answered_request(heard, *origin),
            _ => self.with_flights(&[
                node(self.node),
                words(" is the one that is sought: it answers "),
                place(heard.by),
            ]),
        }
    }

    fn learned_of(&self, origin: u16) -> Result<String, AllocError>
        ensures { IfOk result (λ text. string_bytes text ≡ spec_taken.learned_of_text origin (scene_of self.now)) }
    {
        let follows = self.leads_and_leaving(origin)?;
        self.say(&[
            node(self.node),
            words(" has its route to "),
            self.at(origin),
            words(follows.as_str()),
        ])
    }

    fn learned(&self, gist: &Gist) -> Result<String, AllocError>
        ensures { IfOk result (λ text. string_bytes text ≡ spec_taken.learned_text gist.now (scene_of self.now)) }
    {
        match gist {
            Gist::Replies { origin, .. } => self.learned_of(*origin),
            Gist::Seeks { origin, .. } => self.learned_of(*origin),
            _ => self.say(&[node(self.node), words(" has its route")]),
        }
    }

    fn end_of(&self, dest: u16) -> usize
        ensures { result ≡ spec_taken.end_by dest (option_copied self.now.watch) }
    {
        match self.watch {
            Some(watch) => watch.ended(dest),
            None => 0,
        }
    }

    // When the route to an address ended, if it ever did.
    fn any_more(&self, dest: u16) -> Result<String, AllocError>
        ensures { IfOk result (λ text. string_bytes text ≡ spec_taken.any_more_text dest (scene_of self.now)) }
    {
        let ended = self.end_of(dest);
        if ended == 0 {
            return self.say(&[]);
        }
        self.say(&[
            words(" any more (it ended at event "),
            number(ended),
            words(")"),
        ])
    }

    fn reported_end(&self, lost: u16, to: u16) -> Result<String, AllocError>
        ensures { IfOk result (λ text. string_bytes text ≡ spec_taken.reported_end_text lost to (scene_of self.now)) }
    {
        let since = self.any_more(lost)?;
        self.with_flights(&[
            node(self.node),
            words(" has no route to "),
            self.at(lost),
            words(since.as_str()),
            words(": the datagram ends here, and "),
            self.at(to),
            words(" is told"),
        ])
    }

    fn ends_here(&self) -> Result<String, AllocError>
        ensures { IfOk result (λ text. string_bytes text ≡ spec_taken.ends_here_text (scene_of self.now)) }
    {
        self.with_flights(&[
            node(self.node),
            words(" has no route: the datagram ends here"),
        ])
    }

    // By what the first flight of the event is about.
    fn reported_by(&self, gist: &Gist) -> Result<String, AllocError>
        ensures { IfOk result (λ text. string_bytes text ≡ spec_taken.reported_text gist.now (scene_of self.now)) }
    {
        match gist {
            Gist::Ends { lost, to } => self.reported_end(*lost, *to),
            _ => self.ends_here(),
        }
    }

    fn reported(&self) -> Result<String, AllocError>
        ensures { IfOk result (λ text. string_bytes text ≡ spec_taken.reported_text (spec_taken.first_gist self.now.flights.now) (scene_of self.now)) }
    {
        self.reported_by(&first_gist(self.flights))
    }

    fn passes_on(&self) -> Result<String, AllocError>
        ensures { IfOk result (λ text. string_bytes text ≡ spec_taken.passes_on_text (scene_of self.now)) }
    {
        if self.flights.len() == 0 {
            return self.say(&[]);
        }
        self.with_flights(&[words("; it passes the error on")])
    }

    fn out_of_reach(&self, heard: &Heard) -> Result<String, AllocError>
        ensures { IfOk result (λ text. string_bytes text ≡ spec_taken.out_of_reach_text heard.now (scene_of self.now)) }
    {
        self.say(&[
            node(self.node),
            words(" hears that "),
            self.at(lost_of(&heard.gist)),
            words(" is out of reach by "),
            place(heard.by),
            words(end_words(self.ended)),
        ])
    }

    fn broken(&self, heard: &Heard) -> Result<String, AllocError>
        ensures { IfOk result (λ text. string_bytes text ≡ spec_taken.broken_text heard.now (scene_of self.now)) }
    {
        let mut text = self.out_of_reach(heard)?;
        let passed = self.passes_on()?;
        text.push_str(passed.as_str())?;
        Ok(text)
    }

    fn carried_first(&self, first: &RecordedFlight, detail: Detail) -> Result<String, AllocError>
        ensures { IfOk result (λ text. string_bytes text ≡ spec_taken.carried_first_text first.now detail (scene_of self.now)) }
    {
        if is_request(first.kind) {
            return self.with_flights(&[
                node(self.node),
                words(
                    " has no route to the coordinator: the message waits, and a route request goes out",
                ),
            ]);
        }
        self.with_flights(&[
            node(self.node),
            words(" carries the message "),
            words(way_words(detail)),
        ])
    }

    fn carried(&self, detail: Detail) -> Result<String, AllocError>
        ensures { IfOk result (λ text. string_bytes text ≡ spec_taken.carried_text self.now.flights.now detail (scene_of self.now)) }
    {
        match self.flights.first() {
            Some(first) => self.carried_first(first, detail),
            None => self.say(&[
                node(self.node),
                words(" has no route to the coordinator: the message waits"),
            ]),
        }
    }

    /// Of a frame that was taken.
    pub fn taken(&self, heard: &Heard) -> Result<String, AllocError>
        ensures { IfOk result (λ text. string_bytes text ≡ spec_taken.taken_text self.now.recorded.answer heard.now (scene_of self.now)) }
    {
        match self.recorded.answer {
            Answer::Up => deed_said(self.alloc, self.node, handed_up(self.recorded.up)),
            Answer::Held => self.held(heard.more.detail),
            Answer::Relayed => self.relayed(&heard.gist),
            Answer::Answered => self.answered(heard),
            Answer::Learned => self.learned(&heard.gist),
            Answer::Reported => self.reported(),
            Answer::Broken => self.broken(heard),
            Answer::Carried => self.carried(heard.more.detail),
            _ => self.further(heard),
        }
    }
}
