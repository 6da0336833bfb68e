//! What the sentence of an event goes by.
ghost use Rattle.std.specs.Prelude.{◌≡◌, IfOk, string_bytes};
ghost use Rattle.std.specs.List.{find};
ghost use Rattle.std.specs.Option.{option_copied};
ghost use Rattle.sentence_parts.specs.Parts.{parts_text};
ghost use Rattle.event_sentences.specs.Scenes as scenes;
ghost use Rattle.event_sentences.specs.Scenes.{scene_of};
ghost use Rattle.event_sentences.specs.Texts as texts;

use crate::flights::{Meant, bracketed, first_target, leaving, meant_numbers, named};
use crate::heard::Heard;
use crate::watch::Watch;
use line_record::{Counters, RecordedEvent, RecordedFlight};
use node_rules::{Shown, ShownRoute};
use plc_base::Eui;
use sentence_parts::{Part, Who, number, place, push_parts, who_at, words};
use std::alloc::{AllocError, Global};

// A part of a sentence has about this many octets, so that few sentences move while they grow.
const PART_OCTETS: usize = 24;

/// What the sentence of an event goes by: the event, the flights that it made, the frame that came, and the node that it is about.
#[derive(Clone, Copy)]
pub struct Moment<'a> {
    /// Where sentences are made.
    pub alloc: Global,
    /// What the event was and how it ended.
    pub recorded: RecordedEvent,
    /// The flights that it made.
    pub flights: &'a [RecordedFlight],
    /// The frame that came, if one did.
    pub heard: Option<&'a Heard>,
    /// The node that the event is about.
    pub node: u32,
    /// What it shows after the event.
    pub shown: &'a Shown,
    /// What is kept of it beside that: its routes after the event, all else before it.
    pub watch: Option<&'a Watch>,
    /// Whether a route of it ended at the event.
    pub ended: bool,
    /// Which flight was sealed with which counter.
    pub counters: &'a Counters,
    /// The node of each short address.
    pub homes: &'a [u32],
    /// The EUI-64 of each node.
    pub euis: &'a [Eui],
}

/// Where a valid route goes: the address of its next hop, and its cost.
#[derive(Clone, Copy)]
pub struct Way {
    /// The address of the next hop.
    pub next: u16,
    /// The cost.
    pub cost: u16,
}

fn route_to(routes: &[ShownRoute], dest: u16) -> Option<&ShownRoute>
    ensures { option_copied result ≡ find (scenes.leads_to dest) routes.now }
{
    routes.iter().find(|route| route.dest.number() == dest)
}

fn way_of(route: &ShownRoute) -> Option<Way>
    ensures { result ≡ scenes.way_by route.now.next route.now.cost }
{
    match route.next {
        Some(next) => Some(Way {
            next,
            cost: route.cost,
        }),
        None => None,
    }
}

impl<'a> Moment<'a> {
    // The numbers of the flights that are meant.
    fn numbers(&self, meant: Meant) -> Result<Vec<usize>, AllocError>
        ensures { IfOk result (λ numbers. numbers.items ≡ scenes.numbers meant (scene_of self.now)) }
    {
        meant_numbers(self.alloc, meant, self.recorded.first_flight, self.flights)
    }

    /// The flights that are meant, by their numbers.
    pub fn named(&self, meant: Meant) -> Result<String, AllocError>
        ensures { IfOk result (λ text. string_bytes text ≡ scenes.named meant (scene_of self.now)) }
    {
        let numbers = self.numbers(meant)?;
        named(self.alloc, numbers.as_slice())
    }

    // The same in brackets, where there are any.
    fn bracketed(&self, meant: Meant) -> Result<String, AllocError>
        ensures { IfOk result (λ text. string_bytes text ≡ scenes.bracketed meant (scene_of self.now)) }
    {
        let numbers = self.numbers(meant)?;
        bracketed(self.alloc, numbers.as_slice())
    }

    // What waited and leaves.
    fn leaving(&self) -> Result<String, AllocError>
        ensures { IfOk result (λ text. string_bytes text ≡ scenes.leaving (scene_of self.now)) }
    {
        let numbers = self.numbers(Meant::Waiting)?;
        leaving(self.alloc, numbers.as_slice())
    }

    /// Whom the first flight is for that is meant.
    pub fn target(&self, meant: Meant) -> Who
        ensures { result ≡ scenes.target meant (scene_of self.now) }
    {
        first_target(meant, self.flights, self.homes, self.euis)
    }

    /// The sentence of these parts.
    pub fn say(&self, parts: &[Part<'_>]) -> Result<String, AllocError>
        ensures { IfOk result (λ text. string_bytes text ≡ parts_text parts.now) }
    {
        let mut text = String::with_capacity(self.alloc, parts.len().saturating_mul(PART_OCTETS))?;
        push_parts(&mut text, self.alloc, parts)?;
        Ok(text)
    }

    /// The same, and the flights of the event in brackets.
    pub fn with_flights(&self, parts: &[Part<'_>]) -> Result<String, AllocError>
        ensures { IfOk result (λ text. string_bytes text ≡ scenes.with_flights parts.now (scene_of self.now)) }
    {
        let mut text = self.say(parts)?;
        let flights = self.bracketed(Meant::All)?;
        text.push_str(flights.as_str())?;
        Ok(text)
    }

    /// The node with an address.
    pub fn at<'b>(&self, address: u16) -> Part<'b>
        ensures { result ≡ scenes.at address (scene_of self.now) }
    {
        place(who_at(address, self.homes))
    }

    /// The rank that is kept of an address.
    pub fn route(&self, dest: u16) -> Option<ShownRoute>
        ensures { result ≡ scenes.route dest (scene_of self.now) }
    {
        route_to(self.shown.routes.routes(), dest).copied()
    }

    // Where the valid route to an address goes, if there is one.
    fn way_to(&self, dest: u16) -> Option<Way>
        ensures { result ≡ scenes.way_to dest (scene_of self.now) }
    {
        match self.route(dest) {
            Some(route) => way_of(&route),
            None => None,
        }
    }

    // By which node a route leads to an address.
    fn by_whom(&self, dest: u16, next: u16) -> Result<String, AllocError>
        ensures { IfOk result (λ text. string_bytes text ≡ scenes.by_text dest next (scene_of self.now)) }
    {
        if next == dest {
            return self.say(&[words("directly")]);
        }
        self.say(&[words("by "), self.at(next)])
    }

    fn reaches(&self, dest: u16, way: Way) -> Result<String, AllocError>
        ensures { IfOk result (λ text. string_bytes text ≡ scenes.reaches_text dest way (scene_of self.now)) }
    {
        let by = self.by_whom(dest, way.next)?;
        self.say(&[
            words(": it reaches "),
            self.at(dest),
            words(" "),
            words(by.as_str()),
            words(" now, at cost "),
            number(way.cost as usize),
        ])
    }

    fn leads(&self, dest: u16, way: Way) -> Result<String, AllocError>
        ensures { IfOk result (λ text. string_bytes text ≡ scenes.leads_text dest way (scene_of self.now)) }
    {
        let by = self.by_whom(dest, way.next)?;
        self.say(&[
            words(": "),
            words(by.as_str()),
            words(", at cost "),
            number(way.cost as usize),
        ])
    }

    // That the node reaches the origin of a route message now, where it does.
    fn way(&self, origin: u16) -> Result<String, AllocError>
        ensures { IfOk result (λ text. string_bytes text ≡ scenes.way_text origin (scene_of self.now)) }
    {
        match self.way_to(origin) {
            Some(way) => self.reaches(origin, way),
            None => self.say(&[]),
        }
    }

    // The same without the origin.
    fn short_way(&self, origin: u16) -> Result<String, AllocError>
        ensures { IfOk result (λ text. string_bytes text ≡ scenes.short_way_text origin (scene_of self.now)) }
    {
        match self.way_to(origin) {
            Some(way) => self.leads(origin, way),
            None => self.say(&[]),
        }
    }

    /// The flights that are meant, in brackets, the way back to an origin, and what waited for it.
    pub fn follows(&self, meant: Meant, origin: u16) -> Result<String, AllocError>
        ensures { IfOk result (λ text. string_bytes text ≡ scenes.follows_text meant origin (scene_of self.now)) }
    {
        let mut text = self.bracketed(meant)?;
        let rest = self.way_and_leaving(origin)?;
        text.push_str(rest.as_str())?;
        Ok(text)
    }

    fn way_and_leaving(&self, origin: u16) -> Result<String, AllocError>
        ensures { IfOk result (λ text. string_bytes text ≡ scenes.way_and_leaving origin (scene_of self.now)) }
    {
        let mut text = self.way(origin)?;
        let leaving = self.leaving()?;
        text.push_str(leaving.as_str())?;
        Ok(text)
    }

    /// The way to an origin without its name, and what waited for it.
    pub fn leads_and_leaving(&self, origin: u16) -> Result<String, AllocError>
        ensures { IfOk result (λ text. string_bytes text ≡ scenes.leads_and_leaving origin (scene_of self.now)) }
    {
        let mut text = self.short_way(origin)?;
        let leaving = self.leaving()?;
        text.push_str(leaving.as_str())?;
        Ok(text)
    }

    /// The sentence of the event.
    #[tactic(auto, unfolding(crate::specs::Texts::event_text))]
    pub fn text(&self) -> Result<String, AllocError>
        ensures { IfOk result (λ text. string_bytes text ≡ texts.event_text (scene_of self.now)) }
    {
        if self.recorded.answer.is_ok() {
            return self.done();
        }
        self.refused()
    }

    fn done(&self) -> Result<String, AllocError>
        ensures { IfOk result (λ text. string_bytes text ≡ texts.done_text (scene_of self.now)) }
    {
        match self.heard {
            Some(heard) => self.taken(heard),
            None => self.asked(),
        }
    }

    fn refused(&self) -> Result<String, AllocError>
        ensures { IfOk result (λ text. string_bytes text ≡ texts.refused_text (scene_of self.now)) }
    {
        match self.heard {
            Some(heard) => self.refused_frame(heard),
            None => self.refused_order(),
        }
    }
}
