//! A run with its stories and its sentences.
ghost use Rattle.std.specs.Prelude.{◌≡◌, IfOk, string_bytes};
ghost use Rattle.line_record.specs.RunRecords.{numbered};
ghost use Rattle.sentence_parts.specs.Parts.{parts_text};
ghost use Rattle.story_accounts.specs.Accounts as accounts;

use crate::index::Index;
use crate::marks::Marks;
use crate::numbers::numbered;
use frame_facts::FlightMore;
use line_record::{
    Counters, Course, Ends, RecordedEvent, RecordedFlight, RunRecord, Story, Verdict, verdict_of,
};
use line_script::answer_word;
use plc_base::Eui;
use sentence_parts::{Part, sentence};
use std::alloc::{AllocError, Global};
use std::marker::Model;

/// A run with its stories and its sentences. Events, flights and stories have numbers from 1, nodes and addresses from 0.
#[derive(Drop)]
pub struct Account<'a> {
    /// Where texts are made.
    pub alloc: Global,
    /// The run.
    pub run_record: &'a RunRecord,
    /// What its flights carry that no story goes by.
    pub more: &'a [FlightMore],
    /// Which flight was sealed with which counter.
    pub counters: &'a Counters,
    /// The marks that each node showed last.
    pub marks: &'a [Marks],
    /// Its stories.
    pub stories: &'a [Story],
    /// The story of each event.
    pub owners: &'a [usize],
    /// What became of each flight.
    pub courses: &'a [Course],
    /// The ends of the stories.
    pub ends: &'a [Ends],
    /// What is looked up of it.
    pub index: &'a Index,
    /// The node of each short address.
    pub homes: &'a [u32],
    /// The EUI-64 of each node.
    pub euis: &'a [Eui],
    /// The sentence of each event.
    pub sentences: &'a [String],
}

impl<'a> Model for Account<'a> {
    ghost use Rattle.std.specs.Prelude.{map, string_bytes};
    ghost use Rattle.story_accounts.specs.Accounts.{RunAccount};

    ghost Value = { RunAccount };

    ghost view = { λ a. record {
      events = a.run_record.now.events.items;
      flights = a.run_record.now.flights.items;
      more = a.more.now;
      counters = a.counters.now;
      marks = a.marks.now;
      stories = a.stories.now;
      owners = a.owners.now;
      courses = a.courses.now;
      ends = a.ends.now;
      index = a.index.now;
      homes = a.homes.now;
      euis = a.euis.now;
      sentences = map string_bytes a.sentences.now;
    } };
}

impl<'a> Account<'a> {
    /// A text of its own.
    pub fn say(&self, parts: &[Part<'_>]) -> Result<String, AllocError>
        ensures { IfOk result (λ text. string_bytes text ≡ parts_text parts.now) }
    {
        sentence(self.alloc, parts)
    }

    /// The event of a number, if there is one.
    pub fn event(&self, number: usize) -> Option<RecordedEvent>
        ensures { result ≡ numbered self.now.events number }
    {
        numbered(self.run_record.events.as_slice(), number)
    }

    /// The flight of a number, if there is one.
    pub fn flight(&self, number: usize) -> Option<RecordedFlight>
        ensures { result ≡ numbered self.now.flights number }
    {
        numbered(self.run_record.flights.as_slice(), number)
    }

    /// The story of a number, if there is one.
    pub fn story(&self, number: usize) -> Option<Story>
        ensures { result ≡ numbered self.now.stories number }
    {
        numbered(self.stories, number)
    }

    /// What became of the flight of a number, if there is one.
    pub fn course(&self, number: usize) -> Option<Course>
        ensures { result ≡ numbered self.now.courses number }
    {
        numbered(self.courses, number)
    }

    /// The ends of a story.
    pub fn ends_of(&self, story: usize) -> Ends
        ensures { result ≡ accounts.ends_at self.now story }
    {
        match numbered(self.ends, story) {
            Some(ends) => ends,
            None => Ends {
                last: 0,
                borne: 0,
                bears: false,
                broken: 0,
            },
        }
    }

    /// The sentence of an event, no words where there is none.
    pub fn why(&self, event: usize) -> &'a str
        ensures { result.now ≡ accounts.why self.now event }
    {
        if event == 0 {
            return "";
        }
        match self.sentences.get(event - 1) {
            Some(text) => text.as_str(),
            None => "",
        }
    }

    /// How an event ended, by its word.
    pub fn answer_at(&self, event: usize) -> &'static str
        ensures { result.now ≡ accounts.answer_at self.now event }
    {
        match self.event(event) {
            Some(recorded) => answer_word(recorded.answer),
            None => "",
        }
    }

    /// The event that a story begins with, 0 where there is no such story.
    pub fn first_of(&self, story: usize) -> usize
        ensures { result ≡ accounts.first_of self.now story }
    {
        match self.story(story) {
            Some(found) => found.first,
            None => 0,
        }
    }

    /// What became of a story.
    #[tactic(auto, unfolding(crate::specs::Accounts::verdict_at))]
    pub fn verdict(&self, story: usize) -> Verdict
        ensures { result ≡ accounts.verdict_at self.now story }
    {
        let Some(found) = self.story(story) else {
            return Verdict::Nothing;
        };
        match self.event(found.first) {
            Some(event) => verdict_of(&found, &self.ends_of(story), &event),
            None => Verdict::Nothing,
        }
    }
}
