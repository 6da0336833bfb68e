//! The whole text of an account: what was forged, the sections, what was refused, and the flights that never came.
ghost use Rattle.std.specs.Prelude.{◌≡◌, ◌<◌, ◌++◌, IfOk, IfSome, OnOk, length, position, slice_get, string_bytes};
ghost use Rattle.story_accounts.specs.Sections as sections;
ghost use Rattle.story_accounts.specs.Indexes.{number_or_0};

use crate::account::Account;
use crate::fates::is_mute;
use crate::groups::{Group, join, largest_first};
use crate::reasons::{push_if, push_padded, push_widened};
use crate::section::{Chosen, SECTIONS, is_part};
use line_record::{RecordedEvent, is_refused};
use sentence_parts::{number, push_parts, words};
use std::alloc::{AllocError, Global};

/// This many flights that never came are named.
const MOST: usize = 20;

fn is_maker(flight: usize, recorded: &RecordedEvent) -> bool
    ensures { result ≡ sections.is_maker flight recorded.now }
{
    let first = recorded.first_flight as usize;
    first <= flight && flight - first < recorded.flights as usize
}

// The place of the event that made a flight.
fn maker_place(events: &[RecordedEvent], flight: usize) -> Option<usize>
    ensures value { result ≡ position (sections.is_maker flight) events.now }
    ensures bound { IfSome result (λ p. p < length events.now) }
{
    events
        .iter()
        .position(|recorded| is_maker(flight, recorded))
}

fn push_refusals_head(text: &mut String, alloc: Global, count: usize) -> Result<(), AllocError>
    ensures { OnOk result (string_bytes text.new ≡ string_bytes text.old ++ sections.refusals_head count) }
{
    push_parts(
        text,
        alloc,
        &[words("\nRefusals: "), number(count), words("\n")],
    )
}

fn push_mute_head(text: &mut String, alloc: Global, count: usize) -> Result<(), AllocError>
    ensures { OnOk result (string_bytes text.new ≡ string_bytes text.old ++ sections.mute_head count) }
{
    push_parts(
        text,
        alloc,
        &[
            words("\nFrames that never came to the node that they are for: "),
            number(count),
            words("\n"),
        ],
    )
}

fn first_member(group: &Group) -> usize
    ensures { result ≡ number_or_0 (slice_get group.now.members 0) }
{
    match group.members().first() {
        Some(first) => *first,
        None => 0,
    }
}

impl<'a> Account<'a> {
    fn line_at(&self, event: usize) -> u32
        ensures { result ≡ sections.line_at self.now event }
    {
        match self.event(event) {
            Some(recorded) => recorded.line,
            None => 0,
        }
    }

    fn refused_events(&self) -> Result<Vec<usize>, AllocError>
        ensures { IfOk result (λ list. list.items ≡ sections.refused_from 0 self.now.events) }
    {
        let mut list = Vec::new(self.alloc);
        for (i, recorded) in self.run_record.events.iter().enumerate() {
            push_if(&mut list, is_refused(recorded.answer), i + 1)?;
        }
        Ok(list)
    }

    fn join_answers(&self, groups: &mut Vec<Group>, events: &[usize]) -> Result<(), AllocError>
        ensures { OnOk result (groups.new.items ≡ sections.answers_from self.now events.now groups.old.items) }
    {
        for event in events {
            let word = String::from_str(self.alloc, self.answer_at(*event))?;
            join(groups, self.alloc, word, *event)?;
        }
        Ok(())
    }

    fn push_first(&self, text: &mut String, event: usize) -> Result<(), AllocError>
        ensures { OnOk result (string_bytes text.new ≡ string_bytes text.old ++ sections.first_text self.now event) }
    {
        push_parts(
            text,
            self.alloc,
            &[
                words(" first at event "),
                number(event),
                words(", line "),
                number(self.line_at(event) as usize),
                words(": "),
                words(self.why(event)),
                words("\n"),
            ],
        )
    }

    #[tactic(auto, unfolding(crate::specs::Sections::refusal_row))]
    fn push_refusal_row(&self, text: &mut String, group: &Group) -> Result<(), AllocError>
        ensures { OnOk result (string_bytes text.new ≡ string_bytes text.old ++ sections.refusal_row self.now group.now) }
    {
        text.push_str("  ")?;
        push_padded(text, group.members().len(), 5)?;
        text.push_str(" ")?;
        push_widened(text, group.word(), 12)?;
        self.push_first(text, first_member(group))
    }

    fn push_refusal_rows(&self, text: &mut String, groups: &[Group]) -> Result<(), AllocError>
        ensures { OnOk result (string_bytes text.new ≡ string_bytes text.old ++ sections.refusal_rows self.now groups.now) }
    {
        for group in groups {
            self.push_refusal_row(text, group)?;
        }
        Ok(())
    }

    #[tactic(auto, unfolding(crate::specs::Sections::refusals_of))]
    fn push_refusals_of(&self, text: &mut String, events: &[usize]) -> Result<(), AllocError>
        ensures { OnOk result (string_bytes text.new ≡ string_bytes text.old ++ sections.refusals_of self.now events.now) }
    {
        let mut groups = Vec::new(self.alloc);
        self.join_answers(&mut groups, events)?;
        let sorted = largest_first(self.alloc, groups)?;
        push_refusals_head(text, self.alloc, events.len())?;
        self.push_refusal_rows(text, sorted.as_slice())
    }

    // How often what was refused, the most first, with the first of each.
    fn push_refusals(&self, text: &mut String) -> Result<(), AllocError>
        ensures { OnOk result (string_bytes text.new ≡ string_bytes text.old ++ sections.refusals_text self.now) }
    {
        let refused = self.refused_events()?;
        if refused.is_empty() {
            return Ok(());
        }
        self.push_refusals_of(text, refused.as_slice())
    }

    fn mute_flights(&self) -> Result<Vec<usize>, AllocError>
        ensures { IfOk result (λ list. list.items ≡ sections.mute_from 0 self.now.courses) }
    {
        let mut list = Vec::new(self.alloc);
        for (i, course) in self.courses.iter().enumerate() {
            push_if(&mut list, is_mute(&course.fate), i + 1)?;
        }
        Ok(list)
    }

    // The event that made a flight.
    fn made_at(&self, flight: usize) -> usize
        ensures { result ≡ sections.made_at self.now flight }
    {
        match maker_place(self.run_record.events.as_slice(), flight) {
            Some(place) => place + 1,
            None => 0,
        }
    }

    #[tactic(auto, unfolding(crate::specs::Sections::mute_row))]
    fn push_mute_row(
        &self,
        text: &mut String,
        flight: usize,
        event: usize,
    ) -> Result<(), AllocError>
        ensures { OnOk result (string_bytes text.new ≡ string_bytes text.old ++ sections.mute_row self.now flight event) }
    {
        let fate = self.fate_text(flight)?;
        push_parts(
            text,
            self.alloc,
            &[
                words("        flight "),
                number(flight),
                words(", event "),
                number(event),
                words(", line "),
                number(self.line_at(event) as usize),
                words(": "),
                words(fate.as_str()),
                words("\n"),
            ],
        )
    }

    fn push_mute_rows(&self, text: &mut String, flights: &[usize]) -> Result<(), AllocError>
        ensures { OnOk result (string_bytes text.new ≡ string_bytes text.old ++ sections.mute_rows self.now flights.now) }
    {
        for flight in flights {
            self.push_mute_row(text, *flight, self.made_at(*flight))?;
        }
        Ok(())
    }

    #[tactic(auto, unfolding(crate::specs::Sections::mute_of))]
    fn push_mute_of(&self, text: &mut String, flights: &[usize]) -> Result<(), AllocError>
        ensures { OnOk result (string_bytes text.new ≡ string_bytes text.old ++ sections.mute_of self.now flights.now) }
    {
        push_mute_head(text, self.alloc, flights.len())?;
        self.push_mute_rows(text, &flights[..flights.len().min(MOST)])
    }

    // The flights that never came to the node that they are for: how many there are, and the first of them.
    fn push_mute(&self, text: &mut String) -> Result<(), AllocError>
        ensures { OnOk result (string_bytes text.new ≡ string_bytes text.old ++ sections.mute_text self.now) }
    {
        let mute = self.mute_flights()?;
        if mute.is_empty() {
            return Ok(());
        }
        self.push_mute_of(text, mute.as_slice())
    }

    #[tactic(auto, unfolding(crate::specs::Sections::forged_row))]
    fn push_forged_row(
        &self,
        text: &mut String,
        event: usize,
        recorded: &RecordedEvent,
    ) -> Result<(), AllocError>
        ensures { OnOk result (string_bytes text.new ≡ string_bytes text.old ++ sections.forged_row self.now event recorded.now) }
    {
        push_parts(
            text,
            self.alloc,
            &[
                words("FORGED at event "),
                number(event),
                words(", line "),
                number(recorded.line as usize),
                words(": "),
                words(self.why(event)),
                words(". No node of this run had made that tag with that key.\n"),
            ],
        )
    }

    fn push_if_forged(
        &self,
        text: &mut String,
        event: usize,
        recorded: &RecordedEvent,
    ) -> Result<(), AllocError>
        ensures { OnOk result (string_bytes text.new ≡ string_bytes text.old ++ sections.forged_by self.now event recorded.now) }
    {
        if !recorded.forged {
            return Ok(());
        }
        self.push_forged_row(text, event, recorded)
    }

    // The forged events.
    fn push_forged(&self, text: &mut String) -> Result<(), AllocError>
        ensures { OnOk result (string_bytes text.new ≡ string_bytes text.old ++ sections.forged_from self.now 0 self.now.events) }
    {
        for (i, recorded) in self.run_record.events.iter().enumerate() {
            self.push_if_forged(text, i + 1, recorded)?;
        }
        Ok(())
    }

    fn push_rest(&self, text: &mut String, chosen: Chosen) -> Result<(), AllocError>
        ensures { OnOk result (string_bytes text.new ≡ string_bytes text.old ++ sections.rest_text self.now chosen) }
    {
        if is_part(chosen) {
            return Ok(());
        }
        self.push_refusals(text)?;
        self.push_mute(text)
    }

    /// Appends what became of the chosen stories: the forged events, each section, and where all are chosen the refusals and the flights
    /// that never came.
    ///
    /// It fails only where memory runs out; the text may end anywhere then.
    #[tactic(auto, unfolding(crate::specs::Sections::account_text))]
    pub fn push_account(&self, text: &mut String, chosen: Chosen) -> Result<(), AllocError>
        ensures { OnOk result (string_bytes text.new ≡ string_bytes text.old ++ sections.account_text self.now chosen) }
    {
        self.push_forged(text)?;
        self.push_section_list(text, &SECTIONS, chosen)?;
        self.push_rest(text, chosen)
    }
}
