//! What became of a flight, in words.
ghost use Rattle.std.specs.Prelude.{◌≡◌, ◌++◌, IfOk, OnOk, string_bytes};
ghost use Rattle.line_record.specs.RunRecords.{numbered};
ghost use Rattle.line_record.specs.Verdicts.{went_on};
ghost use Rattle.story_accounts.specs.PeerMarks.{mark_in};
ghost use Rattle.story_accounts.specs.Fates as spec_fates;

use crate::account::Account;
use crate::numbers::numbered;
use frame_facts::{FlightMore, FrameTarget, PayloadKind, kind_word};
use line_record::{Course, Fate, RecordedFlight, actor_of, takes_counter, went_on};
use line_script::answer_word;
use sentence_parts::{node, number, place, push_parts, sentence, who_of, words};
use std::alloc::{AllocError, Global};

// What a flight to all is.
fn what_word(kind: PayloadKind) -> &'static str
    ensures { result.now ≡ spec_fates.what_word kind }
{
    match kind {
        PayloadKind::RouteRequest => "request",
        PayloadKind::Broadcast => "broadcast",
        _ => kind_word(kind),
    }
}

fn lost_words(fate: &Fate) -> &'static str
    ensures { result.now ≡ spec_fates.lost_words fate.now }
{
    match fate {
        Fate::Lost { .. } => ", it was lost",
        _ => "",
    }
}

/// Whether a flight never came to the node that it is for.
pub fn is_mute(fate: &Fate) -> bool
    ensures { result ≡ spec_fates.is_mute fate.now }
{
    match fate {
        Fate::Missed => true,
        Fate::Lost { .. } => true,
        _ => false,
    }
}

fn missed_words(overheard: bool) -> &'static str
    ensures { result.now ≡ spec_fates.missed_words overheard }
{
    if overheard {
        return " was never delivered to it (heard by others)";
    }
    " was never delivered to it"
}

/// Whether a frame is for all nodes.
pub fn is_to_all(target: &FrameTarget) -> bool
    ensures { result ≡ spec_fates.is_to_all target.now }
{
    match target {
        FrameTarget::All => true,
        _ => false,
    }
}

fn separator(place: usize) -> &'static str
    ensures { result.now ≡ spec_fates.separator place }
{
    if place == 0 {
        return "";
    }
    "; "
}

/// Some words and other words.
pub fn two_words(alloc: Global, first: &str, second: &str) -> Result<String, AllocError>
    ensures { IfOk result (λ text. string_bytes text ≡ spec_fates.two_words first.now second.now) }
{
    sentence(alloc, &[words(first), words(second)])
}

impl<'a> Account<'a> {
    #[tactic(auto, unfolding(crate::specs::Fates::hearer_text))]
    fn push_hearer(&self, text: &mut String, event: usize) -> Result<(), AllocError>
        ensures { OnOk result (string_bytes text.new ≡ string_bytes text.old ++ spec_fates.hearer_text self.now event) }
    {
        let Some(recorded) = self.event(event) else {
            return Ok(());
        };
        push_parts(
            text,
            self.alloc,
            &[
                node(actor_of(&recorded.act)),
                words(" "),
                words(answer_word(recorded.answer)),
                words(" (event "),
                number(event),
                words(")"),
            ],
        )
    }

    fn push_hearers(&self, text: &mut String, events: &[usize]) -> Result<(), AllocError>
        ensures { OnOk result (string_bytes text.new ≡ string_bytes text.old ++ spec_fates.hearers_from self.now 0 events.now) }
    {
        for (i, event) in events.iter().enumerate() {
            text.push_str(separator(i))?;
            self.push_hearer(text, *event)?;
        }
        Ok(())
    }

    /// A flight to all that no node heard.
    #[tactic(auto, unfolding(crate::specs::Fates::unreached_text))]
    pub fn unreached_text(
        &self,
        flight: usize,
        recorded: &RecordedFlight,
        fate: &Fate,
    ) -> Result<String, AllocError>
        ensures { IfOk result (λ text. string_bytes text ≡ spec_fates.unreached_text flight recorded.now fate.now) }
    {
        self.say(&[
            words("the "),
            words(what_word(recorded.kind)),
            words(" (flight "),
            number(flight),
            words(" of "),
            node(u32::from(recorded.from)),
            words(") reached no node"),
            words(lost_words(fate)),
        ])
    }

    /// A flight to all that each node refused which heard it, with the nodes that heard it at these events.
    #[tactic(auto, unfolding(crate::specs::Fates::refused_by_all_text))]
    pub fn refused_by_all_text(
        &self,
        flight: usize,
        recorded: &RecordedFlight,
        events: &[usize],
    ) -> Result<String, AllocError>
        ensures { IfOk result (λ text. string_bytes text ≡ spec_fates.refused_by_all_text self.now flight recorded.now events.now) }
    {
        let mut text = self.say(&[
            words("the "),
            words(what_word(recorded.kind)),
            words(" (flight "),
            number(flight),
            words(") was refused by all that heard it: "),
        ])?;
        self.push_hearers(&mut text, events)?;
        Ok(text)
    }

    // A flight to all that nobody took.
    fn unheard_text(
        &self,
        flight: usize,
        recorded: &RecordedFlight,
        fate: &Fate,
    ) -> Result<String, AllocError>
        ensures { IfOk result (λ text. string_bytes text ≡ spec_fates.unheard_text self.now flight recorded.now fate.now) }
    {
        if is_mute(fate) {
            return self.unreached_text(flight, recorded, fate);
        }
        let hearings = self.index.hearings(flight);
        self.refused_by_all_text(flight, recorded, &hearings[..hearings.len().min(3)])
    }

    /// A flight with its number, from whom to whom.
    #[tactic(auto, unfolding(crate::specs::Fates::way_text))]
    pub fn way_text(&self, flight: usize, recorded: &RecordedFlight) -> Result<String, AllocError>
        ensures { IfOk result (λ text. string_bytes text ≡ spec_fates.way_text self.now flight recorded.now) }
    {
        self.say(&[
            words("flight "),
            number(flight),
            words(" from "),
            node(u32::from(recorded.from)),
            words(" to "),
            place(who_of(&recorded.target, self.homes, self.euis)),
        ])
    }

    fn is_taken_at(&self, event: usize, node: u32) -> bool
        ensures { result ≡ spec_fates.is_taken_by (numbered self.now.events event) node }
    {
        match self.event(event) {
            None => false,
            Some(recorded) => takes_counter(recorded.answer) && actor_of(&recorded.act) == node,
        }
    }

    // The first of these events at which a node takes the counter of a frame, 0 if there is none.
    fn taken_in(&self, node: u32, events: &[usize]) -> usize
        ensures { result ≡ spec_fates.taken_in self.now node events.now }
    {
        for event in events {
            if self.is_taken_at(*event, node) {
                return *event;
            }
        }
        0
    }

    fn push_restart(&self, text: &mut String, event: usize) -> Result<(), AllocError>
        ensures { OnOk result (string_bytes text.new ≡ string_bytes text.old ++ spec_fates.restart_text event) }
    {
        if event == 0 {
            return Ok(());
        }
        push_parts(
            text,
            self.alloc,
            &[
                words(" that it has since its restart (event "),
                number(event),
                words(")"),
            ],
        )
    }

    fn push_overtaker(
        &self,
        text: &mut String,
        flight: usize,
        event: usize,
    ) -> Result<(), AllocError>
        ensures { OnOk result (string_bytes text.new ≡ string_bytes text.old ++ spec_fates.overtaker_text flight event) }
    {
        push_parts(
            text,
            self.alloc,
            &[
                words(" (flight "),
                number(flight),
                words(", event "),
                number(event),
                words(")"),
            ],
        )
    }

    // What raised a mark of a node: a flight that it took, or its restart.
    fn push_raised(&self, text: &mut String, flight: usize, node: u32) -> Result<(), AllocError>
        ensures { OnOk result (string_bytes text.new ≡ string_bytes text.old ++ spec_fates.raised_text flight self.now node) }
    {
        let event = self.taken_in(node, self.index.hearings(flight));
        if event == 0 {
            return self.push_restart(text, self.index.restart(node));
        }
        self.push_overtaker(text, flight, event)
    }

    fn push_refusing(&self, text: &mut String, counter: u32, mark: u32) -> Result<(), AllocError>
        ensures { OnOk result (string_bytes text.new ≡ string_bytes text.old ++ spec_fates.refusing_text counter mark) }
    {
        push_parts(
            text,
            self.alloc,
            &[
                words(", and would be refused: its counter "),
                number(counter as usize),
                words(" is not above the mark "),
                number(mark as usize),
            ],
        )
    }

    fn push_would_by(
        &self,
        text: &mut String,
        mark: Option<u32>,
        more: &FlightMore,
        node: u32,
    ) -> Result<(), AllocError>
        ensures { OnOk result (string_bytes text.new ≡ string_bytes text.old ++ spec_fates.would_by mark more.now self.now node) }
    {
        let Some(mark) = mark else {
            return Ok(());
        };
        if more.counter <= mark {
            let flight = self.counters.flight(more.from, mark) as usize;
            self.push_refusing(text, more.counter, mark)?;
            return self.push_raised(text, flight, node);
        }
        Ok(())
    }

    fn mark_at(&self, node: u32, from: u16) -> Option<u32>
        ensures { result ≡ mark_in from (spec_fates.marks_at self.now node) }
    {
        match self.marks.get(node as usize) {
            None => None,
            Some(marks) => marks.of(from),
        }
    }

    fn push_would_at(
        &self,
        text: &mut String,
        to: Option<u32>,
        more: &FlightMore,
    ) -> Result<(), AllocError>
        ensures { OnOk result (string_bytes text.new ≡ string_bytes text.old ++ spec_fates.would_at to more.now self.now) }
    {
        let Some(node) = to else {
            return Ok(());
        };
        if !more.sealed {
            return Ok(());
        }
        self.push_would_by(text, self.mark_at(node, more.from), more, node)
    }

    // Whether a flight would be refused by the node that it is for.
    fn push_would(
        &self,
        text: &mut String,
        flight: usize,
        to: Option<u32>,
    ) -> Result<(), AllocError>
        ensures { OnOk result (string_bytes text.new ≡ string_bytes text.old ++ spec_fates.would_text self.now flight to) }
    {
        match numbered(self.more, flight) {
            None => Ok(()),
            Some(more) => self.push_would_at(text, to, &more),
        }
    }

    #[tactic(auto, unfolding(crate::specs::Fates::missed_text))]
    fn missed_text(
        &self,
        flight: usize,
        recorded: &RecordedFlight,
        course: &Course,
    ) -> Result<String, AllocError>
        ensures { IfOk result (λ text. string_bytes text ≡ spec_fates.missed_text self.now flight recorded.now course.now) }
    {
        let way = self.way_text(flight, recorded)?;
        let mut text = two_words(self.alloc, way.as_str(), missed_words(course.overheard))?;
        self.push_would(&mut text, flight, course.to)?;
        Ok(text)
    }

    #[tactic(auto, unfolding(crate::specs::Fates::lost_text))]
    fn lost_text(
        &self,
        flight: usize,
        recorded: &RecordedFlight,
        event: usize,
    ) -> Result<String, AllocError>
        ensures { IfOk result (λ text. string_bytes text ≡ spec_fates.lost_text self.now flight recorded.now event) }
    {
        let way = self.way_text(flight, recorded)?;
        self.say(&[
            words(way.as_str()),
            words(" was lost (event "),
            number(event),
            words(")"),
        ])
    }

    #[tactic(auto, unfolding(crate::specs::Fates::refused_text))]
    fn refused_text(&self, flight: usize, event: usize) -> Result<String, AllocError>
        ensures { IfOk result (λ text. string_bytes text ≡ spec_fates.refused_text self.now flight event) }
    {
        self.say(&[
            words("flight "),
            number(flight),
            words(", event "),
            number(event),
            words(", "),
            words(self.answer_at(event)),
            words(": "),
            words(self.why(event)),
        ])
    }

    #[tactic(auto, unfolding(crate::specs::Fates::reported_text))]
    fn reported_text(&self, event: usize) -> Result<String, AllocError>
        ensures { IfOk result (λ text. string_bytes text ≡ spec_fates.reported_text self.now event) }
    {
        self.say(&[
            words(self.why(event)),
            words(" (event "),
            number(event),
            words(")"),
        ])
    }

    #[tactic(auto, unfolding(crate::specs::Fates::taken_text))]
    fn taken_text(&self, flight: usize, event: usize) -> Result<String, AllocError>
        ensures { IfOk result (λ text. string_bytes text ≡ spec_fates.taken_text flight event) }
    {
        self.say(&[
            words("the last of it, flight "),
            number(flight),
            words(", was taken at event "),
            number(event),
            words("; nothing followed"),
        ])
    }

    fn single_text(
        &self,
        flight: usize,
        recorded: &RecordedFlight,
        course: &Course,
    ) -> Result<String, AllocError>
        ensures { IfOk result (λ text. string_bytes text
            ≡ spec_fates.single_text course.now.fate self.now flight recorded.now course.now) }
    {
        match course.fate {
            Fate::Missed => self.missed_text(flight, recorded, course),
            Fate::Lost { event } => self.lost_text(flight, recorded, event),
            Fate::Refused { event } => self.refused_text(flight, event),
            Fate::Reported { event } => self.reported_text(event),
            Fate::WentOn { event } => self.taken_text(flight, event),
        }
    }

    fn found_text(
        &self,
        flight: usize,
        recorded: &RecordedFlight,
        course: &Course,
    ) -> Result<String, AllocError>
        ensures { IfOk result (λ text. string_bytes text ≡ spec_fates.found_text self.now flight recorded.now course.now) }
    {
        if is_to_all(&recorded.target) && !went_on(&course.fate) {
            return self.unheard_text(flight, recorded, &course.fate);
        }
        self.single_text(flight, recorded, course)
    }

    /// What became of a flight, by its number from 1.
    #[tactic(auto, unfolding(crate::specs::Fates::fate_text))]
    pub fn fate_text(&self, flight: usize) -> Result<String, AllocError>
        ensures { IfOk result (λ text. string_bytes text ≡ spec_fates.fate_text self.now flight) }
    {
        let Some(recorded) = self.flight(flight) else {
            return String::from_str(self.alloc, "nothing went out");
        };
        let Some(course) = self.course(flight) else {
            return String::from_str(self.alloc, "nothing went out");
        };
        self.found_text(flight, &recorded, &course)
    }
}
