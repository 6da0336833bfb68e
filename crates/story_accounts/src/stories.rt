//! The text of a story, and of a section of stories.
ghost use Rattle.std.specs.Prelude.{◌≡◌, ◌<◌, ◌++◌, IfOk, IfSome, OnOk, length, position, string_bytes};
ghost use Rattle.story_accounts.specs.Sections as sections;

use crate::account::Account;
use crate::groups::Group;
use crate::numbers::numbered;
use crate::reasons::push_if;
use crate::section::{
    Chosen, Section, good_word, is_brief, is_broadcasts, section_kind, section_title,
};
use crate::titles::push_capital;
use line_events::Answer;
use line_record::{Course, RecordedEvent, Story, StoryKind, is_for_another, made_by};
use line_script::answer_word;
use sentence_parts::{number, push_parts, sentence, words};
use std::alloc::{AllocError, Global};

/// More stories than this many are many.
const MANY: usize = 20;

fn refusal_mark(alloc: Global, answer: Answer) -> Result<String, AllocError>
    ensures { IfOk result (λ text. string_bytes text ≡ sections.refusal_mark answer) }
{
    if answer.is_ok() {
        return Ok(String::new(alloc));
    }
    sentence(
        alloc,
        &[words(" ["), words(answer_word(answer)), words("]")],
    )
}

fn push_verdict_line(text: &mut String, outcome: &str) -> Result<(), AllocError>
    ensures { OnOk result (string_bytes text.new ≡ string_bytes text.old ++ sections.verdict_line outcome.now) }
{
    if outcome.is_empty() {
        return Ok(());
    }
    text.push_str("    ")?;
    push_capital(text, outcome)?;
    text.push_str(".\n")
}

fn good_text(alloc: Global, section: Section, count: usize) -> Result<String, AllocError>
    ensures { IfOk result (λ text. string_bytes text ≡ sections.good_text section count) }
{
    if is_broadcasts(section) {
        return Ok(String::new(alloc));
    }
    sentence(
        alloc,
        &[words(", "), number(count), words(good_word(section))],
    )
}

fn push_section_head(
    text: &mut String,
    alloc: Global,
    section: Section,
    count: usize,
    good: usize,
) -> Result<(), AllocError>
    ensures { OnOk result (string_bytes text.new ≡ string_bytes text.old ++ sections.section_head section count good) }
{
    let good = good_text(alloc, section, good)?;
    push_head_by(text, alloc, section_title(section), count, good.as_str())
}

fn push_head_by(
    text: &mut String,
    alloc: Global,
    title: &str,
    count: usize,
    good: &str,
) -> Result<(), AllocError>
    ensures { OnOk result (string_bytes text.new ≡ string_bytes text.old ++ sections.head_by title.now count good.now) }
{
    push_parts(
        text,
        alloc,
        &[
            words("\n"),
            words(title),
            words(": "),
            number(count),
            words(good),
            words("\n"),
        ],
    )
}

fn push_event_by(
    text: &mut String,
    alloc: Global,
    event: usize,
    line: u32,
    why: &str,
    mark: &str,
) -> Result<(), AllocError>
    ensures { OnOk result (string_bytes text.new ≡ string_bytes text.old ++ sections.event_line_by event line why.now mark.now) }
{
    push_parts(
        text,
        alloc,
        &[
            words("      event "),
            number(event),
            words(", line "),
            number(line as usize),
            words(": "),
            words(why),
            words("."),
            words(mark),
            words("\n"),
        ],
    )
}

fn left_words(kind: StoryKind) -> &'static str
    ensures { result.now ≡ sections.left_words kind }
{
    match kind {
        StoryKind::Datagram => "the datagram left as flight ",
        _ => "the message left as flight ",
    }
}

fn is_owner(owner: Option<usize>, number: usize) -> bool
    ensures { result ≡ sections.is_owner owner number }
{
    match owner {
        None => false,
        Some(owner) => owner == number,
    }
}

// The place of the first flight of a story among some.
fn first_of_story(courses: &[Course], number: usize) -> Option<usize>
    ensures value { result ≡ position (sections.is_of number) courses.now }
    ensures bound { IfSome result (λ p. p < length courses.now) }
{
    courses.iter().position(|course| course.story == number)
}

fn push_left_by(
    text: &mut String,
    alloc: Global,
    event: usize,
    line: u32,
    what: &'static str,
    flight: usize,
) -> Result<(), AllocError>
    ensures { OnOk result (string_bytes text.new ≡ string_bytes text.old ++ sections.left_by event line what.now flight) }
{
    push_parts(
        text,
        alloc,
        &[
            words("      event "),
            number(event),
            words(", line "),
            number(line as usize),
            words(": "),
            words(what),
            number(flight),
            words(".\n"),
        ],
    )
}

impl<'a> Account<'a> {
    fn is_chosen(&self, chosen: Chosen, number: usize, story: &Story) -> bool
        ensures { result ≡ sections.is_chosen chosen self.now number story.now }
    {
        match chosen {
            Chosen::Send { send } => self.index.send(number) == send as usize && send != 0,
            Chosen::Node { node } => story.person == node,
            _ => true,
        }
    }

    fn is_in(&self, section: Section, chosen: Chosen, number: usize, story: &Story) -> bool
        ensures { result ≡ sections.is_in self.now section chosen number story.now }
    {
        section_kind(section, story.kind) && self.is_chosen(chosen, number, story)
    }

    // The chosen stories of a section.
    fn stories_in(&self, section: Section, chosen: Chosen) -> Result<Vec<usize>, AllocError>
        ensures { IfOk result (λ list. list.items ≡ sections.stories_in self.now section chosen) }
    {
        let mut list = Vec::new(self.alloc);
        for (i, story) in self.stories.iter().enumerate() {
            push_if(&mut list, self.is_in(section, chosen, i + 1, story), i + 1)?;
        }
        Ok(list)
    }

    /// For which reasons the stories of a section failed, each with the numbers of its stories, the most first: those that `explain` counts.
    ///
    /// It fails only where memory runs out.
    #[tactic(auto, unfolding(crate::specs::Sections::section_reasons))]
    pub fn section_reasons(&self, section: Section) -> Result<Vec<Group>, AllocError>
        ensures { IfOk result (λ groups. groups.items ≡ sections.section_reasons self.now section) }
    {
        let stories = self.stories_in(section, Chosen::All)?;
        self.reasons(stories.as_slice())
    }

    // What came to a node that it is not for has no words.
    fn is_shown(&self, event: usize, recorded: &RecordedEvent) -> bool
        ensures { result ≡ sections.is_shown self.now event recorded.now }
    {
        !is_for_another(recorded.answer) || !self.why(event).is_empty()
    }

    #[tactic(auto, unfolding(crate::specs::Sections::event_line))]
    fn push_event_line(
        &self,
        text: &mut String,
        event: usize,
        recorded: &RecordedEvent,
    ) -> Result<(), AllocError>
        ensures { OnOk result (string_bytes text.new ≡ string_bytes text.old ++ sections.event_line self.now event recorded.now) }
    {
        let mark = refusal_mark(self.alloc, recorded.answer)?;
        let why = self.why(event);
        push_event_by(text, self.alloc, event, recorded.line, why, mark.as_str())
    }

    fn push_event(&self, text: &mut String, event: usize) -> Result<(), AllocError>
        ensures { OnOk result (string_bytes text.new ≡ string_bytes text.old ++ sections.event_text self.now event) }
    {
        let Some(recorded) = self.event(event) else {
            return Ok(());
        };
        if !self.is_shown(event, &recorded) {
            return Ok(());
        }
        self.push_event_line(text, event, &recorded)
    }

    // What left of a story at an event of another one.
    fn push_left(
        &self,
        text: &mut String,
        event: usize,
        recorded: &RecordedEvent,
        number: usize,
        story: &Story,
    ) -> Result<(), AllocError>
        ensures { OnOk result (string_bytes text.new
            ≡ string_bytes text.old ++ sections.left_text self.now event recorded.now number story.now) }
    {
        let made = made_by(recorded, self.courses);
        match first_of_story(made, number) {
            None => Ok(()),
            Some(place) => {
                let flight = recorded.first_flight as usize + place;
                push_left_by(
                    text,
                    self.alloc,
                    event,
                    recorded.line,
                    left_words(story.kind),
                    flight,
                )
            }
        }
    }

    // An event of a story, or of another one at which a flight of the story went out.
    fn push_story_event(
        &self,
        text: &mut String,
        event: usize,
        number: usize,
        story: &Story,
    ) -> Result<(), AllocError>
        ensures { OnOk result (string_bytes text.new
            ≡ string_bytes text.old ++ sections.story_event self.now event number story.now) }
    {
        if is_owner(numbered(self.owners, event), number) {
            return self.push_event(text, event);
        }
        match self.event(event) {
            None => Ok(()),
            Some(recorded) => self.push_left(text, event, &recorded, number, story),
        }
    }

    fn push_events(
        &self,
        text: &mut String,
        events: &[usize],
        number: usize,
        story: &Story,
    ) -> Result<(), AllocError>
        ensures { OnOk result (string_bytes text.new
            ≡ string_bytes text.old ++ sections.events_text self.now events.now number story.now) }
    {
        for event in events {
            self.push_story_event(text, *event, number, story)?;
        }
        Ok(())
    }

    #[tactic(auto, unfolding(crate::specs::Sections::story_head))]
    fn push_story_head(
        &self,
        text: &mut String,
        number: usize,
        story: &Story,
    ) -> Result<(), AllocError>
        ensures { OnOk result (string_bytes text.new ≡ string_bytes text.old ++ sections.story_head self.now number story.now) }
    {
        let title = self.title(number, story)?;
        let outcome = self.outcome_text(number)?;
        text.push_str("\n  ")?;
        push_capital(text, title.as_str())?;
        text.push_str("\n")?;
        push_verdict_line(text, outcome.as_str())
    }

    // A story: what it is about, its verdict, and, where it is whole, its events.
    fn push_story(
        &self,
        text: &mut String,
        number: usize,
        story: &Story,
        whole: bool,
    ) -> Result<(), AllocError>
        ensures { OnOk result (string_bytes text.new ≡ string_bytes text.old ++ sections.story_text self.now number story.now whole) }
    {
        self.push_story_head(text, number, story)?;
        if !whole {
            return Ok(());
        }
        self.push_events(text, self.index.events(number), number, story)
    }

    fn is_left_out(&self, chosen: Chosen, count: usize, number: usize) -> bool
        ensures { result ≡ sections.is_left_out self.now chosen count number }
    {
        self.came_well(number) && (is_brief(chosen) && count > MANY)
    }

    fn is_whole(&self, chosen: Chosen, number: usize) -> bool
        ensures { result ≡ sections.is_whole self.now chosen number }
    {
        !self.came_well(number) || !is_brief(chosen)
    }

    // A story of this many.
    #[tactic(auto, unfolding(crate::specs::Sections::entry_text))]
    fn push_entry(
        &self,
        text: &mut String,
        chosen: Chosen,
        count: usize,
        number: usize,
    ) -> Result<(), AllocError>
        ensures { OnOk result (string_bytes text.new ≡ string_bytes text.old ++ sections.entry_text self.now chosen count number) }
    {
        let Some(story) = self.story(number) else {
            return Ok(());
        };
        if self.is_left_out(chosen, count, number) {
            return Ok(());
        }
        self.push_story(text, number, &story, self.is_whole(chosen, number))
    }

    fn push_entries(
        &self,
        text: &mut String,
        chosen: Chosen,
        count: usize,
        numbers: &[usize],
    ) -> Result<(), AllocError>
        ensures { OnOk result (string_bytes text.new
            ≡ string_bytes text.old ++ sections.entries_text self.now chosen count numbers.now) }
    {
        for number in numbers {
            self.push_entry(text, chosen, count, *number)?;
        }
        Ok(())
    }

    // Why stories failed, where there are many.
    fn push_many_reasons(&self, text: &mut String, stories: &[usize]) -> Result<(), AllocError>
        ensures { OnOk result (string_bytes text.new ≡ string_bytes text.old ++ sections.many_reasons self.now stories.now) }
    {
        if stories.len() > MANY {
            return self.push_reasons(text, stories);
        }
        Ok(())
    }

    #[tactic(auto, unfolding(crate::specs::Sections::section_of))]
    fn push_section_of(
        &self,
        text: &mut String,
        section: Section,
        chosen: Chosen,
        stories: &[usize],
    ) -> Result<(), AllocError>
        ensures { OnOk result (string_bytes text.new
            ≡ string_bytes text.old ++ sections.section_of self.now section chosen stories.now) }
    {
        let good = self.good_among(stories)?;
        push_section_head(text, self.alloc, section, stories.len(), good.len())?;
        self.push_many_reasons(text, stories)?;
        self.push_entries(text, chosen, stories.len(), stories)
    }

    fn push_section(
        &self,
        text: &mut String,
        section: Section,
        chosen: Chosen,
    ) -> Result<(), AllocError>
        ensures { OnOk result (string_bytes text.new ≡ string_bytes text.old ++ sections.section_text self.now section chosen) }
    {
        let stories = self.stories_in(section, chosen)?;
        if stories.is_empty() {
            return Ok(());
        }
        self.push_section_of(text, section, chosen, stories.as_slice())
    }

    /// Appends some sections.
    pub fn push_section_list(
        &self,
        text: &mut String,
        list: &[Section],
        chosen: Chosen,
    ) -> Result<(), AllocError>
        ensures { OnOk result (string_bytes text.new ≡ string_bytes text.old ++ sections.sections_from self.now list.now chosen) }
    {
        for section in list {
            self.push_section(text, *section, chosen)?;
        }
        Ok(())
    }
}
