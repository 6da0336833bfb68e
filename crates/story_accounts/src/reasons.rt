//! Why stories failed, and how often.
ghost use Rattle.std.specs.Prelude.{◌≡◌, ◌++◌, ◌-◌, IfOk, OnOk, string_bytes};
ghost use Rattle.story_accounts.specs.Sections as sections;

use crate::account::Account;
use crate::fates::{is_to_all, two_words};
use crate::groups::{Group, join, largest_first};
use crate::searches::Reach;
use crate::waiting::{has_taken, until_of};
use frame_facts::FrameTarget;
use itoa::Buffer;
use line_events::Answer;
use line_record::{Fate, Kept, Story, Verdict, is_for_another, is_good};
use line_script::answer_word;
use sentence_parts::decimal_width;
use std::alloc::AllocError;

fn is_yes(good: Option<bool>) -> bool
    ensures { result ≡ sections.is_yes good }
{
    match good {
        None => false,
        Some(good) => good,
    }
}

fn is_no(good: Option<bool>) -> bool
    ensures { result ≡ sections.is_no good }
{
    match good {
        None => false,
        Some(good) => !good,
    }
}

fn missed_reason(to_all: bool, words: &'static str) -> &'static str
    ensures { result.now ≡ sections.missed_reason to_all words.now }
{
    if to_all {
        return "the route request reached no node";
    }
    words
}

// Why a search for a route gave none, in a few words.
fn reach_reason(reach: &Reach) -> &'static str
    ensures { result.now ≡ sections.reach_reason reach.now }
{
    if reach.answered() > 0 {
        return "waited for a route: the reply did not come";
    }
    if has_taken(reach.states()) {
        return "waited for a route: no node that the request reached answered it";
    }
    if reach.refusals().is_empty() {
        return "waited for a route: the route request reached no node";
    }
    "waited for a route: all that heard the request refused it"
}

fn piece_reason(ended: &Option<Kept>, rest: &'static str) -> &'static str
    ensures { result.now ≡ sections.piece_reason ended.now rest.now }
{
    match ended {
        None => rest,
        Some(_) => "a piece that was gathered ended",
    }
}

/// Adds a number to a list, if something holds.
pub fn push_if(list: &mut Vec<usize>, holds: bool, number: usize) -> Result<(), AllocError>
    ensures { OnOk result (list.new.items ≡ list.old.items ++ sections.number_if holds number) }
{
    if holds {
        list.push(number)?;
    }
    Ok(())
}

fn push_blanks(text: &mut String, count: usize) -> Result<(), AllocError>
    ensures { OnOk result (string_bytes text.new ≡ string_bytes text.old ++ sections.blanks count) }
{
    for _ in 0..count {
        text.push(' ')?;
    }
    Ok(())
}

/// Appends a number at the end of a field of this many signs.
pub fn push_padded(text: &mut String, number: usize, width: usize) -> Result<(), AllocError>
    ensures { OnOk result (string_bytes text.new ≡ string_bytes text.old ++ sections.padded number width) }
{
    push_blanks(text, width.saturating_sub(decimal_width(number)))?;
    let mut digits = Buffer::new();
    text.push_str(digits.format(number))
}

/// Appends words at the start of a field of this many octets.
pub fn push_widened(text: &mut String, word: &str, width: usize) -> Result<(), AllocError>
    ensures { OnOk result (string_bytes text.new ≡ string_bytes text.old ++ sections.widened word.now width) }
{
    text.push_str(word)?;
    push_blanks(text, width.saturating_sub(word.len()))
}

#[tactic(auto, unfolding(crate::specs::Sections::reason_row))]
fn push_reason_row(text: &mut String, group: &Group) -> Result<(), AllocError>
    ensures { OnOk result (string_bytes text.new ≡ string_bytes text.old ++ sections.reason_row group.now) }
{
    text.push_str("  ")?;
    push_padded(text, group.members().len(), 4)?;
    text.push_str(" ")?;
    text.push_str(group.word())?;
    text.push_str("\n")
}

fn push_reason_rows(text: &mut String, groups: &[Group]) -> Result<(), AllocError>
    ensures { OnOk result (string_bytes text.new ≡ string_bytes text.old ++ sections.reason_rows groups.now) }
{
    for group in groups {
        push_reason_row(text, group)?;
    }
    Ok(())
}

impl<'a> Account<'a> {
    /// Whether a story reached its end.
    pub fn came_well(&self, story: usize) -> bool
        ensures { result ≡ sections.came_well self.now story }
    {
        is_yes(is_good(&self.verdict(story)))
    }

    fn failed_to(&self, story: usize) -> bool
        ensures { result ≡ sections.failed self.now story }
    {
        is_no(is_good(&self.verdict(story)))
    }

    fn refusal_word(&self, event: usize) -> &'static str
        ensures { result.now ≡ sections.refusal_at self.now event }
    {
        let Some(recorded) = self.event(event) else {
            return "";
        };
        if is_for_another(recorded.answer) {
            return "the next node had left, or has another address";
        }
        answer_word(recorded.answer)
    }

    fn fate_reason(&self, fate: &Fate, target: &FrameTarget) -> &'static str
        ensures { result.now ≡ sections.fate_reason fate.now self.now target.now }
    {
        match fate {
            Fate::Missed => missed_reason(is_to_all(target), "a frame was never delivered"),
            Fate::Lost { .. } => missed_reason(is_to_all(target), "a frame was lost"),
            Fate::Refused { event } => self.refusal_word(*event),
            Fate::Reported { .. } => "Reported: a relay had no route",
            Fate::WentOn { .. } => "nothing followed",
        }
    }

    #[tactic(auto, unfolding(crate::specs::Sections::flight_reason))]
    fn flight_reason(&self, flight: usize) -> &'static str
        ensures { result.now ≡ sections.flight_reason self.now flight }
    {
        let Some(recorded) = self.flight(flight) else {
            return "nothing went out";
        };
        let Some(course) = self.course(flight) else {
            return "nothing went out";
        };
        self.fate_reason(&course.fate, &recorded.target)
    }

    fn request_reason(&self, request: usize, until: usize) -> Result<&'static str, AllocError>
        ensures { IfOk result (λ words. words.now ≡ sections.request_reason self.now request until) }
    {
        if request == 0 {
            return Ok("nothing went out");
        }
        let reach = self.reach_of(request, until)?;
        Ok(reach_reason(&reach))
    }

    fn kept_reason(&self, story: &Story, kept: &Kept) -> Result<&'static str, AllocError>
        ensures { IfOk result (λ words. words.now ≡ sections.kept_reason self.now story.now kept.now) }
    {
        let Some(recorded) = self.event(kept.event) else {
            return Ok("nothing went out");
        };
        let until = until_of(&kept.end, self.run_record.events.len());
        self.request_reason(self.request_of(story, kept, &recorded), until)
    }

    fn loose_reason(&self, story: &Story, last: usize) -> Result<&'static str, AllocError>
        ensures { IfOk result (λ words. words.now ≡ sections.loose_reason story.now.waits self.now story.now last) }
    {
        match &story.waits {
            None => Ok(self.flight_reason(last)),
            Some(kept) => self.kept_reason(story, kept),
        }
    }

    fn verdict_reason(&self, verdict: &Verdict, story: &Story) -> Result<String, AllocError>
        ensures { IfOk result (λ text. string_bytes text ≡ sections.verdict_reason verdict.now self.now story.now) }
    {
        match verdict {
            Verdict::NotBegun => two_words(
                self.alloc,
                "refused at once: ",
                self.answer_at(story.first),
            ),
            Verdict::NeverLeft { last } => {
                String::from_str(self.alloc, self.loose_reason(story, *last)?)
            }
            Verdict::Ended { flight } => {
                let rest = self.flight_reason(*flight);
                String::from_str(self.alloc, piece_reason(&story.ended, rest))
            }
            Verdict::Loose { last } => {
                let rest = self.loose_reason(story, *last)?;
                String::from_str(self.alloc, piece_reason(&story.ended, rest))
            }
            Verdict::TookOnly { last, .. } => {
                String::from_str(self.alloc, self.loose_reason(story, *last)?)
            }
            Verdict::Declined { .. } => String::from_str(self.alloc, "the meter was not allowed"),
            _ => String::from_str(self.alloc, "FORGED"),
        }
    }

    #[tactic(auto, unfolding(crate::specs::Sections::reason))]
    fn reason(&self, number: usize) -> Result<String, AllocError>
        ensures { IfOk result (λ text. string_bytes text ≡ sections.reason self.now number) }
    {
        match self.story(number) {
            None => Ok(String::new(self.alloc)),
            Some(story) => self.verdict_reason(&self.verdict(number), &story),
        }
    }

    // The reason of a story that failed is said once more.
    fn join_reason(&self, groups: &mut Vec<Group>, story: usize) -> Result<(), AllocError>
        ensures { OnOk result (groups.new.items
            ≡ sections.joined_if (sections.failed self.now story) (sections.reason self.now story) story groups.old.items) }
    {
        if !self.failed_to(story) {
            return Ok(());
        }
        join(groups, self.alloc, self.reason(story)?, story)
    }

    fn join_reasons(&self, groups: &mut Vec<Group>, stories: &[usize]) -> Result<(), AllocError>
        ensures { OnOk result (groups.new.items ≡ sections.reasons_from self.now stories.now groups.old.items) }
    {
        for story in stories {
            self.join_reason(groups, *story)?;
        }
        Ok(())
    }

    /// For which reasons these stories failed, each with the numbers of its stories, the most first.
    ///
    /// It fails only where memory runs out.
    #[tactic(auto, unfolding(crate::specs::Sections::reasons))]
    pub fn reasons(&self, stories: &[usize]) -> Result<Vec<Group>, AllocError>
        ensures { IfOk result (λ groups. groups.items ≡ sections.reasons self.now stories.now) }
    {
        let mut groups = Vec::new(self.alloc);
        self.join_reasons(&mut groups, stories)?;
        largest_first(self.alloc, groups)
    }

    /// Appends how many of these stories failed for which reason, the most first.
    #[tactic(auto, unfolding(crate::specs::Sections::reasons_text))]
    pub fn push_reasons(&self, text: &mut String, stories: &[usize]) -> Result<(), AllocError>
        ensures { OnOk result (string_bytes text.new ≡ string_bytes text.old ++ sections.reasons_text self.now stories.now) }
    {
        let groups = self.reasons(stories)?;
        push_reason_rows(text, groups.as_slice())
    }

    /// Those of these stories that reached their ends.
    pub fn good_among(&self, stories: &[usize]) -> Result<Vec<usize>, AllocError>
        ensures { IfOk result (λ good. good.items ≡ sections.good_among self.now stories.now) }
    {
        let mut good = Vec::new(self.alloc);
        for story in stories {
            push_if(&mut good, self.came_well(*story), *story)?;
        }
        Ok(good)
    }
}
