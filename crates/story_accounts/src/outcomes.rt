//! What became of a story, in words.
ghost use Rattle.std.specs.Prelude.{◌≡◌, ◌++◌, ◌-◌, IfOk, None, OnOk, Some, string_bytes};
ghost use Rattle.story_accounts.specs.Fates.{fate_text};
ghost use Rattle.story_accounts.specs.Waits.{loose_text};
ghost use Rattle.story_accounts.specs.Outcomes as outcomes;

use crate::account::Account;
use crate::fates::two_words;
use frame_facts::Gist;
use line_record::{Act, Kept, KeptEnd, RecordedEvent, RecordedFlight, Story, StoryKind, Verdict};
use sentence_parts::{node, number, push_parts, sentence, words};
use std::alloc::{AllocError, Global};

#[tactic(auto, unfolding(crate::specs::Outcomes::more_text))]
fn push_more(text: &mut String, alloc: Global, more: usize) -> Result<(), AllocError>
    ensures { OnOk result (string_bytes text.new ≡ string_bytes text.old ++ outcomes.more_text more) }
{
    if more == 0 {
        return Ok(());
    }
    push_parts(
        text,
        alloc,
        &[words(" (and "), number(more), words(" more)")],
    )
}

fn hops_left(gist: &Gist) -> u8
    ensures { result ≡ outcomes.hops_left gist.now }
{
    match gist {
        Gist::Bears { hops } => *hops,
        _ => 15,
    }
}

fn hops_by(flight: Option<RecordedFlight>) -> u8
    ensures { result ≡ outcomes.hops_by flight }
{
    match flight {
        None => 0,
        Some(recorded) => 15u8.saturating_sub(hops_left(&recorded.gist)),
    }
}

// The flight that is delivered at an event, 0 where none is.
fn delivered(act: &Act) -> usize
    ensures { result ≡ outcomes.delivered act.now }
{
    match act {
        Act::Deliver { flight, .. } => *flight as usize,
        _ => 0,
    }
}

fn hops_word(hops: u8) -> &'static str
    ensures { result.now ≡ outcomes.hops_word hops }
{
    if hops == 1 {
        return " hop";
    }
    " hops"
}

// Over how many hops a datagram came; none where injected octets brought it.
#[tactic(auto, unfolding(crate::specs::Outcomes::over_text))]
fn push_over(text: &mut String, alloc: Global, hops: u8) -> Result<(), AllocError>
    ensures { OnOk result (string_bytes text.new ≡ string_bytes text.old ++ outcomes.over_text hops) }
{
    if hops == 0 {
        return push_parts(text, alloc, &[words(", by injected octets")]);
    }
    push_parts(
        text,
        alloc,
        &[
            words(", over "),
            number(hops as usize),
            words(hops_word(hops)),
        ],
    )
}

#[tactic(auto, unfolding(crate::specs::Outcomes::later_text))]
fn push_later(text: &mut String, alloc: Global, seconds: u64) -> Result<(), AllocError>
    ensures { OnOk result (string_bytes text.new ≡ string_bytes text.old ++ outcomes.later_text seconds) }
{
    if seconds == 0 {
        return Ok(());
    }
    push_parts(
        text,
        alloc,
        &[words(", "), number(seconds as usize), words(" s later")],
    )
}

fn failed_words(kind: StoryKind) -> &'static str
    ensures { result.now ≡ outcomes.failed_words kind }
{
    match kind {
        StoryKind::Datagram => "did not come: ",
        StoryKind::Order => "not heard: ",
        StoryKind::Walk => "not answered: ",
        _ => "not done: ",
    }
}

fn is_datagram(kind: StoryKind) -> bool
    ensures { result ≡ outcomes.is_datagram kind }
{
    match kind {
        StoryKind::Datagram => true,
        _ => false,
    }
}

fn is_order(kind: StoryKind) -> bool
    ensures { result ≡ outcomes.is_order kind }
{
    match kind {
        StoryKind::Order => true,
        _ => false,
    }
}

fn not_begun_words(kind: StoryKind) -> &'static str
    ensures { result.now ≡ outcomes.not_begun_words kind }
{
    match kind {
        StoryKind::Datagram => "was not sent: ",
        StoryKind::Walk => "was not asked: ",
        _ => "did not begin: ",
    }
}

// A sentence without the word that it is a refusal.
#[tactic(auto, unfolding(crate::specs::Outcomes::bare))]
fn bare(sentence: &str) -> &str
    ensures { result.now ≡ outcomes.bare sentence.now }
{
    match sentence.strip_prefix("refused: ") {
        Some(rest) => rest,
        None => sentence,
    }
}

// Some words and the number of an event.
fn at(alloc: Global, what: &str, event: usize) -> Result<String, AllocError>
    ensures { IfOk result (λ text. string_bytes text ≡ outcomes.at_text what.now event) }
{
    sentence(alloc, &[words(what), number(event)])
}

fn push_until(
    text: &mut String,
    alloc: Global,
    who: u32,
    what: &'static str,
    event: usize,
) -> Result<(), AllocError>
    ensures { OnOk result (string_bytes text.new ≡ string_bytes text.old ++ outcomes.until_text who what.now event) }
{
    push_parts(
        text,
        alloc,
        &[
            words("did not come: it waited for a route until "),
            node(who),
            words(what),
            words(" (event "),
            number(event),
            words("); "),
        ],
    )
}

fn push_aged(text: &mut String, alloc: Global, event: usize, seconds: u64) -> Result<(), AllocError>
    ensures { OnOk result (string_bytes text.new ≡ string_bytes text.old ++ outcomes.aged_text event seconds) }
{
    push_parts(
        text,
        alloc,
        &[
            words("did not come: it waited for a route for "),
            number(seconds as usize),
            words(" s and was dropped (event "),
            number(event),
            words("); "),
        ],
    )
}

// How the wait of a datagram ended.
#[tactic(auto, unfolding(crate::specs::Outcomes::wait_text))]
fn push_wait(text: &mut String, alloc: Global, kept: &Kept) -> Result<(), AllocError>
    ensures { OnOk result (string_bytes text.new ≡ string_bytes text.old ++ outcomes.wait_text kept.now.end kept.now.node) }
{
    match kept.end {
        KeptEnd::Still => text.push_str("did not come: it waits for a route still; "),
        KeptEnd::Aged { event, seconds } => push_aged(text, alloc, event, seconds),
        KeptEnd::Restarted { event } => push_until(text, alloc, kept.node, " restarted", event),
        KeptEnd::Left { event } => push_until(text, alloc, kept.node, " left", event),
        KeptEnd::Halted { event } => push_until(text, alloc, kept.node, " lost power", event),
    }
}

fn push_piece_until(
    text: &mut String,
    alloc: Global,
    kept: &Kept,
    what: &'static str,
    event: usize,
) -> Result<(), AllocError>
    ensures { OnOk result (string_bytes text.new ≡ string_bytes text.old ++ outcomes.piece_until kept.now what.now event) }
{
    push_parts(
        text,
        alloc,
        &[
            node(kept.node),
            words(what),
            words(" (event "),
            number(event),
            words("), and a piece that it had gathered ended (flight "),
            number(kept.flight as usize),
            words(", event "),
            number(kept.event),
            words(")"),
        ],
    )
}

fn push_piece_aged(
    text: &mut String,
    alloc: Global,
    kept: &Kept,
    event: usize,
    seconds: u64,
) -> Result<(), AllocError>
    ensures { OnOk result (string_bytes text.new ≡ string_bytes text.old ++ outcomes.piece_aged kept.now event seconds) }
{
    push_parts(
        text,
        alloc,
        &[
            words("a piece that "),
            node(kept.node),
            words(" had gathered ended after "),
            number(seconds as usize),
            words(" s (event "),
            number(event),
            words(", taken at event "),
            number(kept.event),
            words(")"),
        ],
    )
}

// How a piece ended that a node had gathered.
#[tactic(auto, unfolding(crate::specs::Outcomes::piece_text))]
fn push_piece(text: &mut String, alloc: Global, kept: &Kept) -> Result<(), AllocError>
    ensures { OnOk result (string_bytes text.new ≡ string_bytes text.old ++ outcomes.piece_text kept.now.end kept.now) }
{
    match kept.end {
        KeptEnd::Still => Ok(()),
        KeptEnd::Aged { event, seconds } => push_piece_aged(text, alloc, kept, event, seconds),
        KeptEnd::Restarted { event } => push_piece_until(text, alloc, kept, " restarted", event),
        KeptEnd::Left { event } => push_piece_until(text, alloc, kept, " left", event),
        KeptEnd::Halted { event } => push_piece_until(text, alloc, kept, " lost power", event),
    }
}

fn gathered_words(gathers: &Option<Kept>) -> &'static str
    ensures { result.now ≡ outcomes.gathered_words gathers.now }
{
    match gathers {
        None => "",
        Some(_) => "a piece is missing: ",
    }
}

// What is said of gathered pieces before a flight that did not go on.
#[tactic(auto, unfolding(crate::specs::Outcomes::before_text))]
fn push_before(
    text: &mut String,
    alloc: Global,
    ended: &Option<Kept>,
    gathers: &Option<Kept>,
) -> Result<(), AllocError>
    ensures { OnOk result (string_bytes text.new ≡ string_bytes text.old ++ outcomes.before_text ended.now gathers.now) }
{
    match ended {
        None => text.push_str(gathered_words(gathers)),
        Some(kept) => {
            push_piece(text, alloc, kept)?;
            text.push_str("; ")
        }
    }
}

fn push_rest_at(text: &mut String, alloc: Global, kept: &Kept) -> Result<(), AllocError>
    ensures { OnOk result (string_bytes text.new ≡ string_bytes text.old ++ outcomes.rest_at kept.now) }
{
    push_parts(
        text,
        alloc,
        &[
            words("the rest is gathered at "),
            node(kept.node),
            words(" (event "),
            number(kept.event),
            words(")"),
        ],
    )
}

#[tactic(auto, unfolding(crate::specs::Outcomes::rest_text))]
fn push_rest(
    text: &mut String,
    alloc: Global,
    before: &'static str,
    gathers: &Option<Kept>,
) -> Result<(), AllocError>
    ensures { OnOk result (string_bytes text.new ≡ string_bytes text.old ++ outcomes.rest_text before.now gathers.now) }
{
    match gathers {
        None => Ok(()),
        Some(kept) => {
            text.push_str(before)?;
            push_rest_at(text, alloc, kept)
        }
    }
}

impl<'a> Account<'a> {
    fn push_fate(&self, text: &mut String, flight: usize) -> Result<(), AllocError>
        ensures { OnOk result (string_bytes text.new ≡ string_bytes text.old ++ fate_text self.now flight) }
    {
        let fate = self.fate_text(flight)?;
        text.push_str(fate.as_str())
    }

    fn push_loose(&self, text: &mut String, number: usize) -> Result<(), AllocError>
        ensures { OnOk result (string_bytes text.new ≡ string_bytes text.old ++ loose_text self.now number) }
    {
        let loose = self.loose_text(number)?;
        text.push_str(loose.as_str())
    }

    #[tactic(auto, unfolding(crate::specs::Outcomes::ended_text))]
    fn ended_text(&self, story: &Story, number: usize, flight: usize) -> Result<String, AllocError>
        ensures { IfOk result (λ text. string_bytes text ≡ outcomes.ended_text self.now story.now number flight) }
    {
        let mut text = String::new(self.alloc);
        text.push_str("did not come: ")?;
        push_before(&mut text, self.alloc, &story.ended, &story.gathers)?;
        self.push_fate(&mut text, flight)?;
        let more = self.index.broken(number).len().saturating_sub(1);
        push_more(&mut text, self.alloc, more)?;
        Ok(text)
    }

    fn hops_of(&self, recorded: &RecordedEvent) -> u8
        ensures { result ≡ outcomes.hops_of self.now recorded.now }
    {
        hops_by(self.flight(delivered(&recorded.act)))
    }

    #[tactic(auto, unfolding(crate::specs::Outcomes::came_at_text))]
    fn came_at_text(
        &self,
        story: &Story,
        event: usize,
        recorded: &RecordedEvent,
    ) -> Result<String, AllocError>
        ensures { IfOk result (λ text. string_bytes text ≡ outcomes.came_at_text self.now story.now event recorded.now) }
    {
        let hops = self.hops_of(recorded);
        let later = recorded.clock.saturating_sub(self.clock_at(story.first));
        let mut text = self.say(&[words("came at event "), number(event)])?;
        push_over(&mut text, self.alloc, hops)?;
        push_later(&mut text, self.alloc, later)?;
        Ok(text)
    }

    fn came_text(&self, story: &Story, event: usize) -> Result<String, AllocError>
        ensures { IfOk result (λ text. string_bytes text ≡ outcomes.came_text self.now story.now event) }
    {
        match self.event(event) {
            Some(recorded) => self.came_at_text(story, event, &recorded),
            None => Ok(String::new(self.alloc)),
        }
    }

    fn obeyed_text(&self, node: u32, event: usize) -> Result<String, AllocError>
        ensures { IfOk result (λ text. string_bytes text ≡ outcomes.obeyed_text node event) }
    {
        if node == 0 {
            return String::from_str(self.alloc, "done");
        }
        at(self.alloc, "heard at event ", event)
    }

    fn reached_text(&self, story: &Story, event: usize) -> Result<String, AllocError>
        ensures { IfOk result (λ text. string_bytes text ≡ outcomes.reached_by story.now.kind self.now story.now event) }
    {
        match story.kind {
            StoryKind::Datagram => self.came_text(story, event),
            StoryKind::Order => self.obeyed_text(story.person, event),
            StoryKind::Walk => at(self.alloc, "answered at event ", event),
            _ => at(self.alloc, "done at event ", event),
        }
    }

    fn failed_text(&self, kind: StoryKind, story: usize) -> Result<String, AllocError>
        ensures { IfOk result (λ text. string_bytes text ≡ outcomes.failed_text self.now kind story) }
    {
        let loose = self.loose_text(story)?;
        two_words(self.alloc, failed_words(kind), loose.as_str())
    }

    fn push_ungathered(
        &self,
        text: &mut String,
        gathers: &Option<Kept>,
        number: usize,
    ) -> Result<(), AllocError>
        ensures { OnOk result (string_bytes text.new ≡ string_bytes text.old ++ outcomes.pieces_by None gathers.now self.now number) }
    {
        match gathers {
            None => self.push_loose(text, number),
            Some(kept) => push_rest_at(text, self.alloc, kept),
        }
    }

    fn push_pieces(&self, text: &mut String, story: &Story, number: usize) -> Result<(), AllocError>
        ensures { OnOk result (string_bytes text.new
            ≡ string_bytes text.old ++ outcomes.pieces_by story.now.ended story.now.gathers self.now number) }
    {
        match &story.ended {
            None => self.push_ungathered(text, &story.gathers, number),
            Some(kept) => {
                push_piece(text, self.alloc, kept)?;
                push_rest(text, self.alloc, "; ", &story.gathers)
            }
        }
    }

    // A datagram of which each flight went on.
    #[tactic(auto, unfolding(crate::specs::Outcomes::pieces_text))]
    fn pieces_text(&self, story: &Story, number: usize) -> Result<String, AllocError>
        ensures { IfOk result (λ text. string_bytes text ≡ outcomes.pieces_text self.now story.now number) }
    {
        let mut text = String::new(self.alloc);
        text.push_str("did not come: ")?;
        self.push_pieces(&mut text, story, number)?;
        Ok(text)
    }

    fn loose_verdict_text(&self, story: &Story, number: usize) -> Result<String, AllocError>
        ensures { IfOk result (λ text. string_bytes text ≡ outcomes.loose_verdict_text self.now story.now number) }
    {
        if is_datagram(story.kind) {
            return self.pieces_text(story, number);
        }
        self.failed_text(story.kind, number)
    }

    // A story whose first event was refused.
    #[tactic(auto, unfolding(crate::specs::Outcomes::not_begun_text))]
    fn not_begun_text(&self, story: &Story) -> Result<String, AllocError>
        ensures { IfOk result (λ text. string_bytes text ≡ outcomes.not_begun_text self.now story.now) }
    {
        let why = self.why(story.first);
        if is_order(story.kind) {
            return String::from_str(self.alloc, why);
        }
        two_words(self.alloc, not_begun_words(story.kind), bare(why))
    }

    fn waited_text(&self, story: &Story, kept: &Kept) -> Result<String, AllocError>
        ensures { IfOk result (λ text. string_bytes text ≡ outcomes.never_left_by (Some kept.now) self.now story.now) }
    {
        let mut text = String::new(self.alloc);
        push_wait(&mut text, self.alloc, kept)?;
        self.push_cause(&mut text, story, kept)?;
        Ok(text)
    }

    // A datagram that no flight carries.
    fn left_text(&self, story: &Story) -> Result<String, AllocError>
        ensures { IfOk result (λ text. string_bytes text ≡ outcomes.never_left_text self.now story.now) }
    {
        match &story.waits {
            None => String::from_str(self.alloc, "did not come: nothing went out"),
            Some(kept) => self.waited_text(story, kept),
        }
    }

    #[tactic(auto, unfolding(crate::specs::Outcomes::took_text))]
    fn took_text(&self, story: &Story, of: usize, event: usize) -> Result<String, AllocError>
        ensures { IfOk result (λ text. string_bytes text ≡ outcomes.took_text self.now story.now of event) }
    {
        let loose = self.loose_text(of)?;
        self.say(&[
            node(story.person),
            words(" took its keys at event "),
            number(event),
            words(", but the coordinator does not know it: "),
            words(loose.as_str()),
        ])
    }

    fn declined_text(&self, event: usize) -> Result<String, AllocError>
        ensures { IfOk result (λ text. string_bytes text ≡ outcomes.declined_text event) }
    {
        self.say(&[
            words("declined at event "),
            number(event),
            words(": the meter was not allowed"),
        ])
    }

    fn stopped_text(&self, event: usize) -> Result<String, AllocError>
        ensures { IfOk result (λ text. string_bytes text ≡ outcomes.stopped_text self.now event) }
    {
        self.say(&[words("refused: "), words(self.answer_at(event))])
    }

    fn octets_taken_text(&self, event: usize) -> Result<String, AllocError>
        ensures { IfOk result (λ text. string_bytes text ≡ outcomes.octets_taken_text self.now event) }
    {
        self.say(&[
            words("taken: "),
            words(self.answer_at(event)),
            words(" (equal to a frame of this run, or plain)"),
        ])
    }

    fn forged_text(&self, event: usize) -> Result<String, AllocError>
        ensures { IfOk result (λ text. string_bytes text ≡ outcomes.forged_text self.now event) }
    {
        self.say(&[words("FORGED: accepted as "), words(self.answer_at(event))])
    }

    fn outcome_by(
        &self,
        verdict: &Verdict,
        story: &Story,
        number: usize,
    ) -> Result<String, AllocError>
        ensures { IfOk result (λ text. string_bytes text ≡ outcomes.outcome_by verdict.now self.now number story.now) }
    {
        match verdict {
            Verdict::Nothing => Ok(String::new(self.alloc)),
            Verdict::NotBegun => self.not_begun_text(story),
            Verdict::Reached { event } => self.reached_text(story, *event),
            Verdict::NeverLeft { .. } => self.left_text(story),
            Verdict::Ended { flight } => self.ended_text(story, number, *flight),
            Verdict::Declined { event } => self.declined_text(*event),
            Verdict::TookOnly { event, .. } => self.took_text(story, number, *event),
            Verdict::Loose { .. } => self.loose_verdict_text(story, number),
            Verdict::NotTold => String::from_str(self.alloc, self.why(story.first)),
            Verdict::Stopped => self.stopped_text(story.first),
            Verdict::Taken => self.octets_taken_text(story.first),
            Verdict::Forged => self.forged_text(story.first),
        }
    }

    /// The verdict of a story, by its number from 1, in words.
    #[tactic(auto, unfolding(crate::specs::Outcomes::outcome_text))]
    pub fn outcome_text(&self, story: usize) -> Result<String, AllocError>
        ensures { IfOk result (λ text. string_bytes text ≡ outcomes.outcome_text self.now story) }
    {
        match self.story(story) {
            Some(found) => self.outcome_by(&self.verdict(story), &found, story),
            None => Ok(String::new(self.alloc)),
        }
    }
}
