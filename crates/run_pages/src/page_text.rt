//! The parts of a page that its charts are not.
ghost use Rattle.std.specs.Prelude.{◌≡◌, ◌++◌, ◌<◌, IfOk, IfSome, OnOk, length, position, string_bytes};
ghost use Rattle.markup.specs.Markups.{markup_text};
ghost use Rattle.run_pages.specs.Pages as pages;

use crate::counting::{count_if, is_kind, is_yes};
use crate::node_table::push_nodes_table;
use crate::reasons::push_reasons;
use line_record::{Course, RecordedEvent, Story, StoryKind, is_good, is_refused};
use markup::{
    Attribute, Element, end, given, given_number, open, push_band, push_event_numbers,
    push_fault_tile, push_heading, push_keys, push_map_keys, push_name, push_not_drawn,
    push_page_end, push_page_start, push_pieces, push_share, push_span, push_tile, push_totals,
    start,
};
use run_charts::{ChartRun, is_missed, push_chart, push_lanes};
use run_maps::push_map;
use sentence_parts::{number, words};
use std::alloc::{AllocError, Global};
use std::marker::Model;
use story_accounts::Account;

/// What a page shows.
#[derive(Drop)]
pub struct Sheet<'a> {
    /// The run with its stories and its sentences.
    pub account: &'a Account<'a>,
    /// How many events there were.
    pub events: u32,
    /// How many frames flew.
    pub flights: u32,
    /// How many events were forged.
    pub forged: u32,
    /// The title, no words where the script has none.
    pub title: &'a str,
    /// What is said of the bad line at which the run ends, no words where there is none.
    pub bad: &'a str,
}

impl<'a> Model for Sheet<'a> {
    ghost use Rattle.run_pages.specs.Pages.{Sheet as Shown};

    ghost Value = { Shown };

    ghost view = { λ s. record {
      account = s.account.now;
      events = s.events;
      flights = s.flights;
      forged = s.forged;
      title = s.title.now;
      bad = s.bad.now;
    } };
}

/// A run of at most this many events is shown whole.
const WHOLE: usize = 600;

/// That of at most this many is shown before its stories.
const FIRST: usize = 60;

/// This many of the stories that failed have a chart.
const FAILED_CHARTS: usize = 300;

/// This many of the others of a kind.
const CHARTS: usize = 100;

/// The kinds of stories in their order.
const KINDS: [StoryKind; 9] = [
    StoryKind::Datagram,
    StoryKind::Joining,
    StoryKind::Renewal,
    StoryKind::Order,
    StoryKind::Injection,
    StoryKind::Broadcast,
    StoryKind::Walk,
    StoryKind::Line,
    StoryKind::Setup,
];

fn kind_title(kind: StoryKind) -> &'static str
    ensures { result.now ≡ pages.kind_title kind }
{
    match kind {
        StoryKind::Setup => "Setup",
        StoryKind::Datagram => "Datagrams",
        StoryKind::Joining => "Joinings",
        StoryKind::Renewal => "Renewals of keys",
        StoryKind::Order => "Orders",
        StoryKind::Injection => "Injected octets",
        StoryKind::Broadcast => "Broadcasts",
        StoryKind::Walk => "Path requests",
        StoryKind::Line => "On the line",
    }
}

// What a good story of a kind is called, no words for one of which nothing is asked.
fn good_words(kind: StoryKind) -> &'static str
    ensures { result.now ≡ pages.good_words kind }
{
    match kind {
        StoryKind::Datagram => "datagrams came",
        StoryKind::Joining => "joinings done",
        StoryKind::Renewal => "key renewals done",
        StoryKind::Order => "orders heard",
        StoryKind::Injection => "injections refused",
        StoryKind::Walk => "path requests answered",
        _ => "",
    }
}

fn story_class(good: Option<bool>) -> &'static str
    ensures { result.now ≡ pages.story_class good }
{
    match good {
        Some(true) => "s g",
        Some(false) => "s b",
        None => "s",
    }
}

fn is_no(good: Option<bool>) -> bool
    ensures { result ≡ pages.is_no good }
{
    match good {
        Some(yes) => !yes,
        None => false,
    }
}

// How many of these stories are of a kind.
fn all_of(stories: &[Story], kind: StoryKind) -> usize
    ensures { result ≡ pages.all_from kind stories.now 0 }
{
    let mut all = 0;
    for story in stories {
        all = count_if(is_kind(story.kind, kind), all);
    }
    all
}

// How many of these events were refused.
fn refused_among(events: &[RecordedEvent]) -> usize
    ensures { result ≡ pages.refusals_from events.now 0 }
{
    let mut all = 0;
    for recorded in events {
        all = count_if(is_refused(recorded.answer), all);
    }
    all
}

// How many of these flights never came to the node that they were for.
fn missed_among(courses: &[Course]) -> usize
    ensures { result ≡ pages.missed_from courses.now 0 }
{
    let mut all = 0;
    for course in courses {
        all = count_if(is_missed(&course.fate), all);
    }
    all
}

// The place of the first event that is forged.
fn forged_place(events: &[RecordedEvent]) -> Option<usize>
    ensures value { result ≡ position pages.is_forged events.now }
    ensures bound { IfSome result (λ p. p < length events.now) }
{
    events.iter().position(|recorded| recorded.forged)
}

// The number of the first event that is forged.
fn first_forged(events: &[RecordedEvent]) -> Option<usize>
    ensures { result ≡ pages.first_forged events.now }
{
    match forged_place(events) {
        None => None,
        Some(place) => Some(place + 1),
    }
}

// What is said of the first event that is forged.
fn forged_text(account: &Account<'_>, event: usize) -> Result<String, AllocError>
    ensures { IfOk result (λ text. string_bytes text ≡ pages.forged_text account.now event) }
{
    account.say(&[
        words("Forged: the first at event "),
        number(event),
        words(": "),
        words(account.why(event)),
        words(". What is promised holds up to there."),
    ])
}

// The numbers of this many events.
fn numbers_to(alloc: Global, count: usize) -> Result<Vec<usize>, AllocError>
    ensures { IfOk result (λ numbers. numbers.items ≡ pages.numbers_to count) }
{
    let mut numbers = Vec::new(alloc);
    for i in 0..count {
        numbers.push(i + 1)?;
    }
    Ok(numbers)
}

fn or_words<'a>(words: &'a str, other: &'a str) -> &'a str
    ensures { result.now ≡ pages.or_words words.now other.now }
{
    if words.is_empty() {
        return other;
    }
    words
}

// How many charts are left after a story.
fn left_after(holds: bool, left: usize) -> usize
    ensures { result ≡ pages.left_after holds left }
{
    if holds {
        return left.saturating_sub(1);
    }
    left
}

// The chart of a story, if it is drawn.
fn push_chart_if(
    out: &mut Vec<u8>,
    run: &ChartRun<'_>,
    drawn: bool,
    events: &[usize],
) -> Result<(), AllocError>
    ensures { OnOk result (out.new.items ≡ out.old.items ++ markup_text (pages.chart_if drawn run.now events.now)) }
{
    if drawn {
        return push_chart(out, run, events);
    }
    push_not_drawn(out)
}

// A chart of these events on a card.
#[tactic(auto, unfolding(crate::specs::Pages::card))]
fn push_card(out: &mut Vec<u8>, run: &ChartRun<'_>, events: &[usize]) -> Result<(), AllocError>
    ensures { OnOk result (out.new.items ≡ out.old.items ++ markup_text (pages.card run.now events.now)) }
{
    push_pieces(
        out,
        &[
            start(Element::Division),
            given(Attribute::Class, "card"),
            open(),
        ],
    )?;
    push_chart(out, run, events)?;
    push_pieces(out, &[end(Element::Division)])
}

// A chart of these events, which are all.
#[tactic(auto, unfolding(crate::specs::Pages::whole))]
fn push_whole(out: &mut Vec<u8>, run: &ChartRun<'_>, events: &[usize]) -> Result<(), AllocError>
    ensures { OnOk result (out.new.items ≡ out.old.items ++ markup_text (pages.whole run.now events.now)) }
{
    push_heading(out, "The whole run in order")?;
    push_card(out, run, events)
}

#[tactic(auto, unfolding(crate::specs::Pages::map_of))]
fn push_map_of(out: &mut Vec<u8>, run: &ChartRun<'_>, homes: &[u32]) -> Result<(), AllocError>
    ensures { OnOk result (out.new.items ≡ out.old.items ++ markup_text (pages.map_of run.now homes.now)) }
{
    push_map(out, run.alloc, run.run_record, run.pasts, homes)
}

fn push_map_card(out: &mut Vec<u8>, run: &ChartRun<'_>, homes: &[u32]) -> Result<(), AllocError>
    ensures { OnOk result (out.new.items ≡ out.old.items ++ markup_text (pages.map_card run.now homes.now)) }
{
    push_pieces(
        out,
        &[
            start(Element::Division),
            given(Attribute::Class, "card high"),
            open(),
        ],
    )?;
    push_map_of(out, run, homes)?;
    push_pieces(out, &[end(Element::Division)])
}

// Who hears whom.
#[tactic(auto, unfolding(crate::specs::Pages::links))]
fn push_links(out: &mut Vec<u8>, run: &ChartRun<'_>, homes: &[u32]) -> Result<(), AllocError>
    ensures { OnOk result (out.new.items ≡ out.old.items ++ markup_text (pages.links run.now homes.now)) }
{
    push_heading(out, "Who hears whom")?;
    push_map_keys(out)?;
    push_map_card(out, run, homes)
}

impl<'a> Sheet<'a> {
    // How many of these stories are of a kind and reached their ends.
    fn good_of(&self, stories: &[Story], kind: StoryKind) -> usize
        ensures { result ≡ pages.good_from self.now.account kind 0 stories.now 0 }
    {
        let mut good = 0;
        for (i, story) in stories.iter().enumerate() {
            let reached = is_yes(is_good(&self.account.verdict(i + 1)));
            good = count_if(is_kind(story.kind, kind) && reached, good);
        }
        good
    }

    // Whether a story did not reach its end.
    fn has_failed(&self, number: usize) -> bool
        ensures { result ≡ pages.has_failed self.now number }
    {
        is_no(is_good(&self.account.verdict(number)))
    }

    // How many stories did not reach their ends.
    fn failed(&self) -> usize
        ensures { result ≡ pages.failed self.now }
    {
        let account = self.account;
        let mut all = 0;
        for number in 0..account.stories.len() {
            all = count_if(self.has_failed(number + 1), all);
        }
        all
    }

    // Whether a story is of a kind, and did not fail.
    fn is_other(&self, kind: StoryKind, number: usize, story: &Story) -> bool
        ensures { result ≡ pages.is_other self.now kind number story.now }
    {
        is_kind(story.kind, kind) && !self.has_failed(number)
    }

    // How many of these stories are of a kind, and did not fail.
    fn others_of(&self, stories: &[Story], kind: StoryKind) -> usize
        ensures { result ≡ pages.other_from self.now kind 0 stories.now 0 }
    {
        let mut all = 0;
        for (i, story) in stories.iter().enumerate() {
            all = count_if(self.is_other(kind, i + 1, story), all);
        }
        all
    }

    fn push_kind_tile(&self, out: &mut Vec<u8>, kind: StoryKind) -> Result<(), AllocError>
        ensures { OnOk result (out.new.items ≡ out.old.items ++ markup_text (pages.kind_tile self.now kind)) }
    {
        let account = self.account;
        let all = all_of(account.stories, kind);
        let words = good_words(kind);
        if all == 0 || words.is_empty() {
            return Ok(());
        }
        push_share(out, self.good_of(account.stories, kind), all, words)
    }

    fn push_kind_tiles(&self, out: &mut Vec<u8>, kinds: &[StoryKind]) -> Result<(), AllocError>
        ensures { OnOk result (out.new.items ≡ out.old.items ++ markup_text (pages.kind_tiles self.now kinds.now)) }
    {
        for kind in kinds {
            self.push_kind_tile(out, *kind)?;
        }
        Ok(())
    }

    // How many stories of each kind reached their ends.
    #[tactic(auto, unfolding(crate::specs::Pages::story_tiles))]
    fn push_story_tiles(&self, out: &mut Vec<u8>) -> Result<(), AllocError>
        ensures { OnOk result (out.new.items ≡ out.old.items ++ markup_text (pages.story_tiles self.now)) }
    {
        self.push_kind_tiles(out, &KINDS)
    }

    fn refusals(&self) -> usize
        ensures { result ≡ pages.refusals self.now }
    {
        let account = self.account;
        refused_among(account.run_record.events.as_slice())
    }

    fn missed(&self) -> usize
        ensures { result ≡ pages.missed self.now }
    {
        let account = self.account;
        missed_among(account.courses)
    }

    // What else is counted of the run.
    #[tactic(auto, unfolding(crate::specs::Pages::count_tiles))]
    fn push_count_tiles(&self, out: &mut Vec<u8>) -> Result<(), AllocError>
        ensures { OnOk result (out.new.items ≡ out.old.items ++ markup_text (pages.count_tiles self.now)) }
    {
        push_tile(out, self.refusals(), "refusals")?;
        push_tile(out, self.missed(), "frames missed their target")?;
        push_fault_tile(out, self.forged as usize, "forged")
    }

    #[tactic(auto, unfolding(crate::specs::Pages::tile_list))]
    fn push_tile_list(&self, out: &mut Vec<u8>) -> Result<(), AllocError>
        ensures { OnOk result (out.new.items ≡ out.old.items ++ markup_text (pages.tile_list self.now)) }
    {
        self.push_story_tiles(out)?;
        self.push_count_tiles(out)
    }

    fn push_tiles(&self, out: &mut Vec<u8>) -> Result<(), AllocError>
        ensures { OnOk result (out.new.items ≡ out.old.items ++ markup_text (pages.tiles self.now)) }
    {
        push_pieces(
            out,
            &[
                start(Element::Division),
                given(Attribute::Class, "tiles"),
                open(),
            ],
        )?;
        self.push_tile_list(out)?;
        push_pieces(out, &[end(Element::Division)])
    }

    fn seconds(&self) -> usize
        ensures { result ≡ pages.seconds self.now }
    {
        let account = self.account;
        match account.run_record.events.last() {
            None => 0,
            Some(recorded) => recorded.clock as usize,
        }
    }

    fn push_top(&self, out: &mut Vec<u8>) -> Result<(), AllocError>
        ensures { OnOk result (out.new.items ≡ out.old.items ++ markup_text (pages.top self.now)) }
    {
        let account = self.account;
        push_name(out, or_words(self.title, "A run"))?;
        push_totals(
            out,
            account.euis.len(),
            self.events as usize,
            self.flights as usize,
            self.seconds(),
        )
    }

    fn push_bad(&self, out: &mut Vec<u8>) -> Result<(), AllocError>
        ensures { OnOk result (out.new.items ≡ out.old.items ++ markup_text (pages.bad_band self.now)) }
    {
        if self.bad.is_empty() {
            return Ok(());
        }
        push_band(out, self.bad)
    }

    fn first_forged(&self) -> Option<usize>
        ensures { result ≡ pages.first_forged self.now.account.events }
    {
        let account = self.account;
        first_forged(account.run_record.events.as_slice())
    }

    fn push_forged_at(&self, out: &mut Vec<u8>, event: usize) -> Result<(), AllocError>
        ensures { OnOk result (out.new.items ≡ out.old.items ++ markup_text (pages.forged_at self.now event)) }
    {
        let said = forged_text(self.account, event)?;
        push_band(out, said.as_str())
    }

    fn push_forged(&self, out: &mut Vec<u8>) -> Result<(), AllocError>
        ensures { OnOk result (out.new.items ≡ out.old.items ++ markup_text (pages.forged_band self.now)) }
    {
        let Some(event) = self.first_forged() else {
            return Ok(());
        };
        self.push_forged_at(out, event)
    }

    // The chart of all events, if it is shown here.
    fn push_whole_if(
        &self,
        out: &mut Vec<u8>,
        run: &ChartRun<'_>,
        holds: bool,
    ) -> Result<(), AllocError>
        ensures { OnOk result (out.new.items ≡ out.old.items ++ markup_text (pages.whole_if holds self.now run.now)) }
    {
        if !holds {
            return Ok(());
        }
        let account = self.account;
        let events = numbers_to(account.alloc, account.run_record.events.len())?;
        push_whole(out, run, events.as_slice())
    }

    // Each node over the run.
    fn push_nodes(&self, out: &mut Vec<u8>, run: &ChartRun<'_>) -> Result<(), AllocError>
        ensures { OnOk result (out.new.items ≡ out.old.items ++ markup_text (pages.nodes run.now)) }
    {
        push_heading(out, "Each node over the run")?;
        push_keys(out)?;
        push_pieces(
            out,
            &[
                start(Element::Division),
                given(Attribute::Class, "card high"),
                open(),
            ],
        )?;
        push_lanes(out, run)?;
        push_pieces(out, &[end(Element::Division)])
    }

    // The map, its nodes, and each over the run.
    fn push_views(&self, out: &mut Vec<u8>, run: &ChartRun<'_>) -> Result<(), AllocError>
        ensures { OnOk result (out.new.items ≡ out.old.items ++ markup_text (pages.views self.now run.now)) }
    {
        let account = self.account;
        push_links(out, run, account.homes)?;
        push_nodes_table(out, account, run)?;
        self.push_nodes(out, run)
    }

    fn push_story_head(
        &self,
        out: &mut Vec<u8>,
        number: usize,
        story: &Story,
        events: &[usize],
    ) -> Result<(), AllocError>
        ensures { OnOk result (out.new.items ≡ out.old.items ++ markup_text (pages.story_head self.now number story.now events.now)) }
    {
        let title = self.account.title(number, story)?;
        let outcome = self.account.outcome_text(number)?;
        push_pieces(out, &[start(Element::Summary), open()])?;
        let last = events.last().copied().unwrap_or(story.first);
        push_event_numbers(out, story.first, last)?;
        push_span(out, "t", or_words(title.as_str(), kind_title(story.kind)))?;
        push_span(out, "v", outcome.as_str())?;
        push_pieces(out, &[end(Element::Summary)])
    }

    // A story: what it is about, what became of it, and, if it is drawn, its chart inside.
    fn push_story(
        &self,
        out: &mut Vec<u8>,
        run: &ChartRun<'_>,
        drawn: bool,
        number: usize,
        story: &Story,
    ) -> Result<(), AllocError>
        ensures { OnOk result (out.new.items ≡ out.old.items ++ markup_text (pages.story self.now run.now drawn number story.now)) }
    {
        let account = self.account;
        let events = account.index.events(number);
        let good = is_good(&account.verdict(number));
        push_pieces(
            out,
            &[
                start(Element::Details),
                given_number(Attribute::Id, number),
                given(Attribute::Class, story_class(good)),
                open(),
            ],
        )?;
        self.push_story_head(out, number, story, events)?;
        push_chart_if(out, run, drawn, events)?;
        push_pieces(out, &[end(Element::Details)])
    }

    fn push_story_if(
        &self,
        out: &mut Vec<u8>,
        run: &ChartRun<'_>,
        holds: bool,
        drawn: bool,
        number: usize,
        story: &Story,
    ) -> Result<(), AllocError>
        ensures { OnOk result (out.new.items
            ≡ out.old.items ++ markup_text (pages.story_if holds self.now run.now drawn number story.now)) }
    {
        if holds {
            return self.push_story(out, run, drawn, number, story);
        }
        Ok(())
    }

    // Those of a kind that did not fail.
    fn push_others_of(
        &self,
        out: &mut Vec<u8>,
        run: &ChartRun<'_>,
        kind: StoryKind,
        stories: &[Story],
    ) -> Result<(), AllocError>
        ensures { OnOk result (out.new.items
            ≡ out.old.items ++ markup_text (pages.others_from self.now run.now kind 100 0 stories.now)) }
    {
        let mut left = CHARTS;
        for (i, story) in stories.iter().enumerate() {
            let holds = self.is_other(kind, i + 1, story);
            self.push_story_if(out, run, holds, left > 0, i + 1, story)?;
            left = left_after(holds, left);
        }
        Ok(())
    }

    fn push_stories_of(
        &self,
        out: &mut Vec<u8>,
        run: &ChartRun<'_>,
        kind: StoryKind,
    ) -> Result<(), AllocError>
        ensures { OnOk result (out.new.items ≡ out.old.items ++ markup_text (pages.stories_of self.now run.now kind)) }
    {
        let account = self.account;
        if self.others_of(account.stories, kind) == 0 {
            return Ok(());
        }
        push_heading(out, kind_title(kind))?;
        self.push_others_of(out, run, kind, account.stories)
    }

    // Those of all kinds that failed.
    fn push_failed_of(
        &self,
        out: &mut Vec<u8>,
        run: &ChartRun<'_>,
        stories: &[Story],
    ) -> Result<(), AllocError>
        ensures { OnOk result (out.new.items ≡ out.old.items ++ markup_text (pages.failed_from self.now run.now 300 0 stories.now)) }
    {
        let mut left = FAILED_CHARTS;
        for (i, story) in stories.iter().enumerate() {
            let holds = self.has_failed(i + 1);
            self.push_story_if(out, run, holds, left > 0, i + 1, story)?;
            left = left_after(holds, left);
        }
        Ok(())
    }

    #[tactic(auto, unfolding(crate::specs::Pages::failed_list))]
    fn push_failed_list(&self, out: &mut Vec<u8>, run: &ChartRun<'_>) -> Result<(), AllocError>
        ensures { OnOk result (out.new.items ≡ out.old.items ++ markup_text (pages.failed_list self.now run.now)) }
    {
        let account = self.account;
        push_heading(out, "What failed")?;
        self.push_failed_of(out, run, account.stories)
    }

    fn push_failed(&self, out: &mut Vec<u8>, run: &ChartRun<'_>) -> Result<(), AllocError>
        ensures { OnOk result (out.new.items ≡ out.old.items ++ markup_text (pages.failed_stories self.now run.now)) }
    {
        if self.failed() == 0 {
            return Ok(());
        }
        push_reasons(out, self.account)?;
        self.push_failed_list(out, run)
    }

    fn push_stories(
        &self,
        out: &mut Vec<u8>,
        run: &ChartRun<'_>,
        kinds: &[StoryKind],
    ) -> Result<(), AllocError>
        ensures { OnOk result (out.new.items ≡ out.old.items ++ markup_text (pages.stories self.now run.now kinds.now)) }
    {
        for kind in kinds {
            self.push_stories_of(out, run, *kind)?;
        }
        Ok(())
    }

    // What is said of the run as a whole.
    #[tactic(auto, unfolding(crate::specs::Pages::summary))]
    fn push_summary(&self, out: &mut Vec<u8>) -> Result<(), AllocError>
        ensures { OnOk result (out.new.items ≡ out.old.items ++ markup_text (pages.summary self.now)) }
    {
        self.push_top(out)?;
        self.push_bad(out)?;
        self.push_forged(out)?;
        self.push_tiles(out)
    }

    // What is said of its parts.
    #[tactic(auto, unfolding(crate::specs::Pages::parts))]
    fn push_parts(&self, out: &mut Vec<u8>, run: &ChartRun<'_>) -> Result<(), AllocError>
        ensures { OnOk result (out.new.items ≡ out.old.items ++ markup_text (pages.parts self.now run.now)) }
    {
        let account = self.account;
        let events = account.run_record.events.len();
        self.push_failed(out, run)?;
        self.push_views(out, run)?;
        self.push_whole_if(out, run, events <= FIRST)?;
        self.push_stories(out, run, &KINDS)?;
        self.push_whole_if(out, run, events > FIRST && events <= WHOLE)
    }

    fn push_content(&self, out: &mut Vec<u8>, run: &ChartRun<'_>) -> Result<(), AllocError>
        ensures { OnOk result (out.new.items ≡ out.old.items ++ markup_text (pages.content self.now run.now)) }
    {
        self.push_summary(out)?;
        self.push_parts(out, run)
    }

    /// Appends the page.
    ///
    /// It fails only where memory runs out; `out` may end anywhere within the page then.
    pub fn push_page(&self, out: &mut Vec<u8>, run: &ChartRun<'_>) -> Result<(), AllocError>
        ensures { OnOk result (out.new.items ≡ out.old.items ++ pages.page self.now run.now) }
    {
        push_page_start(out, or_words(self.title, "A run"))?;
        self.push_content(out, run)?;
        push_page_end(out)
    }
}
