//! The sentences beside the rows of a chart.
ghost use Rattle.std.specs.Prelude.{◌≡◌, ◌<◌, ◌^◌, ◌++◌, IfOk, OnOk, string_bytes};
ghost use Rattle.markup.specs.ElementTexts.{end_tag};
ghost use Rattle.markup.specs.declared.names.Element.TheVariants as E;
ghost use Rattle.markup.specs.Markups.{markup_text};
ghost use Rattle.run_charts.specs.RowSentences as sayings;

use crate::doing::doing_text;
use crate::outcome::{outcome_of, pill_class};
use crate::row::{Row, flight_heard, members, number_at};
use crate::run::{ChartRun, is_missed};
use line_record::{Act, Course, Fate, RecordedEvent, is_setup, made_by};
use line_script::answer_word;
use markup::{Attribute, Element, count, end, given, given_number, open, push_pieces, start, text};
use sentence_parts::{number, sentence, words};
use std::alloc::{AllocError, Global};

/// How many nodes and routes some lines of the setup make.
#[derive(Clone, Copy, Debug, PartialEq, Eq)]
pub struct Made {
    /// This many nodes.
    pub nodes: usize,
    /// This many of them were joined in the workshop.
    pub joined: usize,
    /// This many pairs have a route to each other.
    pub routes: usize,
}

// One more. A run has at most 50,000 events.
#[tactic(auto, unfolding(crate::specs::RowSentences::more))]
fn more(old: usize, holds: bool) -> usize
    ensures { result ≡ sayings.more old holds }
{
    if holds {
        return old.min(100_000) + 1;
    }
    old
}

fn is_made(act: &Act) -> bool
    ensures { result ≡ sayings.is_made act.now }
{
    match act {
        Act::Coordinator { .. } => true,
        Act::Meter { .. } => true,
        _ => false,
    }
}

fn is_joined(act: &Act) -> bool
    ensures { result ≡ sayings.is_joined act.now }
{
    match act {
        Act::Depot { .. } => true,
        _ => false,
    }
}

fn is_routed(act: &Act) -> bool
    ensures { result ≡ sayings.is_routed act.now }
{
    match act {
        Act::Near { .. } => true,
        _ => false,
    }
}

#[tactic(auto, unfolding(crate::specs::RowSentences::made_more))]
fn made_more(made: Made, act: &Act) -> Made
    ensures { result ≡ sayings.made_more made act.now }
{
    Made {
        nodes: more(made.nodes, is_made(act)),
        joined: more(made.joined, is_joined(act)),
        routes: more(made.routes, is_routed(act)),
    }
}

// Whether nobody heard a flight.
#[tactic(auto, unfolding(crate::specs::RowSentences::is_unheard))]
fn is_unheard(course: &Course) -> bool
    ensures { result ≡ sayings.is_unheard course.now }
{
    is_missed(&course.fate) && !course.overheard
}

fn late_words(fate: &Fate) -> &'static str
    ensures { result.now ≡ sayings.late_words fate.now }
{
    match fate {
        Fate::Lost { .. } => " lost",
        _ => " never delivered",
    }
}

#[tactic(auto, unfolding(crate::specs::RowSentences::setup_words))]
fn setup_text(alloc: Global, made: Made) -> Result<String, AllocError>
    ensures { IfOk result (λ text. string_bytes text ≡ sayings.setup_words made) }
{
    sentence(
        alloc,
        &[
            words("nodes: "),
            number(made.nodes),
            words(", joined in the workshop: "),
            number(made.joined),
            words(", pairs with a route to each other: "),
            number(made.routes),
        ],
    )
}

// What a flight did that came only to nodes that it is not for.
#[tactic(auto, unfolding(crate::specs::RowSentences::overheard))]
fn overheard_text(alloc: Global, flight: usize, nodes: usize) -> Result<String, AllocError>
    ensures { IfOk result (λ text. string_bytes text ≡ sayings.overheard flight nodes) }
{
    sentence(
        alloc,
        &[
            words("flight "),
            number(flight),
            words(" is heard by others than the node that it is for: "),
            number(nodes),
        ],
    )
}

// Whether a row is several lines of the setup.
#[tactic(auto, unfolding(crate::specs::RowSentences::is_setup_row))]
fn is_setup_row(recorded: &RecordedEvent, events: usize) -> bool
    ensures { result ≡ sayings.is_setup_row recorded.now events }
{
    is_setup(&recorded.act) && events > 1
}

// Whether a row is a flight that came only to nodes that it is not for.
#[tactic(auto, unfolding(crate::specs::RowSentences::is_overheard))]
fn is_overheard(recorded: &RecordedEvent, hushed: bool) -> bool
    ensures { result ≡ sayings.is_overheard recorded.now hushed }
{
    flight_heard(&recorded.act) != 0 && hushed
}

#[tactic(auto, unfolding(crate::specs::RowSentences::unheard))]
fn push_unheard(out: &mut Vec<u8>, flight: usize, words: &str) -> Result<(), AllocError>
    ensures { OnOk result (out.new.items ≡ out.old.items ++ markup_text (sayings.unheard flight words.now)) }
{
    push_pieces(
        out,
        &[
            start(Element::Span),
            given(Attribute::Class, "late"),
            open(),
            text(" — flight "),
            count(flight),
            text(words),
            end(Element::Span),
        ],
    )
}

fn push_unheard_lot(out: &mut Vec<u8>, flight: usize, course: &Course) -> Result<(), AllocError>
    ensures { OnOk result (out.new.items ≡ out.old.items ++ markup_text (sayings.unheard_if (sayings.is_unheard course.now) flight course.now)) }
{
    if is_unheard(course) {
        return push_unheard(out, flight, late_words(&course.fate));
    }
    Ok(())
}

// Of these flights, from this number on, those that nobody heard.
fn push_unheard_lots(out: &mut Vec<u8>, first: usize, courses: &[Course]) -> Result<(), AllocError>
    requires { first < 2 ^ 32 }
    ensures { OnOk result (out.new.items ≡ out.old.items ++ markup_text (sayings.late_from first courses.now)) }
{
    for (i, course) in courses.iter().enumerate() {
        push_unheard_lot(out, first + i, course)?;
    }
    Ok(())
}

#[tactic(auto, unfolding(crate::specs::RowSentences::full_note))]
fn push_full_note(out: &mut Vec<u8>, note: &str) -> Result<(), AllocError>
    ensures { OnOk result (out.new.items ≡ out.old.items ++ markup_text (sayings.full_note note.now)) }
{
    push_pieces(
        out,
        &[
            start(Element::Item),
            given(Attribute::Class, "cm"),
            given(Attribute::Title, note),
            open(),
            text(note),
            end(Element::Item),
        ],
    )
}

#[tactic(auto, unfolding(crate::specs::RowSentences::note_item))]
fn push_note(out: &mut Vec<u8>, note: &str) -> Result<(), AllocError>
    ensures { OnOk result (out.new.items ≡ out.old.items ++ markup_text (sayings.note_item note.now)) }
{
    if note.is_empty() {
        return Ok(());
    }
    push_full_note(out, note)
}

#[tactic(auto, unfolding(crate::specs::RowSentences::pill))]
fn push_pill(out: &mut Vec<u8>, recorded: &RecordedEvent) -> Result<(), AllocError>
    ensures { OnOk result (out.new.items ≡ out.old.items ++ markup_text (sayings.pill recorded.now)) }
{
    push_pieces(
        out,
        &[
            start(Element::Span),
            given(Attribute::Class, pill_class(outcome_of(recorded))),
            open(),
            text(answer_word(recorded.answer)),
            end(Element::Span),
        ],
    )
}

fn push_item_end(out: &mut Vec<u8>) -> Result<(), AllocError>
    ensures { OnOk result (out.new.items ≡ out.old.items ++ end_tag E.Item) }
{
    push_pieces(out, &[end(Element::Item)])
}

// Words after others.
#[tactic(auto, unfolding(crate::specs::RowSentences::joined_words))]
fn push_joined(text: &mut String, words: &str) -> Result<(), AllocError>
    ensures { OnOk result (string_bytes text.new ≡ sayings.joined_words (string_bytes text.old) words.now) }
{
    if words.is_empty() {
        return Ok(());
    }
    if text.is_empty() {
        return text.push_str(words);
    }
    text.push_str("; ")?;
    text.push_str(words)
}

impl<'a> ChartRun<'a> {
    #[tactic(auto, unfolding(crate::specs::RowSentences::made_by_all))]
    fn made(&self, events: &[usize]) -> Made
        ensures { result ≡ sayings.made_by_all self.now events.now }
    {
        let mut made = Made {
            nodes: 0,
            joined: 0,
            routes: 0,
        };
        for event in events {
            made = self.with_made(made, *event);
        }
        made
    }

    #[tactic(auto, unfolding(crate::specs::RowSentences::with_made))]
    fn with_made(&self, made: Made, event: usize) -> Made
        ensures { result ≡ sayings.with_made self.now made event }
    {
        let Some(recorded) = self.event(event) else {
            return made;
        };
        made_more(made, &recorded.act)
    }

    // The sentences of some events.
    fn push_reasons(&self, text: &mut String, events: &[usize]) -> Result<(), AllocError>
        ensures { OnOk result (string_bytes text.new ≡ sayings.reasons_after self.now events.now (string_bytes text.old)) }
    {
        for event in events {
            self.push_reason(text, *event)?;
        }
        Ok(())
    }

    // What is said of an event: its sentence, where that is more than the word of its answer.
    #[tactic(auto, unfolding(crate::specs::RowSentences::said))]
    fn said(&self, event: usize) -> Result<String, AllocError>
        ensures { IfOk result (λ text. string_bytes text ≡ sayings.said self.now event) }
    {
        let why = self.why(event);
        let Some(recorded) = self.event(event) else {
            return String::from_str(self.alloc, why);
        };
        if why == answer_word(recorded.answer) {
            return doing_text(self.alloc, &recorded);
        }
        String::from_str(self.alloc, why)
    }

    fn push_reason(&self, text: &mut String, event: usize) -> Result<(), AllocError>
        ensures { OnOk result (string_bytes text.new ≡ sayings.joined_words (string_bytes text.old) (sayings.said self.now event)) }
    {
        let said = self.said(event)?;
        push_joined(text, said.as_str())
    }

    // The words of a row.
    #[tactic(auto, unfolding(crate::specs::RowSentences::row_words))]
    fn words_of(
        &self,
        events: &[usize],
        row: &Row,
        event: usize,
        recorded: &RecordedEvent,
    ) -> Result<String, AllocError>
        ensures { IfOk result (λ text. string_bytes text ≡ sayings.row_words self.now events.now row.now event recorded.now) }
    {
        let all = members(events, row);
        if is_setup_row(recorded, all.len()) {
            return setup_text(self.alloc, self.made(all));
        }
        if is_overheard(recorded, self.is_hushed(event)) {
            return overheard_text(self.alloc, flight_heard(&recorded.act), all.len());
        }
        let mut text = String::new(self.alloc);
        self.push_reasons(&mut text, all)?;
        Ok(text)
    }

    // The flights of an event that nobody heard.
    #[tactic(auto, unfolding(crate::specs::RowSentences::late))]
    fn push_late(&self, out: &mut Vec<u8>, recorded: &RecordedEvent) -> Result<(), AllocError>
        ensures { OnOk result (out.new.items ≡ out.old.items ++ markup_text (sayings.late self.now recorded.now)) }
    {
        push_unheard_lots(
            out,
            recorded.first_flight as usize,
            made_by(recorded, self.courses),
        )
    }

    #[tactic(auto, unfolding(crate::specs::RowSentences::item_content))]
    fn push_item_content(
        &self,
        out: &mut Vec<u8>,
        recorded: &RecordedEvent,
        said: &str,
    ) -> Result<(), AllocError>
        ensures { OnOk result (out.new.items ≡ out.old.items ++ markup_text (sayings.item_content self.now recorded.now said.now)) }
    {
        push_pill(out, recorded)?;
        push_pieces(out, &[text(said)])?;
        self.push_late(out, recorded)
    }

    #[tactic(auto, unfolding(crate::specs::RowSentences::item))]
    fn push_item(
        &self,
        out: &mut Vec<u8>,
        recorded: &RecordedEvent,
        said: &str,
    ) -> Result<(), AllocError>
        ensures { OnOk result (out.new.items ≡ out.old.items ++ markup_text (sayings.item self.now recorded.now said.now)) }
    {
        push_pieces(
            out,
            &[
                start(Element::Item),
                given_number(Attribute::Flight, flight_heard(&recorded.act)),
                given(Attribute::Title, said),
                open(),
            ],
        )?;
        self.push_item_content(out, recorded, said)?;
        push_item_end(out)
    }

    #[tactic(auto, unfolding(crate::specs::RowSentences::saying))]
    fn push_saying(&self, out: &mut Vec<u8>, events: &[usize], row: &Row) -> Result<(), AllocError>
        ensures { OnOk result (out.new.items ≡ out.old.items ++ markup_text (sayings.saying self.now events.now row.now)) }
    {
        let event = number_at(events, row.main);
        let Some(recorded) = self.event(event) else {
            return Ok(());
        };
        push_note(out, self.note(number_at(events, row.start)))?;
        let said = self.words_of(events, row, event, &recorded)?;
        self.push_item(out, &recorded, said.as_str())
    }

    fn push_saying_list(
        &self,
        out: &mut Vec<u8>,
        events: &[usize],
        rows: &[Row],
    ) -> Result<(), AllocError>
        ensures { OnOk result (out.new.items ≡ out.old.items ++ markup_text (sayings.saying_list self.now events.now rows.now)) }
    {
        for row in rows {
            self.push_saying(out, events, row)?;
        }
        Ok(())
    }

    /// Appends the list of what is said of the rows.
    #[tactic(auto, unfolding(crate::specs::RowSentences::sayings))]
    pub fn push_sayings(
        &self,
        out: &mut Vec<u8>,
        events: &[usize],
        rows: &[Row],
    ) -> Result<(), AllocError>
        ensures { OnOk result (out.new.items ≡ out.old.items ++ markup_text (sayings.sayings self.now events.now rows.now)) }
    {
        push_pieces(out, &[start(Element::List), open()])?;
        self.push_saying_list(out, events, rows)?;
        push_pieces(out, &[end(Element::List)])
    }
}
