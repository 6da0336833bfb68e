//! What an event did whose sentence is no more than the word of its answer.
ghost use Rattle.std.specs.Prelude.{◌≡◌, IfOk, string_bytes};
ghost use Rattle.run_charts.specs.EventDeeds as event_deeds;

use line_record::{Act, RecordedEvent};
use line_script::answer_word;
use sentence_parts::{node, number, sentence, words};
use std::alloc::{AllocError, Global};

/// What an event did, where its line says more than the word of its answer.
#[derive(Clone, Copy, Debug, PartialEq, Eq)]
pub enum Doing {
    /// The link of a node to another one broke.
    Breaks { at: u32, next: u32 },
    /// A node was shown.
    Shows { at: u32 },
    /// A node restarted.
    Restarts { at: u32 },
    /// This many seconds passed.
    Passes { seconds: u32 },
    /// A group key was drawn for an index.
    Draws { index: u8 },
    /// The frame counter of a node was set.
    SetsCounter { at: u32 },
    /// The own number of a node was set.
    SetsNumber { at: u32 },
    /// Another thing.
    Other,
}

fn doing_of(act: &Act) -> Doing
    ensures { result ≡ event_deeds.doing_of act.now }
{
    match act {
        Act::Break { node: at, next } => Doing::Breaks {
            at: *at,
            next: *next,
        },
        Act::Show { node: at } => Doing::Shows { at: *at },
        Act::Restart { node: at } => Doing::Restarts { at: *at },
        Act::Tick { seconds } => Doing::Passes { seconds: *seconds },
        Act::Rekey { index } => Doing::Draws { index: *index },
        Act::Counter { node: at } => Doing::SetsCounter { at: *at },
        Act::Number { node: at } => Doing::SetsNumber { at: *at },
        _ => Doing::Other,
    }
}

#[tactic(auto, unfolding(crate::specs::EventDeeds::break_text))]
fn break_text(alloc: Global, at: u32, next: u32) -> Result<String, AllocError>
    ensures { IfOk result (λ text. string_bytes text ≡ event_deeds.break_text at next) }
{
    sentence(
        alloc,
        &[
            node(at),
            words("'s link to "),
            node(next),
            words(" broke: its routes by that end"),
        ],
    )
}

#[tactic(auto, unfolding(crate::specs::EventDeeds::show_text))]
fn show_text(alloc: Global, at: u32) -> Result<String, AllocError>
    ensures { IfOk result (λ text. string_bytes text ≡ event_deeds.show_text at) }
{
    sentence(alloc, &[words("what "), node(at), words(" shows")])
}

#[tactic(auto, unfolding(crate::specs::EventDeeds::restart_text))]
fn restart_text(alloc: Global, at: u32) -> Result<String, AllocError>
    ensures { IfOk result (λ text. string_bytes text ≡ event_deeds.restart_text at) }
{
    sentence(alloc, &[node(at), words(" restarts with what it stored")])
}

#[tactic(auto, unfolding(crate::specs::EventDeeds::passing_text))]
fn passing_text(alloc: Global, seconds: u32) -> Result<String, AllocError>
    ensures { IfOk result (λ text. string_bytes text ≡ event_deeds.passing_text seconds) }
{
    sentence(alloc, &[number(seconds as usize), words(" s pass")])
}

#[tactic(auto, unfolding(crate::specs::EventDeeds::draw_text))]
fn draw_text(alloc: Global, index: u8) -> Result<String, AllocError>
    ensures { IfOk result (λ text. string_bytes text ≡ event_deeds.draw_text index) }
{
    sentence(
        alloc,
        &[
            words("a group key is drawn, with index "),
            number(index as usize),
        ],
    )
}

#[tactic(auto, unfolding(crate::specs::EventDeeds::counter_text))]
fn counter_text(alloc: Global, at: u32) -> Result<String, AllocError>
    ensures { IfOk result (λ text. string_bytes text ≡ event_deeds.counter_text at) }
{
    sentence(
        alloc,
        &[words("the frame counter of "), node(at), words(" is set")],
    )
}

#[tactic(auto, unfolding(crate::specs::EventDeeds::number_text))]
fn number_text(alloc: Global, at: u32) -> Result<String, AllocError>
    ensures { IfOk result (λ text. string_bytes text ≡ event_deeds.number_text at) }
{
    sentence(
        alloc,
        &[words("the own number of "), node(at), words(" is set")],
    )
}

fn text_of(alloc: Global, doing: &Doing, word: &str) -> Result<String, AllocError>
    ensures { IfOk result (λ text. string_bytes text ≡ event_deeds.text_of doing.now word.now) }
{
    match doing {
        Doing::Breaks { at, next } => break_text(alloc, *at, *next),
        Doing::Shows { at } => show_text(alloc, *at),
        Doing::Restarts { at } => restart_text(alloc, *at),
        Doing::Passes { seconds } => passing_text(alloc, *seconds),
        Doing::Draws { index } => draw_text(alloc, *index),
        Doing::SetsCounter { at } => counter_text(alloc, *at),
        Doing::SetsNumber { at } => number_text(alloc, *at),
        Doing::Other => String::from_str(alloc, word),
    }
}

/// What an event did, by its line alone.
#[tactic(auto, unfolding(crate::specs::EventDeeds::doing_text))]
pub fn doing_text(alloc: Global, recorded: &RecordedEvent) -> Result<String, AllocError>
    ensures { IfOk result (λ text. string_bytes text ≡ event_deeds.doing_text recorded.now) }
{
    text_of(
        alloc,
        &doing_of(&recorded.act),
        answer_word(recorded.answer),
    )
}
