//! What a story is about, in words.
ghost use Rattle.std.specs.Prelude.{◌≡◌, ◌++◌, IfOk, OnOk, string_bytes};
ghost use Rattle.story_accounts.specs.Titles as titles;

use crate::account::Account;
use line_record::{Act, Story};
use sentence_parts::{node, number, sentence, words};
use std::alloc::{AllocError, Global};

fn octets_word(count: usize) -> &'static str
    ensures { result.now ≡ titles.octets_word count }
{
    if count == 1 {
        return " octet";
    }
    " octets"
}

fn send_text(alloc: Global, send: usize) -> Result<String, AllocError>
    ensures { IfOk result (λ text. string_bytes text ≡ titles.send_text send) }
{
    if send == 0 {
        return String::from_str(alloc, "send, refused");
    }
    sentence(alloc, &[words("send "), number(send)])
}

fn datagram_by(
    alloc: Global,
    send: &str,
    from: u32,
    to: u32,
    size: usize,
    unit: &str,
) -> Result<String, AllocError>
    ensures { IfOk result (λ text. string_bytes text ≡ titles.datagram_by send.now from to size unit.now) }
{
    sentence(
        alloc,
        &[
            words(send),
            words(": "),
            node(from),
            words(" to "),
            node(to),
            words(", "),
            number(size),
            words(unit),
        ],
    )
}

#[tactic(auto, unfolding(crate::specs::Titles::datagram_title))]
fn datagram_title(
    alloc: Global,
    send: usize,
    from: u32,
    to: u32,
    size: usize,
) -> Result<String, AllocError>
    ensures { IfOk result (λ text. string_bytes text ≡ titles.datagram_title send from to size) }
{
    let send = send_text(alloc, send)?;
    datagram_by(alloc, send.as_str(), from, to, size, octets_word(size))
}

// A node, some words and another node.
fn two_nodes(alloc: Global, a: u32, between: &str, b: u32) -> Result<String, AllocError>
    ensures { IfOk result (λ text. string_bytes text ≡ titles.two_nodes a between.now b) }
{
    sentence(alloc, &[node(a), words(between), node(b)])
}

// A node, some words and a number.
fn with_number(alloc: Global, a: u32, between: &str, n: usize) -> Result<String, AllocError>
    ensures { IfOk result (λ text. string_bytes text ≡ titles.with_number a between.now n) }
{
    sentence(alloc, &[node(a), words(between), number(n)])
}

// Some words, a node and other words.
fn with_node(alloc: Global, before: &str, a: u32, after: &str) -> Result<String, AllocError>
    ensures { IfOk result (λ text. string_bytes text ≡ titles.with_node before.now a after.now) }
{
    sentence(alloc, &[words(before), node(a), words(after)])
}

fn broadcast_title(alloc: Global, from: u32, size: usize) -> Result<String, AllocError>
    ensures { IfOk result (λ text. string_bytes text ≡ titles.broadcast_title from size) }
{
    sentence(
        alloc,
        &[
            node(from),
            words(" to all, "),
            number(size),
            words(octets_word(size)),
        ],
    )
}

// What a story is about that begins with an event, by the number of its send.
fn title_by(alloc: Global, act: &Act, send: usize) -> Result<String, AllocError>
    ensures { IfOk result (λ text. string_bytes text ≡ titles.title_by act.now send) }
{
    match act {
        Act::Send { from, to, octets } => datagram_title(alloc, send, *from, *to, *octets),
        Act::Join { node, agent } => two_nodes(alloc, *node, " joins at ", *agent),
        Act::Choose { node, k } => {
            with_number(alloc, *node, " joins at the agent of rank ", *k as usize)
        }
        Act::Challenge { node } => with_node(alloc, "the coordinator gives ", *node, " its keys"),
        Act::Activate { node, index } => with_number(
            alloc,
            *node,
            " is ordered to seal with key ",
            *index as usize,
        ),
        Act::Kick { node } => with_node(alloc, "", *node, " is to be shut out"),
        Act::Inject { node, .. } => with_node(alloc, "injected octets come to ", *node, ""),
        Act::Bcast { node, octets } => broadcast_title(alloc, *node, *octets),
        Act::Path { from, to } => two_nodes(alloc, *from, " asks for the way to ", *to),
        _ => Ok(String::new(alloc)),
    }
}

/// Appends words with their first character as a capital.
#[tactic(auto, unfolding(crate::specs::Titles::capital))]
pub fn push_capital(text: &mut String, words: &str) -> Result<(), AllocError>
    ensures { OnOk result (string_bytes text.new ≡ string_bytes text.old ++ titles.capital words.now) }
{
    let mut signs = words.chars();
    let Some(first) = signs.next() else {
        return Ok(());
    };
    text.push(first.to_ascii_uppercase())?;
    text.push_str(signs.as_str())
}

impl<'a> Account<'a> {
    /// What a story is about, by its number from 1.
    #[tactic(auto, unfolding(crate::specs::Titles::title))]
    pub fn title(&self, number: usize, story: &Story) -> Result<String, AllocError>
        ensures { IfOk result (λ text. string_bytes text ≡ titles.title self.now number story.now) }
    {
        let send = self.index.send(number);
        match self.event(story.first) {
            Some(recorded) => title_by(self.alloc, &recorded.act, send),
            None => Ok(String::new(self.alloc)),
        }
    }
}
