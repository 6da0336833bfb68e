//! The texts of a report.
ghost use Rattle.std.specs.Prelude.{◌≡◌, ◌++◌, IfOk, OnOk, codes, decimal, string_bytes, Some};
ghost use Rattle.hex.specs.Hex.{encode_lower};
ghost use Rattle.line_script.specs.NodeTexts.{short_word};
ghost use Rattle.line_script.specs.Texts.{reason_word, answer_text, forged_text, up_text, bup_text, agent_text, walk_text, path_text, further_text, grant_text};
ghost use Rattle.line_script.specs.Texts.{took_text, done_text, shown_text, details_text, happened_text, fly_text, bad_text, end_text};

use crate::answer::{answer_word, spaced_verdict};
use crate::digits::push_digits;
use crate::node_report::push_node;
use itoa::Buffer;
use line_events::{Admission, AgentLine, Answer, BroadcastUp, Event, Handed, Happenings, PathLine};
use node_rules::ShownRef;
use plc_base::Short;
use std::alloc::{AllocError, Global};

/// Why a line is bad. The reasons are tried in this order.
#[derive(Clone, Copy, Debug, PartialEq, Eq)]
pub enum Reason {
    /// The octet after the last that a script may have stands in it.
    Input,
    /// It has more octets than a line may have.
    Long,
    /// It has no reading.
    Form,
    /// It would be one event more than a run may have.
    Events,
    /// It does not fit the setup.
    Setup,
    /// A node is not there.
    Node,
    /// The flight is not there.
    Flight,
}

/// The totals of a run, which its last line names.
#[derive(Clone, Copy, Debug, PartialEq, Eq)]
pub struct Totals {
    /// The events that were taken.
    pub events: u32,
    /// The flights.
    pub flights: u32,
    /// The sends that were answered ok.
    pub sends: u32,
    /// The datagrams that were handed up.
    pub ups: u32,
    /// The events that are forged.
    pub forged: u32,
}

fn reason_word(reason: Reason) -> &'static str
    ensures { result.now ≡ reason_word reason }
{
    match reason {
        Reason::Input => "input",
        Reason::Long => "long",
        Reason::Form => "form",
        Reason::Events => "events",
        Reason::Setup => "setup",
        Reason::Node => "node",
        Reason::Flight => "flight",
    }
}

// Numbers and octets are appended without the formatter, which takes several times as long, since most lines are made of them.

pub(crate) fn push_number(text: &mut String, number: u32) -> Result<(), AllocError>
    ensures { OnOk result (string_bytes text.new ≡ string_bytes text.old ++ decimal number) }
{
    let mut digits = Buffer::new();
    text.push_str(digits.format(number))
}

// Two numbers with a space between them.
fn push_pair(text: &mut String, first: u32, second: u32) -> Result<(), AllocError>
    ensures { OnOk result (string_bytes text.new
        ≡ string_bytes text.old ++ (decimal first ++ (codes " " ++ decimal second))) }
{
    push_number(text, first)?;
    text.push_str(" ")?;
    push_number(text, second)
}

// The last word of a line, in hexadecimal.
fn push_octets(text: &mut String, octets: &[u8]) -> Result<(), AllocError>
    ensures { OnOk result (string_bytes text.new
        ≡ string_bytes text.old ++ (codes " " ++ (encode_lower octets.now ++ codes "\n"))) }
{
    text.push_str(" ")?;
    push_digits(text, octets)?;
    text.push_str("\n")
}

#[tactic(auto, unfolding(crate::specs::Texts::answer_text))]
fn push_answer(text: &mut String, number: u32, answer: Answer) -> Result<(), AllocError>
    ensures { OnOk result (string_bytes text.new ≡ string_bytes text.old ++ answer_text number answer) }
{
    push_number(text, number)?;
    text.push_str(spaced_verdict(answer))?;
    text.push_str(answer_word(answer))?;
    text.push_str("\n")
}

#[tactic(auto, unfolding(crate::specs::Texts::forged_text))]
fn push_forged(text: &mut String, number: u32, forged: bool) -> Result<(), AllocError>
    ensures { OnOk result (string_bytes text.new ≡ string_bytes text.old ++ forged_text number forged) }
{
    if !forged {
        return Ok(());
    }
    text.push_str("forged ")?;
    push_number(text, number)?;
    text.push_str("\n")
}

#[tactic(auto, unfolding(crate::specs::Texts::up_text))]
fn push_up(text: &mut String, up: &Option<Handed<'_>>) -> Result<(), AllocError>
    ensures { OnOk result (string_bytes text.new ≡ string_bytes text.old ++ up_text up.now) }
{
    match up {
        None => Ok(()),
        Some(up) => {
            text.push_str("up ")?;
            push_pair(text, u32::from(up.node), up.note)?;
            push_octets(text, up.octets.octets())
        }
    }
}

// The last word of a line, a number.
fn push_last_number(text: &mut String, number: u32) -> Result<(), AllocError>
    ensures { OnOk result (string_bytes text.new ≡ string_bytes text.old ++ (codes " " ++ (decimal number ++ codes "\n"))) }
{
    text.push_str(" ")?;
    push_number(text, number)?;
    text.push_str("\n")
}

// A short address after a space.
fn push_address(text: &mut String, address: Short) -> Result<(), AllocError>
    ensures { OnOk result (string_bytes text.new
        ≡ string_bytes text.old ++ (codes " " ++ short_word address)) }
{
    text.push_str(" ")?;
    push_digits(text, &address.number().to_be_bytes())
}

#[tactic(auto, unfolding(crate::specs::Texts::bup_text))]
fn push_bup(text: &mut String, up: &Option<BroadcastUp<'_>>) -> Result<(), AllocError>
    ensures { OnOk result (string_bytes text.new ≡ string_bytes text.old ++ bup_text up.now) }
{
    match up {
        None => Ok(()),
        Some(up) => {
            text.push_str("bup ")?;
            push_number(text, u32::from(up.node))?;
            push_address(text, up.origin)?;
            push_broadcast(text, up.number, up.octets.octets())
        }
    }
}

// The number of a broadcast and its octets, at the end of a line.
fn push_broadcast(text: &mut String, number: u32, octets: &[u8]) -> Result<(), AllocError>
    ensures { OnOk result (string_bytes text.new ≡ string_bytes text.old
        ++ (codes " " ++ (decimal number ++ (codes " " ++ (encode_lower octets.now ++ codes "\n"))))) }
{
    text.push_str(" ")?;
    push_number(text, number)?;
    push_octets(text, octets)
}

#[tactic(auto, unfolding(crate::specs::Texts::agent_text))]
fn push_agent(text: &mut String, agent: Option<AgentLine>) -> Result<(), AllocError>
    ensures { OnOk result (string_bytes text.new ≡ string_bytes text.old ++ agent_text agent) }
{
    match agent {
        None => Ok(()),
        Some(agent) => {
            text.push_str("agent ")?;
            push_number(text, u32::from(agent.node))?;
            push_address(text, agent.address)?;
            push_last_number(text, agent.total)
        }
    }
}

fn push_walk(text: &mut String, walk: &[Short]) -> Result<(), AllocError>
    ensures { OnOk result (string_bytes text.new ≡ string_bytes text.old ++ walk_text walk.now) }
{
    for address in walk {
        push_address(text, *address)?;
    }
    Ok(())
}

#[tactic(auto, unfolding(crate::specs::Texts::path_text))]
fn push_path(text: &mut String, path: &Option<PathLine>) -> Result<(), AllocError>
    ensures { OnOk result (string_bytes text.new ≡ string_bytes text.old ++ path_text path.now) }
{
    match path {
        None => Ok(()),
        Some(path) => {
            text.push_str("path ")?;
            push_number(text, u32::from(path.node))?;
            push_walk(text, path.walk.addresses())?;
            text.push_str("\n")
        }
    }
}

/// The lines of further reach: the broadcast that was handed up, the agent that was chosen, the answer to a path request.
#[tactic(auto, unfolding(crate::specs::Texts::further_text))]
fn push_further(text: &mut String, happenings: &Happenings<'_>) -> Result<(), AllocError>
    ensures { OnOk result (string_bytes text.new ≡ string_bytes text.old ++ further_text happenings.now) }
{
    push_bup(text, &happenings.bup)?;
    push_agent(text, happenings.agent)?;
    push_path(text, &happenings.path)
}

#[tactic(auto, unfolding(crate::specs::Texts::grant_text))]
fn push_grant(text: &mut String, grant: Option<Admission>) -> Result<(), AllocError>
    ensures { OnOk result (string_bytes text.new ≡ string_bytes text.old ++ grant_text grant) }
{
    match grant {
        None => Ok(()),
        Some(grant) => {
            text.push_str("grant ")?;
            push_number(text, u32::from(grant.node))?;
            push_address(text, grant.address)?;
            text.push_str("\n")
        }
    }
}

#[tactic(auto, unfolding(crate::specs::Texts::took_text))]
fn push_took(text: &mut String, took: Option<u16>) -> Result<(), AllocError>
    ensures { OnOk result (string_bytes text.new ≡ string_bytes text.old ++ took_text took) }
{
    match took {
        None => Ok(()),
        Some(node) => {
            text.push_str("took ")?;
            push_number(text, u32::from(node))?;
            text.push_str("\n")
        }
    }
}

#[tactic(auto, unfolding(crate::specs::Texts::done_text))]
fn push_done(text: &mut String, done: Option<u16>) -> Result<(), AllocError>
    ensures { OnOk result (string_bytes text.new ≡ string_bytes text.old ++ done_text done) }
{
    match done {
        None => Ok(()),
        Some(node) => {
            text.push_str("done ")?;
            push_number(text, u32::from(node))?;
            text.push_str("\n")
        }
    }
}

#[tactic(auto, unfolding(crate::specs::Texts::shown_text))]
fn push_shown(
    text: &mut String,
    alloc: Global,
    event: &Event<'_>,
    shown: &Option<ShownRef<'_>>,
) -> Result<(), AllocError>
    ensures { OnOk result (string_bytes text.new ≡ string_bytes text.old ++ shown_text event.now shown.now) }
{
    let Event::Show { node } = event else {
        return Ok(());
    };
    match shown {
        None => Ok(()),
        Some(shown) => push_node(text, alloc, *node, shown.shown()),
    }
}

/// What happened at an event to single nodes: who was allowed, took a grant, is done, and is shown.
#[tactic(auto, unfolding(crate::specs::Texts::details_text))]
fn push_details(
    text: &mut String,
    alloc: Global,
    event: &Event<'_>,
    happenings: &Happenings<'_>,
) -> Result<(), AllocError>
    ensures { OnOk result (string_bytes text.new ≡ string_bytes text.old ++ details_text event.now happenings.now) }
{
    push_grant(text, happenings.grant)?;
    push_took(text, happenings.took)?;
    push_done(text, happenings.done)?;
    push_shown(text, alloc, event, &happenings.shown)
}

/// Appends the lines of an event of this number, without those of its flights. First comes its answer, and then whatever there
/// is of these: that it is forged, the datagram or the broadcast that was handed up, the agent that was chosen, the answer to a path
/// request, the address of a meter that was allowed, the meter that took its grant, the meter whose joining is done, and the lines
/// of the node that is shown.
#[tactic(auto, unfolding(crate::specs::Texts::happened_text))]
pub fn push_happened(
    text: &mut String,
    alloc: Global,
    number: u32,
    event: &Event<'_>,
    happenings: &Happenings<'_>,
) -> Result<(), AllocError>
    ensures { OnOk result (string_bytes text.new
        ≡ string_bytes text.old ++ happened_text number event.now happenings.now) }
{
    push_answer(text, number, happenings.answer)?;
    push_forged(text, number, happenings.forged)?;
    push_up(text, &happenings.up)?;
    push_further(text, happenings)?;
    push_details(text, alloc, event, happenings)
}

/// Appends the line of a flight: its number, the node that sent it, and its octets.
#[tactic(auto, unfolding(crate::specs::Texts::fly_text))]
pub fn push_fly(text: &mut String, number: u32, node: u16, octets: &[u8]) -> Result<(), AllocError>
    ensures { OnOk result (string_bytes text.new ≡ string_bytes text.old ++ fly_text number node octets.now) }
{
    text.push_str("fly ")?;
    push_pair(text, number, u32::from(node))?;
    push_octets(text, octets)
}

/// The line of a bad line, by its number among all lines.
#[tactic(auto, unfolding(crate::specs::Texts::bad_text))]
pub fn bad_text(alloc: Global, number: u32, reason: Reason) -> Result<String, AllocError>
    ensures { IfOk result (λ text. string_bytes text ≡ bad_text number reason) }
{
    let word = reason_word(reason);
    format!(in alloc; "bad {number} {word}\n")
}

/// The last line of a report that has no bad line.
#[tactic(auto, unfolding(crate::specs::Texts::end_text))]
pub fn end_text(alloc: Global, totals: Totals) -> Result<String, AllocError>
    ensures { IfOk result (λ text. string_bytes text ≡ end_text totals) }
{
    let events = totals.events;
    let flights = totals.flights;
    let sends = totals.sends;
    let ups = totals.ups;
    let forged = totals.forged;
    format!(in alloc; "end {events} {flights} {sends} {ups} {forged}\n")
}
