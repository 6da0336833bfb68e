//! What is said of the packets of a capture.
ghost use Rattle.std.specs.Prelude.{◌≡◌, ◌++◌, ◌≤◌, ◌<◌, All, codes, length, IfOk, OnOk};
ghost use Rattle.line_script.specs.AnswerWords.{verdict_word};
ghost use Rattle.pcapng.specs.Blocks.{options_spelling};
ghost use Rattle.line_capture.specs.Captures as captures;
ghost use Rattle.line_capture.specs.Comments as spec_comments;
ghost use Rattle.line_capture.specs.Sentences.{AreFew, IsSmall};

use crate::fate::{Arrival, Fate};
use crate::notes::Notes;
use line_events::Answer;
use line_record::RecordedEvent;
use line_script::{answer_word, spaced_verdict};
use sentence_parts::{number, words};
use std::alloc::AllocError;

// The most arrivals of a flight that a comment names one by one.
const MOST_TOLD: usize = 40;

// `ok` or `no`, and a space.
fn verdict(answer: Answer) -> &'static str
    ensures { result.now ≡ verdict_word answer ++ codes " " }
{
    &spaced_verdict(answer)[1..]
}

fn forged_words(forged: bool) -> &'static str
    ensures { result.now ≡ spec_comments.forged_words forged }
{
    if forged { "  FORGED" } else { "" }
}

// Whether a flight came to a node that took it for its own.
fn is_meant(arrival: &Arrival) -> bool
    ensures { result ≡ spec_comments.is_meant arrival.now }
{
    match arrival.answer {
        Answer::NotForMe => false,
        _ => true,
    }
}

// What a node answered to what it heard.
fn note_answer(notes: &mut Notes, answer: Answer, forged: bool) -> Result<(), AllocError>
    ensures options { OnOk result (notes.new.options
        ≡ notes.old.options ++ options_spelling (spec_comments.answer_notes answer forged)) }
    ensures few { AreFew 1 (spec_comments.answer_notes answer forged) }
{
    notes.comment(&[
        words(verdict(answer)),
        words(answer_word(answer)),
        words(forged_words(forged)),
    ])
}

// That a flight is heard.
fn note_hearing(
    notes: &mut Notes,
    event: usize,
    line: u32,
    flight: u32,
    from: u16,
    cost: u8,
) -> Result<(), AllocError>
    ensures options { OnOk result (notes.new.options
        ≡ notes.old.options ++ options_spelling (spec_comments.hearing_notes event line flight from cost)) }
    ensures few { AreFew 1 (spec_comments.hearing_notes event line flight from cost) }
{
    notes.comment(&[
        words("event "),
        number(event),
        words(", line "),
        number(line as usize),
        words(": flight "),
        number(flight as usize),
        words(" of node "),
        number(usize::from(from)),
        words(" heard over cost "),
        number(usize::from(cost)),
    ])
}

// That octets are heard which no node sent.
fn note_injection(notes: &mut Notes, event: usize, line: u32, cost: u8) -> Result<(), AllocError>
    ensures options { OnOk result (notes.new.options
        ≡ notes.old.options ++ options_spelling (spec_comments.injection_notes event line cost)) }
    ensures few { AreFew 1 (spec_comments.injection_notes event line cost) }
{
    notes.comment(&[
        words("event "),
        number(event),
        words(", line "),
        number(line as usize),
        words(": injected, cost "),
        number(usize::from(cost)),
    ])
}

// That a flight goes out with a datagram of a send, or with none.
fn note_bearer(
    notes: &mut Notes,
    event: usize,
    line: u32,
    flight: usize,
    send: u32,
) -> Result<(), AllocError>
    ensures options { OnOk result (notes.new.options
        ≡ notes.old.options ++ options_spelling (spec_comments.bearer_notes event line flight send)) }
    ensures few { AreFew 1 (spec_comments.bearer_notes event line flight send) }
{
    notes.comment(&[
        words("event "),
        number(event),
        words(", line "),
        number(line as usize),
        words(": flight "),
        number(flight),
        words(", send "),
        number(send as usize),
    ])
}

// That a flight goes out, with a datagram of a send where that is not 0.
fn note_flight(
    notes: &mut Notes,
    event: usize,
    line: u32,
    flight: usize,
    send: u32,
) -> Result<(), AllocError>
    ensures options { OnOk result (notes.new.options
        ≡ notes.old.options ++ options_spelling (spec_comments.flight_notes event line flight send)) }
    ensures few { AreFew 1 (spec_comments.flight_notes event line flight send) }
{
    if send > 0 {
        return note_bearer(notes, event, line, flight, send);
    }
    notes.comment(&[
        words("event "),
        number(event),
        words(", line "),
        number(line as usize),
        words(": flight "),
        number(flight),
    ])
}

// What a node answered to a flight.
fn note_arrival(notes: &mut Notes, arrival: &Arrival) -> Result<(), AllocError>
    ensures options { OnOk result (notes.new.options
        ≡ notes.old.options ++ options_spelling (spec_comments.arrival_notes arrival.now)) }
    ensures few { AreFew 1 (spec_comments.arrival_notes arrival.now) }
{
    notes.comment(&[
        words("event "),
        number(arrival.event),
        words(" at node "),
        number(arrival.node as usize),
        words(": "),
        words(verdict(arrival.answer)),
        words(answer_word(arrival.answer)),
        words(forged_words(arrival.forged)),
    ])
}

// What a node answered that took a flight for its own, where this many before it did. Answers how many these are with it.
fn note_heard(notes: &mut Notes, meant: usize, arrival: &Arrival) -> Result<usize, AllocError>
    requires { meant < usize.MAX }
    ensures options { OnOk result (notes.new.options
        ≡ notes.old.options ++ options_spelling (spec_comments.heard_notes meant arrival.now)) }
    ensures count { IfOk result (λ count. count ≡ spec_comments.meant_after meant arrival.now) }
    ensures few { OnOk result (AreFew 1 (spec_comments.heard_notes meant arrival.now)) }
{
    if !is_meant(arrival) {
        return Ok(meant);
    }
    if meant >= MOST_TOLD {
        return Ok(meant + 1);
    }
    note_arrival(notes, arrival)?;
    Ok(meant + 1)
}

// What the nodes answered that took a flight for their own. Answers how many these are.
fn note_arrivals(notes: &mut Notes, arrivals: &[Arrival]) -> Result<usize, AllocError>
    ensures options { OnOk result (notes.new.options
        ≡ notes.old.options ++ options_spelling (spec_comments.arrivals_notes 0 arrivals.now)) }
    ensures count { IfOk result (λ meant. meant ≡ spec_comments.meant_from 0 arrivals.now) }
    ensures bound { IfOk result (λ meant. meant ≤ length arrivals.now) }
    ensures few { OnOk result (All IsSmall (spec_comments.arrivals_notes 0 arrivals.now)) }
{
    let mut meant = 0;
    for arrival in arrivals {
        meant = note_heard(notes, meant, arrival)?;
    }
    Ok(meant)
}

// How many more arrivals there were.
fn note_more(notes: &mut Notes, meant: usize) -> Result<(), AllocError>
    ensures options { OnOk result (notes.new.options
        ≡ notes.old.options ++ options_spelling (spec_comments.more_notes meant)) }
    ensures few { AreFew 1 (spec_comments.more_notes meant) }
{
    if meant <= MOST_TOLD {
        return Ok(());
    }
    notes.comment(&[
        words("and "),
        number(meant - MOST_TOLD),
        words(" more deliveries"),
    ])
}

// How many nodes heard it that it is not for.
fn note_overheard(notes: &mut Notes, others: usize) -> Result<(), AllocError>
    ensures options { OnOk result (notes.new.options
        ≡ notes.old.options ++ options_spelling (spec_comments.overheard_notes others)) }
    ensures few { AreFew 1 (spec_comments.overheard_notes others) }
{
    notes.comment(&[words("heard by "), number(others), words(" not meant")])
}

// The same, where there are some.
fn note_others(notes: &mut Notes, others: usize) -> Result<(), AllocError>
    ensures options { OnOk result (notes.new.options
        ≡ notes.old.options ++ options_spelling (spec_comments.others_notes others)) }
    ensures few { AreFew 1 (spec_comments.others_notes others) }
{
    if others > 0 {
        return note_overheard(notes, others);
    }
    Ok(())
}

// That a flight never came to a node.
fn note_unheard(notes: &mut Notes, arrivals: usize) -> Result<(), AllocError>
    ensures options { OnOk result (notes.new.options
        ≡ notes.old.options ++ options_spelling (spec_comments.unheard_notes arrivals)) }
    ensures few { AreFew 1 (spec_comments.unheard_notes arrivals) }
{
    if arrivals > 0 {
        return Ok(());
    }
    notes.comment(&[words("never delivered")])
}

// That a flight was lost, or never came to a node.
fn note_end(notes: &mut Notes, lost: usize, arrivals: usize) -> Result<(), AllocError>
    ensures options { OnOk result (notes.new.options
        ≡ notes.old.options ++ options_spelling (spec_comments.end_notes lost arrivals)) }
    ensures few { AreFew 1 (spec_comments.end_notes lost arrivals) }
{
    if lost == 0 {
        return note_unheard(notes, arrivals);
    }
    notes.comment(&[words("LOST at event "), number(lost)])
}

// What became of a flight.
fn note_fate(notes: &mut Notes, fate: &Fate) -> Result<(), AllocError>
    ensures options { OnOk result (notes.new.options
        ≡ notes.old.options ++ options_spelling (spec_comments.fate_notes fate.now)) }
    ensures few { OnOk result (AreFew 50 (spec_comments.fate_notes fate.now)) }
{
    let arrivals = fate.arrivals();
    let meant = note_arrivals(notes, arrivals)?;
    note_more(notes, meant)?;
    note_others(notes, arrivals.len() - meant)?;
    note_end(notes, fate.lost(), arrivals.len())?;
    Ok(())
}

/// What is said of octets that no node sent, heard over a link of this cost at the event of a number. It replaces what was noted before.
pub fn note_injected(
    notes: &mut Notes,
    event: usize,
    recorded: &RecordedEvent,
    cost: u8,
) -> Result<(), AllocError>
    ensures options { OnOk result (notes.new.options ≡ options_spelling (captures.injected_notes event recorded.now cost)) }
    ensures few { OnOk result (AreFew 60 (captures.injected_notes event recorded.now cost)) }
{
    notes.options.clear();
    note_injection(notes, event, recorded.line, cost)?;
    note_answer(notes, recorded.answer, recorded.forged)
}

/// What is said of a flight of a node, heard over a link of this cost at the event of a number. It replaces what was noted before.
pub fn note_delivered(
    notes: &mut Notes,
    event: usize,
    recorded: &RecordedEvent,
    flight: u32,
    from: u16,
    cost: u8,
) -> Result<(), AllocError>
    ensures options { OnOk result (notes.new.options ≡ options_spelling (captures.delivered_notes event recorded.now flight from cost)) }
    ensures few { OnOk result (AreFew 60 (captures.delivered_notes event recorded.now flight from cost)) }
{
    notes.options.clear();
    note_hearing(notes, event, recorded.line, flight, from, cost)?;
    note_answer(notes, recorded.answer, recorded.forged)
}

/// What is said of a flight that goes out at the event of a number, with a datagram of a send where that is not 0. It replaces what was noted
/// before.
pub fn note_flown(
    notes: &mut Notes,
    event: usize,
    recorded: &RecordedEvent,
    flight: usize,
    send: u32,
    fate: &Fate,
) -> Result<(), AllocError>
    ensures options { OnOk result (notes.new.options ≡ options_spelling (captures.flown_notes event recorded.now flight send fate.now)) }
    ensures few { OnOk result (AreFew 60 (captures.flown_notes event recorded.now flight send fate.now)) }
{
    notes.options.clear();
    note_flight(notes, event, recorded.line, flight, send)?;
    note_fate(notes, fate)
}
