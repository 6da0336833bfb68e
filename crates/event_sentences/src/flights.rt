//! The flights that an event made, as a sentence names them.
ghost use Rattle.std.specs.Prelude.{◌≡◌, ◌++◌, IfOk, OnOk, string_bytes};
ghost use Rattle.std.specs.List.{find};
ghost use Rattle.std.specs.Option.{option_copied};
ghost use Rattle.event_sentences.specs.Flights as flights;

use frame_facts::{Gist, PayloadKind};
use line_record::RecordedFlight;
use plc_base::Eui;
use sentence_parts::{Who, number, push_parts, sentence, who_of, words};
use std::alloc::{AllocError, Global};

/// Which flights of an event are meant.
#[derive(Clone, Copy, Debug, PartialEq, Eq)]
pub enum Meant {
    /// All.
    All,
    /// Route requests.
    Requests,
    /// Route replies.
    Replies,
    /// What waited: datagrams, pieces and joining messages.
    Waiting,
}

fn waited(gist: &Gist) -> bool
    ensures { result ≡ flights.waited gist.now }
{
    match gist {
        Gist::Bears { .. } => true,
        Gist::Joins { .. } => true,
        _ => false,
    }
}

/// Whether a payload is a route request.
pub fn is_request(kind: PayloadKind) -> bool
    ensures { result ≡ flights.is_request kind }
{
    match kind {
        PayloadKind::RouteRequest => true,
        _ => false,
    }
}

fn is_reply(kind: PayloadKind) -> bool
    ensures { result ≡ flights.is_reply kind }
{
    match kind {
        PayloadKind::RouteReply => true,
        _ => false,
    }
}

fn is_meant(meant: Meant, flight: &RecordedFlight) -> bool
    ensures { result ≡ flights.is_meant meant flight.now }
{
    match meant {
        Meant::All => true,
        Meant::Requests => is_request(flight.kind),
        Meant::Replies => is_reply(flight.kind),
        Meant::Waiting => waited(&flight.gist),
    }
}

fn push_meant(
    numbers: &mut Vec<usize>,
    meant: Meant,
    number: usize,
    flight: &RecordedFlight,
) -> Result<(), AllocError>
    ensures { OnOk result (numbers.new.items ≡ numbers.old.items ++ flights.meant_number meant number flight.now) }
{
    if is_meant(meant, flight) {
        numbers.push(number)?;
    }
    Ok(())
}

/// The numbers of the flights that are meant, of those from this number on.
pub fn meant_numbers(
    alloc: Global,
    meant: Meant,
    first: u32,
    made: &[RecordedFlight],
) -> Result<Vec<usize>, AllocError>
    ensures { IfOk result (λ numbers. numbers.items ≡ flights.meant_from meant first made.now) }
{
    let mut numbers = Vec::new(alloc);
    for (i, flight) in made.iter().enumerate() {
        push_meant(&mut numbers, meant, first as usize + i, flight)?;
    }
    Ok(numbers)
}

fn first_meant(meant: Meant, made: &[RecordedFlight]) -> Option<&RecordedFlight>
    ensures { option_copied result ≡ find (flights.is_meant meant) made.now }
{
    made.iter().find(|flight| is_meant(meant, flight))
}

/// Whom the first flight is for that is meant.
pub fn first_target(meant: Meant, made: &[RecordedFlight], homes: &[u32], euis: &[Eui]) -> Who
    ensures { result ≡ flights.first_target meant made.now homes.now euis.now }
{
    match first_meant(meant, made) {
        None => Who::Nobody,
        Some(flight) => who_of(&flight.target, homes, euis),
    }
}

fn push_commas(text: &mut String, alloc: Global, numbers: &[usize]) -> Result<(), AllocError>
    ensures { OnOk result (string_bytes text.new ≡ string_bytes text.old ++ flights.commas numbers.now) }
{
    for listed in numbers {
        push_parts(text, alloc, &[words(", "), number(*listed)])?;
    }
    Ok(())
}

// Each flight by its number.
fn listed(alloc: Global, numbers: &[usize]) -> Result<String, AllocError>
    ensures { IfOk result (λ text. string_bytes text ≡ flights.listed_text numbers.now) }
{
    let Some((first, rest)) = numbers.split_first() else {
        return sentence(alloc, &[]);
    };
    let mut text = sentence(alloc, &[words("flights "), number(*first)])?;
    push_commas(&mut text, alloc, rest)?;
    Ok(text)
}

fn between(count: usize) -> &'static str
    ensures { result.now ≡ flights.between count }
{
    if count == 2 {
        return " and ";
    }
    " to "
}

// A row of flights, by the first and the last.
fn row(alloc: Global, count: usize, first: usize, last: usize) -> Result<String, AllocError>
    ensures { IfOk result (λ text. string_bytes text ≡ flights.row_text count first last) }
{
    sentence(
        alloc,
        &[
            words("flights "),
            number(first),
            words(between(count)),
            number(last),
        ],
    )
}

fn many(alloc: Global, numbers: &[usize], first: usize, last: usize) -> Result<String, AllocError>
    ensures { IfOk result (λ text. string_bytes text ≡ flights.many_text numbers.now first last) }
{
    if last.saturating_sub(first) == numbers.len().saturating_sub(1) {
        return row(alloc, numbers.len(), first, last);
    }
    listed(alloc, numbers)
}

/// "flight 3", "flights 3 and 4", "flights 3 to 6", or each by its number; no word where there is none.
pub fn named(alloc: Global, numbers: &[usize]) -> Result<String, AllocError>
    ensures { IfOk result (λ text. string_bytes text ≡ flights.named_text numbers.now) }
{
    if numbers.len() == 0 {
        return sentence(alloc, &[]);
    }
    let (first, last) = (numbers[0], numbers[numbers.len() - 1]);
    if numbers.len() == 1 {
        return sentence(alloc, &[words("flight "), number(first)]);
    }
    many(alloc, numbers, first, last)
}

/// The same in brackets, after a space.
pub fn bracketed(alloc: Global, numbers: &[usize]) -> Result<String, AllocError>
    ensures { IfOk result (λ text. string_bytes text ≡ flights.bracketed_text numbers.now) }
{
    if numbers.len() == 0 {
        return sentence(alloc, &[]);
    }
    let named = named(alloc, numbers)?;
    sentence(alloc, &[words(" ("), words(named.as_str()), words(")")])
}

/// That what waited leaves as these flights.
pub fn leaving(alloc: Global, numbers: &[usize]) -> Result<String, AllocError>
    ensures { IfOk result (λ text. string_bytes text ≡ flights.leaving_text numbers.now) }
{
    if numbers.len() == 0 {
        return sentence(alloc, &[]);
    }
    let named = named(alloc, numbers)?;
    sentence(
        alloc,
        &[words("; what waited leaves as "), words(named.as_str())],
    )
}
