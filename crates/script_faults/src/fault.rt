//! The fault of a line that has no reading.
ghost use Rattle.std.specs.Prelude.{◌≡◌, ◌<◌, ◌+◌, ◌^◌, IfSome, codes, is_some, length, not};
ghost use Rattle.std.specs.Option.{option_map};
ghost use Rattle.std.specs.Str.{bytes_eq};
ghost use Rattle.line_script.specs.declared.word.TheConstants.{LINE_OCTETS};
ghost use Rattle.line_script.specs.Kinds.{kind_named};
ghost use Rattle.line_script.specs.LineReader.{reading};
ghost use Rattle.line_script.specs.Words.{Field, field};
ghost use Rattle.script_faults.specs.Forms as forms;
ghost use Rattle.script_faults.specs.Places.{IsPlace};

use crate::form::{Form, WordKind, form_of, is_word};
use crate::space_at;
use line_script::EventKind;

/// Why a line has no reading.
#[derive(Clone, Copy, Debug, PartialEq, Eq)]
pub enum Cause {
    /// No line begins with its first word.
    Unknown,
    /// It ends where a word of this kind is expected.
    Missing { kind: WordKind },
    /// A word is none of the kind that is expected.
    Wrong { kind: WordKind },
    /// More stands in it than its words.
    Surplus,
}

/// The fault of a line: the octets from `start` to before `end`, counted from 0. What ends a line counts as its last octet.
#[derive(Clone, Copy, Debug, PartialEq, Eq)]
pub struct Fault {
    /// Why it has no reading.
    pub cause: Cause,
    /// The place of the first octet.
    pub start: usize,
    /// The place after the last octet.
    pub end: usize,
}

// The word that a space ends, and what comes after the space.
#[tactic(auto, unfolding(line_script::specs::Words::field))]
fn split(octets: &[u8]) -> Option<(&[u8], &[u8])>
    ensures found { option_map (λ f. let found : Field = record { word = f.0.now; rest = f.1.now } in found) result ≡ field octets.now }
    ensures within { IfSome result (λ f. length f.0.now + 1 + length f.1.now ≡ length octets.now) }
{
    let at = space_at(octets)?;
    Some((&octets[..at], &octets[at + 1..]))
}

// A line that ends where a word is expected.
fn missing(kind: WordKind, at: usize) -> Fault
    requires { at < 2 ^ 63 }
    ensures { result ≡ forms.missing kind at }
{
    Fault {
        cause: Cause::Missing { kind },
        start: at,
        end: at + 1,
    }
}

// The fault of a line that ends after its first word.
fn ended_fault(form: &Form, at: usize) -> Fault
    requires { at < 2 ^ 63 }
    ensures { result ≡ forms.ended_fault form.now at }
{
    match form {
        Form::Alone => Fault {
            cause: Cause::Unknown,
            start: 0,
            end: at,
        },
        Form::One { first } => missing(*first, at),
        Form::Two { first, .. } => missing(*first, at),
        Form::Three { first, .. } => missing(*first, at),
    }
}

// The fault of a line of one word.
fn alone_fault(octets: &[u8]) -> Option<Fault>
    requires { length octets.now < 2 ^ 63 }
    ensures { result ≡ forms.alone_fault (bytes_eq octets.now (codes "checks")) (kind_named octets.now) octets.now }
{
    if octets == b"checks".as_slice() {
        return None;
    }
    match EventKind::named(octets) {
        None => Some(Fault {
            cause: Cause::Unknown,
            start: 0,
            end: word_end(0, octets),
        }),
        Some(kind) => Some(ended_fault(&form_of(kind), octets.len())),
    }
}

// The place after a word. An empty one is marked by the octet that stands where it should be, or by the end of the line.
fn word_end(at: usize, word: &[u8]) -> usize
    requires { at + length word.now < 2 ^ 63 }
    ensures { result ≡ forms.word_end at word.now }
{
    at + word.len().max(1)
}

// A word from a place on that is not of its kind.
fn wrong(kind: WordKind, at: usize, word: &[u8]) -> Option<Fault>
    requires { at + length word.now < 2 ^ 63 }
    ensures { result ≡ Some (forms.fault (Cause.Wrong kind) at (forms.word_end at word.now)) }
{
    Some(Fault {
        cause: Cause::Wrong { kind },
        start: at,
        end: word_end(at, word),
    })
}

// More octets than words.
fn surplus(start: usize, end: usize) -> Option<Fault>
    ensures { result ≡ Some (forms.fault Cause.Surplus start end) }
{
    Some(Fault {
        cause: Cause::Surplus,
        start,
        end,
    })
}

// A last word that is not of its kind.
fn split_fault(kind: WordKind, at: usize, rest: &[u8], space: &mut [u8]) -> Option<Fault>
    requires space { length space.old ≡ LINE_OCTETS }
    requires place { at + length rest.now < 2 ^ 63 }
    ensures { result ≡ forms.split_fault (field rest.now) kind at rest.now }
{
    let Some((word, _)) = split(rest) else {
        return wrong(kind, at, rest);
    };
    if !is_word(kind, word, space) {
        return wrong(kind, at, word);
    }
    surplus(at + word.len(), at + rest.len())
}

fn last_fault(kind: WordKind, at: usize, rest: &[u8], space: &mut [u8]) -> Option<Fault>
    requires space { length space.old ≡ LINE_OCTETS }
    requires place { at + length rest.now < 2 ^ 63 }
    ensures { result ≡ forms.last_fault kind at rest.now }
{
    if is_word(kind, rest, space) {
        return None;
    }
    split_fault(kind, at, rest, space)
}

// A line that ends with a word that is not its last one.
fn short_fault(
    kind: WordKind,
    next: WordKind,
    at: usize,
    rest: &[u8],
    space: &mut [u8],
) -> Option<Fault>
    requires space { length space.old ≡ LINE_OCTETS }
    requires place { at + length rest.now < 2 ^ 63 }
    ensures { result ≡ forms.short_fault kind next at rest.now }
{
    if !is_word(kind, rest, space) {
        return wrong(kind, at, rest);
    }
    Some(missing(next, at + rest.len()))
}

// The fault of two words from a place on.
fn two_fault(
    kind: WordKind,
    last: WordKind,
    at: usize,
    rest: &[u8],
    space: &mut [u8],
) -> Option<Fault>
    requires space { length space.old ≡ LINE_OCTETS }
    requires place { at + length rest.now < 2 ^ 63 }
    ensures { result ≡ forms.two_fault kind last at rest.now }
{
    let Some((word, more)) = split(rest) else {
        return short_fault(kind, last, at, rest, space);
    };
    if !is_word(kind, word, space) {
        return wrong(kind, at, word);
    }
    last_fault(last, at + word.len() + 1, more, space)
}

// That of three words.
fn three_fault(
    kind: WordKind,
    next: WordKind,
    last: WordKind,
    at: usize,
    rest: &[u8],
    space: &mut [u8],
) -> Option<Fault>
    requires space { length space.old ≡ LINE_OCTETS }
    requires place { at + length rest.now < 2 ^ 63 }
    ensures { result ≡ forms.three_fault kind next last at rest.now }
{
    let Some((word, more)) = split(rest) else {
        return short_fault(kind, next, at, rest, space);
    };
    if !is_word(kind, word, space) {
        return wrong(kind, at, word);
    }
    two_fault(next, last, at + word.len() + 1, more, space)
}

// The fault of the words from a place on. The octet before it is a space.
fn words_fault(form: &Form, at: usize, rest: &[u8], space: &mut [u8]) -> Option<Fault>
    requires space { length space.old ≡ LINE_OCTETS }
    requires place { at + length rest.now < 2 ^ 63 }
    ensures { result ≡ forms.words_fault form.now at rest.now }
{
    match form {
        Form::Alone => surplus(at.saturating_sub(1), at + rest.len()),
        Form::One { first } => last_fault(*first, at, rest, space),
        Form::Two { first, second } => two_fault(*first, *second, at, rest, space),
        Form::Three {
            first,
            second,
            third,
        } => three_fault(*first, *second, *third, at, rest, space),
    }
}

// The fault of a line with a space, by its first word and what comes after it.
fn spaced_fault(word: &[u8], rest: &[u8], space: &mut [u8]) -> Option<Fault>
    requires space { length space.old ≡ LINE_OCTETS }
    requires place { length word.now + 1 + length rest.now < 2 ^ 63 }
    ensures { result ≡ forms.spaced_fault (kind_named word.now) (record { word = word.now; rest = rest.now }) }
{
    match EventKind::named(word) {
        None => Some(Fault {
            cause: Cause::Unknown,
            start: 0,
            end: word_end(0, word),
        }),
        Some(kind) => words_fault(&form_of(kind), word.len() + 1, rest, space),
    }
}

fn event_fault(octets: &[u8], space: &mut [u8]) -> Option<Fault>
    requires space { length space.old ≡ LINE_OCTETS }
    requires place { length octets.now < 2 ^ 63 }
    ensures { result ≡ forms.event_fault octets.now }
{
    match split(octets) {
        None => alone_fault(octets),
        Some((word, rest)) => spaced_fault(word, rest, space),
    }
}

#[tactic(auto, unfolding(crate::specs::Forms::fault_of))]
fn fault_in(line: &[u8], space: &mut [u8]) -> Option<Fault>
    requires space { length space.old ≡ LINE_OCTETS }
    requires place { length line.now < 2 ^ 63 }
    ensures { result ≡ forms.fault_of line.now }
{
    match line.first() {
        None => None,
        Some(b'#') => None,
        Some(_) => event_fault(line, space),
    }
}

/// The first fault of a line, without its line feed: which word is wrong or missing, or what stands behind the words. None exactly where
/// the line is an event, a comment or empty.
///
/// What stands before the fault begins a line that can be read. No such line begins with all up to its end and the octet after it.
///
/// `space` is written to in passing.
pub fn fault_of(line: &[u8], space: &mut [u8]) -> Option<Fault>
    requires space { length space.old ≡ LINE_OCTETS }
    requires place { length line.now < 2 ^ 63 }
    ensures value { result ≡ forms.fault_of line.now }
    ensures finds { is_some result ≡ not (forms.has_reading (reading line.now)) }
    ensures marks { IfSome result (λ fault. IsPlace line.now fault.start fault.end) }
{
    fault_in(line, space)
}
