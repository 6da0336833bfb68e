//! What is wrong with a line that has no reading.
ghost use Rattle.std.specs.Prelude.{◌≡◌, ◌==◌, ◌<◌, ◌≤◌, ◌+◌, ◌^◌, ◌∷◌, [], IfOk, IfSome, is_some, length, not, position, take};
ghost use Rattle.std.specs.Option.{option_copied};
ghost use Rattle.line_script.specs.declared.word.TheConstants.{LINE_OCTETS};
ghost use Rattle.line_script.specs.LineReader.{reading};
ghost use Rattle.script_faults.specs.Findings.{noted};
ghost use Rattle.script_faults.specs.Forms.{has_reading};
ghost use Rattle.script_faults.specs.Nearest.{meant};
ghost use Rattle.script_faults.specs.WordFindings.{in_lower_case};
ghost use Rattle.script_faults.specs.LineFindings as findings;

use crate::fault::{Cause, Fault, fault_of};
use crate::form::{WordKind, form_of};
use crate::nearest::nearest_kind;
use crate::wording::{first_words, form_words, other_words, wanted, word_count};
use crate::wrong_words::{in_lower_case, is_octet, tab, with_form, word_finding, wrong_word};
use crate::{Finding, rest_at, spaces_at, word_at};
use line_script::EventKind;
use sentence_parts::{count_of, octets, words};
use std::alloc::{AllocError, Global};

fn is_space(octet: u8) -> usize
    ensures { result ≡ findings.spaces_in (octet ∷ []) }
{
    if octet == b' ' { 1 } else { 0 }
}

fn spaces_in(line: &[u8]) -> usize
    ensures spaces { result ≡ findings.spaces_in line.now }
    ensures within { result ≤ length line.now }
{
    let mut count = 0;
    for octet in line {
        count = count + is_space(*octet);
    }
    count
}

fn this_or_these(count: usize) -> &'static str
    ensures { result.now ≡ findings.this_or_these count }
{
    if count == 1 {
        return "remove this";
    }
    "remove these"
}

#[tactic(auto, unfolding(crate::specs::LineFindings::carriage_return_finding))]
fn carriage_return(alloc: Global, at: usize) -> Result<Finding, AllocError>
    requires { at < 2 ^ 63 }
    ensures { IfOk result (λ f. f ≡ findings.carriage_return_finding at) }
{
    let found = Finding::new(
        alloc,
        at,
        at + 1,
        &[words("the line ends with a carriage return")],
        &[words("remove this")],
    )?;
    found.with(
        alloc,
        &[words(
            "the file has the line ends of Windows: save it with LF alone, or run it through `tr -d '\\r'`",
        )],
    )
}

#[tactic(auto, unfolding(crate::specs::LineFindings::order_mark_finding))]
fn order_mark(alloc: Global) -> Result<Finding, AllocError>
    ensures { IfOk result (λ f. f ≡ findings.order_mark_finding) }
{
    let found = Finding::new(
        alloc,
        0,
        3,
        &[words("a byte order mark stands before the first word")],
        &[words("remove this")],
    )?;
    found.with(
        alloc,
        &[words("save the file as UTF-8 without a byte order mark")],
    )
}

fn has_order_mark(line: &[u8]) -> bool
    ensures { result ≡ findings.has_order_mark line.now }
{
    is_octet(0xef, line.get(0)) && is_octet(0xbb, line.get(1)) && is_octet(0xbf, line.get(2))
}

fn with_comment(alloc: Global, is_comment: bool, found: Finding) -> Result<Finding, AllocError>
    ensures { IfOk result (λ f. f ≡ findings.with_comment is_comment found) }
{
    if !is_comment {
        return Ok(found);
    }
    found.with(
        alloc,
        &[words("a comment begins with `#` in the first column")],
    )
}

#[tactic(auto, unfolding(crate::specs::LineFindings::spaces_finding))]
fn spaces_before(alloc: Global, count: usize) -> Result<Finding, AllocError>
    ensures { IfOk result (λ f. f ≡ findings.spaces_finding count) }
{
    Finding::new(
        alloc,
        0,
        count,
        &[words("a line may not begin with a space")],
        &[words(this_or_these(count))],
    )
}

fn leading_spaces(alloc: Global, count: usize, line: &[u8]) -> Result<Finding, AllocError>
    ensures { IfOk result (λ f. f ≡ findings.leading_finding count line.now) }
{
    let found = spaces_before(alloc, count)?;
    with_comment(alloc, is_octet(b'#', line.get(count)), found)
}

fn tab_at(word: &[u8]) -> Option<usize>
    ensures at { result ≡ position (λ c. c == 9) word.now }
    ensures within { IfSome result (λ at. at < length word.now) }
{
    word.iter().position(|octet| *octet == b'\t')
}

// Where the first word is one of a line, and then a tab.
fn tab_place(word: &[u8]) -> Option<usize>
    ensures place { result ≡ findings.tab_place word.now }
    ensures within { IfSome result (λ at. at < length word.now) }
{
    let at = tab_at(word)?;
    match EventKind::named(&word[..at]) {
        None => None,
        Some(_) => Some(at),
    }
}

#[tactic(auto, unfolding(crate::specs::LineFindings::meant_note))]
fn with_kind(alloc: Global, kind: EventKind, found: Finding) -> Result<Finding, AllocError>
    ensures { IfOk result (λ f. f ≡ noted (findings.meant_note kind) found) }
{
    let form = form_words(kind);
    let word = kind.word();
    found.with(
        alloc,
        &[
            words("did you mean `"),
            words(word),
            words("`? the form is `"),
            words(form),
            words("`"),
        ],
    )
}

#[tactic(auto, unfolding(crate::specs::LineFindings::words_note))]
fn with_words(alloc: Global, found: Finding) -> Result<Finding, AllocError>
    ensures { IfOk result (λ f. f ≡ noted findings.words_note found) }
{
    let first = first_words();
    let others = other_words();
    found.with(
        alloc,
        &[words("the lines are: "), words(first), words(others)],
    )
}

#[tactic(auto, unfolding(crate::specs::LineFindings::unknown_word))]
fn unknown_word(alloc: Global, word: &[u8]) -> Result<Finding, AllocError>
    ensures { IfOk result (λ f. f ≡ findings.unknown_word word.now) }
{
    Finding::new(
        alloc,
        0,
        word.len().max(1),
        &[words("no line begins with `"), octets(word), words("`")],
        &[words("unknown word")],
    )
}

// The kind of line that a word means.
fn meant(alloc: Global, word: &[u8]) -> Result<Option<EventKind>, AllocError>
    ensures { IfOk result (λ kind. kind ≡ meant (in_lower_case word.now)) }
{
    let text = in_lower_case(alloc, word)?;
    nearest_kind(alloc, text.as_str())
}

// A first word that begins no line.
#[tactic(auto, unfolding(crate::specs::LineFindings::unknown_finding))]
fn unknown(alloc: Global, word: &[u8]) -> Result<Finding, AllocError>
    ensures { IfOk result (λ f. f ≡ findings.unknown_finding word.now) }
{
    if let Some(at) = tab_place(word) {
        return tab(alloc, at);
    }
    let found = unknown_word(alloc, word)?;
    match meant(alloc, word)? {
        Some(kind) => with_kind(alloc, kind, found),
        None => with_words(alloc, found),
    }
}

#[tactic(auto, unfolding(crate::specs::LineFindings::missing_word))]
fn missing_word(
    alloc: Global,
    want: &'static str,
    at: usize,
    how: &'static str,
) -> Result<Finding, AllocError>
    requires { at < 2 ^ 63 }
    ensures { IfOk result (λ f. f ≡ findings.missing_word want.now at how.now) }
{
    Finding::new(
        alloc,
        at,
        at + 1,
        &[words(how), words(want), words(" is expected")],
        &[words("expected "), words(want)],
    )
}

fn missing(
    alloc: Global,
    kind: EventKind,
    want: &'static str,
    at: usize,
    how: &'static str,
) -> Result<Finding, AllocError>
    requires { at < 2 ^ 63 }
    ensures { IfOk result (λ f. f ≡ findings.missing_finding kind want.now at how.now) }
{
    let found = missing_word(alloc, want, at, how)?;
    with_form(alloc, kind, found)
}

fn this_space_or_these(count: usize) -> &'static str
    ensures { result.now ≡ findings.this_space_or_these count }
{
    if count == 1 {
        return "remove this space";
    }
    "remove these spaces"
}

#[tactic(auto, unfolding(crate::specs::LineFindings::wide_gap_finding))]
fn wide_gap(alloc: Global, at: usize, count: usize) -> Result<Finding, AllocError>
    requires { at + count < 2 ^ 64 }
    ensures { IfOk result (λ f. f ≡ findings.wide_gap_finding at count) }
{
    Finding::new(
        alloc,
        at,
        at + count,
        &[words("words are separated by one space")],
        &[words(this_space_or_these(count))],
    )
}

#[tactic(auto, unfolding(crate::specs::LineFindings::own_line_note))]
fn with_own_line(alloc: Global, found: Finding) -> Result<Finding, AllocError>
    ensures { IfOk result (λ f. f ≡ noted findings.own_line_note found) }
{
    found.with(
        alloc,
        &[words("a comment has a line of its own, with `#` in the first column")],
    )
}

#[tactic(auto, unfolding(crate::specs::LineFindings::comment_word))]
fn comment_word(
    alloc: Global,
    want: &'static str,
    at: usize,
    end: usize,
) -> Result<Finding, AllocError>
    ensures { IfOk result (λ f. f ≡ findings.comment_word want.now at end) }
{
    Finding::new(
        alloc,
        at,
        end,
        &[words("a comment stands behind a line's words")],
        &[words("expected "), words(want)],
    )
}

fn comment_within(
    alloc: Global,
    kind: EventKind,
    want: &'static str,
    at: usize,
    end: usize,
) -> Result<Finding, AllocError>
    ensures { IfOk result (λ f. f ≡ findings.comment_finding kind want.now at end) }
{
    let found = comment_word(alloc, want, at, end)?;
    let found = with_own_line(alloc, found)?;
    with_form(alloc, kind, found)
}

// A word that is not of its kind, with the octet that stands at its place.
fn wrong_by(
    alloc: Global,
    octet: Option<&u8>,
    kind: EventKind,
    word: WordKind,
    place: usize,
    at: usize,
    line: &[u8],
) -> Result<Finding, AllocError>
    requires { at < 2 ^ 63 }
    ensures { IfOk result (λ f. f ≡ findings.wrong_by (option_copied octet.entry) kind word place at line.now) }
{
    let Some(found) = octet else {
        let want = wanted(kind, word, place);
        return missing(alloc, kind, want, at, "a space ends the line, where ");
    };
    if *found == b' ' {
        return wide_gap(alloc, at, spaces_at(line, at));
    }
    if *found == b'#' {
        return comment_within(alloc, kind, wanted(kind, word, place), at, line.len());
    }
    word_finding(alloc, &wrong_word(kind, word, place, at, word_at(line, at)))
}

#[tactic(auto, unfolding(crate::specs::LineFindings::wrong_finding))]
fn wrong(
    alloc: Global,
    kind: EventKind,
    word: WordKind,
    at: usize,
    line: &[u8],
) -> Result<Finding, AllocError>
    requires { at < 2 ^ 63 }
    ensures { IfOk result (λ f. f ≡ findings.wrong_finding kind word at line.now) }
{
    let place = spaces_in(&line[..at.min(line.len())]);
    wrong_by(alloc, line.get(at), kind, word, place, at, line)
}

fn is_blank(octet: u8) -> bool
    ensures { result ≡ findings.is_blank octet }
{
    octet == b' ' || octet == b'\t'
}

fn other_at(rest: &[u8]) -> Option<usize>
    ensures { result ≡ position (λ c. not (findings.is_blank c)) rest.now }
{
    rest.iter().position(|octet| !is_blank(*octet))
}

// Whether octets are a comment behind spaces and tabs.
fn is_comment(rest: &[u8]) -> bool
    ensures { result ≡ findings.is_comment rest.now }
{
    match other_at(rest) {
        None => false,
        Some(at) => is_octet(b'#', rest.get(at)),
    }
}

#[tactic(auto, unfolding(crate::specs::LineFindings::trailing_finding))]
fn trailing(alloc: Global, at: usize, end: usize, count: usize) -> Result<Finding, AllocError>
    ensures { IfOk result (λ f. f ≡ findings.trailing_finding at end count) }
{
    Finding::new(
        alloc,
        at,
        end,
        &[words("a space ends the line")],
        &[words(this_or_these(count))],
    )
}

#[tactic(auto, unfolding(crate::specs::LineFindings::comment_behind))]
fn comment_behind(alloc: Global, at: usize, end: usize) -> Result<Finding, AllocError>
    ensures { IfOk result (λ f. f ≡ findings.comment_behind at end) }
{
    Finding::new(
        alloc,
        at,
        end,
        &[words("a comment stands behind a line's words")],
        &[words("remove this")],
    )
}

#[tactic(auto, unfolding(crate::specs::LineFindings::more_words))]
fn more_words(
    alloc: Global,
    kind: EventKind,
    count: usize,
    at: usize,
    end: usize,
) -> Result<Finding, AllocError>
    ensures { IfOk result (λ f. f ≡ findings.more_words kind count at end) }
{
    let word = kind.word();
    Finding::new(
        alloc,
        at,
        end,
        &[
            words("`"),
            words(word),
            words("` has "),
            count_of(count, "word"),
            words(", and more stands here"),
        ],
        &[words("not expected")],
    )
}

// More octets than words.
#[tactic(auto, unfolding(crate::specs::LineFindings::surplus_finding))]
fn surplus(alloc: Global, kind: EventKind, at: usize, line: &[u8]) -> Result<Finding, AllocError>
    ensures { IfOk result (λ f. f ≡ findings.surplus_finding kind at line.now) }
{
    let rest = rest_at(line, at);
    if spaces_at(line, at) == rest.len() {
        return trailing(alloc, at, line.len(), rest.len());
    }
    if is_comment(rest) {
        let found = comment_behind(alloc, at, line.len())?;
        return with_own_line(alloc, found);
    }
    let found = more_words(alloc, kind, word_count(&form_of(kind)), at, line.len())?;
    with_form(alloc, kind, found)
}

// By its first fault, in a line whose first word is known.
fn known(
    alloc: Global,
    kind: EventKind,
    cause: Cause,
    at: usize,
    line: &[u8],
) -> Result<Finding, AllocError>
    requires { at < 2 ^ 63 }
    ensures { IfOk result (λ f. f ≡ findings.known_finding kind cause at line.now) }
{
    match cause {
        Cause::Unknown => unknown(alloc, word_at(line, 0)),
        Cause::Missing { kind: word } => {
            let want = wanted(kind, word, spaces_in(line) + 1);
            missing(alloc, kind, want, at, "the line ends where ")
        }
        Cause::Wrong { kind: word } => wrong(alloc, kind, word, at, line),
        Cause::Surplus => surplus(alloc, kind, at, line),
    }
}

// By its first fault.
#[tactic(auto, unfolding(crate::specs::LineFindings::faulty_finding))]
fn faulty(alloc: Global, cause: Cause, at: usize, line: &[u8]) -> Result<Finding, AllocError>
    requires { at < 2 ^ 63 }
    ensures { IfOk result (λ f. f ≡ findings.faulty_finding cause at line.now) }
{
    match EventKind::named(word_at(line, 0)) {
        None => unknown(alloc, word_at(line, 0)),
        Some(kind) => known(alloc, kind, cause, at, line),
    }
}

// Of a line that has this fault.
fn bad(alloc: Global, fault: Fault, line: &[u8]) -> Result<Finding, AllocError>
    requires { fault.start < 2 ^ 63 }
    ensures { IfOk result (λ f. f ≡ findings.bad_finding fault line.now) }
{
    if has_order_mark(line) {
        return order_mark(alloc);
    }
    if is_octet(b' ', line.first()) {
        return leading_spaces(alloc, spaces_at(line, 0), line);
    }
    faulty(alloc, fault.cause, fault.start, line)
}

// Of a line with no carriage return at its end.
fn plain_finding(
    alloc: Global,
    line: &[u8],
    space: &mut [u8],
) -> Result<Option<Finding>, AllocError>
    requires space { length space.old ≡ LINE_OCTETS }
    requires place { length line.now < 2 ^ 63 }
    ensures { IfOk result (λ f. f ≡ findings.plain_finding line.now) }
{
    match fault_of(line, space) {
        None => Ok(None),
        Some(fault) => Ok(Some(bad(alloc, fault, line)?)),
    }
}

// Of a line with a carriage return at its end, before which this many octets stand.
fn returned(alloc: Global, line: &[u8], end: usize, space: &mut [u8]) -> Result<Finding, AllocError>
    requires space { length space.old ≡ LINE_OCTETS }
    requires place { length line.now < 2 ^ 63 }
    requires within { end ≤ length line.now }
    ensures { IfOk result (λ f. f ≡ findings.or_return (findings.plain_finding (take end line.now)) end) }
{
    match plain_finding(alloc, &line[..end], space)? {
        None => carriage_return(alloc, end),
        Some(found) => Ok(found),
    }
}

#[tactic(auto, unfolding(crate::specs::LineFindings::line_finding))]
fn found_in(alloc: Global, line: &[u8], space: &mut [u8]) -> Result<Option<Finding>, AllocError>
    requires space { length space.old ≡ LINE_OCTETS }
    requires place { length line.now < 2 ^ 63 }
    ensures { IfOk result (λ f. f ≡ findings.line_finding line.now) }
{
    if !is_octet(b'\r', line.last()) {
        return plain_finding(alloc, line, space);
    }
    match fault_of(line, space) {
        None => Ok(None),
        Some(_) => Ok(Some(returned(alloc, line, line.len().saturating_sub(1), space)?)),
    }
}

/// What is wrong with a line, without its line feed. None exactly where it is an event, a comment or empty.
///
/// `space` is written to in passing.
pub fn line_finding(
    alloc: Global,
    line: &[u8],
    space: &mut [u8],
) -> Result<Option<Finding>, AllocError>
    requires space { length space.old ≡ LINE_OCTETS }
    requires place { length line.now < 2 ^ 63 }
    ensures value { IfOk result (λ f. f ≡ findings.line_finding line.now) }
    ensures finds { IfOk result (λ f. is_some f ≡ not (has_reading (reading line.now))) }
{
    found_in(alloc, line, space)
}
