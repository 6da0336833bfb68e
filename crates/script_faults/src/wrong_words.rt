//! What is wrong with a word of a line.
ghost use Rattle.std.specs.Prelude.{◌≡◌, ◌==◌, ◌<◌, ◌+◌, ◌-◌, ◌^◌, ◌++◌, IfOk, IfSome, OnOk, length, not, position, slice_get, string_bytes};
ghost use Rattle.std.specs.Char.{is_ascii_digit, is_ascii_hexdigit};
ghost use Rattle.std.specs.Option.{option_copied};
ghost use Rattle.script_faults.specs.Findings.{noted};
ghost use Rattle.script_faults.specs.Nearest.{distance};
ghost use Rattle.script_faults.specs.WordFindings as findings;

use crate::form::WordKind;
use crate::wording::{Shape, form_words, shape_of, wanted};
use crate::{Finding, rest_at};
use line_script::EventKind;
use sentence_parts::{count_of, octets, words};
use std::alloc::{AllocError, Global};
use std::marker::Model;
use strsim::osa_distance;

/// A word that is not of its kind: its line, and where it stands there.
#[derive(Drop)]
pub struct WrongWord<'a> {
    /// What the line asks for.
    line: EventKind,
    /// What the word should be.
    kind: WordKind,
    /// The same in words.
    want: &'static str,
    /// The octets of the word, as far as they are looked at.
    word: &'a [u8],
    /// The place of its first octet.
    at: usize,
    /// The first of its octets that stands in no word of this kind, counted from the word's first.
    bad: Option<usize>,
}

impl<'a> Model for WrongWord<'a> {
    ghost use Rattle.std.specs.Prelude.{◌<◌, ◌^◌, length};
    ghost use Rattle.std.specs.Option.{ForSome};
    ghost use Rattle.script_faults.specs.WordFindings.{Wrong};

    ghost Value = { Wrong };

    ghost view = { λ w. record {
      line = w.line;
      kind = w.kind;
      want = w.want.now;
      word = w.word.now;
      at = w.at;
      bad = w.bad;
    } };

    ghost invariant = { λ w. (w.at < 2 ^ 63) × ForSome w.bad (λ place. place < length w.word.now) };
}

fn is_of_record(octet: u8) -> bool
    ensures { result ≡ findings.is_of_record octet }
{
    octet == b'o'
        || octet == b'l'
        || octet == b'd'
        || octet == b'n'
        || octet == b'e'
        || octet == b'w'
}

fn is_digit(octet: u8) -> bool
    ensures { result ≡ is_ascii_digit octet }
{
    octet.is_ascii_digit()
}

fn is_hex(octet: u8) -> bool
    ensures { result ≡ is_ascii_hexdigit octet }
{
    octet.is_ascii_hexdigit()
}

fn no_digit_at(word: &[u8]) -> Option<usize>
    ensures at { result ≡ position (λ c. not (is_ascii_digit c)) word.now }
    ensures within { IfSome result (λ place. place < length word.now) }
{
    word.iter().position(|octet| !is_digit(*octet))
}

fn no_hex_at(word: &[u8]) -> Option<usize>
    ensures at { result ≡ position (λ c. not (is_ascii_hexdigit c)) word.now }
    ensures within { IfSome result (λ place. place < length word.now) }
{
    word.iter().position(|octet| !is_hex(*octet))
}

fn no_record_at(word: &[u8]) -> Option<usize>
    ensures at { result ≡ position (λ c. not (findings.is_of_record c)) word.now }
    ensures within { IfSome result (λ place. place < length word.now) }
{
    word.iter().position(|octet| !is_of_record(*octet))
}

// The first octet that stands in no word of this shape.
fn first_bad(shape: Shape, word: &[u8]) -> Option<usize>
    ensures bad { result ≡ findings.first_bad shape word.now }
    ensures within { IfSome result (λ place. place < length word.now) }
{
    match shape {
        Shape::Number { .. } => no_digit_at(word),
        Shape::Digits { .. } => no_hex_at(word),
        Shape::Pairs => no_hex_at(word),
        Shape::Record => no_record_at(word),
    }
}

// Whether a digit goes on a number, which has `value` before the digit and `next` with it.
fn goes_on(at: usize, value: u64, next: u64, low: u64, high: u64) -> bool
    ensures { result ≡ findings.goes_on at value next low high }
{
    let begun = if at == 0 { low <= next } else { 0 < value };
    begun && next <= high
}

// The first octet that no number from `low` to `high` has after the same beginning.
fn first_off(word: &[u8], low: u32, high: u32) -> Option<usize>
    ensures { result ≡ findings.off_from 0 0 low high word.now }
{
    let mut value = 0;
    let mut at = 0;
    for octet in word {
        if !octet.is_ascii_digit() {
            return Some(at);
        }
        let next = value * 10 + u64::from(*octet - b'0');
        if !goes_on(at, value, next, u64::from(low), u64::from(high)) {
            return Some(at);
        }
        value = next;
        at = at + 1;
    }
    None
}

fn digits_off(count: usize, word: &[u8], bad: Option<usize>) -> Option<usize>
    ensures { result ≡ findings.digits_off count word.now bad }
{
    match bad {
        None => {
            if count < word.len() {
                return Some(count);
            }
            None
        }
        Some(place) => {
            if place < count {
                return Some(place);
            }
            Some(count)
        }
    }
}

fn off_of(shape: Shape, word: &[u8], bad: Option<usize>) -> Option<usize>
    ensures { result ≡ findings.off_of shape word.now bad }
{
    match shape {
        Shape::Number { low, high } => first_off(word, low, high),
        Shape::Digits { count } => digits_off(count, word, bad),
        Shape::Pairs => bad,
        Shape::Record => bad,
    }
}

// A word, as far as it is looked at.
fn cut_off<'a>(
    line: EventKind,
    kind: WordKind,
    want: &'static str,
    at: usize,
    word: &'a [u8],
    bad: Option<usize>,
    off: Option<usize>,
) -> WrongWord<'a>
    requires at { at < 2 ^ 63 }
    requires within { IfSome bad (λ place. place < length word.now) }
    ensures { result ≡ findings.cut_off line kind want.now at word.now bad off }
{
    let Some(first) = bad else {
        return WrongWord {
            line,
            kind,
            want,
            word,
            at,
            bad: None,
        };
    };
    let Some(end) = off else {
        return WrongWord {
            line,
            kind,
            want,
            word,
            at,
            bad,
        };
    };
    if end < first {
        return WrongWord {
            line,
            kind,
            want,
            word: &word[..end + 1],
            at,
            bad: None,
        };
    }
    WrongWord {
        line,
        kind,
        want,
        word,
        at,
        bad,
    }
}

/// A word that is not of its kind. What stands behind the first octet that can't be right is not looked at.
#[tactic(auto, unfolding(crate::specs::WordFindings::wrong_word))]
pub fn wrong_word<'a>(
    line: EventKind,
    kind: WordKind,
    place: usize,
    at: usize,
    word: &'a [u8],
) -> WrongWord<'a>
    requires { at < 2 ^ 63 }
    ensures { result ≡ findings.wrong_word line kind place at word.now }
{
    let bad = first_bad(shape_of(kind), word);
    let off = off_of(shape_of(kind), word, bad);
    cut_off(line, kind, wanted(line, kind, place), at, word, bad, off)
}

// The first octet of a list, by itself.
fn first_of(octets: &[u8]) -> &[u8]
    ensures { result.now ≡ findings.first_of octets.now }
{
    &octets[..octets.len().min(1)]
}

// The octet at a place, by itself.
#[tactic(auto, unfolding(crate::specs::WordFindings::octet_at))]
fn octet_at(place: usize, word: &[u8]) -> &[u8]
    ensures { result.now ≡ findings.octet_at place word.now }
{
    first_of(rest_at(word, place))
}

/// Whether an octet is this one.
pub fn is_octet(wanted: u8, found: Option<&u8>) -> bool
    ensures { result ≡ findings.is_octet wanted (option_copied found.entry) }
{
    match found {
        None => false,
        Some(octet) => *octet == wanted,
    }
}

/// A tab where a space should be.
pub fn tab(alloc: Global, at: usize) -> Result<Finding, AllocError>
    requires { at < 2 ^ 64 - 1 }
    ensures { IfOk result (λ f. f ≡ findings.tab_finding at) }
{
    Finding::new(
        alloc,
        at,
        at + 1,
        &[words("a tab stands between the words")],
        &[words("one space is expected here")],
    )
}

fn with_space(alloc: Global, is_space: bool, found: Finding) -> Result<Finding, AllocError>
    ensures { IfOk result (λ f. f ≡ findings.with_space is_space found) }
{
    if !is_space {
        return Ok(found);
    }
    found.with(
        alloc,
        &[words("this looks like a space that is no plain space")],
    )
}

#[tactic(auto, unfolding(crate::specs::WordFindings::strange_finding))]
fn strange(alloc: Global, wrong: &WrongWord<'_>, place: usize) -> Result<Finding, AllocError>
    requires { wrong.now.at + place < 2 ^ 64 - 1 }
    ensures { IfOk result (λ f. f ≡ findings.strange_finding wrong.now place) }
{
    Finding::new(
        alloc,
        wrong.at + place,
        wrong.at + place + 1,
        &[
            words("an octet that no line may hold: "),
            octets(octet_at(place, wrong.word)),
        ],
        &[words("expected "), words(wrong.want)],
    )
}

fn is_broken_space(word: &[u8], place: usize) -> bool
    requires { place < 2 ^ 64 - 1 }
    ensures { result ≡ findings.is_broken_space word.now place }
{
    is_octet(0xc2, word.get(place)) && is_octet(0xa0, word.get(place + 1))
}

// An octet that stands in no word at all.
fn octet_finding(
    alloc: Global,
    wrong: &WrongWord<'_>,
    place: usize,
    octet: u8,
) -> Result<Option<Finding>, AllocError>
    requires { wrong.now.at + place < 2 ^ 64 - 1 }
    ensures { IfOk result (λ f. f ≡ findings.octet_finding wrong.now place octet) }
{
    if octet == b'\t' {
        return Ok(Some(tab(alloc, wrong.at + place)?));
    }
    if 32 < octet && octet < 127 {
        return Ok(None);
    }
    let found = strange(alloc, wrong, place)?;
    Ok(Some(with_space(alloc, is_broken_space(wrong.word, place), found)?))
}

#[tactic(auto, unfolding(crate::specs::WordFindings::begins_hex))]
fn begins_hex(word: &[u8]) -> bool
    ensures { result ≡ findings.begins_hex word.now }
{
    is_octet(b'0', word.get(0)) && (is_octet(b'x', word.get(1)) || is_octet(b'X', word.get(1)))
}

fn has_sign(word: &[u8]) -> bool
    ensures { result ≡ findings.has_sign word.now }
{
    is_octet(b'+', word.get(0)) || is_octet(b'-', word.get(0))
}

/// The same with the form of the line.
#[tactic(auto, unfolding(crate::specs::WordFindings::form_note))]
pub fn with_form(alloc: Global, kind: EventKind, found: Finding) -> Result<Finding, AllocError>
    ensures { IfOk result (λ f. f ≡ findings.with_form kind found) }
{
    let form = form_words(kind);
    found.with(alloc, &[words("the form is `"), words(form), words("`")])
}

#[tactic(auto, unfolding(crate::specs::WordFindings::with_decimal))]
fn with_decimal(alloc: Global, word: &[u8], found: Finding) -> Result<Finding, AllocError>
    ensures { IfOk result (λ f. f ≡ findings.with_decimal word.now found) }
{
    if begins_hex(word) {
        return found.with(alloc, &[words("numbers are decimal")]);
    }
    if has_sign(word) {
        return found.with(alloc, &[words("numbers have no sign")]);
    }
    Ok(found)
}

#[tactic(auto, unfolding(crate::specs::WordFindings::no_digits))]
fn no_digits(alloc: Global, wrong: &WrongWord<'_>, place: usize) -> Result<Finding, AllocError>
    ensures { IfOk result (λ f. f ≡ findings.no_digits wrong.now place) }
{
    Finding::new(
        alloc,
        wrong.at,
        wrong.at + wrong.word.len(),
        &[
            words("expected "),
            words(wrong.want),
            words(", found `"),
            octets(wrong.word),
            words("`"),
        ],
        &[
            words("`"),
            octets(octet_at(place, wrong.word)),
            words("` is no digit"),
        ],
    )
}

fn no_number(alloc: Global, wrong: &WrongWord<'_>, place: usize) -> Result<Finding, AllocError>
    ensures { IfOk result (λ f. f ≡ findings.no_number wrong.now place) }
{
    let found = no_digits(alloc, wrong, place)?;
    let found = with_decimal(alloc, wrong.word, found)?;
    with_form(alloc, wrong.line, found)
}

fn nonzero_at(word: &[u8]) -> Option<usize>
    ensures { result ≡ position (λ c. not (c == 48)) word.now }
{
    word.iter().position(|octet| *octet != b'0')
}

// A number without its leading zeros.
#[tactic(auto, unfolding(crate::specs::WordFindings::stripped))]
fn stripped(word: &[u8]) -> &[u8]
    ensures { result.now ≡ findings.stripped word.now }
{
    match nonzero_at(word) {
        None => first_of(word),
        Some(place) => rest_at(word, place),
    }
}

#[tactic(auto, unfolding(crate::specs::WordFindings::zeros_finding))]
fn leading_zeros(alloc: Global, wrong: &WrongWord<'_>) -> Result<Finding, AllocError>
    ensures { IfOk result (λ f. f ≡ findings.zeros_finding wrong.now) }
{
    Finding::new(
        alloc,
        wrong.at,
        wrong.at + wrong.word.len(),
        &[words("a number has no leading zeros")],
        &[words("write `"), octets(stripped(wrong.word)), words("`")],
    )
}

#[tactic(auto, unfolding(crate::specs::WordFindings::range_finding))]
fn out_of_range(alloc: Global, wrong: &WrongWord<'_>) -> Result<Finding, AllocError>
    ensures { IfOk result (λ f. f ≡ findings.range_finding wrong.now) }
{
    Finding::new(
        alloc,
        wrong.at,
        wrong.at + wrong.word.len(),
        &[
            words("expected "),
            words(wrong.want),
            words(", found "),
            octets(wrong.word),
        ],
        &[words("out of its range")],
    )
}

// Whether a number has a leading zero.
fn has_zeros(word: &[u8]) -> bool
    ensures { result ≡ findings.has_zeros word.now }
{
    is_octet(b'0', word.get(0)) && 1 < word.len()
}

fn number_finding(alloc: Global, wrong: &WrongWord<'_>) -> Result<Finding, AllocError>
    ensures { IfOk result (λ f. f ≡ findings.number_by wrong.now.bad wrong.now) }
{
    if let Some(place) = wrong.bad {
        return no_number(alloc, wrong, place);
    }
    if has_zeros(wrong.word) {
        return leading_zeros(alloc, wrong);
    }
    out_of_range(alloc, wrong)
}

fn push_lower(text: &mut String, octet: u8) -> Result<(), AllocError>
    ensures { OnOk result (string_bytes text.new ≡ string_bytes text.old ++ findings.lower_sign octet) }
{
    text.push(char::from(octet.to_ascii_lowercase()))
}

/// Octets in lower case, each as the character of its number.
#[tactic(auto, unfolding(crate::specs::WordFindings::in_lower_case))]
pub fn in_lower_case(alloc: Global, word: &[u8]) -> Result<String, AllocError>
    ensures { IfOk result (λ text. string_bytes text ≡ findings.in_lower_case word.now) }
{
    let mut text = String::new(alloc);
    for octet in word {
        push_lower(&mut text, *octet)?;
    }
    Ok(text)
}

// The nearer of the two.
fn nearer_record(new: usize, old: usize, reach: usize) -> Option<&'static str>
    ensures { option_copied result ≡ findings.nearer_record new old reach }
{
    if reach < new.min(old) {
        return None;
    }
    if new <= old {
        return Some("new");
    }
    Some("old")
}

#[tactic(auto, unfolding(crate::specs::Nearest::distance))]
fn steps_to(alloc: Global, word: &str, meant: &str) -> Result<usize, AllocError>
    ensures { IfOk result (λ steps. steps ≡ distance word.now meant.now) }
{
    osa_distance(alloc, word, meant)
}

// Which of `old` and `new` is meant, if one is near.
#[tactic(auto, unfolding(crate::specs::WordFindings::record_near))]
fn record_near(alloc: Global, word: &[u8]) -> Result<Option<&'static str>, AllocError>
    ensures { IfOk result (λ near. option_copied near ≡ findings.record_near word.now) }
{
    let text = in_lower_case(alloc, word)?;
    let new = steps_to(alloc, text.as_str(), "new")?;
    let old = steps_to(alloc, text.as_str(), "old")?;
    Ok(nearer_record(new, old, (word.len() / 3).max(1)))
}

#[tactic(auto, unfolding(crate::specs::WordFindings::no_record))]
fn no_record(alloc: Global, wrong: &WrongWord<'_>) -> Result<Finding, AllocError>
    ensures { IfOk result (λ f. f ≡ findings.no_record wrong.now) }
{
    Finding::new(
        alloc,
        wrong.at,
        wrong.at + wrong.word.len(),
        &[
            words("expected `old` or `new`, found `"),
            octets(wrong.word),
            words("`"),
        ],
        &[words("which record a cut leaves")],
    )
}

#[tactic(auto, unfolding(crate::specs::WordFindings::near_note))]
fn with_word(alloc: Global, word: &'static str, found: Finding) -> Result<Finding, AllocError>
    ensures { IfOk result (λ f. f ≡ noted (findings.near_note word.now) found) }
{
    found.with(alloc, &[words("did you mean `"), words(word), words("`?")])
}

fn with_near(
    alloc: Global,
    near: Option<&'static str>,
    found: Finding,
) -> Result<Finding, AllocError>
    ensures { IfOk result (λ f. f ≡ findings.with_near (option_copied near.entry) found) }
{
    match near {
        None => Ok(found),
        Some(word) => with_word(alloc, word, found),
    }
}

fn record_finding(alloc: Global, wrong: &WrongWord<'_>) -> Result<Finding, AllocError>
    ensures { IfOk result (λ f. f ≡ findings.record_finding wrong.now) }
{
    let found = no_record(alloc, wrong)?;
    let near = record_near(alloc, wrong.word)?;
    with_near(alloc, near, found)
}

#[tactic(auto, unfolding(crate::specs::WordFindings::is_separator))]
fn is_separator(octet: Option<&u8>) -> bool
    ensures { result ≡ findings.is_separator (option_copied octet.entry) }
{
    match octet {
        None => false,
        Some(found) => *found == b':' || *found == b'-' || *found == b',',
    }
}

fn separates(word: &[u8], place: usize) -> bool
    ensures { result ≡ findings.is_separator (slice_get word.now place) }
{
    is_separator(word.get(place))
}

#[tactic(auto, unfolding(crate::specs::WordFindings::with_plain))]
fn with_plain(
    alloc: Global,
    begins: bool,
    separates: bool,
    found: Finding,
) -> Result<Finding, AllocError>
    ensures { IfOk result (λ f. f ≡ findings.with_plain begins separates found) }
{
    if begins {
        return found.with(alloc, &[words("octets are written without `0x`")]);
    }
    if separates {
        return found.with(alloc, &[words("octets are written without separators")]);
    }
    Ok(found)
}

#[tactic(auto, unfolding(crate::specs::WordFindings::no_hex))]
fn no_hex(alloc: Global, wrong: &WrongWord<'_>, place: usize) -> Result<Finding, AllocError>
    requires { wrong.now.at + place < 2 ^ 64 - 1 }
    ensures { IfOk result (λ f. f ≡ findings.no_hex wrong.now place) }
{
    Finding::new(
        alloc,
        wrong.at + place,
        wrong.at + place + 1,
        &[
            words("`"),
            octets(octet_at(place, wrong.word)),
            words("` is no hexadecimal digit"),
        ],
        &[words("in "), words(wrong.want)],
    )
}

fn no_digit(alloc: Global, wrong: &WrongWord<'_>, place: usize) -> Result<Finding, AllocError>
    requires { wrong.now.at + place < 2 ^ 64 - 1 }
    ensures { IfOk result (λ f. f ≡ findings.no_digit wrong.now place) }
{
    let found = no_hex(alloc, wrong, place)?;
    with_plain(
        alloc,
        begins_hex(wrong.word),
        separates(wrong.word, place),
        found,
    )
}

#[tactic(auto, unfolding(crate::specs::WordFindings::many_finding))]
fn too_many(alloc: Global, wrong: &WrongWord<'_>, count: usize) -> Result<Finding, AllocError>
    requires { count < length wrong.now.word }
    ensures { IfOk result (λ f. f ≡ findings.many_finding wrong.now count) }
{
    let length = wrong.word.len();
    Finding::new(
        alloc,
        wrong.at + count,
        wrong.at + length,
        &[
            words("expected "),
            words(wrong.want),
            words(", found "),
            count_of(length, "digit"),
        ],
        &[count_of(length - count, "digit"), words(" too many")],
    )
}

#[tactic(auto, unfolding(crate::specs::WordFindings::few_finding))]
fn too_few(alloc: Global, wrong: &WrongWord<'_>, count: usize) -> Result<Finding, AllocError>
    ensures { IfOk result (λ f. f ≡ findings.few_finding wrong.now count) }
{
    let length = wrong.word.len();
    let few = count.saturating_sub(length);
    Finding::new(
        alloc,
        wrong.at,
        wrong.at + length,
        &[
            words("expected "),
            words(wrong.want),
            words(", found "),
            count_of(length, "digit"),
        ],
        &[count_of(few, "digit"), words(" too few")],
    )
}

fn digits_finding(alloc: Global, wrong: &WrongWord<'_>, count: usize) -> Result<Finding, AllocError>
    ensures { IfOk result (λ f. f ≡ findings.digits_by wrong.now.bad wrong.now count) }
{
    if let Some(place) = wrong.bad {
        return no_digit(alloc, wrong, place);
    }
    if count < wrong.word.len() {
        return too_many(alloc, wrong, count);
    }
    too_few(alloc, wrong, count)
}

#[tactic(auto, unfolding(crate::specs::WordFindings::odd_finding))]
fn odd_digits(alloc: Global, wrong: &WrongWord<'_>) -> Result<Finding, AllocError>
    ensures { IfOk result (λ f. f ≡ findings.odd_finding wrong.now) }
{
    Finding::new(
        alloc,
        wrong.at,
        wrong.at + wrong.word.len(),
        &[
            words("octets are pairs of digits, found "),
            count_of(wrong.word.len(), "digit"),
        ],
        &[words("one digit too few or too many")],
    )
}

fn pairs_finding(alloc: Global, wrong: &WrongWord<'_>) -> Result<Finding, AllocError>
    ensures { IfOk result (λ f. f ≡ findings.pairs_by wrong.now.bad wrong.now) }
{
    if let Some(place) = wrong.bad {
        return no_digit(alloc, wrong, place);
    }
    odd_digits(alloc, wrong)
}

fn shape_finding(alloc: Global, shape: Shape, wrong: &WrongWord<'_>) -> Result<Finding, AllocError>
    ensures { IfOk result (λ f. f ≡ findings.shape_finding shape wrong.now) }
{
    match shape {
        Shape::Number { .. } => number_finding(alloc, wrong),
        Shape::Digits { count } => digits_finding(alloc, wrong, count),
        Shape::Pairs => pairs_finding(alloc, wrong),
        Shape::Record => record_finding(alloc, wrong),
    }
}

// An octet that stands in no word at all, if the first that is wrong is one.
fn bad_octet(alloc: Global, wrong: &WrongWord<'_>) -> Result<Option<Finding>, AllocError>
    ensures { IfOk result (λ f. f ≡ findings.bad_octet wrong.now.bad wrong.now) }
{
    let Some(place) = wrong.bad else {
        return Ok(None);
    };
    match wrong.word.get(place) {
        None => Ok(None),
        Some(octet) => octet_finding(alloc, wrong, place, *octet),
    }
}

/// What is wrong with a word that is not of its kind.
#[tactic(auto, unfolding(crate::specs::WordFindings::word_finding))]
pub fn word_finding(alloc: Global, wrong: &WrongWord<'_>) -> Result<Finding, AllocError>
    ensures { IfOk result (λ f. f ≡ findings.word_finding wrong.now) }
{
    match bad_octet(alloc, wrong)? {
        Some(found) => Ok(found),
        None => shape_finding(alloc, shape_of(wrong.kind), wrong),
    }
}
