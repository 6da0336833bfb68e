//! Where a key stands in the text of a description.
ghost use Rattle.std.specs.Prelude.{◌≡◌, ◌<◌, ◌≤◌, ◌^◌, ◌&&◌, IfOk, is_some, length, take, option_map};
ghost use Rattle.toml.specs.Data.{get_member};
ghost use Rattle.toml.specs.View.{table_view};
ghost use Rattle.plan_tables.specs.TextPlaces.{indent, content, after, name_after, opens, names, is_key, is_quoted, gives_alone, gives_key, entered};
ghost use Rattle.plan_tables.specs.TextPlaces.{start_of, is_inside, turned, line_step, IsNumbered, place_of, octet_place};

use crate::fault::{Section, TextPlace};
use std::alloc::{AllocError, Global};
use toml::Table;

/// Where the search for a table stands.
#[derive(Clone, Copy, Debug, PartialEq, Eq)]
enum Search {
    /// Before its header, with this many tables of the same name before it.
    Before(usize),
    /// Among its lines.
    Inside,
    /// After them.
    Behind,
}

// How many blanks a line begins with.
fn indent(line: &[u8]) -> usize
    ensures value { result ≡ indent line.now }
    ensures within { result ≤ length line.now }
{
    let mut count = 0;
    for octet in line {
        if *octet != b' ' && *octet != b'\t' {
            return count;
        }
        count += 1;
    }
    count
}

// A line without the blanks before it.
#[tactic(auto, unfolding(crate::specs::TextPlaces::content))]
fn content(line: &[u8]) -> &[u8]
    ensures { result.now ≡ content line.now }
{
    &line[indent(line)..]
}

// What comes after a word that octets begin with.
#[tactic(auto, unfolding(crate::specs::TextPlaces::after))]
fn after<'a>(word: &[u8], octets: &'a [u8]) -> Option<&'a [u8]>
    ensures { option_map (λ rest. rest.now) result ≡ after word.now octets.now }
{
    if octets.len() < word.len() {
        return None;
    }
    if &octets[..word.len()] != word {
        return None;
    }
    Some(&octets[word.len()..])
}

// What comes after the brackets of a header.
#[tactic(auto, unfolding(crate::specs::TextPlaces::name_after))]
fn name_after(line: &[u8]) -> Option<&[u8]>
    ensures { option_map (λ rest. rest.now) result ≡ name_after line.now }
{
    if let Some(rest) = after(b"[[", line) {
        return Some(content(rest));
    }
    match after(b"[", line) {
        Some(rest) => Some(content(rest)),
        None => None,
    }
}

// Whether a line is a header: a letter comes after its brackets, where a row of numbers has none.
#[tactic(auto, unfolding(crate::specs::TextPlaces::opens))]
fn opens(line: &[u8]) -> bool
    ensures { result ≡ opens line.now }
{
    match name_after(line) {
        Some([first, ..]) => first.is_ascii_alphabetic(),
        _ => false,
    }
}

// Whether a line is the header of a table.
#[tactic(auto, unfolding(crate::specs::TextPlaces::names))]
fn names(line: &[u8], name: &[u8]) -> bool
    ensures { result ≡ names line.now name.now }
{
    let Some(rest) = name_after(line) else {
        return false;
    };
    match after(name, rest) {
        Some(rest) => after(b"]", content(rest)).is_some(),
        None => false,
    }
}

// Whether a line begins with a key, or with a key of the table of that name.
#[tactic(auto, unfolding(crate::specs::TextPlaces::is_key))]
fn is_key(line: &[u8], key: &[u8]) -> bool
    ensures { result ≡ is_key line.now key.now }
{
    match after(key, line) {
        Some(rest) => {
            after(b"=", content(rest)).is_some() || after(b".", content(rest)).is_some()
        }
        None => false,
    }
}

// Whether a line begins with a quotation mark.
fn is_quoted(line: &[u8]) -> bool
    ensures { result ≡ is_quoted line.now }
{
    match line.first() {
        Some(first) => *first == b'"' || *first == b'\'',
        None => false,
    }
}

fn has_key(table: &Table, key: &str) -> bool
    ensures { result ≡ is_some (get_member key.now (table_view table.now)) }
{
    table.get(key).is_some()
}

// Whether a line is TOML by itself, and gives a key.
#[tactic(auto, unfolding(crate::specs::TextPlaces::gives_alone))]
fn gives_alone(alloc: Global, line: &[u8], key: &str) -> Result<bool, AllocError>
    ensures { IfOk result (λ gives. gives ≡ gives_alone line.now key.now) }
{
    let text = String::from_utf8_lossy(alloc, line)?;
    match toml::table_from_str(alloc, text.as_str()) {
        Ok(table) => Ok(has_key(&table, key)),
        Err(error) => {
            if error.is_memory() {
                return Err(AllocError);
            }
            Ok(false)
        }
    }
}

// Whether a line gives a key: it begins with it, or with a quotation mark, and as TOML by itself it gives it.
fn gives_key(alloc: Global, line: &[u8], key: &str) -> Result<bool, AllocError>
    ensures { IfOk result (λ gives. gives ≡ gives_key line.now key.now) }
{
    if is_quoted(line) {
        return gives_alone(alloc, line, key);
    }
    Ok(is_key(line, key.as_bytes()))
}

// The search after a header.
fn entered(search: Search, is_named: bool) -> Search
    ensures { result ≡ entered search is_named }
{
    match search {
        Search::Before(0) => { if is_named { Search::Inside } else { search } }
        Search::Before(more) => {
            if is_named {
                Search::Before(more - 1)
            } else {
                search
            }
        }
        Search::Inside => Search::Behind,
        Search::Behind => Search::Behind,
    }
}

// What is known before a line.
#[derive(Clone, Copy)]
struct Finder {
    /// The number of the line, from 1 on.
    number: usize,
    search: Search,
    /// The header of the table, once it was found; the start of the text before.
    best: TextPlace,
}

// What is known after a line.
#[derive(Clone, Copy)]
enum Step {
    /// The line gives the key.
    Found(TextPlace),
    More(Finder),
}

fn start_of(section: Section) -> Finder
    ensures { result ≡ start_of section }
{
    let search = match section {
        Section::Top => Search::Inside,
        Section::At(nth) => Search::Before(nth),
        _ => Search::Before(0),
    };
    Finder {
        number: 1,
        search,
        best: TextPlace { line: 1, column: 1 },
    }
}

fn is_inside(search: Search) -> bool
    ensures { result ≡ is_inside search }
{
    match search {
        Search::Inside => true,
        Search::Before(_) => false,
        Search::Behind => false,
    }
}

// After a header.
#[tactic(auto, unfolding(crate::specs::TextPlaces::turned))]
fn turned(finder: Finder, here: TextPlace, is_named: bool) -> Finder
    requires { finder.number ≤ 2 ^ 63 }
    ensures { result ≡ turned finder here is_named }
{
    let search = entered(finder.search, is_named);
    let best = if is_inside(search) { here } else { finder.best };
    Finder {
        number: finder.number + 1,
        search,
        best,
    }
}

// Whether a line among those of the table gives the key.
fn is_given(alloc: Global, search: Search, line: &[u8], key: &str) -> Result<bool, AllocError>
    ensures { IfOk result (λ given. given ≡ (is_inside search && gives_key line.now key.now)) }
{
    if !is_inside(search) {
        return Ok(false);
    }
    gives_key(alloc, line, key)
}

// After a line, which gives the key or does not. A table is a key outside all tables, where the name is empty, and its header is the place of this key.
#[tactic(auto, unfolding(crate::specs::TextPlaces::line_step, crate::specs::TextPlaces::turned))]
fn line_step(finder: Finder, line: &[u8], name: &[u8], key: &[u8], given: bool) -> Step
    requires number { finder.number ≤ 2 ^ 63 }
    requires given { given ≡ (is_inside finder.search && gives_key (content line.now) key.now) }
    ensures value { result ≡ line_step name.now key.now finder line.now }
    ensures numbered { IsNumbered finder.number result }
{
    let here = TextPlace {
        line: finder.number,
        column: indent(line) + 1,
    };
    let content = content(line);
    if opens(content) {
        if name.is_empty() && names(content, key) {
            return Step::Found(here);
        }
        return Step::More(turned(finder, here, names(content, name)));
    }
    if given {
        return Step::Found(here);
    }
    Step::More(Finder {
        number: finder.number + 1,
        search: finder.search,
        best: finder.best,
    })
}

// What is known after a line.
fn next_step(
    alloc: Global,
    finder: Finder,
    line: &[u8],
    name: &[u8],
    key: &str,
) -> Result<Step, AllocError>
    requires { finder.number ≤ 2 ^ 63 }
    ensures value { IfOk result (λ step. step ≡ line_step name.now key.now finder line.now) }
    ensures numbered { IfOk result (λ step. IsNumbered finder.number step) }
{
    let given = is_given(alloc, finder.search, content(line), key)?;
    Ok(line_step(finder, line, name, key.as_bytes(), given))
}

/// Where a key of a table stands: the first line of the table that gives it, or of a key outside all tables, the header of a table of that name. A line gives
/// a key that it begins with, and one in quotes where the line is TOML by itself. Where no line does, as in a table that is written within a line or under a
/// key in quotes, it is the header of the table, or the start of the text.
///
/// It fails only where memory runs out.
pub fn place_of(
    alloc: Global,
    text: &[u8],
    section: Section,
    key: &str,
) -> Result<TextPlace, AllocError>
    ensures { IfOk result (λ place. place ≡ place_of text.now section key.now) }
{
    let name = section.word().as_bytes();
    let mut finder = start_of(section);
    let mut start = 0;
    for at in 0..text.len() {
        if text[at] == b'\n' {
            let step = next_step(alloc, finder, &text[start..at], name, key)?;
            match step {
                Step::Found(place) => return Ok(place),
                Step::More(next) => finder = next,
            }
            start = at + 1;
        }
    }
    match next_step(alloc, finder, &text[start..], name, key)? {
        Step::Found(place) => Ok(place),
        Step::More(next) => Ok(next.best),
    }
}

/// The line and the column of an octet of a text.
pub fn octet_place(text: &[u8], octet: usize) -> TextPlace
    requires { octet ≤ length text.now }
    ensures { result ≡ octet_place (take octet text.now) }
{
    let mut line = 1;
    let mut column = 1;
    for one in &text[..octet] {
        if *one == b'\n' {
            line += 1;
            column = 1;
        } else {
            column += 1;
        }
    }
    TextPlace { line, column }
}
