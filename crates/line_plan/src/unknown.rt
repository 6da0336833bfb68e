//! The first key that a table may not have.
ghost use Rattle.std.specs.Prelude.{◌≡◌, IfOk, map, option_map};
ghost use Rattle.toml.specs.View.{table_view, view};
ghost use Rattle.line_plan.specs.Unknowns.{is_known, stranger, unknown_view, unknown_at, table_within, unknown_within, place_keys, unknown_of_place};
ghost use Rattle.line_plan.specs.Unknowns.{incident_keys, unknown_of_incident, unknown_of_incidents, unknown_among, unknown_of_owner, unknown_of_line};
ghost use Rattle.line_plan.specs.Unknowns.{unknown_in, farthest, nearest_in, nearest_among, is_near, meant_by};

use plan_tables::{Fields, Key, KeySet, Meant, PlaceKind, Section, WhatKind, kind_at, what_at};
use std::alloc::{AllocError, Global};
use strsim::levenshtein;
use text_signs::MOST_QUOTED;
use toml::{Table, Value};

/// A key that a table may not have.
#[derive(Clone, Copy)]
pub(crate) struct Unknown<'a> {
    pub section: Section,
    pub key: &'a str,
    /// Which keys the table may have.
    pub known: KeySet,
}

// Whether a key is among some.
fn is_known(known: &[Key], key: &str) -> bool
    ensures { result ≡ is_known known.now key.now }
{
    for one in known {
        if one.word() == key {
            return true;
        }
    }
    false
}

// The first key of a table that is not among some.
#[tactic(auto, using(crate::proofs::MemberNames::names_view))]
fn stranger<'a>(table: &'a Table, known: &[Key]) -> Option<&'a str>
    ensures { option_map (λ key. key.now) result ≡ stranger known.now (table_view table.now) }
{
    for key in table.keys() {
        if !is_known(known, key.as_str()) {
            return Some(key.as_str());
        }
    }
    None
}

#[tactic(auto, unfolding(crate::specs::Unknowns::unknown_at))]
fn unknown_at<'a>(section: Section, table: &'a Table, known: KeySet) -> Option<Unknown<'a>>
    ensures { option_map unknown_view result ≡ unknown_at section known (table_view table.now) }
{
    match stranger(table, known.keys()) {
        Some(key) => Some(Unknown {
            section,
            key,
            known,
        }),
        None => None,
    }
}

// The table of a name, where there is one.
#[tactic(auto, unfolding(crate::specs::Unknowns::table_within))]
fn table_within<'a>(top: &'a Table, key: Key) -> Option<&'a Table>
    ensures { option_map (λ t. table_view t.now) result ≡ table_within key (table_view top.now) }
{
    match Fields::of(Section::Top, top).get(key) {
        Some(value) => value.as_table(),
        None => None,
    }
}

// In the table of a name, where there is one.
#[tactic(auto, unfolding(crate::specs::Unknowns::unknown_within))]
fn unknown_within<'a>(
    top: &'a Table,
    key: Key,
    section: Section,
    known: KeySet,
) -> Option<Unknown<'a>>
    ensures { option_map unknown_view result ≡ unknown_within key section known (table_view top.now) }
{
    match table_within(top, key) {
        Some(table) => unknown_at(section, table, known),
        None => None,
    }
}

fn place_keys(kind: PlaceKind) -> KeySet
    ensures { result ≡ place_keys kind }
{
    match kind {
        PlaceKind::Street => KeySet::Street,
        PlaceKind::Grid => KeySet::Grid,
        PlaceKind::Tower => KeySet::Tower,
        PlaceKind::Scatter => KeySet::Scatter,
        PlaceKind::Matrix => KeySet::Matrix,
    }
}

// In the place. Where its kind is not known, that is the fault.
#[tactic(auto, unfolding(crate::specs::Unknowns::unknown_of_place))]
fn unknown_of_place(top: &Table) -> Option<Unknown<'_>>
    ensures { option_map unknown_view result ≡ unknown_of_place (table_view top.now) }
{
    let table = table_within(top, Key::Place)?;
    match kind_at(&Fields::of(Section::Place, table)) {
        Ok(kind) => unknown_at(Section::Place, table, place_keys(kind)),
        Err(_) => None,
    }
}

fn incident_keys(kind: WhatKind) -> KeySet
    ensures { result ≡ incident_keys kind }
{
    match kind {
        WhatKind::Power => KeySet::Power,
        WhatKind::Torn => KeySet::Torn,
        WhatKind::Noise => KeySet::Noise,
        WhatKind::LinkDown => KeySet::LinkDown,
        WhatKind::Kick => KeySet::Kick,
        WhatKind::Rekey => KeySet::Rekey,
        WhatKind::Replay => KeySet::Replay,
        WhatKind::Delay => KeySet::Delay,
        WhatKind::FalseJoins => KeySet::FalseJoins,
    }
}

// In the nth incident. Where its kind is not known, that is the fault.
#[tactic(auto, unfolding(crate::specs::Unknowns::unknown_of_incident))]
fn unknown_of_incident(value: &Value, nth: usize) -> Option<Unknown<'_>>
    ensures { option_map unknown_view result ≡ unknown_of_incident nth (view value.now) }
{
    let table = value.as_table()?;
    match what_at(&Fields::of(Section::At(nth), table)) {
        Ok(kind) => unknown_at(Section::At(nth), table, incident_keys(kind)),
        Err(_) => None,
    }
}

fn unknown_of_incidents(values: &[Value]) -> Option<Unknown<'_>>
    ensures { option_map unknown_view result ≡ unknown_of_incidents 0 (map view values.now) }
{
    let mut nth = 0;
    for value in values {
        if let Some(unknown) = unknown_of_incident(value, nth) {
            return Some(unknown);
        }
        nth += 1;
    }
    None
}

// In the incidents, where there are some.
#[tactic(auto, unfolding(crate::specs::Unknowns::unknown_among), using(plan_tables::proofs::ArrayItems::listed_view))]
fn unknown_among(top: &Table) -> Option<Unknown<'_>>
    ensures { option_map unknown_view result ≡ unknown_among (table_view top.now) }
{
    let value = Fields::of(Section::Top, top).get(Key::At)?;
    unknown_of_incidents(value.as_array()?.as_slice())
}

// In the tables of what the owner does.
#[tactic(auto, unfolding(crate::specs::Unknowns::unknown_of_owner))]
fn unknown_of_owner(top: &Table) -> Option<Unknown<'_>>
    ensures { option_map unknown_view result ≡ unknown_of_owner (table_view top.now) }
{
    if let Some(unknown) = unknown_within(top, Key::Joining, Section::Joining, KeySet::Joining) {
        return Some(unknown);
    }
    if let Some(unknown) = unknown_within(top, Key::Readings, Section::Readings, KeySet::Readings) {
        return Some(unknown);
    }
    if let Some(unknown) = unknown_within(top, Key::Rotation, Section::Rotation, KeySet::Rotation) {
        return Some(unknown);
    }
    unknown_within(top, Key::Care, Section::Care, KeySet::Care)
}

// Outside all tables, in the place, and in the air.
#[tactic(auto, unfolding(crate::specs::Unknowns::unknown_of_line))]
fn unknown_of_line(top: &Table) -> Option<Unknown<'_>>
    ensures { option_map unknown_view result ≡ unknown_of_line (table_view top.now) }
{
    if let Some(unknown) = unknown_at(Section::Top, top, KeySet::Top) {
        return Some(unknown);
    }
    if let Some(unknown) = unknown_of_place(top) {
        return Some(unknown);
    }
    unknown_within(top, Key::Air, Section::Air, KeySet::Air)
}

/// The first key that a table of the description may not have.
#[tactic(auto, unfolding(crate::specs::Unknowns::unknown_in))]
pub(crate) fn unknown_in(top: &Table) -> Option<Unknown<'_>>
    ensures { option_map unknown_view result ≡ unknown_in (table_view top.now) }
{
    if let Some(unknown) = unknown_of_line(top) {
        return Some(unknown);
    }
    if let Some(unknown) = unknown_of_owner(top) {
        return Some(unknown);
    }
    unknown_among(top)
}

// The known key that is the nearest so far, and how many edits lead to it.
#[derive(Clone, Copy)]
struct Nearest {
    known: KeySet,
    key: Key,
    edits: usize,
}

// Before any key is looked at.
fn farthest() -> Nearest
    ensures { result ≡ farthest }
{
    Nearest {
        known: KeySet::Top,
        key: Key::Title,
        edits: usize::MAX,
    }
}

// The nearest after the keys of a table too: the first with the fewest edits.
fn nearest_in(
    alloc: Global,
    word: &str,
    before: Nearest,
    known: KeySet,
    keys: &[Key],
) -> Result<Nearest, AllocError>
    ensures { IfOk result (λ nearest. nearest ≡ nearest_in word.now known before keys.now) }
{
    let mut nearest = before;
    for key in keys {
        let edits = levenshtein(alloc, word, key.word())?;
        if edits < nearest.edits {
            nearest = Nearest {
                known,
                key: *key,
                edits,
            };
        }
    }
    Ok(nearest)
}

// The nearest after the keys of tables too.
fn nearest_among(
    alloc: Global,
    word: &str,
    before: Nearest,
    tables: &[KeySet],
) -> Result<Nearest, AllocError>
    ensures { IfOk result (λ nearest. nearest ≡ nearest_among word.now before tables.now) }
{
    let mut nearest = before;
    for known in tables {
        nearest = nearest_in(alloc, word, nearest, *known, known.keys())?;
    }
    Ok(nearest)
}

// A key is near where two edits lead to it, and the half of the word's octets.
fn is_near(word: &str, nearest: Nearest) -> bool
    ensures { result ≡ is_near word.now nearest }
{
    nearest.edits <= 2 && nearest.edits <= word.len() / 2
}

/// Which key may be meant by one that a table may not have: the nearest of the table where it is near, else the nearest of all tables where that is near. A
/// word of more than 64 octets means none.
pub(crate) fn meant_by(alloc: Global, known: KeySet, word: &str) -> Result<Meant, AllocError>
    ensures { IfOk result (λ meant. meant ≡ meant_by known word.now) }
{
    if word.len() > MOST_QUOTED {
        return Ok(Meant::Nothing);
    }
    let here = nearest_in(alloc, word, farthest(), known, known.keys())?;
    if is_near(word, here) {
        return Ok(Meant::Here(here.key));
    }
    let there = nearest_among(alloc, word, farthest(), KeySet::all())?;
    if is_near(word, there) {
        return Ok(Meant::There(there.known, there.key));
    }
    Ok(Meant::Nothing)
}
