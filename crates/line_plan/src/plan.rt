//! A description as a whole.
ghost use Rattle.std.specs.Prelude.{◌≡◌, IfOk, [], map};
ghost use Rattle.std.specs.List.{list_any};
ghost use Rattle.std.specs.Str.{chars};
ghost use Rattle.toml.specs.View.{view};
ghost use Rattle.plan_tables.specs.Members.{table_of};
ghost use Rattle.plan_tables.specs.Places.{meters_of};
ghost use Rattle.text_signs.specs.Signs.{is_control};
ghost use Rattle.line_plan.specs.Plans.{air_of, joining_of, readings_of, rotation_of, care_of, owner_at};
ghost use Rattle.line_plan.specs.Plans.{head_at, is_line, title_in, title_at, place_of};
ghost use Rattle.line_plan.specs.Plans.{not_tables, incident_in, incidents_from, incidents_in, incidents_at, plan_at};

use plan_tables::{
    AirPlan, Care, Fields, Incident, Joining, Key, PlacePlan, Readings, Rotation, Section, Wanted,
    WrongValue,
};
use std::alloc::{AllocError, Global};
use std::marker::Model;
use text_signs::is_control;
use toml::Value;

/// What the owner of the line does.
#[derive(Clone, Copy, Debug)]
pub struct OwnerPlan {
    pub joining: Joining,
    pub readings: Readings,
    pub rotation: Rotation,
    pub care: Care,
}

/// The title of a line. A contract sees its octets.
#[derive(Drop)]
pub struct PlanTitle {
    text: String,
}

impl Model for PlanTitle {
    ghost use Rattle.std.specs.Prelude.{List, ℕ, string_bytes};

    ghost Value = { List ℕ };

    ghost view = { λ t. string_bytes t.text };
}

impl PlanTitle {
    /// The title.
    pub fn text(&self) -> &str
        ensures { result.now ≡ self.now }
    {
        self.text.as_str()
    }
}

/// What happens, in the order of the text. A contract sees the list of it.
#[derive(Drop)]
pub struct IncidentList {
    incidents: Vec<Incident>,
}

impl Model for IncidentList {
    ghost use Rattle.std.specs.Prelude.{List};
    ghost use Rattle.plan_tables.specs.declared.incidents.Incident.{Incident};

    ghost Value = { List Incident };

    ghost view = { λ i. i.incidents.items };
}

impl IncidentList {
    /// What happens.
    pub fn incidents(&self) -> &[Incident]
        ensures { result.now ≡ self.now }
    {
        self.incidents.as_slice()
    }
}

/// The description of a line, with the defaults filled in.
#[derive(Drop)]
pub struct Plan {
    /// What the line is called.
    pub title: PlanTitle,
    /// What all draws follow from.
    pub seed: u64,
    /// How long the run is, in seconds.
    pub length: u64,
    pub place: PlacePlan,
    pub air: AirPlan,
    pub owner: OwnerPlan,
    /// What happens, in the order of the text.
    pub incidents: IncidentList,
}

#[tactic(auto, unfolding(crate::specs::Plans::air_of))]
fn air_of(top: &Fields<'_>) -> Result<AirPlan, WrongValue>
    ensures { result ≡ air_of (table_of top.now) }
{
    AirPlan::read(&top.inner(Key::Air, Section::Air)?)
}

#[tactic(auto, unfolding(crate::specs::Plans::joining_of))]
fn joining_of(top: &Fields<'_>) -> Result<Joining, WrongValue>
    ensures { result ≡ joining_of (table_of top.now) }
{
    Joining::read(&top.inner(Key::Joining, Section::Joining)?)
}

#[tactic(auto, unfolding(crate::specs::Plans::readings_of))]
fn readings_of(top: &Fields<'_>) -> Result<Readings, WrongValue>
    ensures { result ≡ readings_of (table_of top.now) }
{
    Readings::read(&top.inner(Key::Readings, Section::Readings)?)
}

#[tactic(auto, unfolding(crate::specs::Plans::rotation_of))]
fn rotation_of(top: &Fields<'_>) -> Result<Rotation, WrongValue>
    ensures { result ≡ rotation_of (table_of top.now) }
{
    Rotation::read(&top.inner(Key::Rotation, Section::Rotation)?)
}

#[tactic(auto, unfolding(crate::specs::Plans::care_of))]
fn care_of(top: &Fields<'_>) -> Result<Care, WrongValue>
    ensures { result ≡ care_of (table_of top.now) }
{
    Care::read(&top.inner(Key::Care, Section::Care)?)
}

#[tactic(auto, unfolding(crate::specs::Plans::owner_at))]
fn owner_at(top: &Fields<'_>) -> Result<OwnerPlan, WrongValue>
    ensures { result ≡ owner_at (table_of top.now) }
{
    let joining = joining_of(top)?;
    let readings = readings_of(top)?;
    let rotation = rotation_of(top)?;
    let care = care_of(top)?;
    Ok(OwnerPlan {
        joining,
        readings,
        rotation,
        care,
    })
}

// All that takes no memory.
#[derive(Clone, Copy)]
struct Head {
    seed: u64,
    length: u64,
    air: AirPlan,
    owner: OwnerPlan,
}

#[tactic(auto, unfolding(crate::specs::Plans::head_at))]
fn head_at(top: &Fields<'_>) -> Result<Head, WrongValue>
    ensures { result ≡ head_at (table_of top.now) }
{
    let seed = top.number(Key::Seed, 1, 9_223_372_036_854_775_807)?;
    let length = top.seconds(Key::For, 86_400)?;
    let air = air_of(top)?;
    let owner = owner_at(top)?;
    Ok(Head {
        seed,
        length,
        air,
        owner,
    })
}

fn has_control(text: &str) -> bool
    ensures { result ≡ list_any is_control (chars text.now) }
{
    let mut found = false;
    for sign in text.chars() {
        found = found || is_control(sign);
    }
    found
}

// Whether a text is one line of at most 200 octets: the title stands in a remark of the script.
fn is_line(text: &str) -> bool
    ensures { result ≡ is_line text.now }
{
    text.len() <= 200 && !has_control(text)
}

#[tactic(auto, unfolding(crate::specs::Plans::title_in))]
fn title_in(alloc: Global, value: &Value) -> Result<Option<PlanTitle>, AllocError>
    ensures { IfOk result (λ title. title ≡ title_in (view value.now)) }
{
    let Some(text) = value.as_str() else {
        return Ok(None);
    };
    if !is_line(text) {
        return Ok(None);
    }
    let text = String::from_str(alloc, text)?;
    Ok(Some(PlanTitle { text }))
}

#[tactic(auto, unfolding(crate::specs::Plans::title_at))]
fn title_at(alloc: Global, top: &Fields<'_>) -> Result<Result<PlanTitle, WrongValue>, AllocError>
    ensures { IfOk result (λ read. read ≡ title_at (table_of top.now)) }
{
    match top.get(Key::Title) {
        None => {
            let text = String::from_str(alloc, "a line")?;
            Ok(Ok(PlanTitle { text }))
        }
        Some(value) => {
            let read = title_in(alloc, value)?;
            Ok(top.checked(Key::Title, Wanted::Line, read))
        }
    }
}

#[tactic(auto, unfolding(crate::specs::Plans::place_of))]
fn place_of(alloc: Global, top: &Fields<'_>) -> Result<Result<PlacePlan, WrongValue>, AllocError>
    ensures { IfOk result (λ read. read ≡ place_of (table_of top.now)) }
{
    match top.inner(Key::Place, Section::Place) {
        Ok(fields) => PlacePlan::read(alloc, &fields),
        Err(wrong) => Ok(Err(wrong)),
    }
}

fn not_tables() -> WrongValue
    ensures { result ≡ not_tables }
{
    WrongValue {
        section: Section::Top,
        key: Key::At,
        wanted: Wanted::Tables,
    }
}

// The nth incident, of a value that has to be a table.
#[tactic(auto, unfolding(crate::specs::Plans::incident_in))]
fn incident_in(
    alloc: Global,
    place: &PlacePlan,
    meters: u32,
    nth: usize,
    value: &Value,
) -> Result<Result<Incident, WrongValue>, AllocError>
    ensures { IfOk result (λ read. read ≡ incident_in place.now meters nth (view value.now)) }
{
    match value.as_table() {
        Some(table) => Incident::read(alloc, &Fields::of(Section::At(nth), table), meters, place),
        None => Ok(Err(not_tables())),
    }
}

// The incidents of values.
fn incidents_from(
    alloc: Global,
    place: &PlacePlan,
    values: &[Value],
) -> Result<Result<IncidentList, WrongValue>, AllocError>
    ensures { IfOk result (λ read. read ≡ incidents_from place.now (meters_of place.now) [] (map view values.now)) }
{
    let meters = place.meters();
    let mut incidents: Vec<Incident> = Vec::new(alloc);
    for value in values {
        match incident_in(alloc, place, meters, incidents.len(), value)? {
            Ok(incident) => incidents.push(incident)?,
            Err(wrong) => return Ok(Err(wrong)),
        }
    }
    Ok(Ok(IncidentList { incidents }))
}

#[tactic(auto, unfolding(crate::specs::Plans::incidents_in), using(plan_tables::proofs::ArrayItems::listed_view))]
fn incidents_in(
    alloc: Global,
    place: &PlacePlan,
    value: &Value,
) -> Result<Result<IncidentList, WrongValue>, AllocError>
    ensures { IfOk result (λ read. read ≡ incidents_in place.now (view value.now)) }
{
    match value.as_array() {
        Some(values) => incidents_from(alloc, place, values.as_slice()),
        None => Ok(Err(not_tables())),
    }
}

#[tactic(auto, unfolding(crate::specs::Plans::incidents_at))]
fn incidents_at(
    alloc: Global,
    place: &PlacePlan,
    top: &Fields<'_>,
) -> Result<Result<IncidentList, WrongValue>, AllocError>
    ensures { IfOk result (λ read. read ≡ incidents_at place.now (table_of top.now)) }
{
    match top.get(Key::At) {
        None => Ok(Ok(IncidentList {
            incidents: Vec::new(alloc),
        })),
        Some(value) => incidents_in(alloc, place, value),
    }
}

/// The plan of a table, or the first value that does not fit its key.
#[tactic(auto, unfolding(crate::specs::Plans::plan_at))]
pub(crate) fn plan_at(
    alloc: Global,
    top: &Fields<'_>,
) -> Result<Result<Plan, WrongValue>, AllocError>
    ensures { IfOk result (λ read. read ≡ plan_at (table_of top.now)) }
{
    let head = match head_at(top) {
        Ok(head) => head,
        Err(wrong) => return Ok(Err(wrong)),
    };
    let title = match title_at(alloc, top)? {
        Ok(title) => title,
        Err(wrong) => return Ok(Err(wrong)),
    };
    let place = match place_of(alloc, top)? {
        Ok(place) => place,
        Err(wrong) => return Ok(Err(wrong)),
    };
    let incidents = match incidents_at(alloc, &place, top)? {
        Ok(incidents) => incidents,
        Err(wrong) => return Ok(Err(wrong)),
    };
    Ok(Ok(Plan {
        title,
        seed: head.seed,
        length: head.length,
        place,
        air: head.air,
        owner: head.owner,
        incidents,
    }))
}
