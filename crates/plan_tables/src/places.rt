//! Who hears whom, as the description says it.
ghost use Rattle.std.specs.Prelude.{◌≡◌, ◌<◌, ◌≤◌, IfOk};
ghost use Rattle.toml.specs.View.{view};
ghost use Rattle.plan_tables.specs.Members.{table_of};
ghost use Rattle.plan_tables.specs.Places.{cost_named, cost_in, cost_at, kind_named, kind_in, kind_at, middle_named, middle_in, middle_at, meters_at, reach_at};
ghost use Rattle.plan_tables.specs.Places.{street_at, grid_at, tower_at, scatter_at, losses_at, place_at, meters_of, kind_of, may_reach, may_hear};

use crate::links::{MeasuredLinks, matrix_at};
use crate::{Fields, Key, Wanted, WrongValue, number_from_one_to};
use line_place::{Costs, Field, Grid, Losses, Street, Tower};
use std::alloc::{AllocError, Global};
use toml::Value;

/// The kinds of places.
#[derive(Clone, Copy, Debug, PartialEq, Eq)]
pub enum PlaceKind {
    Street,
    Grid,
    Tower,
    Scatter,
    Matrix,
}

/// The kind of a place, with what it is made of.
#[derive(Drop)]
pub enum Kind {
    InStreet(Street),
    /// A grid, and how many meters it has.
    InGrid(Grid, u32),
    /// A tower, and how many meters it has.
    InTower(Tower, u32),
    /// A field on which meters are scattered.
    Scattered(Field),
    /// Measured links, in ascending order of sender and hearer.
    Measured(MeasuredLinks),
}

impl Kind {
    // Whether a frame of a node reaches another. Of scattered nodes it may, since their spots are drawn.
    fn may_reach(&self, a: u32, b: u32) -> bool
        ensures { result ≡ may_reach self.now a b }
    {
        match self {
            Kind::InStreet(street) => street.far(a, b).is_some(),
            Kind::InGrid(grid, _) => grid.far(a, b).is_some(),
            Kind::InTower(tower, _) => tower.far(a, b).is_some(),
            Kind::Scattered(_) => true,
            Kind::Measured(links) => links.has(a, b),
        }
    }
}

/// The place of a description.
#[derive(Drop)]
pub struct PlacePlan {
    pub kind: Kind,
    pub losses: Losses,
    pub costs: Costs,
}

/// The most meters of a line: with the coordinator and a spare meter these are 1,000 nodes.
pub const MOST_METERS: u16 = 998;

fn cost_named(word: &str) -> Option<Costs>
    ensures { result ≡ cost_named word.now }
{
    match word {
        "by loss" => Some(Costs::ByLoss),
        _ => None,
    }
}

#[tactic(auto, unfolding(crate::specs::Places::cost_in))]
fn cost_in(value: &Value) -> Option<Costs>
    ensures { result ≡ cost_in (view value.now) }
{
    if let Some(word) = value.as_str() {
        return cost_named(word);
    }
    let cost = number_from_one_to(255, value)?;
    Some(Costs::Same(cost as u8))
}

fn cost_at(fields: &Fields<'_>) -> Result<Costs, WrongValue>
    ensures { result ≡ cost_at (table_of fields.now) }
{
    match fields.get(Key::Cost) {
        None => Ok(Costs::ByLoss),
        Some(value) => fields.checked(Key::Cost, Wanted::Cost, cost_in(value)),
    }
}

fn kind_named(word: &str) -> Option<PlaceKind>
    ensures { result ≡ kind_named word.now }
{
    match word {
        "street" => Some(PlaceKind::Street),
        "grid" => Some(PlaceKind::Grid),
        "tower" => Some(PlaceKind::Tower),
        "scatter" => Some(PlaceKind::Scatter),
        "matrix" => Some(PlaceKind::Matrix),
        _ => None,
    }
}

#[tactic(auto, unfolding(crate::specs::Places::kind_in))]
fn kind_in(value: &Value) -> Option<PlaceKind>
    ensures { result ≡ kind_in (view value.now) }
{
    kind_named(value.as_str()?)
}

/// The kind of the place.
pub fn kind_at(fields: &Fields<'_>) -> Result<PlaceKind, WrongValue>
    ensures { result ≡ kind_at (table_of fields.now) }
{
    match fields.get(Key::Kind) {
        None => Ok(PlaceKind::Street),
        Some(value) => fields.checked(Key::Kind, Wanted::Word, kind_in(value)),
    }
}

fn middle_named(word: &str) -> Option<bool>
    ensures { result ≡ middle_named word.now }
{
    match word {
        "end" => Some(false),
        "middle" => Some(true),
        _ => None,
    }
}

#[tactic(auto, unfolding(crate::specs::Places::middle_in))]
fn middle_in(value: &Value) -> Option<bool>
    ensures { result ≡ middle_in (view value.now) }
{
    middle_named(value.as_str()?)
}

fn middle_at(fields: &Fields<'_>) -> Result<bool, WrongValue>
    ensures { result ≡ middle_at (table_of fields.now) }
{
    match fields.get(Key::Coordinator) {
        None => Ok(false),
        Some(value) => fields.checked(Key::Coordinator, Wanted::Word, middle_in(value)),
    }
}

fn meters_at(fields: &Fields<'_>) -> Result<u16, WrongValue>
    ensures value { result ≡ meters_at (table_of fields.now) }
    ensures within { IfOk result (λ n. (0 < n) × (n ≤ 998)) }
{
    fields.positive(Key::Meters, 60, MOST_METERS)
}

fn reach_at(fields: &Fields<'_>) -> Result<u16, WrongValue>
    ensures value { result ≡ reach_at (table_of fields.now) }
    ensures within { IfOk result (λ n. (0 < n) × (n ≤ 1000)) }
{
    fields.positive(Key::Reach, 3, 1_000)
}

#[tactic(auto, unfolding(crate::specs::Places::street_at))]
fn street_at(fields: &Fields<'_>) -> Result<Kind, WrongValue>
    ensures { result ≡ street_at (table_of fields.now) }
{
    let middle = middle_at(fields)?;
    let meters = meters_at(fields)?;
    let reach = reach_at(fields)?;
    Ok(Kind::InStreet(Street {
        meters,
        reach,
        middle,
    }))
}

#[tactic(auto, unfolding(crate::specs::Places::grid_at))]
fn grid_at(fields: &Fields<'_>) -> Result<Kind, WrongValue>
    ensures { result ≡ grid_at (table_of fields.now) }
{
    let wide = fields.positive(Key::Wide, 10, 1_000)?;
    let reach = reach_at(fields)?;
    let meters = meters_at(fields)?;
    Ok(Kind::InGrid(Grid { wide, reach }, u32::from(meters)))
}

#[tactic(auto, unfolding(crate::specs::Places::tower_at))]
fn tower_at(fields: &Fields<'_>) -> Result<Kind, WrongValue>
    ensures { result ≡ tower_at (table_of fields.now) }
{
    let risers = fields.positive(Key::Risers, 1, MOST_METERS)?;
    let floors = fields.positive(Key::Floors, 8, MOST_METERS)?;
    let flats = fields.positive(Key::Flats, 3, MOST_METERS)?;
    let reach = reach_at(fields)?;
    let meters = u32::from(risers) * u32::from(floors) * u32::from(flats);
    if meters > 998 {
        return Err(fields.wrong(Key::Risers, Wanted::Flats));
    }
    let tower = Tower {
        floors,
        flats,
        reach,
    };
    Ok(Kind::InTower(tower, meters))
}

#[tactic(auto, unfolding(crate::specs::Places::scatter_at))]
fn scatter_at(fields: &Fields<'_>) -> Result<Kind, WrongValue>
    ensures { result ≡ scatter_at (table_of fields.now) }
{
    let meters = meters_at(fields)?;
    let wide = fields.positive(Key::Wide, 20, 1_000)?;
    let high = fields.positive(Key::High, 12, 1_000)?;
    let reach = reach_at(fields)?;
    Ok(Kind::Scattered(Field {
        meters,
        wide,
        high,
        reach,
    }))
}

#[tactic(auto, unfolding(crate::specs::Places::losses_at))]
fn losses_at(fields: &Fields<'_>) -> Result<Losses, WrongValue>
    ensures { result ≡ losses_at (table_of fields.now) }
{
    let nearest = fields.chance(Key::Loss, 0)?;
    let step = fields.chance(Key::LossStep, 500)?;
    Ok(Losses { nearest, step })
}

// The place of a kind.
fn kind_of(
    alloc: Global,
    fields: &Fields<'_>,
    kind: PlaceKind,
    costs: &Costs,
) -> Result<Result<Kind, WrongValue>, AllocError>
    ensures { IfOk result (λ read. read ≡ kind_of costs.now (table_of fields.now) kind) }
{
    match kind {
        PlaceKind::Street => Ok(street_at(fields)),
        PlaceKind::Grid => Ok(grid_at(fields)),
        PlaceKind::Tower => Ok(tower_at(fields)),
        PlaceKind::Scatter => Ok(scatter_at(fields)),
        PlaceKind::Matrix => match matrix_at(alloc, fields, costs)? {
            Ok(links) => Ok(Ok(Kind::Measured(links))),
            Err(wrong) => Ok(Err(wrong)),
        },
    }
}

impl PlacePlan {
    /// The place that `[place]` says.
    #[tactic(auto, unfolding(crate::specs::Places::place_at))]
    pub fn read(
        alloc: Global,
        fields: &Fields<'_>,
    ) -> Result<Result<PlacePlan, WrongValue>, AllocError>
        ensures { IfOk result (λ read. read ≡ place_at (table_of fields.now)) }
    {
        let losses = match losses_at(fields) {
            Ok(losses) => losses,
            Err(wrong) => return Ok(Err(wrong)),
        };
        let costs = match cost_at(fields) {
            Ok(costs) => costs,
            Err(wrong) => return Ok(Err(wrong)),
        };
        let kind = match kind_at(fields) {
            Ok(kind) => kind,
            Err(wrong) => return Ok(Err(wrong)),
        };
        match kind_of(alloc, fields, kind, &costs)? {
            Ok(kind) => Ok(Ok(PlacePlan {
                kind,
                losses,
                costs,
            })),
            Err(wrong) => Ok(Err(wrong)),
        }
    }

    /// How many meters there are.
    pub fn meters(&self) -> u32
        ensures { result ≡ meters_of self.now }
    {
        match &self.kind {
            Kind::InStreet(street) => u32::from(street.meters),
            Kind::InGrid(_, meters) => *meters,
            Kind::InTower(_, meters) => *meters,
            Kind::Scattered(field) => u32::from(field.meters),
            Kind::Measured(links) => links.meters(),
        }
    }
    /// Whether one of two nodes may hear the other. Scattered nodes may, since their spots are drawn.
    pub fn may_hear(&self, a: u32, b: u32) -> bool
        ensures { result ≡ may_hear self.now a b }
    {
        self.kind.may_reach(a, b) || self.kind.may_reach(b, a)
    }
}
