//! A simulation from its description.
ghost use Rattle.std.specs.Prelude.{◌≡◌, IfOk, map, Some};
ghost use Rattle.line_place.specs.Rows.{rows_to};
ghost use Rattle.line_simulation.specs.Attackers.{is_attack, has_attackers};
ghost use Rattle.line_simulation.specs.Start.{rate_of, air_settings, owner_settings, nodes_of, IsScattered, IsPlaced, depth_of, AreDepths, IsMade};

use crate::backlog::Backlog;
use crate::book::Book;
use crate::recording::Recording;
use crate::simulation::Simulation;
use air_draws::{Draws, Purpose};
use line_air::{Air, Calendar, Rate};
use line_figures::Figures;
use line_owner::{Asked, Owner};
use line_place::{Field, Layout, Place, Scattering};
use line_plan::Plan;
use plan_tables::{AirPlan, Incident, Kind, PlacePlan, PlannedRate, What};
use std::alloc::{AllocError, Global};

fn rate_of(rate: PlannedRate) -> Rate
    ensures { result ≡ rate_of rate }
{
    match rate {
        PlannedRate::Robo => Rate::Robo,
        PlannedRate::Dbpsk => Rate::Dbpsk,
        PlannedRate::Dqpsk => Rate::Dqpsk,
        PlannedRate::D8psk => Rate::D8psk,
    }
}

fn air_settings(plan: &AirPlan) -> line_air::Settings
    ensures { result ≡ air_settings plan.now }
{
    line_air::Settings {
        rate: rate_of(plan.rate),
        repeats: plan.limits.repeats,
        break_after: plan.limits.break_after,
        backoffs: plan.limits.backoffs,
        min_be: plan.waits.min_be,
        max_be: plan.waits.max_be,
        jitter: plan.waits.jitter_ms.saturating_mul(1_000),
        ack_loss: plan.waits.ack_loss,
        duplicates: plan.choices.duplicates,
        overhear: plan.choices.overhear,
        collisions: plan.choices.collisions,
    }
}

fn owner_settings(plan: &Plan) -> line_owner::Settings
    ensures { result ≡ owner_settings plan.now }
{
    line_owner::Settings {
        length: plan.length,
        joining: plan.owner.joining,
        readings: plan.owner.readings,
        rotation: plan.owner.rotation,
        care: plan.owner.care,
    }
}

// How many nodes there are: the coordinator and the meters.
fn nodes_of(plan: &PlacePlan) -> u32
    ensures { result ≡ nodes_of plan.now }
{
    plan.meters().saturating_add(1)
}

// The place of a layout.
fn place_on(alloc: Global, plan: &PlacePlan, layout: Layout) -> Result<Option<Place>, AllocError>
    ensures { IfOk result (λ placed. placed ≡ Some (rows_to layout plan.now.losses plan.now.costs (nodes_of plan.now) (nodes_of plan.now))) }
{
    let nodes = nodes_of(plan);
    Ok(Some(Place::on(alloc, nodes, &layout, &plan.losses, &plan.costs)?))
}

// The place of scattered meters. None where no path led to every one in 1,000 draws.
fn scattered(
    alloc: Global,
    seed: u64,
    plan: &PlacePlan,
    field: &Field,
) -> Result<Option<Place>, AllocError>
    ensures { IfOk result (IsScattered seed plan.now field.now) }
{
    let mut draws = Draws::new(seed, Purpose::Place);
    match field.scatter(alloc, &mut draws, &plan.losses, &plan.costs)? {
        Scattering::Connected(place) => Ok(Some(place)),
        Scattering::Apart => Ok(None),
    }
}

/// The place of a plan, as the draws of a seed have it. None where no path led to every meter in 1,000 draws.
pub fn place_of(alloc: Global, seed: u64, plan: &PlacePlan) -> Result<Option<Place>, AllocError>
    ensures { IfOk result (IsPlaced seed plan.now) }
{
    match &plan.kind {
        Kind::InStreet(street) => place_on(alloc, plan, Layout::InStreet(*street)),
        Kind::InGrid(grid, _) => place_on(alloc, plan, Layout::InGrid(*grid)),
        Kind::InTower(tower, _) => place_on(alloc, plan, Layout::InTower(*tower)),
        Kind::Scattered(field) => scattered(alloc, seed, plan, field),
        Kind::Measured(links) => {
            let place = Place::measured(alloc, nodes_of(plan), links.links())?;
            Ok(Some(place))
        }
    }
}

fn is_attack(what: &What) -> bool
    ensures { result ≡ is_attack what.now }
{
    match what {
        What::FramesReplayed(_) => true,
        What::FramesDelayed(_, _) => true,
        What::JoinsForged => true,
        _ => false,
    }
}

/// Whether attackers are described.
pub fn has_attackers(incidents: &[Incident]) -> bool
    ensures { result ≡ has_attackers incidents.now }
{
    incidents.iter().any(|incident| is_attack(&incident.what))
}

fn depth_of(hops: Option<usize>) -> u32
    ensures { result ≡ depth_of hops }
{
    match hops {
        Some(hops) => hops.min(1_000) as u32,
        None => 0,
    }
}

fn depths_by(alloc: Global, hops: &[Option<usize>]) -> Result<Vec<u32>, AllocError>
    ensures { IfOk result (λ depths. depths.items ≡ map depth_of hops.now) }
{
    let mut depths = Vec::new(alloc);
    for hop in hops {
        depths.push(depth_of(*hop))?;
    }
    Ok(depths)
}

// The hops of each node where the meters join in the workshop, and 0 for all where they join over the air.
fn depths_of(alloc: Global, place: &Place, depot: bool) -> Result<Vec<u32>, AllocError>
    ensures { IfOk result (λ depths. AreDepths depot place.now depths.items) }
{
    if !depot {
        let mut depths = Vec::new(alloc);
        depths.resize(place.nodes(), 0)?;
        return Ok(depths);
    }
    let hops = place.hops(alloc)?;
    depths_by(alloc, hops.as_slice())
}

/// What comes of a description.
#[derive(Drop)]
pub enum Made<R: Recording> {
    /// Its line, before the run.
    Simulation(Simulation<R>),
    /// No place was drawn in which a path leads to every meter, in 1,000 draws.
    Apart,
}

impl<R: Recording> Simulation<R> {
    /// The line of a plan, before its run. The recording has taken no event.
    #[tactic(auto, unfolding(crate::specs::Simulations::state_of))]
    pub fn new(alloc: Global, plan: Plan, recording: R) -> Result<Made<R>, AllocError>
        ensures { IfOk result (IsMade plan recording) }
    {
        let Some(place) = place_of(alloc, plan.seed, &plan.place)? else {
            return Ok(Made::Apart);
        };
        let depths = depths_of(alloc, &place, plan.owner.joining.depot)?;
        let owner = Owner::new(alloc, owner_settings(&plan), depths.as_slice(), plan.seed)?;
        let mut sent_at = Vec::new(alloc);
        sent_at.resize(place.nodes(), 0)?;
        let nodes = nodes_of(&plan.place);
        Ok(Made::Simulation(Simulation {
            alloc,
            recording,
            air: Air::new(alloc, place, air_settings(&plan.air), plan.seed)?,
            owner,
            calendar: Calendar::new(alloc),
            jobs: Vec::new(alloc),
            work: Backlog::new(alloc),
            time: 0,
            book: Book::new(alloc, nodes)?,
            flown: Vec::new(alloc),
            kept: Vec::new(alloc),
            tried: Asked::new(alloc),
            failures: Draws::new(plan.seed, Purpose::Failures),
            attack: Draws::new(plan.seed, Purpose::Attack),
            figures: Figures::new(alloc),
            sent_at,
            plan,
        }))
    }
}
