//! What is set of the air.
ghost use Rattle.std.specs.Prelude.{◌≡◌};
ghost use Rattle.toml.specs.View.{view};
ghost use Rattle.plan_tables.specs.Members.{table_of};
ghost use Rattle.plan_tables.specs.AirPlans.{rate_named, rate_in, rate_at, limits_at, waits_at, choices_at, air_at};

use crate::{Fields, Key, Wanted, WrongValue};
use toml::Value;

/// How bits are sent.
#[derive(Clone, Copy, Debug, PartialEq, Eq)]
pub enum PlannedRate {
    Robo,
    Dbpsk,
    Dqpsk,
    D8psk,
}

/// How often a frame is tried.
#[derive(Clone, Copy, Debug, PartialEq, Eq)]
pub struct Limits {
    /// How often a frame to one node is sent again.
    pub repeats: u16,
    /// After how many frames in a row that were given up a link is broken; 0 for never.
    pub break_after: u16,
    /// How often a frame finds the line busy before it is dropped.
    pub backoffs: u16,
}

/// How long a frame waits.
#[derive(Clone, Copy, Debug, PartialEq, Eq)]
pub struct Waits {
    /// The random wait is at first up to 2 to that power slots.
    pub min_be: u8,
    /// It is at most up to 2 to that power slots.
    pub max_be: u8,
    /// What a frame to all waits more, at most, in milliseconds.
    pub jitter_ms: u32,
    /// How much of the loss of the way back an acknowledgement meets, in per cent.
    pub ack_loss: u16,
}

/// What else is modelled.
#[derive(Clone, Copy, Debug, PartialEq, Eq)]
pub struct Choices {
    /// Whether a frame that is sent again though it came is handed on again.
    pub duplicates: bool,
    /// Whether other nodes are handed a frame to one node too.
    pub overhear: bool,
    /// Whether frames that overlap disturb each other.
    pub collisions: bool,
}

/// What is set of the air: `line_air` says what each is.
#[derive(Clone, Copy, Debug, PartialEq, Eq)]
pub struct AirPlan {
    pub rate: PlannedRate,
    pub limits: Limits,
    pub waits: Waits,
    pub choices: Choices,
}

fn rate_named(word: &str) -> Option<PlannedRate>
    ensures { result ≡ rate_named word.now }
{
    match word {
        "robo" => Some(PlannedRate::Robo),
        "dbpsk" => Some(PlannedRate::Dbpsk),
        "dqpsk" => Some(PlannedRate::Dqpsk),
        "d8psk" => Some(PlannedRate::D8psk),
        _ => None,
    }
}

#[tactic(auto, unfolding(crate::specs::AirPlans::rate_in))]
fn rate_in(value: &Value) -> Option<PlannedRate>
    ensures { result ≡ rate_in (view value.now) }
{
    rate_named(value.as_str()?)
}

fn rate_at(fields: &Fields<'_>) -> Result<PlannedRate, WrongValue>
    ensures { result ≡ rate_at (table_of fields.now) }
{
    match fields.get(Key::Rate) {
        None => Ok(PlannedRate::Robo),
        Some(value) => fields.checked(Key::Rate, Wanted::Word, rate_in(value)),
    }
}

#[tactic(auto, unfolding(crate::specs::AirPlans::limits_at))]
fn limits_at(fields: &Fields<'_>) -> Result<Limits, WrongValue>
    ensures { result ≡ limits_at (table_of fields.now) }
{
    let repeats = fields.number(Key::Repeats, 5, 1_000)? as u16;
    let break_after = fields.number(Key::BreakAfter, 3, 1_000)? as u16;
    let backoffs = fields.number(Key::Backoffs, 50, 1_000)? as u16;
    Ok(Limits {
        repeats,
        break_after,
        backoffs,
    })
}

#[tactic(auto, unfolding(crate::specs::AirPlans::waits_at))]
fn waits_at(fields: &Fields<'_>) -> Result<Waits, WrongValue>
    ensures { result ≡ waits_at (table_of fields.now) }
{
    let min_be = fields.number(Key::MinBe, 3, 16)?;
    let max_be = fields.number(Key::MaxBe, 8, 16)?;
    let jitter_ms = fields.number(Key::JitterMs, 300, 60_000)? as u32;
    let ack_loss = fields.number(Key::AckLoss, 25, 100)? as u16;
    if min_be > max_be {
        return Err(fields.wrong(Key::MinBe, Wanted::UpTo(max_be)));
    }
    Ok(Waits {
        min_be: min_be as u8,
        max_be: max_be as u8,
        jitter_ms,
        ack_loss,
    })
}

#[tactic(auto, unfolding(crate::specs::AirPlans::choices_at))]
fn choices_at(fields: &Fields<'_>) -> Result<Choices, WrongValue>
    ensures { result ≡ choices_at (table_of fields.now) }
{
    let duplicates = fields.flag(Key::Duplicates, true)?;
    let overhear = fields.flag(Key::Overhear, false)?;
    let collisions = fields.flag(Key::Collisions, true)?;
    Ok(Choices {
        duplicates,
        overhear,
        collisions,
    })
}

impl AirPlan {
    /// The settings that `[air]` gives.
    ///
    /// The first key whose value does not fit is refused.
    #[tactic(auto, unfolding(crate::specs::AirPlans::air_at))]
    pub fn read(fields: &Fields<'_>) -> Result<AirPlan, WrongValue>
        ensures { result ≡ air_at (table_of fields.now) }
    {
        let rate = rate_at(fields)?;
        let limits = limits_at(fields)?;
        let waits = waits_at(fields)?;
        let choices = choices_at(fields)?;
        Ok(AirPlan {
            rate,
            limits,
            waits,
            choices,
        })
    }
}
