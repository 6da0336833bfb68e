//! What nodes and their owner do: joining, readings, changes of the key, care.
ghost use Rattle.std.specs.Prelude.{◌≡◌};
ghost use Rattle.toml.specs.View.{view};
ghost use Rattle.plan_tables.specs.Members.{table_of};
ghost use Rattle.plan_tables.specs.Tables.{how_named, how_in, how_at, joining_at, way_named, way_in, way_at, order_named, order_in, order_at};
ghost use Rattle.plan_tables.specs.Tables.{times_at, content_at, readings_at, retries_at, rotation_at, care_at};

use crate::{Fields, Key, Wanted, WrongValue};
use toml::Value;

/// How meters join.
#[derive(Clone, Copy, Debug, PartialEq, Eq)]
pub struct Joining {
    /// Whether they join in the workshop, before the run; else over the air.
    pub depot: bool,
    /// From when on, in seconds.
    pub from: u64,
    /// Within how many seconds each begins.
    pub within: u64,
    /// After how many seconds a meter tries again.
    pub retry: u64,
    /// How often it tries.
    pub tries: u64,
}

/// Who begins a reading.
#[derive(Clone, Copy, Debug, PartialEq, Eq)]
pub enum Way {
    /// The meter sends it.
    Push,
    /// The coordinator asks for it.
    Poll,
}

/// When meters are read, and how.
#[derive(Clone, Copy, Debug)]
pub struct Readings {
    /// From when on, in seconds.
    pub from: u64,
    /// After how many seconds again.
    pub every: u64,
    /// Within how many seconds each meter sends.
    pub within: u64,
    /// Who begins.
    pub way: Way,
    /// How many octets a reading has.
    pub octets: u64,
    /// Whether the coordinator answers a reading.
    pub answered: bool,
    /// How often a reading is tried.
    pub tries: u64,
    /// After how many seconds it is tried again.
    pub retry: u64,
    /// Whether the coordinator first gives every node a route to itself.
    pub refresh: bool,
    /// After how many seconds it does so again; 0 for before each round.
    pub refresh_every: u64,
    /// How many meters are asked at one time.
    pub at_once: u64,
    /// How often all are read at most.
    pub times: u64,
}

/// Who seals with a new key first.
#[derive(Clone, Copy, Debug, PartialEq, Eq)]
pub enum Order {
    CoordinatorFirst,
    CoordinatorLast,
    /// Each meter as soon as it is challenged, and the coordinator last.
    MeterByMeter,
}

/// How a group key is changed.
#[derive(Clone, Copy, Debug)]
pub struct Rotation {
    /// How many meters are challenged at one time.
    pub at_once: u64,
    /// After how many seconds a meter is challenged again.
    pub retry: u64,
    /// How often a meter is challenged.
    pub tries: u64,
    /// How often all are ordered to the new key.
    pub orders: u64,
    /// How many seconds are between two orders.
    pub gap: u64,
    /// Who seals with the new key first.
    pub order: Order,
}

/// What a meter does by itself.
#[derive(Clone, Copy, Debug)]
pub struct Care {
    /// After how many unanswered readings it leaves and joins again; 0 for never.
    pub rejoin_after: u64,
}

// The most of anything that is counted.
const MOST: u64 = 1_000_000;

// Whether the meters join in the workshop.
fn how_named(word: &str) -> Option<bool>
    ensures { result ≡ how_named word.now }
{
    match word {
        "air" => Some(false),
        "depot" => Some(true),
        _ => None,
    }
}

#[tactic(auto, unfolding(crate::specs::Tables::how_in))]
fn how_in(value: &Value) -> Option<bool>
    ensures { result ≡ how_in (view value.now) }
{
    how_named(value.as_str()?)
}

fn how_at(fields: &Fields<'_>) -> Result<bool, WrongValue>
    ensures { result ≡ how_at (table_of fields.now) }
{
    match fields.get(Key::How) {
        None => Ok(false),
        Some(value) => fields.checked(Key::How, Wanted::Word, how_in(value)),
    }
}

impl Joining {
    /// How `[joining]` has meters join.
    ///
    /// The first key whose value does not fit is refused.
    #[tactic(auto, unfolding(crate::specs::Tables::joining_at))]
    pub fn read(fields: &Fields<'_>) -> Result<Joining, WrongValue>
        ensures { result ≡ joining_at (table_of fields.now) }
    {
        let depot = how_at(fields)?;
        let from = fields.seconds(Key::From, 0)?;
        let within = fields.seconds(Key::Within, 600)?;
        let retry = fields.seconds(Key::Retry, 60)?;
        let tries = fields.number(Key::Tries, 20, MOST)?;
        Ok(Joining {
            depot,
            from,
            within,
            retry,
            tries,
        })
    }
}

fn way_named(word: &str) -> Option<Way>
    ensures { result ≡ way_named word.now }
{
    match word {
        "push" => Some(Way::Push),
        "poll" => Some(Way::Poll),
        _ => None,
    }
}

#[tactic(auto, unfolding(crate::specs::Tables::way_in))]
fn way_in(value: &Value) -> Option<Way>
    ensures { result ≡ way_in (view value.now) }
{
    way_named(value.as_str()?)
}

fn way_at(fields: &Fields<'_>) -> Result<Way, WrongValue>
    ensures { result ≡ way_at (table_of fields.now) }
{
    match fields.get(Key::Way) {
        None => Ok(Way::Push),
        Some(value) => fields.checked(Key::Way, Wanted::Word, way_in(value)),
    }
}

// When meters are read.
#[derive(Clone, Copy)]
struct Times {
    from: u64,
    every: u64,
    within: u64,
    retry: u64,
}

#[tactic(auto, unfolding(crate::specs::Tables::times_at))]
fn times_at(fields: &Fields<'_>) -> Result<Times, WrongValue>
    ensures { result ≡ times_at (table_of fields.now) }
{
    let from = fields.seconds(Key::From, 7_200)?;
    let every = fields.seconds(Key::Every, 86_400)?;
    let within = fields.seconds(Key::Within, 3_600)?;
    let retry = fields.seconds(Key::Retry, 40)?;
    Ok(Times {
        from,
        every,
        within,
        retry,
    })
}

// What a reading is.
#[derive(Clone, Copy)]
struct Content {
    way: Way,
    octets: u64,
    answered: bool,
    refresh: bool,
    refresh_every: u64,
}

#[tactic(auto, unfolding(crate::specs::Tables::content_at))]
fn content_at(fields: &Fields<'_>) -> Result<Content, WrongValue>
    ensures { result ≡ content_at (table_of fields.now) }
{
    let way = way_at(fields)?;
    let octets = fields.number(Key::Octets, 40, 1_024)?;
    let answered = fields.flag(Key::Answered, true)?;
    let refresh_every = fields.seconds(Key::RefreshEvery, 0)?;
    let refresh = fields.flag(Key::Refresh, refresh_every > 0)?;
    Ok(Content {
        way,
        octets,
        answered,
        refresh,
        refresh_every,
    })
}

impl Readings {
    /// The readings of `[readings]`.
    ///
    /// The first key whose value does not fit is refused.
    #[tactic(auto, unfolding(crate::specs::Tables::readings_at))]
    pub fn read(fields: &Fields<'_>) -> Result<Readings, WrongValue>
        ensures { result ≡ readings_at (table_of fields.now) }
    {
        let times = times_at(fields)?;
        let content = content_at(fields)?;
        let tries = fields.number(Key::Tries, 4, MOST)?;
        let at_once = fields.number(Key::AtOnce, 1, MOST)?;
        let rounds = fields.number(Key::Times, 1_000, MOST)?;
        Ok(Readings {
            from: times.from,
            every: times.every,
            within: times.within,
            way: content.way,
            octets: content.octets,
            answered: content.answered,
            tries,
            retry: times.retry,
            refresh: content.refresh,
            refresh_every: content.refresh_every,
            at_once,
            times: rounds,
        })
    }
}

fn order_named(word: &str) -> Option<Order>
    ensures { result ≡ order_named word.now }
{
    match word {
        "coordinator last" => Some(Order::CoordinatorLast),
        "coordinator first" => Some(Order::CoordinatorFirst),
        "meter by meter" => Some(Order::MeterByMeter),
        _ => None,
    }
}

#[tactic(auto, unfolding(crate::specs::Tables::order_in))]
fn order_in(value: &Value) -> Option<Order>
    ensures { result ≡ order_in (view value.now) }
{
    order_named(value.as_str()?)
}

fn order_at(fields: &Fields<'_>) -> Result<Order, WrongValue>
    ensures { result ≡ order_at (table_of fields.now) }
{
    match fields.get(Key::Order) {
        None => Ok(Order::CoordinatorLast),
        Some(value) => fields.checked(Key::Order, Wanted::Word, order_in(value)),
    }
}

// How often things of a change of the key are done.
#[derive(Clone, Copy)]
struct Retries {
    at_once: u64,
    tries: u64,
    orders: u64,
}

#[tactic(auto, unfolding(crate::specs::Tables::retries_at))]
fn retries_at(fields: &Fields<'_>) -> Result<Retries, WrongValue>
    ensures { result ≡ retries_at (table_of fields.now) }
{
    let at_once = fields.number(Key::AtOnce, 1, MOST)?;
    let tries = fields.number(Key::Tries, 5, MOST)?;
    let orders = fields.number(Key::Orders, 2, MOST)?;
    Ok(Retries {
        at_once,
        tries,
        orders,
    })
}

impl Rotation {
    /// The changes of the key of `[rotation]`.
    ///
    /// The first key whose value does not fit is refused.
    #[tactic(auto, unfolding(crate::specs::Tables::rotation_at))]
    pub fn read(fields: &Fields<'_>) -> Result<Rotation, WrongValue>
        ensures { result ≡ rotation_at (table_of fields.now) }
    {
        let retries = retries_at(fields)?;
        let retry = fields.seconds(Key::Retry, 60)?;
        let gap = fields.seconds(Key::Gap, 5)?;
        let order = order_at(fields)?;
        Ok(Rotation {
            at_once: retries.at_once,
            retry,
            tries: retries.tries,
            orders: retries.orders,
            gap,
            order,
        })
    }
}

impl Care {
    /// What `[care]` says.
    ///
    /// The first key whose value does not fit is refused.
    #[tactic(auto, unfolding(crate::specs::Tables::care_at))]
    pub fn read(fields: &Fields<'_>) -> Result<Care, WrongValue>
        ensures { result ≡ care_at (table_of fields.now) }
    {
        let rejoin_after = fields.number(Key::RejoinAfter, 0, MOST)?;
        Ok(Care { rejoin_after })
    }
}
