//! What happens to the line: failures, the owner's orders, attackers.
ghost use Rattle.std.specs.Prelude.{◌≡◌, IfOk, [], map};
ghost use Rattle.toml.specs.View.{view};
ghost use Rattle.plan_tables.specs.Members.{table_of};
ghost use Rattle.plan_tables.specs.Incidents.{what_named, what_in, what_at, leaves_named, leaves_in, leaves_at};
ghost use Rattle.plan_tables.specs.Incidents.{torn_at, noise_at, rekey_at, replay_at, delay_at, what_of};
ghost use Rattle.plan_tables.specs.Incidents.{nodes_of, wanted_one, wanted_list, node_of, numbers_from, one_node, some_nodes, nodes_at, time_at};
ghost use Rattle.plan_tables.specs.Incidents.{link_wanted, nodes_wanted, drawn_at, outline_at, incident_at};

use crate::places::PlacePlan;
use crate::{Fields, Key, Wanted, WrongValue, number_from_one_to, number_up_to, seconds_in};
use std::alloc::{AllocError, Global};
use std::marker::Model;
use toml::Value;

/// What a write that the power failed in leaves of its record.
#[derive(Clone, Copy, Debug, PartialEq, Eq)]
pub enum Leaves {
    Old,
    New,
}

/// The kinds of what happens.
#[derive(Clone, Copy, Debug, PartialEq, Eq)]
pub enum WhatKind {
    Power,
    Torn,
    Noise,
    LinkDown,
    Kick,
    Rekey,
    Replay,
    Delay,
    FalseJoins,
}

/// What happens. Chances are ten-thousandths, times are seconds.
#[derive(Clone, Copy, Debug, PartialEq, Eq)]
pub enum What {
    /// Nodes have no power for a time.
    PowerFails(u64),
    /// The power of nodes fails in one of their next writes: in which, what it leaves, and for how long.
    WriteFails(u16, Leaves, u64),
    /// Nodes hear worse, all where none is named: what part of what would come is lost, and for how long.
    NoiseComes(u16, u64),
    /// Two nodes do not hear each other for a time.
    LinkFails(u64),
    /// Meters are shut out.
    MetersKicked,
    /// The group key of an index is changed.
    KeyChanges(u8),
    /// An attacker gives nodes this many frames that it heard before.
    FramesReplayed(u32),
    /// An attacker keeps what a node should hear for a time, and gives it to the node this many seconds after.
    FramesDelayed(u64, u64),
    /// An attacker asks to join in the name of meters.
    JoinsForged,
}

/// Nodes, in the order of the text. A contract sees the list of their numbers.
#[derive(Drop)]
pub struct NodeList {
    nodes: Vec<u32>,
}

impl Model for NodeList {
    ghost use Rattle.std.specs.Prelude.{List, ℕ};

    ghost Value = { List ℕ };

    ghost view = { λ n. n.nodes.items };
}

impl NodeList {
    /// The numbers of the nodes.
    pub fn nodes(&self) -> &[u32]
        ensures { result.now ≡ self.now }
    {
        self.nodes.as_slice()
    }
}

// Which nodes may be named.
#[derive(Clone, Copy)]
struct NodesOf {
    /// How many meters there are.
    meters: u32,
    /// Whether it has to be a meter, and no coordinator.
    is_meter: bool,
}

impl NodesOf {
    // The coordinator is not shut out.
    fn new(what: &What, meters: u32) -> NodesOf
        ensures { result ≡ nodes_of what.now meters }
    {
        NodesOf {
            meters,
            is_meter: matches!(what, What::MetersKicked),
        }
    }

    fn one(self) -> Wanted
        ensures { result ≡ wanted_one self }
    {
        let most = u64::from(self.meters);
        if self.is_meter {
            Wanted::FromOneTo(most)
        } else {
            Wanted::UpTo(most)
        }
    }

    fn list(self) -> Wanted
        ensures { result ≡ wanted_list self }
    {
        if self.is_meter {
            Wanted::Meters
        } else {
            Wanted::Nodes
        }
    }
}

/// Something that happens at a time.
#[derive(Drop)]
pub struct Incident {
    /// When, in seconds.
    pub at: u64,
    pub what: What,
    /// The nodes that it meets; none where they are drawn, or where it meets all.
    pub nodes: NodeList,
    /// How many meters are drawn, where no node is named.
    pub meters: u32,
}

fn what_named(word: &str) -> Option<WhatKind>
    ensures { result ≡ what_named word.now }
{
    match word {
        "power" => Some(WhatKind::Power),
        "torn" => Some(WhatKind::Torn),
        "noise" => Some(WhatKind::Noise),
        "link" => Some(WhatKind::LinkDown),
        "kick" => Some(WhatKind::Kick),
        "rekey" => Some(WhatKind::Rekey),
        "replay" => Some(WhatKind::Replay),
        "delay" => Some(WhatKind::Delay),
        "false_joins" => Some(WhatKind::FalseJoins),
        _ => None,
    }
}

#[tactic(auto, unfolding(crate::specs::Incidents::what_in))]
fn what_in(value: &Value) -> Option<WhatKind>
    ensures { result ≡ what_in (view value.now) }
{
    what_named(value.as_str()?)
}

/// The kind of what happens, which has to be given.
pub fn what_at(fields: &Fields<'_>) -> Result<WhatKind, WrongValue>
    ensures { result ≡ what_at (table_of fields.now) }
{
    match fields.get(Key::What) {
        None => Err(fields.wrong(Key::What, Wanted::Word)),
        Some(value) => fields.checked(Key::What, Wanted::Word, what_in(value)),
    }
}

fn leaves_named(word: &str) -> Option<Leaves>
    ensures { result ≡ leaves_named word.now }
{
    match word {
        "old" => Some(Leaves::Old),
        "new" => Some(Leaves::New),
        _ => None,
    }
}

#[tactic(auto, unfolding(crate::specs::Incidents::leaves_in))]
fn leaves_in(value: &Value) -> Option<Leaves>
    ensures { result ≡ leaves_in (view value.now) }
{
    leaves_named(value.as_str()?)
}

fn leaves_at(fields: &Fields<'_>) -> Result<Leaves, WrongValue>
    ensures { result ≡ leaves_at (table_of fields.now) }
{
    match fields.get(Key::Leaves) {
        None => Ok(Leaves::Old),
        Some(value) => fields.checked(Key::Leaves, Wanted::Word, leaves_in(value)),
    }
}

#[tactic(auto, unfolding(crate::specs::Incidents::torn_at))]
fn torn_at(fields: &Fields<'_>) -> Result<What, WrongValue>
    ensures { result ≡ torn_at (table_of fields.now) }
{
    let seconds = fields.seconds(Key::For, 60)?;
    let leaves = leaves_at(fields)?;
    let write = fields.positive(Key::Write, 1, 1_000)?;
    Ok(What::WriteFails(write, leaves, seconds))
}

#[tactic(auto, unfolding(crate::specs::Incidents::noise_at))]
fn noise_at(fields: &Fields<'_>) -> Result<What, WrongValue>
    ensures { result ≡ noise_at (table_of fields.now) }
{
    let seconds = fields.seconds(Key::For, 60)?;
    let loss = fields.chance(Key::Loss, 5_000)?;
    Ok(What::NoiseComes(loss, seconds))
}

#[tactic(auto, unfolding(crate::specs::Incidents::delay_at))]
fn delay_at(fields: &Fields<'_>) -> Result<What, WrongValue>
    ensures { result ≡ delay_at (table_of fields.now) }
{
    let seconds = fields.seconds(Key::For, 60)?;
    let later = fields.seconds(Key::Later, 60)?;
    Ok(What::FramesDelayed(seconds, later))
}

#[tactic(auto, unfolding(crate::specs::Incidents::rekey_at))]
fn rekey_at(fields: &Fields<'_>) -> Result<What, WrongValue>
    ensures { result ≡ rekey_at (table_of fields.now) }
{
    let index = fields.number(Key::Index, 1, 1)? as u8;
    Ok(What::KeyChanges(index))
}

#[tactic(auto, unfolding(crate::specs::Incidents::replay_at))]
fn replay_at(fields: &Fields<'_>) -> Result<What, WrongValue>
    ensures { result ≡ replay_at (table_of fields.now) }
{
    let count = fields.number(Key::Count, 10, 10_000)? as u32;
    Ok(What::FramesReplayed(count))
}

// What happens, of a kind.
#[tactic(auto, unfolding(crate::specs::Incidents::what_of))]
fn what_of(fields: &Fields<'_>, kind: WhatKind) -> Result<What, WrongValue>
    ensures { result ≡ what_of (table_of fields.now) kind }
{
    match kind {
        WhatKind::Power => {
            let seconds = fields.seconds(Key::For, 60)?;
            Ok(What::PowerFails(seconds))
        }
        WhatKind::Torn => torn_at(fields),
        WhatKind::Noise => noise_at(fields),
        WhatKind::LinkDown => {
            let seconds = fields.seconds(Key::For, 60)?;
            Ok(What::LinkFails(seconds))
        }
        WhatKind::Kick => Ok(What::MetersKicked),
        WhatKind::Rekey => rekey_at(fields),
        WhatKind::Replay => replay_at(fields),
        WhatKind::Delay => delay_at(fields),
        WhatKind::FalseJoins => Ok(What::JoinsForged),
    }
}

// The number of a node of a line, or of a meter.
#[tactic(auto, unfolding(crate::specs::Incidents::node_of))]
fn node_of(of: NodesOf, value: &Value) -> Option<u32>
    ensures { result ≡ node_of of (view value.now) }
{
    let most = u64::from(of.meters);
    let node = if of.is_meter {
        number_from_one_to(most, value)?
    } else {
        number_up_to(most, value)?
    };
    Some(node as u32)
}

// The nodes of values.
fn numbers_from(
    alloc: Global,
    of: NodesOf,
    values: &[Value],
) -> Result<Option<NodeList>, AllocError>
    ensures { IfOk result (λ read. read ≡ numbers_from of [] (map view values.now)) }
{
    let mut nodes: Vec<u32> = Vec::new(alloc);
    for value in values {
        let Some(node) = node_of(of, value) else {
            return Ok(None);
        };
        nodes.push(node)?;
    }
    Ok(Some(NodeList { nodes }))
}

// The node that a value is.
#[tactic(auto, unfolding(crate::specs::Incidents::one_node))]
fn one_node(alloc: Global, of: NodesOf, value: &Value) -> Result<Option<NodeList>, AllocError>
    ensures { IfOk result (λ read. read ≡ one_node of (view value.now)) }
{
    let Some(node) = node_of(of, value) else {
        return Ok(None);
    };
    let mut nodes: Vec<u32> = Vec::new(alloc);
    nodes.push(node)?;
    Ok(Some(NodeList { nodes }))
}

// The nodes of a value, which has to be an array.
#[tactic(auto, unfolding(crate::specs::Incidents::some_nodes), using(crate::proofs::ArrayItems::listed_view))]
fn some_nodes(alloc: Global, of: NodesOf, value: &Value) -> Result<Option<NodeList>, AllocError>
    ensures { IfOk result (λ read. read ≡ some_nodes of (view value.now)) }
{
    match value.as_array() {
        Some(values) => numbers_from(alloc, of, values.as_slice()),
        None => Ok(None),
    }
}

// The nodes that `node` or `nodes` names; not both may be there.
#[tactic(auto, unfolding(crate::specs::Incidents::nodes_at))]
fn nodes_at(
    alloc: Global,
    fields: &Fields<'_>,
    of: NodesOf,
) -> Result<Result<NodeList, WrongValue>, AllocError>
    ensures { IfOk result (λ read. read ≡ nodes_at of (table_of fields.now)) }
{
    match (fields.get(Key::Node), fields.get(Key::Nodes)) {
        (Some(_), Some(_)) => Ok(Err(fields.wrong(Key::Node, Wanted::NoNode))),
        (Some(value), None) => {
            let read = one_node(alloc, of, value)?;
            Ok(fields.checked(Key::Node, of.one(), read))
        }
        (None, Some(value)) => {
            let read = some_nodes(alloc, of, value)?;
            Ok(fields.checked(Key::Nodes, of.list(), read))
        }
        (None, None) => Ok(Ok(NodeList {
            nodes: Vec::new(alloc),
        })),
    }
}

// When it happens, which has to be given.
fn time_at(fields: &Fields<'_>) -> Result<u64, WrongValue>
    ensures { result ≡ time_at (table_of fields.now) }
{
    match fields.get(Key::At) {
        None => Err(fields.wrong(Key::At, Wanted::Time)),
        Some(value) => fields.checked(Key::At, Wanted::Time, seconds_in(value)),
    }
}

// What the nodes of a link that fails have to be, where these are not.
fn link_wanted(place: &PlacePlan, nodes: &[u32]) -> Option<Wanted>
    ensures { result ≡ link_wanted place.now nodes.now }
{
    match nodes {
        [a, b] if *a != *b => {
            if place.may_hear(*a, *b) {
                None
            } else {
                Some(Wanted::Linked)
            }
        }
        _ => Some(Wanted::TwoNodes),
    }
}

// What the nodes have to be, where these are not.
fn nodes_wanted(what: &What, place: &PlacePlan, nodes: &NodeList) -> Option<Wanted>
    ensures { result ≡ nodes_wanted what.now place.now nodes.now }
{
    match what {
        What::LinkFails(_) => link_wanted(place, nodes.nodes()),
        _ => None,
    }
}

// When it happens, what, and how many meters are drawn.
#[derive(Clone, Copy)]
struct Outline {
    at: u64,
    what: What,
    meters: u32,
}

#[tactic(auto, unfolding(crate::specs::Incidents::outline_at))]
fn outline_at(fields: &Fields<'_>, meters: u32) -> Result<Outline, WrongValue>
    ensures { result ≡ outline_at meters (table_of fields.now) }
{
    let at = time_at(fields)?;
    let kind = what_at(fields)?;
    let what = what_of(fields, kind)?;
    let drawn = drawn_at(fields, meters)?;
    Ok(Outline {
        at,
        what,
        meters: drawn,
    })
}

// How many meters are drawn: one, if there is no number.
#[tactic(auto, unfolding(crate::specs::Incidents::drawn_at))]
fn drawn_at(fields: &Fields<'_>, meters: u32) -> Result<u32, WrongValue>
    ensures { result ≡ drawn_at meters (table_of fields.now) }
{
    match fields.get(Key::Meters) {
        None => Ok(1),
        Some(value) => {
            let most = u64::from(meters);
            let read = number_up_to(most, value);
            Ok(fields.checked(Key::Meters, Wanted::UpTo(most), read)? as u32)
        }
    }
}

impl Incident {
    /// What a table `[[at]]` says.
    ///
    /// The first key whose value does not fit is refused.
    #[tactic(auto, unfolding(crate::specs::Incidents::incident_at))]
    pub fn read(
        alloc: Global,
        fields: &Fields<'_>,
        meters: u32,
        place: &PlacePlan,
    ) -> Result<Result<Incident, WrongValue>, AllocError>
        ensures { IfOk result (λ read. read ≡ incident_at meters place.now (table_of fields.now)) }
    {
        let outline = match outline_at(fields, meters) {
            Ok(outline) => outline,
            Err(wrong) => return Ok(Err(wrong)),
        };
        let of = NodesOf::new(&outline.what, meters);
        let nodes = match nodes_at(alloc, fields, of)? {
            Ok(nodes) => nodes,
            Err(wrong) => return Ok(Err(wrong)),
        };
        if let Some(wanted) = nodes_wanted(&outline.what, place, &nodes) {
            return Ok(Err(fields.wrong(Key::Nodes, wanted)));
        }
        Ok(Ok(Incident {
            at: outline.at,
            what: outline.what,
            nodes,
            meters: outline.meters,
        }))
    }
}
