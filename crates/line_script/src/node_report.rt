//! The lines of a node that is shown.
ghost use Rattle.std.specs.Prelude.{◌≡◌, ◌++◌, IfOk, OnOk, string_bytes};
ghost use Rattle.line_script.specs.NodeTexts.{short_word, address_word, index_word, next_word, head_text, key_text, route_text, routes_text, floor_text};
ghost use Rattle.line_script.specs.NodeTexts.{floors_text, peer_text, peers_text, running_text, node_text};

use node_rules::{Shown, ShownPeer, ShownRoute};
use plc_base::{Key, KeyIndex, Short};
use std::alloc::{AllocError, Global};
use std::fmt::Write;

/// A short address, as 4 digits in hexadecimal.
pub fn short_word(alloc: Global, address: u16) -> Result<String, AllocError>
    ensures { IfOk result (λ text. string_bytes text ≡ short_word address) }
{
    hex::encode(alloc, address.to_be_bytes().as_slice())
}

/// The short address of a node, or `-` where it has none.
fn address_word(alloc: Global, address: Option<Short>) -> Result<String, AllocError>
    ensures { IfOk result (λ text. string_bytes text ≡ address_word address) }
{
    match address {
        None => String::from_str(alloc, "-"),
        Some(address) => short_word(alloc, address.number()),
    }
}

/// The index of the key that seals, or `-` where there is none.
fn index_word(alloc: Global, index: Option<KeyIndex>) -> Result<String, AllocError>
    ensures { IfOk result (λ text. string_bytes text ≡ index_word index) }
{
    match index {
        None => String::from_str(alloc, "-"),
        Some(index) => {
            let number = index.number();
            format!(in alloc; "{number}")
        }
    }
}

/// The address of a next hop, or `-` where no route is valid.
fn next_word(alloc: Global, next: Option<u16>) -> Result<String, AllocError>
    ensures { IfOk result (λ text. string_bytes text ≡ next_word next) }
{
    match next {
        None => String::from_str(alloc, "-"),
        Some(next) => short_word(alloc, next),
    }
}

#[tactic(auto, unfolding(crate::specs::NodeTexts::head_text))]
fn push_head(text: &mut String, alloc: Global, node: u32, shown: &Shown) -> Result<(), AllocError>
    ensures { OnOk result (string_bytes text.new ≡ string_bytes text.old ++ head_text node shown.now) }
{
    let address = address_word(alloc, shown.address)?;
    let active = index_word(alloc, shown.active)?;
    let next_counter = shown.next_counter;
    let last_number = shown.last_number;
    match write!(
        text,
        "node {node} {address} {active} {next_counter} {last_number}\n"
    ) {
        Ok(()) => Ok(()),
        Err(_) => Err(AllocError),
    }
}

#[tactic(auto, unfolding(crate::specs::NodeTexts::key_text))]
fn push_key(text: &mut String, alloc: Global, index: u8, key: Option<Key>) -> Result<(), AllocError>
    ensures { OnOk result (string_bytes text.new ≡ string_bytes text.old ++ key_text index key) }
{
    match key {
        None => Ok(()),
        Some(key) => {
            let octets = hex::encode(alloc, key.0.as_slice())?;
            match write!(text, "key {index} {octets}\n") {
                Ok(()) => Ok(()),
                Err(_) => Err(AllocError),
            }
        }
    }
}

#[tactic(auto, unfolding(crate::specs::NodeTexts::route_text))]
fn push_route(text: &mut String, alloc: Global, route: ShownRoute) -> Result<(), AllocError>
    ensures { OnOk result (string_bytes text.new ≡ string_bytes text.old ++ route_text route) }
{
    let dest = short_word(alloc, route.dest.number())?;
    let number = route.number;
    let cost = route.cost;
    let next = next_word(alloc, route.next)?;
    match write!(text, "route {dest} {number} {cost} {next}\n") {
        Ok(()) => Ok(()),
        Err(_) => Err(AllocError),
    }
}

fn push_routes(text: &mut String, alloc: Global, routes: &[ShownRoute]) -> Result<(), AllocError>
    ensures { OnOk result (string_bytes text.new ≡ string_bytes text.old ++ routes_text routes.now) }
{
    for route in routes {
        push_route(text, alloc, *route)?;
    }
    Ok(())
}

#[tactic(auto, unfolding(crate::specs::NodeTexts::floor_text))]
fn push_floor(text: &mut String, class: usize, floor: u16) -> Result<(), AllocError>
    ensures { OnOk result (string_bytes text.new ≡ string_bytes text.old ++ floor_text class floor) }
{
    if floor == 0 {
        return Ok(());
    }
    match write!(text, "floor {class} {floor}\n") {
        Ok(()) => Ok(()),
        Err(_) => Err(AllocError),
    }
}

fn push_floors(text: &mut String, floors: &[u16]) -> Result<(), AllocError>
    ensures { OnOk result (string_bytes text.new ≡ string_bytes text.old ++ floors_text 0 floors.now) }
{
    for class in 0..floors.len() {
        push_floor(text, class, floors[class])?;
    }
    Ok(())
}

#[tactic(auto, unfolding(crate::specs::NodeTexts::peer_text))]
fn push_peer(text: &mut String, alloc: Global, peer: ShownPeer) -> Result<(), AllocError>
    ensures { OnOk result (string_bytes text.new ≡ string_bytes text.old ++ peer_text peer) }
{
    let from = short_word(alloc, peer.from.number())?;
    let mark = peer.mark;
    match write!(text, "peer {from} {mark}\n") {
        Ok(()) => Ok(()),
        Err(_) => Err(AllocError),
    }
}

fn push_peers(text: &mut String, alloc: Global, peers: &[ShownPeer]) -> Result<(), AllocError>
    ensures { OnOk result (string_bytes text.new ≡ string_bytes text.old ++ peers_text peers.now) }
{
    for peer in peers {
        push_peer(text, alloc, *peer)?;
    }
    Ok(())
}

/// The lines of a node that is not halted.
#[tactic(auto, unfolding(crate::specs::NodeTexts::running_text))]
fn push_running(
    text: &mut String,
    alloc: Global,
    node: u32,
    shown: &Shown,
) -> Result<(), AllocError>
    ensures { OnOk result (string_bytes text.new ≡ string_bytes text.old ++ running_text node shown.now) }
{
    push_head(text, alloc, node, shown)?;
    push_key(text, alloc, 0, shown.key0)?;
    push_key(text, alloc, 1, shown.key1)?;
    push_routes(text, alloc, shown.routes.routes())?;
    push_floors(text, &shown.floors)?;
    push_peers(text, alloc, shown.peers.peers())
}

/// Appends the lines of a node: that it is halted, or its head, keys, routes, floors above 0 and peers, in this order.
#[tactic(auto, unfolding(crate::specs::NodeTexts::node_text))]
pub fn push_node(
    text: &mut String,
    alloc: Global,
    node: u32,
    shown: &Shown,
) -> Result<(), AllocError>
    ensures { OnOk result (string_bytes text.new ≡ string_bytes text.old ++ node_text node shown.now) }
{
    if !shown.halted {
        return push_running(text, alloc, node, shown);
    }
    match write!(text, "node {node} halted\n") {
        Ok(()) => Ok(()),
        Err(_) => Err(AllocError),
    }
}
