//! When the routes of a node ended.
ghost use Rattle.std.specs.Prelude.{◌≡◌, ◌++◌, IfOk, OnOk};
ghost use Rattle.std.specs.Bool.{OnTrue};
ghost use Rattle.event_sentences.specs.RouteEnds as spec_ends;

use node_rules::ShownRoute;
use std::alloc::{AllocError, Global};
use std::collections::BTreeMap;
use std::marker::Model;

/// The addresses that a node has valid routes to, at most 64, and the last end of each other route that it had.
#[derive(Drop)]
pub struct RouteEnds {
    valid: Vec<u16>,
    ended: BTreeMap<u16, usize>,
}

impl Model for RouteEnds {
    ghost use Rattle.event_sentences.specs.RouteEnds.{Routes};

    ghost Value = { Routes };

    ghost view = { λ r. record { valid = r.valid.items; ended = r.ended.entries } };
}

fn has(valid: &[u16], dest: u16) -> bool
    ensures { result ≡ spec_ends.has valid.now dest }
{
    valid.iter().any(|other| *other == dest)
}

fn push_dest(valid: &mut Vec<u16>, route: &ShownRoute) -> Result<(), AllocError>
    ensures { OnOk result (valid.new.items ≡ valid.old.items ++ spec_ends.valid_dest route.now) }
{
    if route.next.is_some() {
        valid.push(route.dest.number())?;
    }
    Ok(())
}

// The addresses of the valid routes among those that are shown.
fn valid_dests(alloc: Global, shown: &[ShownRoute]) -> Result<Vec<u16>, AllocError>
    ensures { IfOk result (λ valid. valid.items ≡ spec_ends.valid_dests shown.now) }
{
    let mut valid = Vec::with_capacity(alloc, shown.len())?;
    for route in shown {
        push_dest(&mut valid, route)?;
    }
    Ok(valid)
}

fn end_one(
    ended: &mut BTreeMap<u16, usize>,
    event: usize,
    valid: &[u16],
    dest: u16,
) -> Result<(), AllocError>
    ensures { OnOk result (ended.new.entries ≡ spec_ends.ended_by event valid.now dest ended.old.entries) }
{
    if !has(valid, dest) {
        ended.insert(dest, event)?;
    }
    Ok(())
}

// The routes that were valid and are not any more end at an event.
fn end_all(
    ended: &mut BTreeMap<u16, usize>,
    event: usize,
    valid: &[u16],
    old: &[u16],
) -> Result<(), AllocError>
    ensures { OnOk result (ended.new.entries ≡ spec_ends.ended_after event valid.now old.now ended.old.entries) }
{
    for dest in old {
        end_one(ended, event, valid, *dest)?;
    }
    Ok(())
}

// Whether a route that was valid is not any more.
fn has_ended(valid: &[u16], old: &[u16]) -> bool
    ensures { result ≡ spec_ends.has_ended valid.now old.now }
{
    old.iter().any(|dest| !has(valid, *dest))
}

// Whether two lists of addresses are the same.
fn is_same(valid: &[u16], old: &[u16]) -> bool
    ensures { OnTrue result (valid.now ≡ old.now) }
{
    valid == old
}

impl RouteEnds {
    /// No route. It takes no memory.
    pub fn new(alloc: Global) -> RouteEnds
        ensures { result ≡ spec_ends.no_routes }
    {
        RouteEnds {
            valid: Vec::new(alloc),
            ended: BTreeMap::new(alloc),
        }
    }

    /// The routes after an event of this number, as they are shown then. Answers whether one of them ended.
    ///
    /// It fails only where memory runs out; what is left then is not said.
    #[tactic(auto, using(crate::proofs::SameRoutes::none_ended, crate::proofs::SameRoutes::same_routes))]
    pub fn look(
        &mut self,
        alloc: Global,
        event: usize,
        shown: &[ShownRoute],
    ) -> Result<bool, AllocError>
        ensures ended { IfOk result (λ ended. ended ≡ spec_ends.has_ended (spec_ends.valid_dests shown.now) self.old.valid) }
        ensures routes { OnOk result (self.new ≡ spec_ends.routes_after event shown.now self.old) }
    {
        let valid = valid_dests(alloc, shown)?;
        // Most events end no route.
        if is_same(valid.as_slice(), self.valid.as_slice()) {
            return Ok(false);
        }
        end_all(
            &mut self.ended,
            event,
            valid.as_slice(),
            self.valid.as_slice(),
        )?;
        let ended = has_ended(valid.as_slice(), self.valid.as_slice());
        self.valid = valid;
        Ok(ended)
    }

    /// The event at which the route to an address ended, 0 where it is valid or never was.
    pub fn ended(&self, dest: u16) -> usize
        ensures { result ≡ spec_ends.end_of dest self.now }
    {
        if has(self.valid.as_slice(), dest) {
            return 0;
        }
        match self.ended.get(&dest) {
            Some(event) => *event,
            None => 0,
        }
    }
}
