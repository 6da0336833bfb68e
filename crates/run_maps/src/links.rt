//! Who hears whom.
ghost use Rattle.std.specs.Prelude.{◌≡◌, [], IfOk, OnOk};
ghost use Rattle.run_maps.specs.Links as spec_links;

use line_record::{Act, RecordedEvent, RecordedFlight, RunRecord};
use std::alloc::{AllocError, Global};
use std::collections::BTreeMap;
use std::marker::Model;

/// What came from a node to one that heard it.
#[derive(Clone, Copy, Debug, PartialEq, Eq)]
pub struct Link {
    /// The least cost of a frame. None where no frame came: the script gave the two nodes the route to each other.
    pub least: Option<u8>,
    /// How many frames came.
    pub frames: u32,
}

/// A link with its two nodes.
#[derive(Clone, Copy, Debug, PartialEq, Eq)]
pub struct Heard {
    /// The node that sent.
    pub from: u32,
    /// The node that heard it.
    pub to: u32,
    /// What came.
    pub link: Link,
}

/// The links of a run, by their two nodes. A contract sees the list of them, in the order of the nodes.
#[derive(Drop)]
pub struct Links {
    links: BTreeMap<(u32, u32), Link>,
}

impl Model for Links {
    ghost use Rattle.std.specs.Prelude.{List, ℕ};
    ghost use Rattle.run_maps.specs.declared.links.Link.{Link};

    ghost Value = { List ((ℕ × ℕ) × Link) };

    ghost view = { λ l. l.links.entries };
}

fn least_with(least: Option<u8>, cost: u8) -> u8
    ensures { result ≡ spec_links.least_with least cost }
{
    match least {
        None => cost,
        Some(least) => least.min(cost),
    }
}

// A link with one frame more. A run has at most 50,000.
fn with_frame(link: Option<Link>, cost: u8) -> Link
    ensures { result ≡ spec_links.with_frame link cost }
{
    match link {
        None => Link {
            least: Some(cost),
            frames: 1,
        },
        Some(link) => Link {
            least: Some(least_with(link.least, cost)),
            frames: link.frames.min(1_000_000) + 1,
        },
    }
}

// A link with a route that was given: no frame came.
fn with_route(link: Option<Link>) -> Link
    ensures { result ≡ spec_links.with_route link }
{
    match link {
        None => Link {
            least: None,
            frames: 0,
        },
        Some(link) => link,
    }
}

fn heard_of(pair: (u32, u32), link: Link) -> Heard
    ensures { result ≡ spec_links.heard_of (pair, link) }
{
    Heard {
        from: pair.0,
        to: pair.1,
        link,
    }
}

impl Links {
    // None. It takes no memory.
    fn new(alloc: Global) -> Links
        ensures { result ≡ [] }
    {
        Links {
            links: BTreeMap::new(alloc),
        }
    }

    /// The link from a node to another one, if there is one.
    #[tactic(auto, unfolding(crate::specs::Links::link_at))]
    pub fn link(&self, from: u32, to: u32) -> Option<Link>
        ensures { result ≡ spec_links.link_at from to self.now }
    {
        self.links.get(&(from, to)).copied()
    }

    #[tactic(auto, unfolding(crate::specs::Links::frame_added))]
    fn add_frame(&mut self, from: u32, to: u32, cost: u8) -> Result<(), AllocError>
        ensures { OnOk result (self.new ≡ spec_links.frame_added from to cost self.old) }
    {
        let link = with_frame(self.link(from, to), cost);
        self.links.insert((from, to), link)?;
        Ok(())
    }

    #[tactic(auto, unfolding(crate::specs::Links::route_added))]
    fn add_route(&mut self, from: u32, to: u32) -> Result<(), AllocError>
        ensures { OnOk result (self.new ≡ spec_links.route_added from to self.old) }
    {
        let link = with_route(self.link(from, to));
        self.links.insert((from, to), link)?;
        Ok(())
    }

    // A frame came to a node, from the node that sent the flight, if there is such a flight.
    fn hear(
        &mut self,
        flight: Option<RecordedFlight>,
        node: u32,
        cost: u8,
    ) -> Result<(), AllocError>
        ensures { OnOk result (self.new ≡ spec_links.heard_by flight node cost self.old) }
    {
        match flight {
            None => Ok(()),
            Some(flight) => self.add_frame(u32::from(flight.from), node, cost),
        }
    }

    fn join(&mut self, a: u32, b: u32) -> Result<(), AllocError>
        ensures { OnOk result (self.new ≡ spec_links.route_added b a (spec_links.route_added a b self.old)) }
    {
        self.add_route(a, b)?;
        self.add_route(b, a)
    }

    // What an event joins.
    fn add(&mut self, run_record: &RunRecord, recorded: &RecordedEvent) -> Result<(), AllocError>
        ensures { OnOk result (self.new ≡ spec_links.with_act recorded.now.act run_record.now.flights.items self.old) }
    {
        match recorded.act {
            Act::Deliver { flight, node, cost } => {
                self.hear(run_record.flight(flight as usize).copied(), node, cost)
            }
            Act::Near { a, b } => self.join(a, b),
            _ => Ok(()),
        }
    }

    // What the events join.
    fn add_all(
        &mut self,
        run_record: &RunRecord,
        events: &[RecordedEvent],
    ) -> Result<(), AllocError>
        ensures { OnOk result (self.new ≡ spec_links.links_from run_record.now.flights.items events.now self.old) }
    {
        for recorded in events {
            self.add(run_record, recorded)?;
        }
        Ok(())
    }

    /// The links as a list, in the order of their nodes.
    pub fn list(&self, alloc: Global) -> Result<Vec<Heard>, AllocError>
        ensures { IfOk result (λ list. list.items ≡ spec_links.heard_list self.now) }
    {
        let mut list = Vec::new(alloc);
        for (pair, link) in self.links.iter() {
            list.push(heard_of(*pair, *link))?;
        }
        Ok(list)
    }
}

/// The links of a run. It fails only where memory runs out.
#[tactic(auto, unfolding(crate::specs::Links::links_of))]
pub fn links_of(alloc: Global, run_record: &RunRecord) -> Result<Links, AllocError>
    ensures { IfOk result (λ links. links ≡ spec_links.links_of run_record.now.events.items run_record.now.flights.items) }
{
    let mut links = Links::new(alloc);
    links.add_all(run_record, run_record.events.as_slice())?;
    Ok(links)
}
