//! Who a frame is for.
ghost use Rattle.std.specs.Prelude.{◌≡◌, ◌+◌, min, IfOk, OnOk};
ghost use Rattle.line_simulation.specs.Books.{first_addresses, eui_of, granted, joined, target_by_address, target_by_eui, kind_of, outlined, outline_by};
ghost use Rattle.line_simulation.specs.Books.{outline_of};

use line_air::Target;
use line_figures::FrameKind;
use mac_frames::{MacHead, read_frame};
use plc_base::{Eui, TO_ALL};
use std::alloc::{AllocError, Global};
use std::collections::BTreeMap;
use std::marker::Model;

/// The number of the EUI of node 0. Those of the other nodes follow.
const FIRST_EUI: u64 = 0x0024_7d00_0000_0001;

/// The EUI of the spare meter, which is on no line.
const SPARE_EUI: u64 = 0x0024_7dff_ffff_ffff;

/// A frame, from its octets.
#[derive(Clone, Copy, Debug)]
pub struct Outline {
    pub target: Target,
    pub kind: FrameKind,
    /// How many octets it has on the air: at most 1,000.
    pub octets: u16,
}

fn outlined(octets: usize, target: Target, kind: FrameKind) -> Outline
    ensures { result ≡ outlined octets target kind }
{
    Outline {
        target,
        kind,
        octets: octets.min(1_000) as u16,
    }
}

/// The addresses of the nodes.
///
/// A contract sees how many nodes there are, the addresses in their order, and how many meters were joined in the workshop.
#[derive(Drop)]
pub struct Book {
    nodes: u32,
    by_address: BTreeMap<u16, u32>,
    // How many meters were joined in the workshop.
    depots: u16,
}

impl Model for Book {
    ghost use Rattle.line_simulation.specs.Books.{Addresses};

    ghost Value = { Addresses };

    ghost view = { λ b. record { nodes = b.nodes; by_address = b.by_address.entries; depots = b.depots } };
}

impl Book {
    /// The coordinator has address 0, and no other node has one.
    pub fn new(alloc: Global, nodes: u32) -> Result<Book, AllocError>
        ensures { IfOk result (λ book. book ≡ first_addresses nodes) }
    {
        let mut by_address = BTreeMap::new(alloc);
        by_address.insert(0, 0)?;
        Ok(Book {
            nodes,
            by_address,
            depots: 0,
        })
    }

    /// How many nodes are on the line.
    pub fn nodes(&self) -> u32
        ensures { result ≡ self.now.nodes }
    {
        self.nodes
    }

    /// The EUI of a node of the line, or that of the spare meter.
    #[tactic(auto, unfolding(crate::specs::Books::eui_of))]
    pub fn eui(&self, node: u32) -> Eui
        ensures { result ≡ eui_of node self.now }
    {
        if node < self.nodes {
            return Eui((FIRST_EUI + u64::from(node)).to_be_bytes());
        }
        Eui(SPARE_EUI.to_be_bytes())
    }

    /// A node of the line was given an address.
    #[tactic(auto, unfolding(crate::specs::Books::granted))]
    pub fn grant(&mut self, node: u32, address: u16) -> Result<(), AllocError>
        ensures { OnOk result (self.new ≡ granted node address self.old) }
    {
        if node < self.nodes {
            self.by_address.insert(address, node)?;
        }
        Ok(())
    }

    /// A meter was joined in the workshop: it has the next address.
    #[tactic(auto, unfolding(crate::specs::Books::joined))]
    pub fn join(&mut self, node: u32) -> Result<(), AllocError>
        ensures { OnOk result (self.new ≡ joined node self.old) }
    {
        self.depots = self.depots.saturating_add(1);
        self.grant(node, self.depots)
    }

    #[tactic(auto, unfolding(crate::specs::Books::target_by_address))]
    fn by_short(&self, address: u16) -> Target
        ensures { result ≡ target_by_address address self.now }
    {
        if address == TO_ALL {
            return Target::All;
        }
        match self.by_address.get(&address) {
            Some(node) => Target::Node(*node),
            None => Target::Nobody,
        }
    }

    #[tactic(auto, unfolding(crate::specs::Books::target_by_eui))]
    fn by_eui(&self, to: &Eui) -> Target
        ensures { result ≡ target_by_eui to.now self.now }
    {
        let number = u64::from_be_bytes(to.0);
        if number < FIRST_EUI {
            return Target::Nobody;
        }
        let node = number - FIRST_EUI;
        if node < u64::from(self.nodes) {
            return Target::Node(node as u32);
        }
        Target::Nobody
    }

    // A frame, from its header and its length.
    fn outline_of(&self, head: &MacHead, octets: usize) -> Outline
        ensures { result ≡ outline_by head.now octets self.now }
    {
        match head {
            MacHead::Sealed { to, .. } => {
                let to = to.number();
                outlined(octets, self.by_short(to), kind_of(to, octets))
            }
            MacHead::Up { to, .. } => {
                outlined(octets, self.by_short(to.number()), FrameKind::Plain)
            }
            MacHead::Down { to, .. } => outlined(octets, self.by_eui(to), FrameKind::Plain),
        }
    }

    /// Who a frame is for, and what it is.
    #[tactic(auto, unfolding(crate::specs::Books::outline_of))]
    pub fn outline(&self, octets: &[u8]) -> Outline
        ensures { result ≡ outline_of octets.now self.now }
    {
        match read_frame(octets) {
            Ok(raw) => self.outline_of(&raw.head, octets.len()),
            Err(_) => outlined(octets.len(), Target::Nobody, FrameKind::Plain),
        }
    }
}

// What a sealed frame is: a route reply has 30 octets, a route error 26, and no other frame to one node so few.
#[tactic(auto, unfolding(crate::specs::Books::kind_of))]
fn kind_of(to: u16, octets: usize) -> FrameKind
    ensures { result ≡ kind_of to octets }
{
    if to == TO_ALL {
        return FrameKind::Request;
    }
    match octets {
        30 => FrameKind::Reply,
        26 => FrameKind::Error,
        _ => FrameKind::Data,
    }
}
