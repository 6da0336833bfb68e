//! Frames of discovery, and meters that scan and choose an agent.
ghost use Rattle.std.specs.Prelude.{◌≡◌, ◌<◌, ◌≤◌, ◌∷◌, [], ℕ, true, length, Ok, Some, None, IfSome, IsSome, slice_get};
ghost use Rattle.node_rules.specs.CarriedPlans.{nothing};
ghost use Rattle.node_rules.specs.Ciphers.{network};
ghost use Rattle.pan_discovery.specs.Messages.{discovery_spelling};
ghost use Rattle.reach_rules.specs.Beacons as beacons;
ghost use Rattle.line_events.specs.declared.event.TheConstants.{MAX_EVENTS};
ghost use Rattle.line_rules.specs.Answers as words;
ghost use Rattle.line_rules.specs.Further as further;
ghost use Rattle.line_rules.specs.Steps as rules;
ghost use Rattle.line_world.specs.Bounds.{IsBounded};
ghost use Rattle.line_world.specs.Discovery.{HearsBeacon, TakesBeacon, discovered_in, discovers_in, flies_in, joins_in};
ghost use Rattle.line_world.specs.Lines.{HasRoom, world_of};
ghost use Rattle.line_world.specs.Steps.{Steps};

use crate::line::Line;
use line_events::{AgentLine, Answer, Happenings, StepFault};
use node_rules::JoinRefusal;
use pan_discovery::{Discovery, write_discovery};
use plc_base::{LinkCost, Out, PAN, Short};

/// Whether octets are heard as discovery: a beacon's type or a MAC command's stands in the lowest three bits (IEEE 802.15.4-2006,
/// 7.2.1.1.1).
pub(crate) fn is_discovery(octets: &[u8]) -> bool
    ensures { result ≡ beacons.is_discovery octets.now }
{
    if octets.is_empty() {
        return false;
    }
    let frame_type = octets[0] % 8;
    frame_type == 0 || frame_type == 3
}

// A frame of discovery goes out, and nothing beside it.
fn give_out(frame: &Discovery, out: &mut Out)
    ensures { out.new ≡ record nothing { frames = record { octets = discovery_spelling frame.now; note = 0; key = None } ∷ [] } }
{
    out.clear();
    let Some(blank) = out.frames.push_blank() else {
        unreachable!()
    };
    write_discovery(frame, &mut blank.octets);
}

// The word of a meter that began to join by an agent.
fn choice_word(asked: Result<(), JoinRefusal>) -> Answer
    ensures { result ≡ words.join_word asked }
{
    match asked {
        Ok(()) => Answer::Asked,
        Err(JoinRefusal::Halted) => Answer::Halted,
        Err(JoinRefusal::AlreadyJoined) => Answer::AlreadyJoined,
    }
}

// The agent by which a meter began to join, for the report.
fn agent_of(
    node: usize,
    address: Short,
    total: u32,
    asked: &Result<(), JoinRefusal>,
) -> Option<AgentLine>
    requires node { node < 1000 }
    ensures { result ≡ further.agent_line node (beacons.chosen (record { address = address; total = total }) asked.now) }
{
    match asked {
        Ok(()) => Some(AgentLine {
            node: node as u16,
            address,
            total,
        }),
        Err(JoinRefusal::Halted) => None,
        Err(JoinRefusal::AlreadyJoined) => None,
    }
}

impl Line {
    // A frame of discovery of this node flies.
    fn discovery_flies(
        &mut self,
        node: usize,
        frame: &Discovery,
        answer: Answer,
    ) -> Happenings<'static>
        requires room { HasRoom self.old }
        requires bounds { IsBounded (world_of self.old) }
        requires events { self.old.events < MAX_EVENTS }
        requires there { node < length self.old.nodes }
        ensures world { world_of self.new ≡ flies_in (world_of self.old) node (Some frame.now) }
        ensures reported { result ≡ record (rules.happenings (world_of self.old) answer) { flights = 1 } }
    {
        give_out(frame, &mut self.out);
        self.node_outcome(node, answer)
    }

    // A request is answered by a node that has an address.
    fn hear_request(&mut self, node: usize) -> Happenings<'static>
        requires room { HasRoom self.old }
        requires bounds { IsBounded (world_of self.old) }
        requires events { self.old.events < MAX_EVENTS }
        requires there { node < length self.old.nodes }
        requires running { IfSome (slice_get self.old.nodes node) (λ x. IsSome x.memory) }
        ensures { IfSome (slice_get self.old.nodes node) (λ x. IfSome x.memory (λ m. (seq : ℕ)
            → Steps true (world_of self.old) (Ok result) (world_of self.new)
            (Ok (discovers_in (world_of self.old) node x.role m.station (Some (Discovery.Request seq)) 0)))) }
    {
        let Some(own) = self.nodes.address(node) else {
            return self.answered(Answer::NotForMe);
        };
        let Some(cost) = self.nodes.cost_to_coordinator(node) else {
            return self.answered(Answer::NoRoute);
        };
        let beacon = Discovery::Beacon {
            seq: 0,
            pan: PAN,
            from: own,
            cost,
        };
        self.discovery_flies(node, &beacon, Answer::Beacon)
    }

    // A node that has no address takes a beacon into its scan.
    fn take_beacon(&mut self, node: usize, from: Short, cost: u16, link: LinkCost) -> Answer
        requires there { node < length self.old.beside.items }
        ensures { IfSome (slice_get self.old.beside.items node) (λ b. TakesBeacon (world_of self.old) node b from cost link result
            (world_of self.new)) }
    {
        if self.beside[node].scan.take(from, cost, link).is_err() {
            return Answer::NotScanning;
        }
        Answer::Beaconed
    }

    // A beacon is heard over a link of this cost.
    fn hear_beacon(
        &mut self,
        node: usize,
        pan: u16,
        from: Short,
        cost: u16,
        link: LinkCost,
    ) -> Answer
        requires bounds { IsBounded (world_of self.old) }
        requires beside { length self.old.beside.items ≡ length self.old.nodes }
        requires there { node < length self.old.nodes }
        ensures { IfSome (slice_get self.old.nodes node) (λ x. IfSome x.memory (λ m.
            HearsBeacon (world_of self.old) node m.station pan from cost link result (world_of self.new))) }
    {
        if pan != PAN {
            return Answer::NotForMe;
        }
        match self.nodes.address(node) {
            Some(own) => {
                if own.number() == from.number() {
                    return Answer::NotForMe;
                }
                Answer::NotScanning
            }
            None => self.take_beacon(node, from, cost, link),
        }
    }

    // A node that is not halted hears a frame of discovery over a link of this cost.
    fn hear_frame(&mut self, node: usize, frame: &Discovery, link: LinkCost) -> Happenings<'static>
        requires room { HasRoom self.old }
        requires bounds { IsBounded (world_of self.old) }
        requires beside { length self.old.beside.items ≡ length self.old.nodes }
        requires events { self.old.events < MAX_EVENTS }
        requires there { node < length self.old.nodes }
        requires running { IfSome (slice_get self.old.nodes node) (λ x. IsSome x.memory) }
        ensures { IfSome (slice_get self.old.nodes node) (λ x. IfSome x.memory (λ m. Steps true (world_of self.old) (Ok result)
            (world_of self.new) (Ok (discovers_in (world_of self.old) node x.role m.station (Some frame.now) link)))) }
    {
        match frame {
            Discovery::Request { .. } => self.hear_request(node),
            Discovery::Beacon {
                pan,
                from,
                cost,
                ..
            } => {
                let answer = self.hear_beacon(node, *pan, *from, *cost, link);
                self.answered(answer)
            }
        }
    }

    /// Octets of discovery, read as this frame, come to a node over a link of this cost.
    pub(crate) fn discovered(
        &mut self,
        node: usize,
        frame: Option<Discovery>,
        link: LinkCost,
    ) -> Happenings<'static>
        requires room { HasRoom self.old }
        requires bounds { IsBounded (world_of self.old) }
        requires beside { length self.old.beside.items ≡ length self.old.nodes }
        requires events { self.old.events < MAX_EVENTS }
        requires there { node < length self.old.nodes }
        ensures { IfSome (slice_get self.old.nodes node) (λ x. Steps true (world_of self.old) (Ok result) (world_of self.new)
            (Ok (discovered_in (world_of self.old) node x frame link))) }
    {
        if self.nodes.halted(node) {
            return self.answered(Answer::Halted);
        }
        match frame {
            None => self.answered(Answer::Malformed),
            Some(frame) => self.hear_frame(node, &frame, link),
        }
    }

    /// A meter begins to scan, and asks for beacons.
    pub(crate) fn scan(&mut self, node: u32) -> Result<Happenings<'static>, StepFault>
        requires bounds { IsBounded (world_of self.old) }
        requires beside { length self.old.beside.items ≡ length self.old.nodes }
        requires events { self.old.events < MAX_EVENTS }
        ensures { Steps true (world_of self.old) result (world_of self.new) (further.scan (world_of self.old) node) }
    {
        let number = self.meter_number(node)?;
        self.reserve()?;
        if self.nodes.halted(number) {
            return Ok(self.answered(Answer::Halted));
        }
        if self.nodes.address(number).is_some() {
            return Ok(self.answered(Answer::AlreadyJoined));
        }
        self.beside[number].scan.begin();
        let request = Discovery::Request { seq: 0 };
        Ok(self.discovery_flies(number, &request, Answer::Scanning))
    }

    // A meter joins by this agent.
    fn join_by(&mut self, node: usize, address: Short, total: u32) -> Happenings<'static>
        requires room { HasRoom self.old }
        requires bounds { IsBounded (world_of self.old) }
        requires events { self.old.events < MAX_EVENTS }
        requires there { node < length self.old.nodes }
        requires meter { 1 ≤ node }
        ensures { IfSome (slice_get self.old.nodes node) (λ x. IfSome (rules.psk_of x) (λ psk. Steps true (world_of self.old) (Ok result)
            (world_of self.new) (Ok (joins_in (world_of self.old) node x psk address total)))) }
    {
        let asked = self.nodes.join(node, address, self.clock, &mut self.out);
        let agent = agent_of(node, address, total, &asked);
        let mut happenings = self.node_outcome(node, choice_word(asked));
        happenings.agent = agent;
        happenings
    }

    /// A meter begins to join by the k-th agent that it heard.
    pub(crate) fn choose(&mut self, node: u32, k: u8) -> Result<Happenings<'static>, StepFault>
        requires bounds { IsBounded (world_of self.old) }
        requires beside { length self.old.beside.items ≡ length self.old.nodes }
        requires events { self.old.events < MAX_EVENTS }
        requires first { 1 ≤ k }
        requires last { k ≤ 16 }
        ensures { Steps true (world_of self.old) result (world_of self.new) (further.choose network (world_of self.old) node k) }
    {
        let number = self.meter_number(node)?;
        self.reserve()?;
        // Only a meter has a pair key, and can choose.
        let _psk = self.nodes.psk(number);
        self.nodes.short_tables();
        if self.nodes.halted(number) {
            return Ok(self.answered(Answer::Halted));
        }
        if self.nodes.address(number).is_some() {
            return Ok(self.answered(Answer::AlreadyJoined));
        }
        let Some(agent) = self.beside[number].scan.kth(k) else {
            return Ok(self.answered(Answer::NoBeacon));
        };
        Ok(self.join_by(number, agent.0, agent.1))
    }
}
