//! What a script says beside its events, and when its events were.
ghost use Rattle.std.specs.Prelude.{◌≡◌, OnOk, []};
ghost use Rattle.line_readings.specs.Spares.{spare_in, with_spare};

use crate::remark::{Said, name_in, read_remark, remark_time};
use crate::run::numbered;
use crate::spare::push_spare;
use line_events::Event;
use std::alloc::{AllocError, Global};
use std::collections::BTreeMap;
use text_signs::shown;

/// A remark of a script that readings go by.
#[derive(Clone, Copy)]
pub struct Note {
    /// How many events were before it.
    pub event: usize,
    /// Its time, in thousandths of a second.
    pub at: u64,
    /// What it says.
    pub said: Said,
}

/// How a user calls a node.
#[derive(Drop)]
pub struct Name {
    /// The node, from 0.
    pub node: u32,
    /// Its name.
    pub name: String,
}

/// The remarks of a script, the time of each event, and, for scripts without remarks, which sends are tries of one reading.
#[derive(Drop)]
pub struct Journal {
    /// The remarks that readings go by, in their order.
    pub notes: Vec<Note>,
    /// The nodes that are nobody's meter, as remarks say.
    pub spares: Vec<u32>,
    /// The names of nodes, without control characters. Of several of one node the last counts.
    pub names: Vec<Name>,
    /// When each event was, by its number from 1, in thousandths of a second: the clock after it, or the time of the last remark before it where that is
    /// later.
    pub times: Vec<u64>,
    /// The sends of meters to the coordinator before the first remark `try`, as tries: the same octets of the same meter again are another try of the
    /// same reading.
    pub sends: Vec<Note>,
    /// When the script ends, so far.
    pub clock: u64,
    // Whether a remark says that a reading was tried: then sends are none by themselves.
    has_tries: bool,
    // The readings that meters sent, as octets, with how often they were tried; and the number of the last one of each meter, from 1.
    said: Vec<Datagram>,
    lasts: BTreeMap<u32, usize>,
}

// A datagram that a meter sent to the coordinator: its place among those of this meter, from 1, how often it was sent, and the number of the one that the
// meter sent before it, 0 where it is the first.
#[derive(Drop)]
struct Datagram {
    node: u32,
    round: u32,
    tries: u32,
    before: usize,
    octets: Vec<u8>,
}

/// When the event of a number was, by the times of all; 0 if there is none.
pub fn time_of(times: &[u64], event: usize) -> u64 {
    if event == 0 {
        return 0;
    }
    match times.get(event - 1) {
        Some(time) => *time,
        None => 0,
    }
}

// The number of the datagram with these octets among one and those that its meter sent before it, 0 where there is none.
fn said_before(said: &[Datagram], last: usize, octets: &[u8]) -> usize {
    let mut number = last;
    for _ in 0..said.len() {
        let Some(it) = numbered(said, number) else {
            return 0;
        };
        if it.octets.as_slice() == octets {
            return number;
        }
        number = it.before;
    }
    0
}

// One more try of the datagram of a number, if there is one.
fn said_again(said: &mut [Datagram], number: usize) -> Option<Said> {
    if number == 0 || number > said.len() {
        return None;
    }
    let place = number - 1;
    said[place].tries = said[place].tries.saturating_add(1);
    Some(Said::Try {
        node: said[place].node,
        round: said[place].round,
        nth: said[place].tries,
    })
}

// The round of the datagram of a number, 0 where there is none.
fn round_of(said: &[Datagram], number: usize) -> u32 {
    match numbered(said, number) {
        Some(it) => it.round,
        None => 0,
    }
}

fn is_try(said: Said) -> bool {
    match said {
        Said::Try { .. } => true,
        _ => false,
    }
}

impl Journal {
    /// Of no line. It takes no memory.
    pub fn new(alloc: Global) -> Journal
        ensures { result.spares.items ≡ [] }
    {
        Journal {
            notes: Vec::new(alloc),
            spares: Vec::new(alloc),
            names: Vec::new(alloc),
            times: Vec::new(alloc),
            sends: Vec::new(alloc),
            clock: 0,
            has_tries: false,
            said: Vec::new(alloc),
            lasts: BTreeMap::new(alloc),
        }
    }

    // Takes what a remark says, after its sign.
    fn take_remark(&mut self, alloc: Global, text: &str) -> Result<(), AllocError>
        ensures { OnOk result (self.new.spares ≡ self.old.spares) }
    {
        if let Some((node, name)) = name_in(text) {
            let name = shown(alloc, name.as_bytes())?;
            self.names.push(Name { node, name })?;
        }
        if let Some(at) = remark_time(text) {
            self.clock = self.clock.max(at);
        }
        if let Some(remark) = read_remark(text) {
            self.has_tries = self.has_tries || is_try(remark.said);
            self.notes.push(Note {
                event: self.times.len(),
                at: remark.at,
                said: remark.said,
            })?;
        }
        Ok(())
    }

    /// Takes a line without an event. What is no UTF-8 in it is U+FFFD.
    ///
    /// It fails only where memory runs out; what is left then is not said.
    pub fn take_line(&mut self, alloc: Global, line: &[u8]) -> Result<(), AllocError>
        ensures { OnOk result (self.new.spares.items ≡ with_spare (spare_in line.now) self.old.spares.items) }
    {
        push_spare(&mut self.spares, line)?;
        let Some(octets) = line.strip_prefix(b"#@ ") else {
            return Ok(());
        };
        let text = String::from_utf8_lossy(alloc, octets)?;
        self.take_remark(alloc, text.as_str())
    }

    // The number of the last datagram that a meter sent, 0 where it sent none.
    fn last_of(&self, node: u32) -> usize {
        match self.lasts.get(&node) {
            Some(number) => *number,
            None => 0,
        }
    }

    // Takes a send of a meter to the coordinator.
    fn take_send(&mut self, alloc: Global, node: u32, octets: &[u8]) -> Result<(), AllocError>
        ensures { OnOk result (self.new.spares ≡ self.old.spares) }
    {
        let last = self.last_of(node);
        let number = said_before(self.said.as_slice(), last, octets);
        let said = match said_again(self.said.as_mut_slice(), number) {
            Some(said) => said,
            None => self.push_datagram(alloc, node, octets)?,
        };
        self.sends.push(Note {
            event: self.times.len(),
            at: self.clock,
            said,
        })?;
        Ok(())
    }

    // Adds a datagram that a meter had not sent before.
    fn push_datagram(&mut self, alloc: Global, node: u32, octets: &[u8]) -> Result<Said, AllocError>
        ensures { self.new.spares ≡ self.old.spares }
    {
        let before = self.last_of(node);
        let round = round_of(self.said.as_slice(), before).saturating_add(1);
        let octets = Vec::from_slice(alloc, octets)?;
        self.said.push(Datagram {
            node,
            round,
            tries: 1,
            before,
            octets,
        })?;
        let number = self.said.len();
        self.lasts.insert(node, number)?;
        Ok(Said::Try {
            node,
            round,
            nth: 1,
        })
    }

    /// Takes an event, with the clock after it, in seconds.
    ///
    /// It fails only where memory runs out; what is left then is not said.
    pub fn take_event(
        &mut self,
        alloc: Global,
        event: &Event<'_>,
        clock: u64,
    ) -> Result<(), AllocError>
        ensures { OnOk result (self.new.spares ≡ self.old.spares) }
    {
        self.clock = self.clock.max(clock.saturating_mul(1000));
        self.times.push(self.clock)?;
        match event {
            Event::Send { from, to, datagram } => {
                self.take_datagram(alloc, *from, *to, datagram.octets())
            }
            _ => Ok(()),
        }
    }

    fn take_datagram(
        &mut self,
        alloc: Global,
        from: u32,
        to: u32,
        octets: &[u8],
    ) -> Result<(), AllocError>
        ensures { OnOk result (self.new.spares ≡ self.old.spares) }
    {
        if from == 0 || to != 0 || self.has_tries {
            return Ok(());
        }
        self.take_send(alloc, from, octets)
    }

    /// The remarks or sends that are tries of readings, among others: those that remarks name, and where none does, what meters sent to the coordinator.
    pub fn tries(&self) -> &[Note] {
        if self.has_tries {
            return self.notes.as_slice();
        }
        self.sends.as_slice()
    }

    /// The name of a node, if it has one.
    pub fn name(&self, node: u32) -> Option<&str> {
        for it in self.names.iter().rev() {
            if it.node == node {
                return Some(it.name.as_str());
            }
        }
        None
    }
}
