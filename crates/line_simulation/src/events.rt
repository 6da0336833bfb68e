//! What the owner does.
ghost use Rattle.std.specs.Prelude.{◌≡◌, ◌<◌, ◌∷◌, [], IfOk, OnOk};
ghost use Rattle.line_air.specs.Ends.{with_node};
ghost use Rattle.line_air.specs.Nodes.{without_power};
ghost use Rattle.line_events.specs.declared.event.Event.TheVariants as events;
ghost use Rattle.line_owner.specs.Messages.{message_octets};
ghost use Rattle.line_simulation.specs.OwnerActs.{job_put, reading_octets, index_of, event_of, told, before_command, air_after, book_after};
ghost use Rattle.line_simulation.specs.OwnerActs.{after_command};
ghost use Rattle.line_simulation.specs.OwnerActs.{brought_by, command_stepped, commanded, poll_tried, task_put, queue_length, darkened, acted, told_by};
ghost use Rattle.line_simulation.specs.Books.{eui_of};
ghost use Rattle.line_simulation.specs.Effects.{with_air};
ghost use Rattle.line_simulation.specs.Runs.{Ends};
ghost use Rattle.line_simulation.specs.Simulations.{state_of};
ghost use Rattle.line_simulation.specs.Steps.{stepped, remarked};
ghost use Rattle.line_simulation.specs.declared.remarks.Remark.TheVariants as remarks;

use crate::facts::Facts;
use crate::recording::Recording;
use crate::remarks::Remark;
use crate::simulation::Simulation;
use crate::work::{Job, PendingWork, Stop};
use line_air::Moment;
use line_events::Event;
use line_owner::{Act, Command, Kind, Message, Outcome, Saying, Task};
use plc_base::{Eui, Key, KeyIndex, OctetRef, RandomOctets};
use std::alloc::AllocError;

impl<R: Recording> Simulation<R> {
    /// A job is due at a time.
    #[tactic(auto, unfolding(crate::specs::OwnerActs::job_put, crate::specs::Simulations::state_of))]
    pub fn put(&mut self, at: u64, job: Job) -> Result<(), Stop>
        ensures { Ends result (job_put at job (state_of self.old)) (state_of self.new) }
    {
        let number = self.jobs.len();
        if number >= 0xffff_ffff {
            return Err(Stop::Limit);
        }
        self.jobs.push(job)?;
        self.calendar.put(at, Moment::Task(number as u32))?;
        Ok(())
    }

    /// An act of the owner's.
    #[tactic(auto, unfolding(crate::specs::OwnerActs::acted))]
    pub fn act(&mut self, act: Act) -> Result<(), Stop>
        ensures { Ends result (acted R.recorder act (state_of self.old)) (state_of self.new) }
    {
        match act {
            Act::Step(command) => self.command(command),
            Act::Put(at, task) => self.put_task(at, task),
            Act::Do(task) => {
                self.push(PendingWork::Task(task))?;
                Ok(())
            }
            Act::Say(saying) => self.say(saying),
            Act::Dark(node, seconds) => self.darken(node, seconds),
        }
    }

    // A meter that will try to join is counted.
    #[tactic(auto, unfolding(crate::specs::Simulations::state_of))]
    fn count_join(&mut self, at: u64, task: Task) -> Result<(), AllocError>
        ensures { OnOk result (state_of self.new ≡ state_of self.old) }
    {
        match task {
            Task::TryJoin(node) => self.figures.joinings.begins(node, at),
            _ => Ok(()),
        }
    }

    // A meter that is asked again is remarked.
    fn note_poll(&mut self, task: Task) -> Result<(), Stop>
        ensures { Ends result (poll_tried R.recorder task (state_of self.old)) (state_of self.new) }
    {
        match task {
            Task::Poll(node, round) => self.note_try(node, round),
            _ => Ok(()),
        }
    }

    #[tactic(auto, unfolding(crate::specs::OwnerActs::task_put))]
    fn put_task(&mut self, at: u64, task: Task) -> Result<(), Stop>
        ensures { Ends result (task_put R.recorder at task (state_of self.old)) (state_of self.new) }
    {
        self.count_join(at, task)?;
        self.note_poll(task)?;
        self.put(at, Job::Task(task))
    }

    #[tactic(auto, unfolding(crate::specs::Simulations::state_of))]
    fn count_saying(&mut self, saying: &Saying)
        ensures { state_of self.new ≡ state_of self.old }
    {
        if let Saying::Unreached(_, _) = saying {
            self.figures.changes.unreached();
        }
    }

    fn say(&mut self, saying: Saying) -> Result<(), Stop>
        ensures { Ends result (remarked R.recorder (remarks.Said saying) (state_of self.old)) (state_of self.new) }
    {
        self.count_saying(&saying);
        self.remark(&Remark::Said(saying))
    }

    // A node loses power. Answers how many frames are gone.
    #[tactic(auto, unfolding(crate::specs::Simulations::state_of))]
    fn fail(&mut self, node: u32) -> u64
        ensures value { result ≡ queue_length node (state_of self.old).sky.air }
        ensures state { state_of self.new ≡ with_air (with_node node without_power (state_of self.old).sky.air) (state_of self.old) }
    {
        self.air.fail(node) as u64
    }

    #[tactic(auto, unfolding(crate::specs::OwnerActs::darkened))]
    fn darken(&mut self, node: u32, seconds: u64) -> Result<(), Stop>
        ensures { Ends result (darkened R.recorder node seconds (state_of self.old)) (state_of self.new) }
    {
        let frames = self.fail(node);
        self.remark(&Remark::Power {
            node,
            seconds,
            frames,
        })
    }

    // A command is stepped, what it brings is taken up, and then the owner goes on.
    #[tactic(auto, unfolding(crate::specs::OwnerActs::commanded))]
    fn command(&mut self, command: Command) -> Result<(), Stop>
        ensures { Ends result (commanded R.recorder command (state_of self.old)) (state_of self.new) }
    {
        self.before(&command);
        self.count_command(&command);
        match self.step_command(&command)? {
            None => self.push(PendingWork::Answered(command, Outcome::Refused))?,
            Some(facts) => self.bring(command, facts)?,
        }
        Ok(())
    }

    // What a command brought is taken up, and then the owner goes on.
    fn bring(&mut self, command: Command, facts: Facts) -> Result<(), AllocError>
        ensures { OnOk result (state_of self.new ≡ brought_by command facts (state_of self.old)) }
    {
        let outcome = facts.outcome();
        self.push(PendingWork::Answered(command, outcome))?;
        self.push(PendingWork::Facts(facts, 0))?;
        match outcome {
            Outcome::Taken => self.after(&command),
            Outcome::Refused => Ok(()),
            Outcome::StoreFailed => Ok(()),
        }
    }

    // What is so before a command.
    #[tactic(auto, unfolding(crate::specs::Simulations::state_of))]
    fn before(&mut self, command: &Command)
        ensures { state_of self.new ≡ before_command command.now (state_of self.old) }
    {
        match command {
            Command::Restart(node) => self.air.restore(*node),
            _ => {}
        }
    }

    // A command that is to be stepped is counted.
    #[tactic(auto, unfolding(crate::specs::Simulations::state_of))]
    fn count_command(&mut self, command: &Command)
        ensures { state_of self.new ≡ state_of self.old }
    {
        match command {
            Command::Restart(_) => self.figures.restarted(),
            Command::Join(_, _) => self.figures.joinings.tried(),
            Command::Challenge(_) => self.figures.changes.challenged(),
            Command::Order(_, _) => self.figures.changes.ordered(),
            Command::Activate(node, _) if *node != 0 => self.figures.changes.ordered(),
            _ => {}
        }
    }

    // What is so after a command that was carried out.
    fn after(&mut self, command: &Command) -> Result<(), AllocError>
        ensures { OnOk result (state_of self.new ≡ after_command command.now (state_of self.old)) }
    {
        self.air_after(command);
        self.book_after(command)?;
        self.count_taken(command)
    }

    #[tactic(auto, unfolding(crate::specs::Simulations::state_of))]
    fn air_after(&mut self, command: &Command)
        ensures { state_of self.new ≡ with_air (air_after command.now (state_of self.old).sky.air) (state_of self.old) }
    {
        match command {
            Command::Coordinator(_) => self.air.set_joined(0, true),
            Command::Depot(node) => self.air.set_joined(*node, true),
            Command::Leave(node) => self.air.set_joined(*node, false),
            _ => {}
        }
    }

    #[tactic(auto, unfolding(crate::specs::Simulations::state_of))]
    fn book_after(&mut self, command: &Command) -> Result<(), AllocError>
        ensures { OnOk result (state_of self.new ≡ record (state_of self.old) { book = book_after command.now (state_of self.old).book }) }
    {
        match command {
            Command::Depot(node) => self.book.join(*node),
            _ => Ok(()),
        }
    }

    // A command that was carried out is counted.
    #[tactic(auto, unfolding(crate::specs::Simulations::state_of))]
    fn count_taken(&mut self, command: &Command) -> Result<(), AllocError>
        ensures { OnOk result (state_of self.new ≡ state_of self.old) }
    {
        match command {
            Command::Depot(node) if *node < self.book.nodes() => {
                self.figures.joinings.has_joined(*node)
            }
            Command::Leave(node) => {
                self.figures.joinings.left(*node);
                self.figures.joinings.begins(*node, self.time)
            }
            Command::Rekey(index, _) => self.figures.changes.begins(*index, self.time),
            Command::Activate(node, _) if *node == 0 => {
                self.figures.changes.ends(self.time);
                Ok(())
            }
            _ => Ok(()),
        }
    }

    // The event of a command.
    #[tactic(auto, unfolding(crate::specs::OwnerActs::command_stepped, crate::specs::OwnerActs::event_of))]
    fn step_command(&mut self, command: &Command) -> Result<Option<Facts>, Stop>
        ensures { Ends result (command_stepped R.recorder command.now (state_of self.old)) (state_of self.new) }
    {
        match command {
            Command::Coordinator(key) => self.make_coordinator(*key),
            Command::Meter(node, key) => self.make_meter(*node, *key),
            Command::Depot(node) => self.step("depot", &Event::Depot { node: *node }),
            Command::Allow(node) => self.step("allow", &Event::Allow { node: *node }),
            Command::RandomOctets(node, _, value) => {
                let value = RandomOctets(*value);
                self.step("rand", &Event::RandomOctets { node: *node, value })
            }
            Command::Join(node, agent) => self.step(
                "join",
                &Event::Join {
                    node: *node,
                    agent: *agent,
                },
            ),
            Command::Leave(node) => self.step("leave", &Event::Leave { node: *node }),
            Command::Tell(message) => self.tell(message),
            Command::Seek => self.seek(),
            Command::Rekey(index, key) => self.rekey(*index, *key),
            Command::Challenge(node) => self.step("challenge", &Event::Challenge { node: *node }),
            Command::Activate(node, index) => self.activate(*node, *index),
            Command::Order(node, index) => self.activate(*node, *index),
            Command::Restart(node) => self.step("restart", &Event::Restart { node: *node }),
        }
    }

    #[tactic(auto, unfolding(crate::specs::Simulations::state_of))]
    pub fn eui(&self, node: u32) -> Eui
        ensures { result ≡ eui_of node (state_of self.now).book }
    {
        self.book.eui(node)
    }

    fn make_coordinator(&mut self, key: [u8; 16]) -> Result<Option<Facts>, Stop>
        ensures { Ends result (stepped R.recorder (events.Coordinator (eui_of 0 (state_of self.old).book) (record { 0 = key })) (state_of self.old))
            (state_of self.new) }
    {
        let eui = self.eui(0);
        self.step("coordinator", &Event::Coordinator { eui, key: Key(key) })
    }

    fn make_meter(&mut self, node: u32, key: [u8; 16]) -> Result<Option<Facts>, Stop>
        ensures { Ends result (stepped R.recorder (events.Meter (eui_of node (state_of self.old).book) (record { 0 = key })) (state_of self.old))
            (state_of self.new) }
    {
        let eui = self.eui(node);
        self.step("meter", &Event::Meter { eui, psk: Key(key) })
    }

    fn rekey(&mut self, index: u8, key: [u8; 16]) -> Result<Option<Facts>, Stop>
        ensures { Ends result (stepped R.recorder (events.Rekey (index_of index) (record { 0 = key })) (state_of self.old)) (state_of self.new) }
    {
        let index = index_of(index);
        self.step(
            "rekey",
            &Event::Rekey {
                index,
                key: Key(key),
            },
        )
    }

    fn activate(&mut self, node: u32, index: u8) -> Result<Option<Facts>, Stop>
        ensures { Ends result (stepped R.recorder (events.Activate node (index_of index)) (state_of self.old)) (state_of self.new) }
    {
        let index = index_of(index);
        self.step("activate", &Event::Activate { node, index })
    }

    fn send(&mut self, from: u32, to: u32, octets: &[u8]) -> Result<Option<Facts>, Stop>
        ensures { Ends result (stepped R.recorder (events.Send from to octets.now) (state_of self.old)) (state_of self.new) }
    {
        let datagram = OctetRef::new(octets);
        self.step("send", &Event::Send { from, to, datagram })
    }

    // How many octets a reading has, at most 2,048.
    #[tactic(auto, unfolding(crate::specs::Simulations::state_of))]
    fn reading_octets(&self) -> usize
        ensures { result ≡ reading_octets (state_of self.now) }
    {
        self.plan.owner.readings.octets.min(2_048) as usize
    }

    // The octets of a message.
    fn message_octets(&self, message: &Message) -> Result<Vec<u8>, AllocError>
        ensures { IfOk result (λ octets. octets.items ≡ message_octets (reading_octets (state_of self.now)) message.now) }
    {
        let mut octets = Vec::new(self.alloc);
        message.write(self.reading_octets(), &mut octets)?;
        Ok(octets)
    }

    // A message goes from a meter to the coordinator, or the other way.
    fn send_message(&mut self, message: &Message, octets: &[u8]) -> Result<Option<Facts>, Stop>
        ensures { Ends result (stepped R.recorder (told_by message.now.kind message.now.node octets.now) (state_of self.old)) (state_of self.new) }
    {
        match message.kind {
            Kind::Reading => self.send(message.node, 0, octets),
            Kind::Reply => self.send(message.node, 0, octets),
            Kind::Ask => self.send(0, message.node, octets),
            Kind::Receipt => self.send(0, message.node, octets),
        }
    }

    fn tell(&mut self, message: &Message) -> Result<Option<Facts>, Stop>
        ensures { Ends result (stepped R.recorder (told (reading_octets (state_of self.old)) message.now) (state_of self.old)) (state_of self.new) }
    {
        let octets = self.message_octets(message)?;
        self.send_message(message, octets.as_slice())
    }

    #[tactic(auto, unfolding(crate::specs::Simulations::state_of))]
    pub fn spare(&self) -> u32
        ensures { result ≡ (state_of self.now).book.nodes }
    {
        self.book.nodes()
    }

    // The coordinator sends to the spare meter.
    fn seek(&mut self) -> Result<Option<Facts>, Stop>
        ensures { Ends result (stepped R.recorder (events.Send 0 (state_of self.old).book.nodes (0 ∷ [])) (state_of self.old)) (state_of self.new) }
    {
        let spare = self.spare();
        self.send(0, spare, &[0])
    }
}

fn index_of(index: u8) -> KeyIndex
    ensures { result ≡ index_of index }
{
    match KeyIndex::new(index) {
        Some(index) => index,
        None => KeyIndex::second(),
    }
}
