//! Orders of the operator that go to a meter in a command, and the random values that joinings use.
ghost use Rattle.std.specs.Prelude.{◌≡◌, ◌≤◌, Err, Some, IfSome, IfNone, length};
ghost use Rattle.joining_messages.specs.declared.message.JoinMessage.{JoinMessage};
ghost use Rattle.joining_messages.specs.declared.message.JoinBody.TheVariants as body;
ghost use Rattle.node_rules.specs.JoiningPackets.{command_of, message};
ghost use Rattle.station_queues.specs.declared.bodies.TheConstants.{LONGEST_COMMAND};
ghost use Rattle.group_keys.specs.KeyBook as book;
ghost use Rattle.node_rules.specs.MemoryDrafts as words;
ghost use Rattle.node_rules.specs.Coordinators as rules;
ghost use Rattle.node_rules.specs.CarriedPlans.{Carries, nothing};
ghost use Rattle.coordinator.specs.CoordinatorStates.{node_of};
ghost use Rattle.coordinator.specs.CoordinatorAgreement.{CoordinatorReady, CoordinatorAgrees};
ghost use Rattle.coordinator.specs.OrderAnswers as order_answers;

use crate::coordinator::Coordinator;
use group_keys::BookEntry;
use joining_base::{CommandBuf, write_command};
use joining_messages::{JoinBody, JoinMessage};
use node_rules::{CoordinatorRefusal, RandomFault, SendRefusal, SentHow};
use plc_base::{Eui, Keeper, Key, KeyIndex, Out, RandomOctets, Short};

// What a command is refused for, as the refusal of an order.
pub(crate) fn order_refusal(reason: SendRefusal) -> CoordinatorRefusal
    ensures { result ≡ order_answers.order_refusal reason }
{
    match reason {
        SendRefusal::Halted => CoordinatorRefusal::Halted,
        SendRefusal::NotJoined => CoordinatorRefusal::Halted,
        SendRefusal::BadSize => CoordinatorRefusal::Store,
        SendRefusal::ToSelf => CoordinatorRefusal::Store,
        SendRefusal::WaitingFull => CoordinatorRefusal::WaitingFull,
        SendRefusal::SeqSpent => CoordinatorRefusal::SeqSpent,
        SendRefusal::CounterSpent => CoordinatorRefusal::CounterSpent,
        SendRefusal::Store => CoordinatorRefusal::Store,
    }
}

// What became of a command, as the answer of an order.
fn order_answer(sent: Result<SentHow, SendRefusal>) -> Result<(), CoordinatorRefusal>
    ensures { result ≡ order_answers.order_answer sent }
{
    match sent {
        Ok(_) => Ok(()),
        Err(reason) => Err(order_refusal(reason)),
    }
}

// The key that was issued at an index.
fn issued_at(entry: &BookEntry, index: KeyIndex) -> Option<Key>
    ensures { result ≡ book.issued_at entry.now index }
{
    if index.number() == 0 {
        return entry.issued0;
    }
    entry.issued1
}

// Writes the command Activate to a meter.
fn write_activation(eui: Eui, index: KeyIndex, command: &mut CommandBuf)
    ensures command { command.new ≡ command_of (message eui (body.Activate index)) }
    ensures some { 1 ≤ length command.new }
    ensures fits { length command.new ≤ LONGEST_COMMAND }
{
    let body = JoinBody::Activate { index };
    write_command(&JoinMessage { eui, body }, command);
}

impl<K: Keeper + Drop> Coordinator<K> {
    // Takes a random value in, after the others.
    fn take_random(&mut self, value: RandomOctets) -> Result<(), RandomFault>
        requires ready { CoordinatorReady (node_of self.old) }
        ensures carries { IfSome (node_of self.old).memory (λ m.
            Carries (node_of self.old) (words.give_random m value) result nothing (node_of self.new)) }
        ensures holds { CoordinatorAgrees (node_of self.new) }
    {
        self.randoms.give(value)
    }

    /// Takes a random value in. Halted, RandomsFull exactly where 8 are held, in this order; nothing has changed then.
    pub fn give_random(&mut self, value: RandomOctets) -> Result<(), RandomFault>
        requires holds { CoordinatorAgrees (node_of self.old) }
        ensures halted { IfNone (node_of self.old).memory ((result ≡ Err RandomFault.Halted) × (self.new ≡ self.old)) }
        ensures carries { IfSome (node_of self.old).memory (λ m.
            Carries (node_of self.old) (words.give_random m value) result nothing (node_of self.new)) }
        ensures holds { CoordinatorAgrees (node_of self.new) }
    {
        if self.halted() {
            return Err(RandomFault::Halted);
        }
        self.take_random(value)
    }

    // Sends a command to a meter, which carries a message.
    fn order(
        &mut self,
        to: Short,
        command: &CommandBuf,
        now: u64,
        out: &mut Out,
    ) -> Result<(), CoordinatorRefusal>
        requires ready { CoordinatorReady (node_of self.old) }
        requires some { 1 ≤ length command.now }
        requires fits { length command.now ≤ LONGEST_COMMAND }
        ensures carries { (join : JoinMessage) → command.now ≡ command_of join → IfSome (node_of self.old).memory (λ m.
            Carries (node_of self.old) (rules.activate_at m to join now) result out.new (node_of self.new)) }
        ensures holds { CoordinatorAgrees (node_of self.new) }
    {
        let sent = self.station.send_command(to, command.octets(), now, out);
        order_answer(sent)
    }

    // The address of a meter in the book.
    pub(crate) fn known_address(&self, eui: Eui) -> Option<Short>
        ensures { IfSome (node_of self.now).memory (λ m. result ≡ book.address_of m.book eui) }
    {
        self.book.address(eui)
    }

    // Whether the ring's key at an index is the one that was issued to a meter.
    fn was_issued(&self, entry: &BookEntry, index: KeyIndex) -> bool
        ensures { IfSome (node_of self.now).memory (λ m. result ≡ rules.was_issued m entry.now index) }
    {
        let Some(key) = self.station.ring().key(index) else {
            return false;
        };
        let Some(issued) = issued_at(entry, index) else {
            return false;
        };
        key == issued
    }

    /// Orders a meter, at a time in seconds, to seal with the key at an index: the command is in `out`, or waits for a route,
    /// and where nothing waited for that one yet, a request for it to all is in `out`.
    ///
    /// Halted, NotAllowed, NotIssued exactly where its ring has no key at the index or another one than was issued to the meter,
    /// WaitingFull, SeqSpent, CounterSpent, Store, in this order. After Store it is halted, after the others nothing has changed.
    pub fn activate(
        &mut self,
        eui: Eui,
        index: KeyIndex,
        now: u64,
        out: &mut Out,
    ) -> Result<(), CoordinatorRefusal>
        requires holds { CoordinatorAgrees (node_of self.old) }
        ensures halted { IfNone (node_of self.old).memory ((result ≡ Err CoordinatorRefusal.Halted)
            × (out.new ≡ nothing) × (self.new ≡ self.old)) }
        ensures carries { IfSome (node_of self.old).memory (λ m.
            Carries (node_of self.old) (rules.activate m eui index now) result out.new (node_of self.new)) }
        ensures holds { CoordinatorAgrees (node_of self.new) }
    {
        out.clear();
        if self.halted() {
            return Err(CoordinatorRefusal::Halted);
        }
        let Some(entry) = self.allowed_one(eui) else {
            return Err(CoordinatorRefusal::NotAllowed);
        };
        let Some(to) = self.known_address(eui) else {
            return Err(CoordinatorRefusal::NotAllowed);
        };
        if !self.was_issued(&entry, index) {
            return Err(CoordinatorRefusal::NotIssued);
        }
        let mut command = CommandBuf::new();
        write_activation(entry.eui, index, &mut command);
        self.order(to, &command, now, out)
    }
}
