//! What a station makes of a frame that it accepted.
ghost use Rattle.std.specs.Prelude.{◌≡◌, ◌==◌, ◌+◌, ◌<◌, ◌≤◌, Some, None, Ok, Err, IfSome, length};
ghost use Rattle.mesh_header.specs.Grammar.{IsAllowed, spelled_length};
ghost use Rattle.mesh_header.specs.Reader as units;
ghost use Rattle.loadng_messages.specs.Grammar as messages;
ghost use Rattle.node_rules.specs.HearingRules as hearing;
ghost use Rattle.node_rules.specs.CarriedPlans.{Carries};
ghost use Rattle.plc_station.specs.Hears.{Hears};
ghost use Rattle.node_rules.specs.Agreement.{Agrees};
ghost use Rattle.plc_station.specs.Ready.{Ready, ReadyToAnswer, ReadyToSend};
ghost use Rattle.loadng_messages.specs.Reader as reader;
ghost use Rattle.node_rules.specs.Replies.{reply_sent};
ghost use Rattle.plc_base.specs.declared.limits.TheConstants.{LONGEST_FRAME};

use crate::accepted::Accepted;
use crate::offers::LastHop;
use crate::station::Station;
use loadng_messages::{Message, read_message};
use mesh_header::{Unit, read_unit};
use node_rules::{Dropped, Heard, Path, Way};
use plc_base::{DatagramBuf, Grant, Keeper, LinkCost, OctetRef, Out};

// The unit that octets are, if they are one.
fn unit_in(octets: &[u8]) -> Option<Unit<'_>>
    requires { length octets.now ≤ LONGEST_FRAME }
    ensures unit { result ≡ units.unit_in octets.now }
    ensures allowed { IfSome result (λ unit. IsAllowed unit) }
    ensures long { IfSome result (λ unit. spelled_length unit ≡ length octets.now) }
{
    match read_unit(octets) {
        Ok(unit) => Some(unit),
        Err(_) => None,
    }
}

// The message that octets are, if they are one.
fn message_in(octets: &[u8]) -> Option<Message>
    ensures message { result ≡ reader.message_in octets.now }
    ensures allowed { IfSome result (λ m. messages.IsAllowed m) }
{
    match read_message(octets) {
        Ok(message) => Some(message),
        Err(_) => None,
    }
}

// The body of a joining command, if a unit is one.
fn joining_body<'a>(unit: &Unit<'a>) -> Option<OctetRef<'a>>
    ensures { result ≡ hearing.is_joining unit.now }
{
    match unit {
        Unit::Local { code, body } => {
            if *code == 2 {
                return Some(OctetRef::new(body.octets()));
            }
            None
        }
        Unit::Whole { .. } => None,
        Unit::Part { .. } => None,
        Unit::Carried { .. } => None,
    }
}

impl<K: Keeper + Drop> Station<K> {
    // Hears a route message: to all a request alone, to this node a reply or an error.
    fn hear_message(
        &mut self,
        grant: &Grant,
        last: &LastHop,
        message: Message,
        out: &mut Out,
    ) -> Result<Heard<'static>, Dropped>
        requires ready { ReadyToSend self.old grant.now out.old }
        requires allowed { messages.IsAllowed message }
        requires fresh { self.old.replied ≡ None }
        ensures hears { IfSome self.old.memory
            (λ l. Hears self.old
            (hearing.hear_message l grant.now.address last.now.by last.now.to_all last.now.link last.now.time message) result out.new self.new) }
        ensures agrees { Agrees self.new }
    {
        match message {
            Message::Rreq {
                number,
                cost,
                origin,
                dest,
            } => {
                if !last.to_all {
                    return Err(Dropped::BadUnit);
                }
                let offered = last.offered(origin, number, cost);
                self.hear_request(grant, last, &offered, dest, out)
            }
            Message::Rrep {
                number,
                cost,
                origin,
                to,
            } => {
                if last.to_all {
                    return Err(Dropped::BadUnit);
                }
                let offered = last.offered(origin, number, cost);
                self.hear_reply(grant, last, &offered, to, out)
            }
            Message::Rerr { lost, to } => {
                if last.to_all {
                    return Err(Dropped::BadUnit);
                }
                self.hear_error(grant, last.by, lost, to, out)
            }
        }
    }

    // Hears a command for the neighbours: a route message, or one of code 03, 04 or 05, which is handed on unread.
    fn hear_command<'a>(
        &mut self,
        grant: &Grant,
        last: &LastHop,
        code: u8,
        body: &'a [u8],
        out: &mut Out,
    ) -> Result<Heard<'a>, Dropped>
        requires ready { ReadyToSend self.old grant.now out.old }
        requires fresh { self.old.replied ≡ None }
        ensures hears { IfSome self.old.memory
            (λ l. Hears self.old
            (hearing.hear_command l grant.now.address last.now.by last.now.to_all code body.now last.now.link last.now.time) result out.new self.new) }
        ensures agrees { Agrees self.new }
    {
        if code == 1 {
            let Some(message) = message_in(body) else {
                return Err(Dropped::BadUnit);
            };
            return self.hear_message(grant, last, message, out);
        }
        if code == 2 {
            return Err(Dropped::BadUnit);
        }
        Ok(Heard::Local {
            from: last.by,
            to_all: last.to_all,
            code,
            body: OctetRef::new(body),
        })
    }

    // Hears the unit of a sealed frame: a command for the neighbours, or a unit over the mesh, which may not go to all.
    fn hear_sealed<'a>(
        &mut self,
        grant: &Grant,
        last: &LastHop,
        unit: &Unit<'a>,
        datagram: &'a mut DatagramBuf,
        out: &mut Out,
    ) -> Result<Heard<'a>, Dropped>
        requires ready { ReadyToSend self.old grant.now out.old }
        requires allowed { IsAllowed unit.now }
        requires fits { spelled_length unit.now ≤ 381 }
        requires fresh { self.old.replied ≡ None }
        ensures hears { IfSome self.old.memory
            (λ l. Hears self.old
            (hearing.hear_sealed l grant.now.address last.now.by last.now.to_all unit.now last.now.link last.now.note last.now.time) result out.new self.new) }
        ensures agrees { Agrees self.new }
    {
        match unit {
            Unit::Local { code, body } => {
                self.hear_command(grant, last, *code, body.octets(), out)
            }
            Unit::Whole { .. } | Unit::Part { .. } | Unit::Carried { .. } => {
                if last.to_all {
                    return Err(Dropped::BadUnit);
                }
                self.hear_over_mesh(grant, last, unit, datagram, out)
            }
        }
    }

    // Hears a frame that was accepted, with nothing sent yet.
    fn hear_frame<'a>(
        &mut self,
        got: &Accepted<'a>,
        cost: LinkCost,
        note: u32,
        now: u64,
        datagram: &'a mut DatagramBuf,
        out: &mut Out,
    ) -> Result<Heard<'a>, Dropped>
        requires ready { ReadyToAnswer self.old out.old }
        requires fresh { self.old.replied ≡ None }
        ensures hears { IfSome self.old.memory
            (λ l. Hears self.old (hearing.hear l got.now cost note now) result out.new self.new) }
        ensures agrees { Agrees self.new }
    {
        let Some(unit) = unit_in(got.payload()) else {
            return Err(Dropped::BadUnit);
        };
        match got.path() {
            Path::Sealed { from, to_all, .. } => {
                let Some(grant) = self.parts.ring.grant() else {
                    return Err(Dropped::BadUnit);
                };
                let last = LastHop {
                    by: from,
                    to_all,
                    link: cost,
                    note,
                    time: now,
                };
                self.hear_sealed(&grant, &last, &unit, datagram, out)
            }
            Path::Up { from } => {
                let Some(body) = joining_body(&unit) else {
                    return Err(Dropped::BadUnit);
                };
                Ok(Heard::Joining {
                    way: Way::Air(from),
                    body,
                })
            }
            Path::Down { from } => {
                let Some(body) = joining_body(&unit) else {
                    return Err(Dropped::BadUnit);
                };
                Ok(Heard::Joining {
                    way: Way::Near(from),
                    body,
                })
            }
        }
    }

    /// Hears a frame that was accepted, over a link of this cost, under a number of the caller's, at a time in seconds: a datagram
    /// or a joining command for this node is handed up, and what goes on or is answered is in `out`, sealed. The last piece of a
    /// datagram has it written whole into `datagram`, where its octets stay.
    ///
    /// Refused for the first reason that its rule names. The route reply that it sends is the last one from then on, and where it
    /// sends none there is none.
    pub fn hear<'a>(
        &mut self,
        got: Accepted<'a>,
        cost: LinkCost,
        note: u32,
        now: u64,
        datagram: &'a mut DatagramBuf,
        out: &mut Out,
    ) -> Result<Heard<'a>, Dropped>
        requires ready { Ready self.old }
        ensures carries { IfSome self.old.memory
            (λ l. Carries self.old (hearing.hear l got.entry cost note now) result out.new self.new) }
        ensures agrees { Agrees self.new }
        ensures replied { IfSome self.old.memory
            (λ l. self.new.replied ≡ reply_sent (hearing.hear l got.entry cost note now) self.new.memory) }
    {
        out.clear();
        self.replied = None;
        self.hear_frame(&got, cost, note, now, datagram, out)
    }
}
