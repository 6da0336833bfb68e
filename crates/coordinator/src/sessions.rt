//! The sessions of the meters that join.
ghost use Rattle.std.specs.Prelude.{◌≡◌, ◌<◌, ◌≤◌, false, [], position, length, fold, Some, None};
ghost use Rattle.plc_base.specs.Times as times;
ghost use Rattle.node_rules.specs.Coordinators.{is_of};
ghost use Rattle.node_rules.specs.declared.session_time.TheConstants.{SESSION_TIME};
ghost use Rattle.coordinator.specs.Ends.{end_by};
ghost use Rattle.coordinator.specs.Tables.{session_in, placed, ended, is_full_for, unexpired};

use arrayvec::ArrayVec;
use eap_psk::Server;
use node_rules::{SESSION_TIME, Way};
use plc_base::{Eui, RandomOctets, earlier_end, is_within};
use std::marker::Model;

/// The coordinator's end of the joining of a meter, whose answers go this way, since a time in seconds.
#[derive(Clone, Copy)]
pub(crate) struct ServerSession {
    pub(crate) server: Server,
    pub(crate) way: Way,
    pub(crate) since: u64,
}

impl Model for ServerSession {
    ghost use Rattle.node_rules.specs.Memory.{CoordinatorSession};

    ghost Value = { CoordinatorSession };

    ghost view = { λ s. record { server = s.server; way = s.way; since = s.since } };

    ghost inverse = { λ s. record { server = s.server; way = s.way; since = s.since } };
}

impl Default for ServerSession {
    fn default() -> ServerSession {
        let eui = Eui([0; 8]);
        ServerSession {
            server: Server {
                eui,
                id_s: eui,
                rand_s: RandomOctets([0; 16]),
                rand_p: None,
            },
            way: Way::Air(eui),
            since: 0,
        }
    }
}

impl ServerSession {
    // Whether it is that of a meter.
    fn is_of(&self, eui: Eui) -> bool
        ensures { result ≡ is_of eui self.now }
    {
        self.server.eui.number() == eui.number()
    }

    // Whether the time of a session has not passed since it was opened.
    fn lasts(&self, now: u64) -> bool
        ensures { result ≡ times.is_within SESSION_TIME now self.now.since }
    {
        is_within(SESSION_TIME, now, self.since)
    }

    // The earlier of a time and of when it has lasted for too long.
    fn end_by(&self, time: u64) -> u64
        ensures { result ≡ end_by time self.now }
    {
        earlier_end(SESSION_TIME, time, self.since)
    }
}

/// The sessions of the meters that join: one a meter, and at most 8. A contract sees the list of them.
#[derive(Drop)]
pub(crate) struct Sessions {
    items: ArrayVec<ServerSession, 8>,
}

impl Model for Sessions {
    ghost use Rattle.std.specs.Prelude.{List};
    ghost use Rattle.node_rules.specs.Memory.{CoordinatorSession};

    ghost Value = { List CoordinatorSession };

    ghost view = { λ s. s.items.items };
}

impl Sessions {
    /// No session.
    pub(crate) fn new() -> Sessions
        ensures { result ≡ [] }
    {
        Sessions {
            items: ArrayVec::new(),
        }
    }

    /// How many sessions are open, at most 8.
    pub(crate) fn count(&self) -> usize
        ensures value { result ≡ length self.now }
        ensures few { length self.now ≤ 8 }
    {
        self.items.len()
    }

    // The place of a meter's session.
    fn place_of(&self, eui: Eui) -> Option<usize>
        ensures { result ≡ position (is_of eui) self.now }
    {
        self.items.iter().position(|session| session.is_of(eui))
    }

    /// The session of a meter, None exactly where none is open.
    pub(crate) fn of(&self, eui: Eui) -> Option<ServerSession>
        ensures { result ≡ session_in self.now eui }
    {
        let place = self.place_of(eui)?;
        Some(self.items[place])
    }

    /// Whether a session of a meter can't be opened: it has none, and 8 are open.
    pub(crate) fn full_for(&self, eui: Eui) -> bool
        ensures { result ≡ is_full_for self.now eui }
    {
        self.of(eui).is_none() && self.items.len() == 8
    }

    /// A session takes the place of that of its meter, or stands after the others.
    pub(crate) fn put(&mut self, session: ServerSession)
        requires { is_full_for self.old session.server.eui ≡ false }
        ensures { self.new ≡ placed session self.old }
    {
        if let Some(place) = self.place_of(session.server.eui) {
            self.items[place] = session;
            return;
        }
        self.items.push(session);
    }

    /// Ends the session of a meter, if one is open.
    pub(crate) fn end(&mut self, eui: Eui)
        ensures { self.new ≡ ended eui self.old }
    {
        self.items.retain(|session| !session.is_of(eui));
    }

    /// The earlier of a time and of when the first session has lasted for too long, in seconds.
    pub(crate) fn first_end(&self, time: u64) -> u64
        ensures { result ≡ fold end_by time self.now }
    {
        let mut end = time;
        for session in self.items.iter() {
            end = session.end_by(end);
        }
        end
    }

    /// Ends the sessions that were opened `SESSION_TIME` ago or before.
    pub(crate) fn expire(&mut self, now: u64)
        ensures { self.new ≡ unexpired now self.old }
    {
        self.items.retain(|session| session.lasts(now));
    }

    /// Ends all sessions.
    pub(crate) fn clear(&mut self)
        ensures { self.new ≡ [] }
    {
        self.items.clear();
    }
}
