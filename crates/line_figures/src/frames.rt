//! Frames on the air.
use serde::Serialize;

/// What a frame is.
#[derive(Clone, Copy, Debug, PartialEq, Eq)]
pub enum FrameKind {
    /// A plain frame of a joining.
    Plain,
    /// A route request, which goes to all.
    Request,
    /// A route reply.
    Reply,
    /// A route error.
    Error,
    /// A piece of a datagram, or a message of a joining on its way.
    Data,
}

/// Why a frame did not come to its target.
#[derive(Clone, Copy, Debug, PartialEq, Eq)]
pub enum Loss {
    Collision,
    Noise,
    /// The target has no power, or does not hear the sender.
    Off,
    /// An attacker kept it.
    Withheld,
}

/// A number for each kind of frame.
#[derive(Drop, Debug, Serialize)]
pub struct ByKind {
    pub plain: u64,
    pub request: u64,
    pub reply: u64,
    pub error: u64,
    pub data: u64,
}

impl ByKind {
    pub(crate) fn new() -> ByKind {
        ByKind {
            plain: 0,
            request: 0,
            reply: 0,
            error: 0,
            data: 0,
        }
    }

    pub(crate) fn count(&mut self, kind: FrameKind) {
        match kind {
            FrameKind::Plain => self.plain = self.plain.saturating_add(1),
            FrameKind::Request => self.request = self.request.saturating_add(1),
            FrameKind::Reply => self.reply = self.reply.saturating_add(1),
            FrameKind::Error => self.error = self.error.saturating_add(1),
            FrameKind::Data => self.data = self.data.saturating_add(1),
        }
    }

    pub(crate) fn all(&self) -> u64 {
        self.plain
            .saturating_add(self.request)
            .saturating_add(self.reply)
            .saturating_add(self.error)
            .saturating_add(self.data)
    }
}

/// What became of frames on the air.
#[derive(Drop, Debug, Serialize)]
pub struct FrameFigures {
    /// The frames that were sent, repeats among them.
    pub sent: ByKind,
    /// The frames to one node that another frame disturbed there.
    pub collision: ByKind,
    /// The frames to one node that were lost by chance.
    pub noise: ByKind,
    /// The frames to a node without power, or out of reach.
    pub off: ByKind,
    /// The frames that an attacker kept.
    pub withheld: ByKind,
    /// The frames that were not sent again, though no acknowledgement came.
    pub given_up: ByKind,
    /// The frames that found no quiet.
    pub no_quiet: ByKind,
}

impl FrameFigures {
    pub(crate) fn new() -> FrameFigures {
        FrameFigures {
            sent: ByKind::new(),
            collision: ByKind::new(),
            noise: ByKind::new(),
            off: ByKind::new(),
            withheld: ByKind::new(),
            given_up: ByKind::new(),
            no_quiet: ByKind::new(),
        }
    }

    /// A frame went on the air.
    pub fn sent(&mut self, kind: FrameKind) {
        self.sent.count(kind);
    }

    /// A frame to one node did not come.
    pub fn lost(&mut self, kind: FrameKind, loss: Loss) {
        match loss {
            Loss::Collision => self.collision.count(kind),
            Loss::Noise => self.noise.count(kind),
            Loss::Off => self.off.count(kind),
            Loss::Withheld => self.withheld.count(kind),
        }
    }

    /// A frame to one node was given up.
    pub fn given_up(&mut self, kind: FrameKind) {
        self.given_up.count(kind);
    }

    /// A frame found no quiet, and was dropped.
    pub fn dropped(&mut self, kind: FrameKind) {
        self.no_quiet.count(kind);
    }
}
