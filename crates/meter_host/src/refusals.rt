//! Which refusal of a call it was, as a number.
ghost use Rattle.std.specs.Prelude.{◌≡◌, ℕ};
ghost use Rattle.meter_host.specs.Refusals.{ring_number, preset_number, random_number, join_number, leave_number, send_number};
ghost use Rattle.meter_host.specs.Refusals.{frame_number, dropped_number, unheard_number, halted_number};

use node_rules::{
    Dropped, FrameRefusal, Halted, JoinRefusal, LeaveRefusal, PresetFault, RandomFault,
    RingRefusal, SendRefusal, Unheard,
};

/// Why a call was refused. The refusals of a call are numbered from 1, in the order in which they are declared; what drops a frame that was accepted
/// comes after what does not accept one. Halted of `RingRefusal` and `PresetFault`, and NotJoined, come last: a host, whose meter runs, never meets them.
pub trait Refusal {
    // Its number.
    ghost number: { Self → ℕ };

    /// Its number.
    fn number(&self) -> u8
        ensures { result ≡ number self.now };
}

impl Refusal for RingRefusal {
    ghost number = { ring_number };

    fn number(&self) -> u8 {
        match self {
            RingRefusal::NotHeld => 1,
            RingRefusal::Store => 2,
            RingRefusal::Halted => 3,
            RingRefusal::NotJoined => 4,
        }
    }
}

impl Refusal for PresetFault {
    ghost number = { preset_number };

    fn number(&self) -> u8 {
        match self {
            PresetFault::NotBetter => 1,
            PresetFault::RoutesFull => 2,
            PresetFault::Store => 3,
            PresetFault::Halted => 4,
        }
    }
}

impl Refusal for RandomFault {
    ghost number = { random_number };

    fn number(&self) -> u8 {
        match self {
            RandomFault::Halted => 1,
            RandomFault::RandomsFull => 2,
        }
    }
}

impl Refusal for JoinRefusal {
    ghost number = { join_number };

    fn number(&self) -> u8 {
        match self {
            JoinRefusal::Halted => 1,
            JoinRefusal::AlreadyJoined => 2,
        }
    }
}

impl Refusal for LeaveRefusal {
    ghost number = { leave_number };

    fn number(&self) -> u8 {
        match self {
            LeaveRefusal::Halted => 1,
            LeaveRefusal::NotJoined => 2,
            LeaveRefusal::Store => 3,
        }
    }
}

impl Refusal for SendRefusal {
    ghost number = { send_number };

    fn number(&self) -> u8 {
        match self {
            SendRefusal::Halted => 1,
            SendRefusal::NotJoined => 2,
            SendRefusal::BadSize => 3,
            SendRefusal::ToSelf => 4,
            SendRefusal::WaitingFull => 5,
            SendRefusal::SeqSpent => 6,
            SendRefusal::CounterSpent => 7,
            SendRefusal::Store => 8,
        }
    }
}

impl Refusal for FrameRefusal {
    ghost number = { frame_number };

    fn number(&self) -> u8 {
        match self {
            FrameRefusal::Halted => 1,
            FrameRefusal::Malformed => 2,
            FrameRefusal::NotForMe => 3,
            FrameRefusal::NoKey => 4,
            FrameRefusal::BadTag => 5,
            FrameRefusal::Replayed => 6,
            FrameRefusal::PeersFull => 7,
            FrameRefusal::Store => 8,
        }
    }
}

impl Refusal for Dropped {
    ghost number = { dropped_number };

    fn number(&self) -> u8 {
        match self {
            Dropped::BadUnit => 9,
            Dropped::NoRoute => 10,
            Dropped::HopsSpent => 11,
            Dropped::NotBetter => 12,
            Dropped::CostSpent => 13,
            Dropped::RoutesFull => 14,
            Dropped::NotAllowed => 15,
            Dropped::NoSession => 16,
            Dropped::SessionsFull => 17,
            Dropped::NoRandom => 18,
            Dropped::Form => 19,
            Dropped::OtherSession => 20,
            Dropped::BadMac => 21,
            Dropped::BadChannel => 22,
            Dropped::NoSuccess => 23,
            Dropped::NotHeld => 24,
            Dropped::BufferFull => 25,
            Dropped::SeqSpent => 26,
            Dropped::CounterSpent => 27,
            Dropped::Store => 28,
        }
    }
}

impl Refusal for Unheard {
    ghost number = { unheard_number };

    fn number(&self) -> u8 {
        match self {
            Unheard::Halted => 1,
            Unheard::Store => 8,
            Unheard::Refused(reason) => reason.number(),
            Unheard::Dropped(reason) => reason.number(),
        }
    }
}

impl Refusal for Halted {
    ghost number = { halted_number };

    fn number(&self) -> u8 {
        1
    }
}
