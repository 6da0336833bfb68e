//! Why a call did nothing, as a number for C.
ghost use Rattle.std.specs.Prelude.{◌≡◌};
ghost use Rattle.frames_c.specs.Refusals.{fault_number, refusal_number};

use mac_frames::FrameFaultKind;

/// Why a call refuses its arguments.
#[derive(Clone, Copy, Debug, PartialEq, Eq, Drop)]
pub enum Refusal {
    /// 1: the key does not have 16 octets.
    Key,
    /// 2: the head is not one of a sealed frame, or a field of it is beyond its range.
    Head,
    /// 3: the payload has more than 381 octets.
    Payload,
    /// 4: the buffer is shorter than what would be written. Nothing is sealed or opened.
    Room,
    /// 5: the octets are no sealed frame.
    NotSealed,
    /// 6: the tag is not that of the key, the header and the payload.
    Tag,
}

impl Refusal {
    /// The number that C gets.
    pub fn number(self) -> u32
        ensures { result ≡ refusal_number self }
    {
        match self {
            Refusal::Key => 1,
            Refusal::Head => 2,
            Refusal::Payload => 3,
            Refusal::Room => 4,
            Refusal::NotSealed => 5,
            Refusal::Tag => 6,
        }
    }
}

/// The number that C gets for what is wrong with the octets of a frame.
pub fn fault_number(kind: FrameFaultKind) -> u32
    ensures { result ≡ fault_number kind }
{
    match kind {
        FrameFaultKind::Short => 16,
        FrameFaultKind::Kind => 17,
        FrameFaultKind::Mode => 18,
        FrameFaultKind::Level => 19,
        FrameFaultKind::Long => 20,
        FrameFaultKind::Address => 21,
    }
}
