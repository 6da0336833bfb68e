//! A frame that a station accepted.
ghost use Rattle.std.specs.Prelude.{◌≡◌, ◌≤◌, length};
ghost use Rattle.plc_base.specs.declared.limits.TheConstants.{LONGEST_FRAME};
ghost use Rattle.plc_station.specs.Heard.{Fits, FitsPath};

use node_rules::Path;
use plc_base::FrameBuf;
use std::marker::Model;

/// A frame that a station accepted. `accept` alone makes one, nothing copies it, and `hear` takes it by value: so it is heard once at most.
///
/// The octets of its unit stay in the buffer that was lent to `accept`, which is free again when the frame and what was heard of it are gone.
#[derive(Debug, Drop)]
pub struct Accepted<'a> {
    way: Path,
    unit: &'a FrameBuf,
}

impl<'a> Model for Accepted<'a> {
    ghost use Rattle.std.specs.Prelude.{length};
    ghost use Rattle.node_rules.specs.Accepted as frames;
    ghost use Rattle.plc_station.specs.Heard.{FitsPath};

    ghost Value = { frames.Accepted };

    ghost view = { λ a. record { path = a.way; payload = a.unit.now } };

    ghost invariant = { λ a. FitsPath a.way (length a.unit.now) };
}

impl<'a> Accepted<'a> {
    // What stands in a buffer, as the frame that came on this way.
    pub(crate) fn new(path: Path, payload: &'a FrameBuf) -> Accepted<'a>
        requires { FitsPath path (length payload.now) }
        ensures { result ≡ record { path = path; payload = payload.now } }
    {
        Accepted {
            way: path,
            unit: payload,
        }
    }

    /// The way on which it came.
    pub fn path(&self) -> Path
        ensures { result ≡ self.now.path }
    {
        self.way
    }

    /// The octets of its unit, unread: at most 400, and 381 of a sealed frame.
    pub fn payload(&self) -> &'a [u8]
        ensures value { result.now ≡ self.now.payload }
        ensures long { length result.now ≤ LONGEST_FRAME }
        ensures fits { Fits self.now }
    {
        self.unit.octets()
    }
}
