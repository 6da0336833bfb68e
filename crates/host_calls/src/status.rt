//! How a call ended.
ghost use Rattle.std.specs.Prelude.{◌≡◌};
ghost use Rattle.host_calls.specs.Answers.{status_number, reason_of};

/// How a call ended.
#[derive(Clone, Copy, Debug, PartialEq, Eq)]
pub enum Status {
    /// 0: it is done.
    Done,
    /// 1: the meter refused the call, or dropped the frame that it heard; with the number of that refusal, from 1.
    Refused(u8),
    /// 2: the meter is halted. A put found no room, or the meter was halted before.
    Halted,
    /// 3: the meter was not opened, since a record has no reading.
    BadStore,
    /// 4: the item is no call, or its record cannot be taken in.
    Malformed,
    /// 5: the meter was not opened, since there is no memory.
    Memory,
}

impl Status {
    /// The octet that stands for it.
    pub fn number(self) -> u8
        ensures { result ≡ status_number self }
    {
        match self {
            Status::Done => 0,
            Status::Refused(_) => 1,
            Status::Halted => 2,
            Status::BadStore => 3,
            Status::Malformed => 4,
            Status::Memory => 5,
        }
    }
    /// Which refusal of the call it was, None where the call was not refused.
    pub fn reason(self) -> Option<u8>
        ensures { result ≡ reason_of self }
    {
        match self {
            Status::Refused(reason) => Some(reason),
            Status::Done => None,
            Status::Halted => None,
            Status::BadStore => None,
            Status::Malformed => None,
            Status::Memory => None,
        }
    }
}
