//! How a call of a program ends.
ghost use Rattle.std.specs.Prelude.{◌≡◌};
ghost use Rattle.script_runs.specs.Statuses.{status_number, status_of};

use script_lines::Exit;

/// How a call of a program ended. The program ends with its number.
#[derive(Clone, Copy, Debug, PartialEq, Eq)]
pub enum Status {
    /// 0: the input was read to its end, it is not bad, and what was asked for was written whole.
    Fine,
    /// 1: a line of the script is bad, or a description or an option, and what is wrong with it was written.
    BadScript,
    /// 2: the words are invalid, and the usage line was written; or they ask for what a run does not have, and a line says what it has.
    Usage,
    /// 3: there was not enough memory.
    Memory,
    /// 4: the source failed.
    ReadFault,
    /// 5: the sink failed.
    WriteFault,
    /// 6: as 0 or 7, but an event is forged.
    Forged,
    /// 7: a simulated run ended before its time: what comes next does not fit into a script, or nothing comes to an end. What it gives was written whole.
    LimitReached,
}

impl Status {
    /// The number that the program ends with.
    pub fn number(self) -> u8
        ensures { result ≡ status_number self }
    {
        match self {
            Status::Fine => 0,
            Status::BadScript => 1,
            Status::Usage => 2,
            Status::Memory => 3,
            Status::ReadFault => 4,
            Status::WriteFault => 5,
            Status::Forged => 6,
            Status::LimitReached => 7,
        }
    }
}

/// The status of a run over lines: `found` where it came to its end and has seen what `found` says, a forged event or a bad line.
pub fn status_of(exit: Exit, is_found: bool, found: Status) -> Status
    ensures { result ≡ status_of exit is_found found }
{
    match exit {
        Exit::Fine if is_found => found,
        Exit::Fine => Status::Fine,
        Exit::BadScript => Status::BadScript,
        Exit::Memory => Status::Memory,
        Exit::ReadFault => Status::ReadFault,
        Exit::WriteFault => Status::WriteFault,
    }
}
