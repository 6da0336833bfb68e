//! All that the program does.
//!
//! The commands are not inlined: else one frame of the stack would hold what all of them have in turn.
ghost use Rattle.std.specs.Prelude.{◌≡◌, ℕ, ◌≤◌, Bool, true, Some, None};
ghost use Rattle.std.specs.Io.KnownBytes.{IsAtEnd};
ghost use Rattle.plc_base.specs.Streams.{SourceFaults, SourceRose, SinkRose};
ghost use Rattle.script_runs.specs.Texts.{WritesText};
ghost use Rattle.line_replay.specs.Tool.{Replays, Shows, WritesTextOrMemory, command_of, drill_of, is_whole};
ghost use Rattle.line_replay.specs.Drills.{drill_text};
ghost use Rattle.line_replay.specs.Texts.{usage_text};
ghost use Rattle.line_replay.specs.VectorsText.{vectors_text};

use crate::drill::drill_text;
use crate::replay::Replay;
use crate::show::Show;
use crate::vectors_text;
use line_laws::every_network_run_is_right;
use line_script::number_within;
use plc_base::{Sink, Source};
use run_laws::every_run_is_lawful;
use script_lines::{a_run_may_end_without_memory, run};
use script_runs::{Status, status_of, write_whole};
use std::alloc::{AllocError, Global};

/// Reads a script from the source, and writes its report to the sink: a quiet one without the octets of the flights.
#[inline(never)]
fn replay<S: Source, K: Sink>(alloc: Global, quiet: bool, source: &mut S, sink: &mut K) -> Status
    ensures replays { Replays quiet (S.state source.old) (S.state source.new)
        (K.state sink.old) (K.state sink.new) result }
    ensures whole { is_whole result ≡ true → IsAtEnd ((S.state source.new).left) }
    ensures read { result ≡ Status.ReadFault → SourceRose (S.state source.old) (S.state source.new) }
    ensures write { result ≡ Status.WriteFault → SinkRose (K.state sink.old) (K.state sink.new) }
    ensures source { SourceFaults (S.state source.old) (S.state source.new) }
    ensures sink { (K.state sink.old).faults ≤ (K.state sink.new).faults }
{
    every_network_run_is_right();
    every_run_is_lawful();
    let Ok(mut replay) = Replay::new(alloc, quiet) else {
        a_run_may_end_without_memory::<Replay>();
        return Status::Memory;
    };
    let exit = run(alloc, &mut replay, source, sink);
    status_of(exit, replay.is_forged(), Status::Forged)
}

/// Reads frames from the source, and writes to the sink what each is.
#[inline(never)]
fn show<S: Source, K: Sink>(alloc: Global, source: &mut S, sink: &mut K) -> Status
    ensures shows { Shows (S.state source.old) (S.state source.new) (K.state sink.old) (K.state sink.new) result }
    ensures whole { is_whole result ≡ true → IsAtEnd ((S.state source.new).left) }
    ensures read { result ≡ Status.ReadFault → SourceRose (S.state source.old) (S.state source.new) }
    ensures write { result ≡ Status.WriteFault → SinkRose (K.state sink.old) (K.state sink.new) }
    ensures source { SourceFaults (S.state source.old) (S.state source.new) }
    ensures sink { (K.state sink.old).faults ≤ (K.state sink.new).faults }
{
    let mut show = Show::new(alloc);
    let exit = run(alloc, &mut show, source, sink);
    status_of(exit, false, Status::Forged)
}

/// The commands that the program has.
#[derive(Clone, Copy, Debug, PartialEq, Eq)]
pub enum Command {
    /// `replay` and `replay -q`: runs a script and reports what the line did, with the octets of the flights or, where it is
    /// quiet, without them.
    Replay {
        /// Whether the octets of the flights are left out.
        quiet: bool,
    },
    /// `show`: reads frames in hexadecimal and writes what each is.
    Show,
    /// `vectors`: writes what the ciphers make of known inputs.
    Vectors,
    /// `drill N`: runs a line of this many meters, with events that are one function of the number, and writes what was counted.
    Drill {
        /// 1 to 60.
        meters: u8,
    },
}

/// The command that words name, if they are of a form.
fn command_of(words: &[String]) -> Option<Command>
    ensures { result ≡ command_of words.now }
{
    match words {
        [word] if word.as_str() == "replay" => Some(Command::Replay { quiet: false }),
        [word] if word.as_str() == "show" => Some(Command::Show),
        [word] if word.as_str() == "vectors" => Some(Command::Vectors),
        [word, option] if word.as_str() == "replay" && option.as_str() == "-q" => {
            Some(Command::Replay { quiet: true })
        }
        [word, number] if word.as_str() == "drill" => drill_of(number.as_str()),
        _ => None,
    }
}

/// A drill of a number of meters.
fn drill_of(number: &str) -> Option<Command>
    ensures { result ≡ drill_of number.now }
{
    let meters = number_within(1, 60, number.as_bytes())?;
    Some(Command::Drill {
        meters: meters as u8,
    })
}

/// Runs a drill of this many meters, and writes its text.
#[inline(never)]
fn run_drill<K: Sink>(alloc: Global, meters: u8, sink: &mut K) -> Status
    ensures drill { WritesTextOrMemory (drill_text meters) Status.Fine (K.state sink.old) (K.state sink.new) result }
    ensures write { result ≡ Status.WriteFault → SinkRose (K.state sink.old) (K.state sink.new) }
    ensures sink { (K.state sink.old).faults ≤ (K.state sink.new).faults }
    ensures read { (result ≡ Status.ReadFault) → ⊥ }
{
    match drill_text(alloc, meters) {
        Ok(text) => write_whole(sink, text.as_bytes(), Status::Fine),
        Err(AllocError) => Status::Memory,
    }
}

const USAGE: &[u8; 58] = b"usage: line_replay replay [-q] | show | vectors | drill N\n";

/// All that the program does, with the words after its name.
///
/// `replay` reads a script and writes what its line did, `replay -q` the same without the octets of the flights. `show` reads
/// frames in hexadecimal and writes what each is. `vectors` writes what the ciphers make of known inputs. `drill N` runs a line of N
/// meters, 1 to 60, whose events are one function of N, and writes what was counted in it. Other words write the usage line. These
/// three read nothing, and the first and the last of them never answer Memory.
///
/// Where a write fails, or memory runs out once lines were taken, the report of a script breaks off in that of one line: those of all lines before it were
/// written whole, and at most 8,192 octets after that line were read. Where a read fails, the report of all whole lines before was written.
///
/// Where no read of the source and no write of the sink is to fail, and the sink has room for the whole text, neither count of
/// faults changes, so that neither fault comes.
pub fn run_tool<S: Source, K: Sink>(
    alloc: Global,
    words: &[String],
    source: &mut S,
    sink: &mut K,
) -> Status
    // What was read and written, why this status came, and what holds of the run. Its events are those of the lines, and each
    // world is the step of the rules. Before its first forged event every datagram that was handed up was sent to that node with
    // the same octets, none is handed up twice, valid next hops form no loop, a joined meter holds only group keys that were
    // issued to it, and no table passes its size; no two nodes have one address, and no two flights under one key one nonce. In
    // every run a restart finds a store that it can read, and ends the routes of its node; counters rise, no node accepts a
    // frame twice, and exactly the forged events are reported to be forged.
    ensures replays { (quiet : Bool) → command_of words.now ≡ Some (Command.Replay quiet)
        → Replays quiet (S.state source.old) (S.state source.new) (K.state sink.old) (K.state sink.new) result }
    // What was read and written of frames, and why this status came.
    ensures shows { command_of words.now ≡ Some Command.Show
        → Shows (S.state source.old) (S.state source.new) (K.state sink.old) (K.state sink.new) result }
    // What ends Fine or Forged was read whole.
    ensures whole_script { (quiet : Bool) → command_of words.now ≡ Some (Command.Replay quiet)
        → is_whole result ≡ true → IsAtEnd ((S.state source.new).left) }
    ensures whole_frames { command_of words.now ≡ Some Command.Show
        → is_whole result ≡ true → IsAtEnd ((S.state source.new).left) }
    // The vectors are those of the definitions, and nothing is read for them.
    ensures vectors { command_of words.now ≡ Some Command.Vectors
        → (source.new ≡ source.old) × WritesText vectors_text Status.Fine (K.state sink.old) (K.state sink.new) result }
    // A drill is the one of its number, and nothing is read for it.
    ensures drill { (meters : ℕ) → command_of words.now ≡ Some (Command.Drill meters) → (source.new ≡ source.old)
        × WritesTextOrMemory (drill_text meters) Status.Fine (K.state sink.old) (K.state sink.new) result }
    // Other words write the usage line, and nothing is read.
    ensures usage { command_of words.now ≡ None
        → (source.new ≡ source.old) × WritesText usage_text Status.Usage (K.state sink.old) (K.state sink.new) result }
    // A fault has its cause outside.
    ensures read { result ≡ Status.ReadFault → SourceRose (S.state source.old) (S.state source.new) }
    ensures write { result ≡ Status.WriteFault → SinkRose (K.state sink.old) (K.state sink.new) }
    ensures source { SourceFaults (S.state source.old) (S.state source.new) }
    ensures sink { (K.state sink.old).faults ≤ (K.state sink.new).faults }
{
    match command_of(words) {
        Some(Command::Replay { quiet }) => replay(alloc, quiet, source, sink),
        Some(Command::Show) => show(alloc, source, sink),
        Some(Command::Drill { meters }) => run_drill(alloc, meters, sink),
        Some(Command::Vectors) => write_whole(sink, vectors_text().octets(), Status::Fine),
        None => write_whole(sink, USAGE, Status::Usage),
    }
}
