//! All that the program does.
ghost use Rattle.std.specs.Prelude.{◌≡◌, ◌≤◌, Bool, IfOk, Some, None};
ghost use Rattle.std.specs.Io.KnownBytes.{IsAtEnd};
ghost use Rattle.plc_base.specs.Streams.{SourceFaults, SourceRose, SinkRose};
ghost use Rattle.story_accounts.specs.declared.section.Chosen.{Chosen};
ghost use Rattle.line_view.specs.declared.capture.Wanted.{Wanted};
ghost use Rattle.line_view.specs.RunMachines.{FollowsRun, outcome_by};
ghost use Rattle.script_runs.specs.Texts.{WritesText};
ghost use Rattle.line_view.specs.Truths.{UpsAreWorded};
ghost use Rattle.line_view.specs.declared.tables.Table.{Table};
ghost use Rattle.line_view.specs.Tool.{Accounts, Captures, Checks, Explains, Pages, Tabulates, Tells, WritesBy, WritesEnd, capture_with, check_with, chosen_by};
ghost use Rattle.line_view.specs.Tool.{command_of, explain_with, one_word, table_word, three_words, two_words, usage_text, wanted_word};

use crate::capture::{Capture, Wanted};
use crate::check::Check;
use crate::explain::Explain;
use crate::held_text::HeldText;
use crate::laws::sentences_are_true;
use crate::page::Page;
use crate::run_machine::{LastText, Lines, RunMachine, found_status};
use crate::tables::{Table, Tables};
use line_script::number_within;
use plc_base::{Sink, Source};
use script_lines::{Exit, a_run_may_end_without_memory, run};
use script_runs::{Status, status_of, write_whole};
use std::alloc::{AllocError, Global};
use story_accounts::Chosen;

/// The commands that the program has.
#[derive(Clone, Copy, Debug, PartialEq, Eq)]
pub enum Command {
    /// `check` and `check --json`: what is wrong with a script, for people or, a line each, as objects of JSON.
    Check {
        /// Whether they are objects of JSON.
        json: bool,
    },
    /// `explain` with what is chosen: what became of each datagram and each joining.
    Explain {
        /// Which stories are accounted for.
        chosen: Chosen,
    },
    /// `page`: a run as one page of HTML.
    Page,
    /// `meters` and `links`: a table of a run for a spreadsheet.
    Tables {
        /// Which one.
        table: Table,
    },
    /// `capture`, `capture --heard`, `keys` and `addresses`: what Wireshark reads of a run.
    Capture {
        /// What of it is written.
        wanted: Wanted,
    },
}

// The table that a word asks for, if it does.
fn table_word(word: &str) -> Option<Command>
    ensures { result ≡ table_word word.now }
{
    if word == "meters" {
        return Some(Command::Tables {
            table: Table::Meters,
        });
    }
    if word == "links" {
        return Some(Command::Tables {
            table: Table::Links,
        });
    }
    None
}

// What Wireshark reads, or a table, if a word asks for that.
fn wanted_word(word: &str) -> Option<Command>
    ensures { result ≡ wanted_word word.now }
{
    if word == "capture" {
        return Some(Command::Capture {
            wanted: Wanted::Frames { heard: false },
        });
    }
    if word == "keys" {
        return Some(Command::Capture {
            wanted: Wanted::Keys,
        });
    }
    if word == "addresses" {
        return Some(Command::Capture {
            wanted: Wanted::Addresses,
        });
    }
    table_word(word)
}

fn one_word(word: &str) -> Option<Command>
    ensures { result ≡ one_word word.now }
{
    if word == "check" {
        return Some(Command::Check { json: false });
    }
    if word == "explain" {
        return Some(Command::Explain {
            chosen: Chosen::Failed,
        });
    }
    if word == "page" {
        return Some(Command::Page);
    }
    wanted_word(word)
}

fn check_with(option: &str) -> Option<Command>
    ensures { result ≡ check_with option.now }
{
    if option == "--json" {
        return Some(Command::Check { json: true });
    }
    None
}

fn explain_with(option: &str) -> Option<Command>
    ensures { result ≡ explain_with option.now }
{
    if option == "--all" {
        return Some(Command::Explain {
            chosen: Chosen::All,
        });
    }
    None
}

fn capture_with(option: &str) -> Option<Command>
    ensures { result ≡ capture_with option.now }
{
    if option == "--heard" {
        return Some(Command::Capture {
            wanted: Wanted::Frames { heard: true },
        });
    }
    None
}

fn two_words(word: &str, option: &str) -> Option<Command>
    ensures { result ≡ two_words word.now option.now }
{
    if word == "check" {
        return check_with(option);
    }
    if word == "explain" {
        return explain_with(option);
    }
    if word == "capture" {
        return capture_with(option);
    }
    None
}

// The stories that a word and a number choose.
fn chosen_by(kind: &str, number: Option<u32>) -> Option<Command>
    ensures { result ≡ chosen_by kind.now number }
{
    let Some(number) = number else {
        return None;
    };
    if kind == "send" {
        return Some(Command::Explain {
            chosen: Chosen::Send { send: number },
        });
    }
    if kind == "node" {
        return Some(Command::Explain {
            chosen: Chosen::Node { node: number },
        });
    }
    None
}

fn three_words(word: &str, kind: &str, number: &str) -> Option<Command>
    ensures { result ≡ three_words word.now kind.now number.now }
{
    if word == "explain" {
        return chosen_by(kind, number_within(0, u32::MAX, number.as_bytes()));
    }
    None
}

/// The command that words name, if they are of a form.
fn command_of(words: &[String]) -> Option<Command>
    ensures { result ≡ command_of words.now }
{
    match words {
        [word] => one_word(word.as_str()),
        [word, option] => two_words(word.as_str(), option.as_str()),
        [word, kind, number] => three_words(word.as_str(), kind.as_str(), number.as_str()),
        _ => None,
    }
}

/// Reads a script from the source, and writes to the sink what is wrong with it.
fn check<S: Source, K: Sink>(alloc: Global, json: bool, source: &mut S, sink: &mut K) -> Status
    ensures checks { Checks json (S.state source.old) (S.state source.new) (K.state sink.old) (K.state sink.new) result }
    ensures whole { result ≡ Status.Fine → IsAtEnd ((S.state source.new).left) }
    ensures read { result ≡ Status.ReadFault → SourceRose (S.state source.old) (S.state source.new) }
    ensures write { result ≡ Status.WriteFault → SinkRose (K.state sink.old) (K.state sink.new) }
    ensures source { SourceFaults (S.state source.old) (S.state source.new) }
    ensures sink { (K.state sink.old).faults ≤ (K.state sink.new).faults }
{
    let Ok(mut check) = Check::new(alloc, json) else {
        a_run_may_end_without_memory::<Check>();
        return Status::Memory;
    };
    let exit = run(alloc, &mut check, source, sink);
    status_of(exit, check.is_bad(), Status::BadScript)
}

/// Reads a script from the source, and writes to the sink what a machine makes of its run.
fn account<M: RunMachine, S: Source, K: Sink>(
    alloc: Global,
    made: Result<M, AllocError>,
    source: &mut S,
    sink: &mut K,
) -> Status
    ensures accounts { (first : M) → IfOk made (λ machine. machine ≡ first) → FollowsRun M.rules first
        → Accounts M.rules.finding (outcome_by M.rules first) (S.state source.old) (S.state source.new) (K.state sink.old) (K.state sink.new)
        result }
    ensures read { result ≡ Status.ReadFault → SourceRose (S.state source.old) (S.state source.new) }
    ensures write { result ≡ Status.WriteFault → SinkRose (K.state sink.old) (K.state sink.new) }
    ensures source { SourceFaults (S.state source.old) (S.state source.new) }
    ensures sink { (K.state sink.old).faults ≤ (K.state sink.new).faults }
{
    let Ok(machine) = made else {
        a_run_may_end_without_memory::<Lines<M>>();
        return Status::Memory;
    };
    let mut lines = Lines::new(machine);
    let exit = run(alloc, &mut lines, source, sink);
    status_of(exit, true, found_status(lines.finding()))
}

// Writes the last text of a run that came to its end.
fn write_end<M: RunMachine + LastText, K: Sink>(lines: &Lines<M>, sink: &mut K) -> Status
    ensures { WritesEnd M.rules.finding M.says lines.now (K.state sink.old) (K.state sink.new) result }
{
    let Ok(text) = lines.last_text() else {
        return Status::Memory;
    };
    write_whole(sink, text.as_slice(), found_status(lines.finding()))
}

// Writes what there is once a script was read: the last text of a run that came to its end, or what was held for a bad line.
fn write_last<M: RunMachine + LastText, K: Sink>(
    exit: Exit,
    lines: &Lines<M>,
    held: &[u8],
    sink: &mut K,
) -> Status
    ensures { WritesBy M.rules.finding M.says lines.now held.now exit (K.state sink.old) (K.state sink.new) result }
{
    match exit {
        Exit::Fine => write_end(lines, sink),
        Exit::BadScript => write_whole(sink, held, Status::BadScript),
        Exit::ReadFault => Status::ReadFault,
        Exit::Memory => Status::Memory,
        Exit::WriteFault => Status::Memory,
    }
}

/// Reads a script from the source, and then writes to the sink a text of which it is known what it says of the run.
fn tell<M: RunMachine + LastText, S: Source, K: Sink>(
    alloc: Global,
    made: Result<M, AllocError>,
    source: &mut S,
    sink: &mut K,
) -> Status
    ensures tells { (first : M) → IfOk made (λ machine. machine ≡ first) → FollowsRun M.rules first
        → Tells M.rules.finding M.says (outcome_by M.rules first) (S.state source.old) (S.state source.new) (K.state sink.old) (K.state sink.new)
        result }
    ensures read { result ≡ Status.ReadFault → SourceRose (S.state source.old) (S.state source.new) }
    ensures write { result ≡ Status.WriteFault → SinkRose (K.state sink.old) (K.state sink.new) }
    ensures source { SourceFaults (S.state source.old) (S.state source.new) }
    ensures sink { (K.state sink.old).faults ≤ (K.state sink.new).faults }
{
    let Ok(machine) = made else {
        a_run_may_end_without_memory::<Lines<M>>();
        return Status::Memory;
    };
    let mut lines = Lines::new(machine);
    let mut held = HeldText::new(alloc);
    let exit = run(alloc, &mut lines, source, &mut held);
    write_last(exit, &lines, held.octets(), sink)
}

/// Reads a script from the source, and writes to the sink what became of the chosen stories.
fn explain<S: Source, K: Sink>(
    alloc: Global,
    chosen: Chosen,
    source: &mut S,
    sink: &mut K,
) -> Status
    ensures explains { Explains chosen (S.state source.old) (S.state source.new) (K.state sink.old) (K.state sink.new) result }
    ensures read { result ≡ Status.ReadFault → SourceRose (S.state source.old) (S.state source.new) }
    ensures write { result ≡ Status.WriteFault → SinkRose (K.state sink.old) (K.state sink.new) }
    ensures source { SourceFaults (S.state source.old) (S.state source.new) }
    ensures sink { (K.state sink.old).faults ≤ (K.state sink.new).faults }
{
    tell(alloc, Explain::new(alloc, chosen), source, sink)
}

/// Reads a script from the source, and writes to the sink a table of its run.
fn tabulate<S: Source, K: Sink>(alloc: Global, table: Table, source: &mut S, sink: &mut K) -> Status
    ensures tabulates { Tabulates table (S.state source.old) (S.state source.new) (K.state sink.old) (K.state sink.new) result }
    ensures read { result ≡ Status.ReadFault → SourceRose (S.state source.old) (S.state source.new) }
    ensures write { result ≡ Status.WriteFault → SinkRose (K.state sink.old) (K.state sink.new) }
    ensures source { SourceFaults (S.state source.old) (S.state source.new) }
    ensures sink { (K.state sink.old).faults ≤ (K.state sink.new).faults }
{
    tell(alloc, Tables::new(alloc, table), source, sink)
}

/// Reads a script from the source, and writes to the sink a page that shows its run.
fn page<S: Source, K: Sink>(alloc: Global, source: &mut S, sink: &mut K) -> Status
    ensures pages { Pages (S.state source.old) (S.state source.new) (K.state sink.old) (K.state sink.new) result }
    ensures read { result ≡ Status.ReadFault → SourceRose (S.state source.old) (S.state source.new) }
    ensures write { result ≡ Status.WriteFault → SinkRose (K.state sink.old) (K.state sink.new) }
    ensures source { SourceFaults (S.state source.old) (S.state source.new) }
    ensures sink { (K.state sink.old).faults ≤ (K.state sink.new).faults }
{
    account(alloc, Page::new(alloc), source, sink)
}

/// Reads a script from the source, and writes to the sink what Wireshark reads of its run.
fn capture<S: Source, K: Sink>(
    alloc: Global,
    wanted: Wanted,
    source: &mut S,
    sink: &mut K,
) -> Status
    ensures captures { Captures wanted (S.state source.old) (S.state source.new) (K.state sink.old) (K.state sink.new) result }
    ensures read { result ≡ Status.ReadFault → SourceRose (S.state source.old) (S.state source.new) }
    ensures write { result ≡ Status.WriteFault → SinkRose (K.state sink.old) (K.state sink.new) }
    ensures source { SourceFaults (S.state source.old) (S.state source.new) }
    ensures sink { (K.state sink.old).faults ≤ (K.state sink.new).faults }
{
    account(alloc, Capture::new(alloc, wanted), source, sink)
}

const USAGE: &[u8; 131] =
    b"usage: line_view check [--json] | explain [--all | send K | node N] | page | meters | links | capture [--heard] | keys | addresses\n";

/// All that the program does, with the words after its name.
///
/// `check` reads a script and writes what is wrong with each of its lines, `check --json` the same as objects of JSON. `explain` writes what
/// became of each datagram and each joining, with `send K` or `node N` of those alone; where the run has no such send or node it says which there
/// are, with the status of words invalid; of all stories its first line is how many readings came of how many. `page` writes a page of HTML that shows the
/// run. `meters` and `links` write a table, a row a meter or a link, and of a script with a bad line no table but that line. `capture`
/// writes the frames as a capture, with `--heard` each arrival too, `keys` the keys and `addresses` the short addresses of a run, as Wireshark
/// reads them. Other words write the usage line, and read nothing. Where a read fails, `check` wrote what it found in the lines before it, the others
/// nothing.
///
/// Where no read of the source and no write of the sink is to fail, and the sink has room for the whole text, neither count of
/// faults changes, so that neither fault comes.
pub fn run_view<S: Source, K: Sink>(
    alloc: Global,
    words: &[String],
    source: &mut S,
    sink: &mut K,
) -> Status
    // What was read and written, why this status came, and that the first fault is the line at which the run of the script ends.
    ensures checks { (json : Bool) → command_of words.now ≡ Some (Command.Check json)
        → Checks json (S.state source.old) (S.state source.new) (K.state sink.old) (K.state sink.new) result }
    // What was read and written of an account, and why its status came.
    ensures explains { (chosen : Chosen) → command_of words.now ≡ Some (Command.Explain chosen)
        → Explains chosen (S.state source.old) (S.state source.new) (K.state sink.old) (K.state sink.new) result }
    // What was read and written of a table: of `meters` each row is a meter, none is left out, of each those that came and those that are missing are
    // together those that were due, and each that came did so where the run handed it up.
    ensures tabulates { (table : Table) → command_of words.now ≡ Some (Command.Tables table)
        → Tabulates table (S.state source.old) (S.state source.new) (K.state sink.old) (K.state sink.new) result }
    // What was read and written of a page, why its status came, and that what is written whole nests.
    ensures pages { command_of words.now ≡ Some Command.Page
        → Pages (S.state source.old) (S.state source.new) (K.state sink.old) (K.state sink.new) result }
    // What was read, and written for Wireshark, and why its status came.
    ensures captures { (wanted : Wanted) → command_of words.now ≡ Some (Command.Capture wanted)
        → Captures wanted (S.state source.old) (S.state source.new) (K.state sink.old) (K.state sink.new) result }
    // What ends Fine was read whole.
    ensures whole { (json : Bool) → command_of words.now ≡ Some (Command.Check json) → result ≡ Status.Fine
        → IsAtEnd ((S.state source.new).left) }
    // Other words write the usage line, and nothing is read.
    ensures usage { command_of words.now ≡ None
        → (source.new ≡ source.old) × WritesText usage_text Status.Usage (K.state sink.old) (K.state sink.new) result }
    // What is said of a datagram that is handed up is true of the run.
    ensures truth { UpsAreWorded }
    // A fault has its cause outside.
    ensures read { result ≡ Status.ReadFault → SourceRose (S.state source.old) (S.state source.new) }
    ensures write { result ≡ Status.WriteFault → SinkRose (K.state sink.old) (K.state sink.new) }
    ensures source { SourceFaults (S.state source.old) (S.state source.new) }
    ensures sink { (K.state sink.old).faults ≤ (K.state sink.new).faults }
{
    sentences_are_true();
    match command_of(words) {
        Some(Command::Check { json }) => check(alloc, json, source, sink),
        Some(Command::Explain { chosen }) => explain(alloc, chosen, source, sink),
        Some(Command::Page) => page(alloc, source, sink),
        Some(Command::Tables { table }) => tabulate(alloc, table, source, sink),
        Some(Command::Capture { wanted }) => capture(alloc, wanted, source, sink),
        None => write_whole(sink, USAGE, Status::Usage),
    }
}
