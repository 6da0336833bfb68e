//! Commands for the neighbours, as a node of the line hears them.
ghost use Rattle.std.specs.Prelude.{◌≡◌, Some};
ghost use Rattle.std.specs.Option.{option_map};
ghost use Rattle.reach_rules.specs.FurtherReceptions as further_receptions;
ghost use Rattle.line_world.specs.FurtherOutcomes.{command_of};

use line_events::{Answer, BroadcastUp, PathLine};
use mesh_header::Unit;
use node_rules::Path;
use plc_base::{OctetRef, Short};

/// A command of code 03, 04 or 05 that came alone in a sealed frame, its body unread.
#[derive(Drop)]
pub struct CommandRef<'a> {
    /// The neighbour that sent it.
    pub from: Short,
    /// Whether it went to all.
    pub to_all: bool,
    /// The code: 3 to 5.
    pub code: u8,
    /// What stands after the code.
    pub body: OctetRef<'a>,
}

/// What a node made of such a command, for the line.
#[derive(Drop)]
pub struct Commanded<'a> {
    /// How it ended.
    pub answer: Answer,
    /// The broadcast that was handed up, if one was.
    pub bup: Option<BroadcastUp<'a>>,
    /// The walk that came back, if one did.
    pub path: Option<PathLine>,
}

// The command that a unit is, if it is one: 01 is a route message, and 02 a joining command.
fn command_with<'a>(from: Short, to_all: bool, unit: &Unit<'a>) -> Option<CommandRef<'a>>
    ensures { option_map command_of result ≡ further_receptions.command_with from to_all (Some unit.now) }
{
    match unit {
        Unit::Local { code, body } => {
            if *code == 1 {
                return None;
            }
            if *code == 2 {
                return None;
            }
            Some(CommandRef {
                from,
                to_all,
                code: *code,
                body: OctetRef::new(body.octets()),
            })
        }
        Unit::Whole { .. } => None,
        Unit::Part { .. } => None,
        Unit::Carried { .. } => None,
    }
}

/// The command that came on this path, if one came: a plain frame carries none.
pub(crate) fn command_on<'a>(path: &Path, unit: &Option<Unit<'a>>) -> Option<CommandRef<'a>>
    ensures { option_map command_of result ≡ further_receptions.command_on path.now unit.now }
{
    let Some(unit) = unit else {
        return None;
    };
    match path {
        Path::Sealed { from, to_all, .. } => command_with(*from, *to_all, unit),
        Path::Up { .. } => None,
        Path::Down { .. } => None,
    }
}
