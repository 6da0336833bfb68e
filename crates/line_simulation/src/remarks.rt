//! The remarks of a script: what its events cannot say.
ghost use Rattle.std.specs.Prelude.{◌≡◌, string_bytes, IfOk};
ghost use Rattle.line_simulation.specs.RemarkTexts.{loss_word, command_text, saying_text, given_up_word, target_text, reason_text, given_up_text, remark_text};
ghost use Rattle.line_simulation.specs.RemarkTexts.{title_text};
ghost use Rattle.line_simulation.specs.Runs.{Ends};
ghost use Rattle.line_simulation.specs.Simulations.{state_of};
ghost use Rattle.line_simulation.specs.Steps.{texted};

use crate::recording::{RecordFault, Recording};
use crate::simulation::Simulation;
use crate::work::Stop;
use line_figures::Loss;
use line_owner::{Command, Saying};
use std::alloc::{AllocError, Global};

/// What the events of a script cannot say.
#[derive(Clone, Copy, Debug)]
pub enum Remark {
    /// The line: how many meters it has, and what the draws follow from.
    Line {
        meters: u32,
        seed: u64,
    },
    /// The spare meter, which is on no line.
    Spare {
        node: u32,
    },
    /// A reading is tried.
    Try {
        node: u32,
        round: u32,
        tries: u64,
    },
    /// A frame to one node is not sent again, for want of an acknowledgement. It never came where there is a reason.
    GivenUp {
        flight: u32,
        from: u32,
        to: Option<u32>,
        why: Option<Loss>,
    },
    /// A frame found no quiet, and was dropped.
    Dropped {
        flight: u32,
        node: u32,
    },
    /// A node has no power for this many seconds, and this many of its frames are gone.
    Power {
        node: u32,
        seconds: u64,
        frames: u64,
    },
    /// Nodes hear worse for this many seconds.
    Noise {
        seconds: u64,
    },
    /// Two nodes do not hear each other for this many seconds.
    Link {
        one: u32,
        other: u32,
        seconds: u64,
    },
    /// An attacker gives a node this many frames that it kept.
    Release {
        node: u32,
        frames: u64,
    },
    /// What the owner says.
    Said(Saying),
    /// The script is full.
    Limit,
}

fn loss_word(loss: Loss) -> &'static str
    ensures { result.now ≡ loss_word loss }
{
    match loss {
        Loss::Collision => "collision",
        Loss::Noise => "noise",
        Loss::Off => "off",
        Loss::Withheld => "withheld",
    }
}

// What the owner says of a command.
fn command_text(alloc: Global, command: &Command) -> Result<String, AllocError>
    ensures { IfOk result (λ text. string_bytes text ≡ command_text command.now) }
{
    match command {
        Command::Tell(message) => format!(in alloc;
            "refused node={} reading={}",
            message.node, message.round
        ),
        Command::Order(node, index) => format!(in alloc; "refused node={node} order={index}"),
        _ => String::from_str(alloc, "refused"),
    }
}

fn saying_text(alloc: Global, saying: &Saying) -> Result<String, AllocError>
    ensures { IfOk result (λ text. string_bytes text ≡ saying_text saying.now) }
{
    match saying {
        Saying::Refused(command) => command_text(alloc, command),
        Saying::Leaves(node) => format!(in alloc; "leaves node={node}"),
        Saying::Unreached(node, tries) => format!(in alloc; "unreached node={node} tries={tries}"),
        Saying::KeyDrawn(index) => format!(in alloc; "rekey index={index}"),
        Saying::ToldToLeave(node) => format!(in alloc; "told node={node}"),
    }
}

fn given_up_word(why: Option<Loss>) -> &'static str
    ensures { result.now ≡ given_up_word why }
{
    match why {
        Some(_) => "lost",
        None => "unacknowledged",
    }
}

fn target_text(alloc: Global, to: Option<u32>) -> Result<String, AllocError>
    ensures { IfOk result (λ text. string_bytes text ≡ target_text to) }
{
    match to {
        Some(to) => format!(in alloc; " to={to}"),
        None => Ok(String::new(alloc)),
    }
}

fn reason_text(alloc: Global, why: Option<Loss>) -> Result<String, AllocError>
    ensures { IfOk result (λ text. string_bytes text ≡ reason_text why) }
{
    match why {
        Some(why) => {
            let word = loss_word(why);
            format!(in alloc; " why={word}")
        }
        None => Ok(String::new(alloc)),
    }
}

fn given_up_text(
    alloc: Global,
    flight: u32,
    from: u32,
    to: Option<u32>,
    why: Option<Loss>,
) -> Result<String, AllocError>
    ensures { IfOk result (λ text. string_bytes text ≡ given_up_text flight from to why) }
{
    let word = given_up_word(why);
    let target = target_text(alloc, to)?;
    let reason = reason_text(alloc, why)?;
    format!(in alloc; "{word} flight={flight} from={from}{target}{reason}")
}

// The text of a remark, after its time.
#[tactic(auto, unfolding(crate::specs::RemarkTexts::remark_text))]
fn remark_text(alloc: Global, remark: &Remark) -> Result<String, AllocError>
    ensures { IfOk result (λ text. string_bytes text ≡ remark_text remark.now) }
{
    match remark {
        Remark::Line { meters, seed } => format!(in alloc; "line meters={meters} seed={seed}"),
        Remark::Spare { node } => format!(in alloc; "spare node={node}"),
        Remark::Try { node, round, tries } => {
            format!(in alloc; "try node={node} reading={round} k={tries}")
        }
        Remark::GivenUp {
            flight,
            from,
            to,
            why,
        } => given_up_text(alloc, *flight, *from, *to, *why),
        Remark::Dropped { flight, node } => {
            format!(in alloc; "dropped flight={flight} node={node}")
        }
        Remark::Power {
            node,
            seconds,
            frames,
        } => format!(in alloc; "power node={node} for={seconds} frames={frames}"),
        Remark::Noise { seconds } => format!(in alloc; "noise for={seconds}"),
        Remark::Link {
            one,
            other,
            seconds,
        } => format!(in alloc; "link a={one} b={other} for={seconds}"),
        Remark::Release { node, frames } => {
            format!(in alloc; "release node={node} frames={frames}")
        }
        Remark::Said(saying) => saying_text(alloc, saying),
        Remark::Limit => String::from_str(alloc, "limit"),
    }
}

impl<R: Recording> Simulation<R> {
    // Writes a text with the time.
    #[tactic(auto, unfolding(crate::specs::Steps::texted, crate::specs::Simulations::state_of))]
    fn write_remark(&mut self, text: &str) -> Result<(), Stop>
        ensures { Ends result (texted R.recorder text.now (state_of self.old)) (state_of self.new) }
    {
        match self.recording.remark(self.time / 1_000, text) {
            Ok(()) => Ok(()),
            Err(RecordFault::Full) => Err(Stop::Limit),
            Err(RecordFault::Refused) => Err(Stop::Limit),
            Err(RecordFault::Memory) => Err(Stop::Memory),
        }
    }

    /// Writes a remark with the time.
    pub fn remark(&mut self, remark: &Remark) -> Result<(), Stop>
        ensures { Ends result (texted R.recorder (remark_text remark.now) (state_of self.old)) (state_of self.new) }
    {
        let text = remark_text(self.alloc, remark)?;
        self.write_remark(text.as_str())
    }

    /// Writes a remark with the time and a text.
    pub fn remark_title(&mut self, title: &str) -> Result<(), Stop>
        ensures { Ends result (texted R.recorder (title_text title.now) (state_of self.old)) (state_of self.new) }
    {
        let text = format!(in self.alloc; "title {title}")?;
        self.write_remark(text.as_str())
    }
}
