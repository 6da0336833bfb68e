//! What the words after the program's name ask for.
ghost use Rattle.std.specs.Prelude.{◌≡◌, option_map};
ghost use Rattle.line_sim.specs.Tool.{wanted_named, asked_by, asked_of};

use line_plan::are_options;

/// What is written of the run.
#[derive(Clone, Copy, Debug, PartialEq, Eq)]
pub enum Mode {
    /// Its script.
    Run,
    /// Its counts, as one line of JSON.
    Measure,
}

/// What is written of a line.
#[derive(Clone, Copy, Debug, PartialEq, Eq)]
pub enum Wanted {
    /// What its run leaves.
    OfRun(Mode),
    /// The links of its place, as CSV.
    Links,
}

/// What the words ask for: what is written, and the options that change the description.
#[derive(Clone, Copy, Debug)]
pub struct Command<'a> {
    pub wanted: Wanted,
    pub options: &'a [String],
}

fn wanted_named(word: &str) -> Option<Wanted>
    ensures { result ≡ wanted_named word.now }
{
    match word {
        "run" => Some(Wanted::OfRun(Mode::Run)),
        "measure" => Some(Wanted::OfRun(Mode::Measure)),
        "links" => Some(Wanted::Links),
        _ => None,
    }
}

/// The command of these words, if they are of its form.
pub fn command_of(words: &[String]) -> Option<Command<'_>>
    ensures { option_map asked_of result ≡ asked_by words.now }
{
    match words {
        [] => None,
        [word, options @ ..] => {
            let wanted = wanted_named(word.as_str())?;
            if !are_options(options) {
                return None;
            }
            Some(Command { wanted, options })
        }
    }
}
