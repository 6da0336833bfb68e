//! Why a line is bad, in a word.
ghost use Rattle.std.specs.Prelude.{◌≡◌};
ghost use Rattle.line_script.specs.Texts.{reason_word};

use line_script::Reason;

/// The word of a reason, as the report has it.
pub fn word_of_reason(reason: Reason) -> &'static str
    ensures { result.now ≡ reason_word reason }
{
    match reason {
        Reason::Form => "form",
        Reason::Long => "long",
        Reason::Input => "input",
        Reason::Events => "events",
        Reason::Setup => "setup",
        Reason::Node => "node",
        Reason::Flight => "flight",
    }
}
