//! How an event ended, as a colour.
ghost use Rattle.std.specs.Prelude.{◌≡◌};
ghost use Rattle.run_charts.specs.Outcomes as outcomes;

use line_events::Answer;
use line_record::RecordedEvent;

/// How an event ended, as far as it has a colour.
#[derive(Clone, Copy, Debug, PartialEq, Eq)]
pub enum Outcome {
    /// It was taken.
    Fine,
    /// Something reached its end: a datagram was handed up, a grant was taken, a joining is done.
    Good,
    /// It was refused.
    Refused,
    /// A tag that nobody made was found right.
    Forged,
    /// The frame is for another node.
    Overheard,
}

fn refused_or_overheard(answer: Answer) -> Outcome
    ensures { result ≡ outcomes.refused_or_overheard answer }
{
    match answer {
        Answer::NotForMe => Outcome::Overheard,
        _ => Outcome::Refused,
    }
}

fn fine_or_good(answer: Answer) -> Outcome
    ensures { result ≡ outcomes.fine_or_good answer }
{
    match answer {
        Answer::Up => Outcome::Good,
        Answer::Bup => Outcome::Good,
        Answer::Took => Outcome::Good,
        Answer::Done => Outcome::Good,
        Answer::Path => Outcome::Good,
        _ => Outcome::Fine,
    }
}

/// How an event ended.
#[tactic(auto, unfolding(crate::specs::Outcomes::outcome_of))]
pub fn outcome_of(recorded: &RecordedEvent) -> Outcome
    ensures { result ≡ outcomes.outcome_of recorded.now }
{
    if recorded.forged {
        return Outcome::Forged;
    }
    if recorded.answer.is_ok() {
        return fine_or_good(recorded.answer);
    }
    refused_or_overheard(recorded.answer)
}

/// Whether an arrow of it ends in a cross.
pub fn has_cross(outcome: Outcome) -> bool
    ensures { result ≡ outcomes.has_cross outcome }
{
    match outcome {
        Outcome::Refused => true,
        _ => false,
    }
}

/// The class of a line that is drawn of it.
pub fn line_class(outcome: Outcome) -> &'static str
    ensures { result.now ≡ outcomes.line_class outcome }
{
    match outcome {
        Outcome::Fine => "A",
        Outcome::Good => "A up",
        Outcome::Refused => "A no",
        Outcome::Forged => "A f",
        Outcome::Overheard => "A q",
    }
}

/// The class of what is filled.
pub fn fill_class(outcome: Outcome) -> &'static str
    ensures { result.now ≡ outcomes.fill_class outcome }
{
    match outcome {
        Outcome::Fine => "B",
        Outcome::Good => "B up",
        Outcome::Refused => "B no",
        Outcome::Forged => "B f",
        Outcome::Overheard => "B q",
    }
}

/// The class of its word.
pub fn pill_class(outcome: Outcome) -> &'static str
    ensures { result.now ≡ outcomes.pill_class outcome }
{
    match outcome {
        Outcome::Fine => "p",
        Outcome::Good => "p up",
        Outcome::Refused => "p no",
        Outcome::Forged => "p f",
        Outcome::Overheard => "p q",
    }
}
