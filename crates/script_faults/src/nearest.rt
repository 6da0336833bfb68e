//! The word that was meant.
ghost use Rattle.std.specs.Prelude.{◌≡◌, ◌≤◌, ◌∷◌, ◌⊎◌, IfOk, MatchOption};
ghost use Rattle.script_faults.specs.Nearest.{IsNearest, IsNearestAmong, NoneNear, meant, near_of, nearer, nearest_from};

use line_script::EventKind;
use std::alloc::{AllocError, Global};
use strsim::osa_distance;

/// The kinds of lines, in the alphabetical order of their words: of two that are as near, the first is meant.
pub const KINDS: [EventKind; 28] = [
    EventKind::Activate,
    EventKind::Allow,
    EventKind::Bcast,
    EventKind::Break,
    EventKind::Challenge,
    EventKind::Checks,
    EventKind::Choose,
    EventKind::Coordinator,
    EventKind::Counter,
    EventKind::Cut,
    EventKind::Deliver,
    EventKind::Depot,
    EventKind::Inject,
    EventKind::Join,
    EventKind::Kick,
    EventKind::Leave,
    EventKind::Lose,
    EventKind::Meter,
    EventKind::Near,
    EventKind::Number,
    EventKind::Path,
    EventKind::RandomOctets,
    EventKind::Rekey,
    EventKind::Restart,
    EventKind::Scan,
    EventKind::Send,
    EventKind::Show,
    EventKind::Tick,
];

// A kind, and how many steps lead to its word.
#[derive(Clone, Copy)]
pub struct Near {
    /// The kind.
    pub kind: EventKind,
    /// The steps.
    pub steps: usize,
}

#[tactic(auto, unfolding(crate::specs::Nearest::distance))]
fn distance_to(alloc: Global, word: &str, kind: EventKind) -> Result<Near, AllocError>
    ensures { IfOk result (λ near. near ≡ near_of word.now kind) }
{
    let steps = osa_distance(alloc, word, kind.word())?;
    Ok(Near { kind, steps })
}

// The nearer of two; of two that are as near the first.
fn nearer(first: Near, second: Near) -> Near
    ensures least { (result.steps ≤ first.steps) × (result.steps ≤ second.steps) }
    ensures one { (result ≡ first) ⊎ (result ≡ second) }
    ensures value { result ≡ nearer first second }
{
    if second.steps < first.steps {
        second
    } else {
        first
    }
}

// The nearest of some kinds and a first one.
fn nearest_among(
    alloc: Global,
    word: &str,
    first: EventKind,
    kinds: &[EventKind],
) -> Result<Near, AllocError>
    ensures among { IfOk result (λ near. IsNearestAmong word.now (first ∷ kinds.now) near) }
    ensures value { IfOk result (λ near. near ≡ nearest_from word.now (near_of word.now first) kinds.now) }
{
    let mut best = distance_to(alloc, word, first)?;
    for kind in kinds {
        best = nearer(best, distance_to(alloc, word, *kind)?);
    }
    Ok(best)
}

#[tactic(auto, unfolding(crate::specs::Nearest::meant))]
/// The kind whose word is nearest to a word in lower case, where it is near enough: one step away, or as many as a third of the
/// word's octets. It fails only where memory runs out.
pub fn nearest_kind(alloc: Global, word: &str) -> Result<Option<EventKind>, AllocError>
    ensures nearest { IfOk result (λ kind. MatchOption kind (NoneNear word.now) (IsNearest word.now)) }
    ensures value { IfOk result (λ kind. kind ≡ meant word.now) }
{
    let near = nearest_among(alloc, word, EventKind::Activate, &KINDS)?;
    if near.steps <= (word.len() / 3).max(1) {
        Ok(Some(near.kind))
    } else {
        Ok(None)
    }
}
