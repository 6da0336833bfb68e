//! What became of a story.
ghost use Rattle.std.specs.Prelude.{◌≡◌, ◌&&◌};
ghost use Rattle.line_record.specs.Verdicts as spec_verdicts;

use crate::ends::Ends;
use crate::kept::Kept;
use crate::kind::{StoryKind, is_reported, takes_on};
use crate::recorded::RecordedEvent;
use crate::story::Story;
use line_events::Answer;

/// What became of a story. Events and flights are meant by their numbers from 1; a flight 0 is none.
#[derive(Clone, Copy, Debug, PartialEq, Eq)]
pub enum Verdict {
    /// Nothing is asked of it: the setup, the line, a broadcast.
    Nothing,
    /// It was refused at once.
    NotBegun,
    /// It reached its end: the datagram came, the joining is done, the node obeyed, the way is known.
    Reached { event: usize },
    /// The datagram was taken in and no flight carries it. This is the last flight that should have made a way for it.
    NeverLeft { last: usize },
    /// This is the first flight with the datagram, or a piece of it, that did not go on.
    Ended { flight: usize },
    /// The meter was not let in.
    Declined { event: usize },
    /// The meter took its grant, and the coordinator does not know it. This is the last flight.
    TookOnly { event: usize, last: usize },
    /// It is not done. This is the last flight.
    Loose { last: usize },
    /// There was no way to tell the meter.
    NotTold,
    /// Octets that no node sent were refused.
    Stopped,
    /// Octets that no node sent were taken: they are those of a frame of this run, or of a plain one.
    Taken,
    /// Octets that no node sent were taken under a tag that no node had made.
    Forged,
}

// Whether the event that begins a story was not refused.
fn is_begun(answer: Answer) -> bool
    ensures { result ≡ spec_verdicts.is_begun answer }
{
    match answer {
        Answer::Sent => true,
        Answer::Waiting => true,
        Answer::Asked => true,
        Answer::Challenged => true,
        Answer::Activated => true,
        Answer::Ordered => true,
        Answer::Kicked => true,
        Answer::Traced => true,
        _ => false,
    }
}

fn unreached_datagram(ends: &Ends) -> Verdict
    ensures { result ≡ spec_verdicts.unreached_datagram ends.now }
{
    if !ends.bears {
        return Verdict::NeverLeft { last: ends.last };
    }
    if ends.broken == 0 {
        return Verdict::Loose { last: ends.last };
    }
    Verdict::Ended {
        flight: ends.broken,
    }
}

fn unreached_joining(took: Option<usize>, declined: Option<usize>, last: usize) -> Verdict
    ensures { result ≡ spec_verdicts.unreached_joining took declined last }
{
    if let Some(event) = took {
        return Verdict::TookOnly { event, last };
    }
    match declined {
        Some(event) => Verdict::Declined { event },
        None => Verdict::Loose { last },
    }
}

fn unreached_order(last: usize, waits: &Option<Kept>) -> Verdict
    ensures { result ≡ spec_verdicts.unreached_order last waits.now }
{
    if last == 0 && waits.is_none() {
        return Verdict::NotTold;
    }
    Verdict::Loose { last }
}

// Of a story that did not reach its end.
fn unreached(story: &Story, ends: &Ends) -> Verdict
    ensures { result ≡ spec_verdicts.unreached story.now.kind story.now ends.now }
{
    match story.kind {
        StoryKind::Datagram => unreached_datagram(ends),
        StoryKind::Joining => unreached_joining(story.took, story.declined, ends.borne),
        StoryKind::Renewal => unreached_joining(story.took, story.declined, ends.borne),
        StoryKind::Order => unreached_order(ends.borne, &story.waits),
        StoryKind::Walk => Verdict::Loose { last: ends.last },
        _ => Verdict::Nothing,
    }
}

fn injected(forged: bool, answer: Answer) -> Verdict
    ensures { result ≡ spec_verdicts.injected forged answer }
{
    if forged {
        return Verdict::Forged;
    }
    if takes_on(answer) {
        return Verdict::Taken;
    }
    if is_reported(answer) {
        return Verdict::Taken;
    }
    Verdict::Stopped
}

// Whether a story can fail to begin.
fn is_asked(kind: StoryKind) -> bool
    ensures { result ≡ spec_verdicts.is_asked kind }
{
    match kind {
        StoryKind::Datagram => true,
        StoryKind::Joining => true,
        StoryKind::Renewal => true,
        StoryKind::Order => true,
        StoryKind::Walk => true,
        _ => false,
    }
}

// Of a story of any other kind than octets that no node sent.
fn asked_verdict(story: &Story, ends: &Ends, event: &RecordedEvent) -> Verdict
    ensures { result ≡ spec_verdicts.asked_verdict story.now.kind story.now ends.now event.now }
{
    if is_asked(story.kind) && !is_begun(event.answer) {
        return Verdict::NotBegun;
    }
    match story.reached {
        Some(event) => Verdict::Reached { event },
        None => unreached(story, ends),
    }
}

/// The verdict of a story, by what there is of its flights and the event that it begins with.
pub fn verdict_of(story: &Story, ends: &Ends, event: &RecordedEvent) -> Verdict
    ensures { result ≡ spec_verdicts.verdict_of story.now ends.now event.now }
{
    match story.kind {
        StoryKind::Injection => injected(event.forged, event.answer),
        _ => asked_verdict(story, ends, event),
    }
}

/// Whether a verdict is good. None where one asks nothing of it.
pub fn is_good(verdict: &Verdict) -> Option<bool>
    ensures { result ≡ spec_verdicts.is_good verdict.now }
{
    match verdict {
        Verdict::Reached { .. } => Some(true),
        Verdict::Stopped => Some(true),
        Verdict::NotTold => None,
        Verdict::Taken => None,
        Verdict::Nothing => None,
        _ => Some(false),
    }
}
