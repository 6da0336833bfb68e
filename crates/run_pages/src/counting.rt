//! What is counted, and of which kind.
ghost use Rattle.std.specs.Prelude.{◌≡◌};
ghost use Rattle.run_pages.specs.Counts as counts;

use line_record::StoryKind;

/// One more, if something holds.
pub fn count_if(holds: bool, count: usize) -> usize
    ensures { result ≡ counts.count_if holds count }
{
    if holds {
        return count.saturating_add(1);
    }
    count
}

/// Whether a story reached its end.
pub fn is_yes(good: Option<bool>) -> bool
    ensures { result ≡ counts.is_yes good }
{
    match good {
        Some(yes) => yes,
        None => false,
    }
}

/// Whether two are the same.
pub fn is_kind(kind: StoryKind, other: StoryKind) -> bool
    ensures { result ≡ counts.is_kind kind other }
{
    match kind {
        StoryKind::Setup => other == StoryKind::Setup,
        StoryKind::Datagram => other == StoryKind::Datagram,
        StoryKind::Joining => other == StoryKind::Joining,
        StoryKind::Renewal => other == StoryKind::Renewal,
        StoryKind::Order => other == StoryKind::Order,
        StoryKind::Injection => other == StoryKind::Injection,
        StoryKind::Broadcast => other == StoryKind::Broadcast,
        StoryKind::Walk => other == StoryKind::Walk,
        StoryKind::Line => other == StoryKind::Line,
    }
}
