//! Laws of stories, over their definitions alone: each stands as the contract of a function that does nothing.
ghost use Rattle.line_record.specs.Laws.{DatagramsAreReached, EventsAreOwned};

/// Each event of a record is owned by one story.
pub fn events_are_owned()
    ensures { EventsAreOwned }
{}

/// The datagram of a send came, by its story, at the first event that hands it up, and never where no event does.
pub fn datagrams_are_reached()
    ensures { DatagramsAreReached }
{}
