//! Laws of what stories say: each stands as the contract of a function that does nothing.
ghost use Rattle.story_laws.specs.Dones.{JoiningsAreDone, OrdersAreDone, OthersAreNeverDone, WalksAreDone};
ghost use Rattle.story_laws.specs.Ends.{DropsAreEnds, EndsAreRecorded, RecordedEndsAreSo};
ghost use Rattle.story_laws.specs.Fates.{FatesAreSo, HearingsAreSo};
ghost use Rattle.story_laws.specs.Keepings.{KeptAreSince, WaitsAreKept};
ghost use Rattle.story_laws.specs.KeptRuns.{RunsKeepIt};

/// Where an event of a line ends what a node keeps, its story says so, with the kind of the end.
pub fn ends_are_recorded()
    ensures { EndsAreRecorded }
{}

/// Where the story of what a node keeps says how an event of a line ended it, so it was; and where it says that it is kept still, no event ended it.
pub fn recorded_ends_are_so()
    ensures { RecordedEndsAreSo }
{}

/// The answers by which a story says that a datagram ended at a node are those that end it by the rules, and `BadUnit`.
pub fn drops_are_ends()
    ensures { DropsAreEnds }
{}

/// What a node keeps of a story still at the end of a record began at its event, and no later event ended it.
pub fn kept_are_since()
    ensures { KeptAreSince }
{}

/// Of a run and its record: what a story says a node keeps still, an event of the run after the one at which it began has not ended.
pub fn runs_keep_it()
    ensures { RunsKeepIt }
{}

/// A datagram that is answered Waiting is kept by its story from then on, where none of the flights of its event may be what waited.
pub fn waits_are_kept()
    ensures { WaitsAreKept }
{}

/// Of a run and its record: what the stories say became of a flight is so. It came to its node, was lost, or never came there; and of several hearings
/// the one counts that was accepted first, or where none was, the first.
pub fn fates_are_so()
    ensures { FatesAreSo }
{}

/// Where an event brings a flight to its node by the record, the entry of the run delivers it there, or injects its very octets.
pub fn hearings_are_so()
    ensures { HearingsAreSo }
{}

/// Of a run and its record: a joining or a renewal is done, by its verdict, exactly where an entry of its story says that its meter is, and at the last
/// that does.
pub fn joinings_are_done()
    ensures { JoiningsAreDone }
{}

/// Of a run and its record: an order is done, by its verdict, exactly where an entry of its story is that its node obeyed, and at the first that is.
pub fn orders_are_done()
    ensures { OrdersAreDone }
{}

/// Of a run and its record: a path request is done, by its verdict, exactly where an entry of its story brings an answer back, and at the first that does.
pub fn walks_are_done()
    ensures { WalksAreDone }
{}

/// Of a run and its record: by no verdict a broadcast, injected octets or what happens on the line is done.
pub fn others_are_never_done()
    ensures { OthersAreNeverDone }
{}
