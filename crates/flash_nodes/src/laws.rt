//! The laws: each is the contract of a function that does nothing.
ghost use Rattle.flash_nodes.specs.Openings.{OpeningsDecideCuts, RunningNodesAreSettled, FlashOpeningsAreFound, FlashReopeningsAreFound};
ghost use Rattle.flash_nodes.specs.Lives.{LivesAreByRules};

/// Where nothing was pending, a call carried out its plan, and an opening then finds some records: there is a loss of power of the rules, or none, under which
/// the plan leaves just these records, with the answer, the frames, the tags and the memory of the call (`decided`). A call that left a memory leaves nothing
/// pending (`settled`).
pub fn openings_decide_cuts<M, A>()
    ensures decided { OpeningsDecideCuts M A }
    ensures settled { RunningNodesAreSettled M A }
{}

/// A node goes through calls, of which some may fail in a put, and through openings, after each of which it has what its store gives and nothing else. Then
/// there are losses of power under which the rules' node answers the same at each call, gives out the same, finds the same records at each restart, and ends as
/// the same node, whatever the next opening finds.
pub fn lives_are_by_rules<A>()
    ensures { LivesAreByRules A }
{}

/// What `FlashKeeper::open` and `reopen` find is what may be found of the keeper before, and they leave nothing pending.
pub fn flash_openings_are_found()
    ensures opened { FlashOpeningsAreFound }
    ensures reopened { FlashReopeningsAreFound }
{}
