//! The kinds of events, by the first word of their lines.
ghost use Rattle.std.specs.Prelude.{◌≡◌};
ghost use Rattle.std.specs.Str.{bytes_eq};
ghost use Rattle.line_script.specs.Kinds.{kind_word, kind_among, kind_named};

/// What a line of a script asks for.
#[derive(Clone, Copy, Debug, PartialEq, Eq)]
pub enum EventKind {
    /// Makes the coordinator.
    Coordinator,
    /// Makes a meter.
    Meter,
    /// Joins a meter in the workshop.
    Depot,
    /// Gives two nodes the route to each other.
    Near,
    /// Sets a frame counter.
    Counter,
    /// Sets an own number.
    Number,
    /// Allows a meter.
    Allow,
    /// Gives a random value.
    RandomOctets,
    /// Begins a joining.
    Join,
    /// Makes a meter leave.
    Leave,
    /// Sends a datagram.
    Send,
    /// Brings a flight to a node.
    Deliver,
    /// Brings octets to a node.
    Inject,
    /// Takes a flight away.
    Lose,
    /// Breaks a link.
    Break,
    /// Moves the clock.
    Tick,
    /// Restarts a node.
    Restart,
    /// Makes a store write fail.
    Cut,
    /// Draws a group key.
    Rekey,
    /// Challenges a meter.
    Challenge,
    /// Activates a group key.
    Activate,
    /// Shuts a meter out.
    Kick,
    /// Shows a node.
    Show,
    /// Turns the checks of neighbours on.
    Checks,
    /// Sends a datagram to all.
    Bcast,
    /// Makes a meter scan for agents.
    Scan,
    /// Begins a joining by an agent that was heard.
    Choose,
    /// Asks for the way to a node.
    Path,
}

// The kinds, the most frequent ones first.
const KINDS: [EventKind; 28] = [
    EventKind::Send,
    EventKind::Deliver,
    EventKind::Tick,
    EventKind::Inject,
    EventKind::Lose,
    EventKind::Coordinator,
    EventKind::Meter,
    EventKind::Depot,
    EventKind::Near,
    EventKind::Counter,
    EventKind::Number,
    EventKind::Allow,
    EventKind::RandomOctets,
    EventKind::Join,
    EventKind::Leave,
    EventKind::Break,
    EventKind::Restart,
    EventKind::Cut,
    EventKind::Rekey,
    EventKind::Challenge,
    EventKind::Activate,
    EventKind::Kick,
    EventKind::Show,
    EventKind::Checks,
    EventKind::Bcast,
    EventKind::Scan,
    EventKind::Choose,
    EventKind::Path,
];

impl EventKind {
    /// The first word of its lines.
    pub fn word(self) -> &'static str
        ensures { result.now ≡ kind_word self }
    {
        match self {
            EventKind::Coordinator => "coordinator",
            EventKind::Meter => "meter",
            EventKind::Depot => "depot",
            EventKind::Near => "near",
            EventKind::Counter => "counter",
            EventKind::Number => "number",
            EventKind::Allow => "allow",
            EventKind::RandomOctets => "rand",
            EventKind::Join => "join",
            EventKind::Leave => "leave",
            EventKind::Send => "send",
            EventKind::Deliver => "deliver",
            EventKind::Inject => "inject",
            EventKind::Lose => "lose",
            EventKind::Break => "break",
            EventKind::Tick => "tick",
            EventKind::Restart => "restart",
            EventKind::Cut => "cut",
            EventKind::Rekey => "rekey",
            EventKind::Challenge => "challenge",
            EventKind::Activate => "activate",
            EventKind::Kick => "kick",
            EventKind::Show => "show",
            EventKind::Checks => "checks",
            EventKind::Bcast => "bcast",
            EventKind::Scan => "scan",
            EventKind::Choose => "choose",
            EventKind::Path => "path",
        }
    }

    /// The kind whose lines begin with this word. None if there is none.
    #[tactic(auto, unfolding(crate::specs::Kinds::kind_named))]
    pub fn named(word: &[u8]) -> Option<EventKind>
        ensures { result ≡ kind_named word.now }
    {
        kind_among(word, &KINDS)
    }
}

// Whether two words are the same. They have so few octets that `==` of slices would take several times as long.
pub(crate) fn is_same(word: &[u8], other: &[u8]) -> bool
    ensures { result ≡ bytes_eq word.now other.now }
{
    if word.len() != other.len() {
        return false;
    }
    for place in 0..word.len() {
        if word[place] != other[place] {
            return false;
        }
    }
    true
}

fn kind_among(word: &[u8], kinds: &[EventKind]) -> Option<EventKind>
    ensures { result ≡ kind_among word.now kinds.now }
{
    for kind in kinds {
        if is_same(word, kind.word().as_bytes()) {
            return Some(*kind);
        }
    }
    None
}
