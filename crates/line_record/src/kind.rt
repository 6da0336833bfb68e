//! The kinds of stories, and what events and answers are to them.
ghost use Rattle.std.specs.Prelude.{◌≡◌};
ghost use Rattle.line_record.specs.Kinds as story_kinds;

use crate::act::Act;
use line_events::Answer;

/// What a story is about.
#[derive(Clone, Copy, Debug, PartialEq, Eq)]
pub enum StoryKind {
    /// The lines of the setup, all together.
    Setup,
    /// A datagram on its way.
    Datagram,
    /// A meter joins.
    Joining,
    /// The coordinator gives a meter its keys anew.
    Renewal,
    /// A node gets the order to seal with another key, or to leave.
    Order,
    /// Octets that no node sent come to a node.
    Injection,
    /// A datagram goes to all.
    Broadcast,
    /// A node asks for the way to another one.
    Walk,
    /// What happens on the line by itself: ticks, breaks, restarts and the like that stand in a row.
    Line,
}

/// Whether an event is one of the setup.
pub fn is_setup(act: &Act) -> bool
    ensures { result ≡ story_kinds.is_setup act.now }
{
    match act {
        Act::Coordinator { .. } => true,
        Act::Meter { .. } => true,
        Act::Depot { .. } => true,
        Act::Near { .. } => true,
        Act::Counter { .. } => true,
        Act::Number { .. } => true,
        Act::Checks => true,
        _ => false,
    }
}

/// The story that an event begins, if it begins one.
pub fn begins(act: &Act) -> Option<StoryKind>
    ensures { result ≡ story_kinds.begins act.now }
{
    match act {
        Act::Send { .. } => Some(StoryKind::Datagram),
        Act::Join { .. } => Some(StoryKind::Joining),
        Act::Choose { .. } => Some(StoryKind::Joining),
        Act::Challenge { .. } => Some(StoryKind::Renewal),
        Act::Activate { .. } => Some(StoryKind::Order),
        Act::Kick { .. } => Some(StoryKind::Order),
        Act::Inject { .. } => Some(StoryKind::Injection),
        Act::Bcast { .. } => Some(StoryKind::Broadcast),
        Act::Path { .. } => Some(StoryKind::Walk),
        _ => None,
    }
}

/// The node that the story is about which an event begins, 0 where it begins none.
pub fn person_of(act: &Act) -> u32
    ensures { result ≡ story_kinds.person_of act.now }
{
    match act {
        Act::Send { from, .. } => *from,
        Act::Join { node, .. } => *node,
        Act::Choose { node, .. } => *node,
        Act::Challenge { node } => *node,
        Act::Activate { node, .. } => *node,
        Act::Kick { node } => *node,
        Act::Inject { node, .. } => *node,
        Act::Bcast { node, .. } => *node,
        Act::Path { from, .. } => *from,
        _ => 0,
    }
}

/// The meter whose joining or renewal an event begins.
pub fn joins(act: &Act) -> Option<u32>
    ensures { result ≡ story_kinds.joins act.now }
{
    match act {
        Act::Join { node, .. } => Some(*node),
        Act::Choose { node, .. } => Some(*node),
        Act::Challenge { node } => Some(*node),
        _ => None,
    }
}

/// The node that an event prepares for a joining.
pub fn prepares(act: &Act) -> Option<u32>
    ensures { result ≡ story_kinds.prepares act.now }
{
    match act {
        Act::Allow { node } => Some(*node),
        Act::RandomOctets { node } => Some(*node),
        _ => None,
    }
}

/// The flight whose story an event goes on with.
pub fn goes_on_with(act: &Act) -> Option<u32>
    ensures { result ≡ story_kinds.goes_on_with act.now }
{
    match act {
        Act::Deliver { flight, .. } => Some(*flight),
        Act::Lose { flight } => Some(*flight),
        _ => None,
    }
}

/// The node that an event is about: the one that does what it says, or hears the frame. The coordinator where it is about no other.
pub fn actor_of(act: &Act) -> u32
    ensures { result ≡ story_kinds.actor_of act.now }
{
    match act {
        Act::Depot { node } => *node,
        Act::Near { a, .. } => *a,
        Act::Counter { node } => *node,
        Act::Number { node } => *node,
        Act::RandomOctets { node } => *node,
        Act::Join { node, .. } => *node,
        Act::Leave { node } => *node,
        Act::Send { from, .. } => *from,
        Act::Deliver { node, .. } => *node,
        Act::Inject { node, .. } => *node,
        Act::Break { node, .. } => *node,
        Act::Restart { node } => *node,
        Act::Cut { node, .. } => *node,
        Act::Show { node } => *node,
        Act::Bcast { node, .. } => *node,
        Act::Scan { node } => *node,
        Act::Choose { node, .. } => *node,
        Act::Path { from, .. } => *from,
        _ => 0,
    }
}

/// The node that may obey at an event: the one that hears a frame, or to which the script itself gives the order.
pub fn obeys_at(act: &Act) -> Option<u32>
    ensures { result ≡ story_kinds.obeys_at act.now }
{
    match act {
        Act::Deliver { node, .. } => Some(*node),
        Act::Inject { node, .. } => Some(*node),
        Act::Activate { node, .. } => Some(*node),
        _ => None,
    }
}

/// Whether an event made a node.
pub fn makes_node(act: &Act) -> bool
    ensures { result ≡ story_kinds.makes_node act.now }
{
    match act {
        Act::Coordinator { .. } => true,
        Act::Meter { .. } => true,
        _ => false,
    }
}

fn is_sent(answer: Answer) -> bool
    ensures { result ≡ story_kinds.is_sent answer }
{
    match answer {
        Answer::Sent => true,
        Answer::Waiting => true,
        _ => false,
    }
}

/// Whether an event is a send: a line `send` that went out or waits.
pub fn sends(act: &Act, answer: Answer) -> bool
    ensures { result ≡ story_kinds.sends act.now answer }
{
    match act {
        Act::Send { .. } => is_sent(answer),
        _ => false,
    }
}

/// Whether a node that a frame is for goes on with it: it answers ok, and not that the unit ends there.
pub fn takes_on(answer: Answer) -> bool
    ensures { result ≡ story_kinds.takes_on answer }
{
    match answer {
        Answer::Left => true,
        Answer::Broken => true,
        Answer::Challenged => true,
        Answer::Activated => true,
        Answer::Up => true,
        Answer::Held => true,
        Answer::Relayed => true,
        Answer::Answered => true,
        Answer::Learned => true,
        Answer::Carried => true,
        Answer::Replied => true,
        Answer::Took => true,
        Answer::Noted => true,
        Answer::Declined => true,
        Answer::Keyed => true,
        Answer::Done => true,
        Answer::Acked => true,
        Answer::Bup => true,
        Answer::Beacon => true,
        Answer::Beaconed => true,
        Answer::Path => true,
        _ => false,
    }
}

/// Whether a unit ended at a node, which reported that to its origin.
pub fn is_reported(answer: Answer) -> bool
    ensures { result ≡ story_kinds.is_reported answer }
{
    match answer {
        Answer::Reported => true,
        _ => false,
    }
}

/// Whether a datagram ended at a node that had accepted its frame, and nobody was told.
pub fn is_dropped(answer: Answer) -> bool
    ensures { result ≡ story_kinds.is_dropped answer }
{
    match answer {
        Answer::NoRoute => true,
        Answer::HopsSpent => true,
        Answer::CounterSpent => true,
        Answer::BufferFull => true,
        Answer::BadUnit => true,
        _ => false,
    }
}

/// Whether the counter of a frame that is answered so is taken: a frame of the same sender with a counter that is not above it is refused from then on.
pub fn takes_counter(answer: Answer) -> bool
    ensures { result ≡ story_kinds.takes_counter answer }
{
    match answer {
        Answer::NotForMe => false,
        Answer::Halted => false,
        Answer::Store => false,
        Answer::NoKey => false,
        Answer::BadTag => false,
        Answer::Replayed => false,
        Answer::PeersFull => false,
        _ => true,
    }
}

/// Whether a frame came to a node that it is not for, as most do.
pub fn is_for_another(answer: Answer) -> bool
    ensures { result ≡ story_kinds.is_for_another answer }
{
    match answer {
        Answer::NotForMe => true,
        _ => false,
    }
}

/// Whether something was refused, and not since its frame is for another node; a forged frame too.
pub fn is_refused(answer: Answer) -> bool
    ensures { result ≡ story_kinds.is_refused answer }
{
    !answer.is_ok() && !is_for_another(answer)
}

/// Whether a meter was not let in.
pub fn is_declined(answer: Answer) -> bool
    ensures { result ≡ story_kinds.is_declined answer }
{
    match answer {
        Answer::Declined => true,
        _ => false,
    }
}

/// Whether a meter obeyed: it seals with another key, or left.
pub fn is_heeded(answer: Answer) -> bool
    ensures { result ≡ story_kinds.is_heeded answer }
{
    match answer {
        Answer::Activated => true,
        Answer::Left => true,
        _ => false,
    }
}

/// Whether a path request was answered, at the node that had sent it.
pub fn is_path(answer: Answer) -> bool
    ensures { result ≡ story_kinds.is_path answer }
{
    match answer {
        Answer::Path => true,
        _ => false,
    }
}

/// Whether joining messages stay with a story of this kind.
pub fn keeps_joinings(kind: StoryKind) -> bool
    ensures { result ≡ story_kinds.keeps_joinings kind }
{
    match kind {
        StoryKind::Joining => true,
        StoryKind::Renewal => true,
        StoryKind::Order => true,
        _ => false,
    }
}

/// Whether a story is one of what happens on the line by itself.
pub fn is_line(kind: StoryKind) -> bool
    ensures { result ≡ story_kinds.is_line kind }
{
    match kind {
        StoryKind::Line => true,
        _ => false,
    }
}

/// Whether a story is that of the setup.
pub fn is_setup_kind(kind: StoryKind) -> bool
    ensures { result ≡ story_kinds.is_setup_kind kind }
{
    match kind {
        StoryKind::Setup => true,
        _ => false,
    }
}

/// Whether a node holds a piece of a datagram now.
pub fn is_piece_held(answer: Answer) -> bool
    ensures { result ≡ story_kinds.is_piece_held answer }
{
    match answer {
        Answer::Held => true,
        _ => false,
    }
}
