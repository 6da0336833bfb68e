//! Which joining messages an agent carries, and which way.
ghost use Rattle.std.specs.Prelude.{◌≡◌};
ghost use Rattle.meter_node.specs.JoiningRelay.{goes_up, goes_down};

use joining_messages::JoinBody;

/// Whether an agent carries a message with this body up: a JOIN.
pub(crate) fn goes_up(body: &JoinBody) -> bool
    ensures { result ≡ goes_up body.now }
{
    matches!(body, JoinBody::Join { .. })
}

/// Whether an agent carries a message with this body down: a CHALLENGE, an ACCEPT or a DECLINE.
pub(crate) fn goes_down(body: &JoinBody) -> bool
    ensures { result ≡ goes_down body.now }
{
    matches!(
        body,
        JoinBody::Challenge { .. } | JoinBody::Accept { .. } | JoinBody::Decline
    )
}
