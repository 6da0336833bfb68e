//! Why a packet is refused.
ghost use Rattle.std.specs.Prelude.{◌≡◌};

use plc_base::Ended;
use thiserror::Error;

/// Why a packet is refused. Where several hold, the first of this list is answered.
#[derive(Clone, Copy, Debug, PartialEq, Eq, Drop, Error)]
pub enum EapFault {
    /// The packet is not the awaited message: its code, identifier, length, type, message number or nonce is another, or a reserved
    /// bit is set.
    #[error("not the awaited message")]
    Form,
    /// RAND_S or ID_P is not the session's.
    #[error("a message of another session")]
    OtherSession,
    /// MAC_P or MAC_S is wrong: the other end does not hold the pair key.
    #[error("a wrong message authentication code")]
    BadMac,
    /// The tag of the protected channel is wrong.
    #[error("a wrong tag of the protected channel")]
    BadChannel,
    /// The channel's text does not say success, or grants nothing that can be read.
    #[error("no success in the protected channel")]
    NoSuccess,
}

impl From<Ended> for EapFault {
    ghost use Rattle.eap_psk.specs.declared.fault.EapFault.TheVariants.{Form};

    ghost from_gives = { λ _ f. f ≡ Form };

    fn from(_e: Ended) -> EapFault {
        EapFault::Form
    }
}
