//! What `?` makes of a node that was not opened.
ghost use Rattle.std.specs.Prelude.{◌≡◌};

use crate::station::OpenFault;

impl<K: Drop> From<(OpenFault, K)> for OpenFault {
    ghost from_gives = { λ unopened fault. fault ≡ unopened.0 };

    /// The fault alone, so that `?` hands it on. The keeper that came back with it is let go.
    fn from(unopened: (OpenFault, K)) -> OpenFault {
        unopened.0
    }
}
