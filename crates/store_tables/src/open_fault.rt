//! Why a table is not opened.
ghost use Rattle.std.specs.Prelude.{◌≡◌};

use plc_base::BadStore;
use std::alloc::AllocError;
use thiserror::Error;

/// Why a table is not opened.
#[derive(Clone, Copy, Debug, PartialEq, Eq, Error)]
pub enum OpenFault {
    /// There is no memory for it.
    #[error("out of memory")]
    Memory,
    /// A record of it has no reading, or was lost: a later one is there.
    #[error("{0}")]
    BadStore(BadStore),
}

impl From<AllocError> for OpenFault {
    ghost use Rattle.store_tables.specs.declared.open_fault.OpenFault.TheVariants.{Memory};

    ghost from_gives = { λ _ f. f ≡ Memory };

    fn from(_e: AllocError) -> OpenFault {
        OpenFault::Memory
    }
}

impl From<BadStore> for OpenFault {
    ghost use Rattle.store_tables.specs.declared.open_fault.OpenFault.TheVariants.{BadStore};

    ghost from_gives = { λ bad f. f ≡ BadStore bad };

    fn from(bad: BadStore) -> OpenFault {
        OpenFault::BadStore(bad)
    }
}
