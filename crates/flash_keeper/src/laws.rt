//! Laws over runs of a store. Each is the contract of a function that does nothing.
ghost use Rattle.flash_keeper.specs.Check.{ChangedOctetIsSeen, ChangedSlotIsSeen};
ghost use Rattle.flash_keeper.specs.Runs.{HoldsWhatWasPut, EachOpeningIsTheSame};

/// Over any puts, losses of power at any moment, and openings: a slot has the record that was last put there, or, from the next opening on,
/// that of a put which failed after it.
pub fn a_slot_has_what_was_put()
    ensures { HoldsWhatWasPut }
{}

/// What an opening finds each later one finds, until a put.
pub fn each_opening_is_the_same()
    ensures { EachOpeningIsTheSame }
{}

/// A change within one octet of a record gives it another check, so an opening sees it.
pub fn a_changed_octet_is_seen()
    ensures { ChangedOctetIsSeen }
{}

/// So does a change of the slot or the length.
pub fn a_changed_slot_is_seen()
    ensures { ChangedSlotIsSeen }
{}
