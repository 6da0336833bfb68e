//! Laws of rings and books. Each is the contract of a function that does nothing.
ghost use Rattle.group_keys.specs.Laws.{RingsLead, AHeldEntryChangesNothing, AnEntryIsFound, ChangesLead};

/// After a ring was stored it is what the records give, and where its put failed some ring is.
pub fn rings_lead()
    ensures { RingsLead }
{}

/// An entry that the book has is no change of it, and puts nothing.
pub fn a_held_entry_changes_nothing()
    ensures { AHeldEntryChangesNothing }
{}

/// After an entry was written it is the one of its meter, at the address that the meter had or at the next one, and the entries
/// and addresses of other meters stay.
pub fn an_entry_is_found()
    ensures { AnEntryIsFound }
{}

/// After an entry was stored the book is what the records give, and where its put failed some book is.
pub fn changes_lead()
    ensures { ChangesLead }
{}
