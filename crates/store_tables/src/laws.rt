//! Laws of puts one after another, and of the keys of a table. Each is the contract of a function that does nothing.
ghost use Rattle.store_tables.specs.Laws.{WritesCompose, WritesStop, APrefixIsWritten, OtherSlotsStay, APutStaysInItsSlot, SortedKeysFindAll};

/// The puts of one list after those of another are those of both lists; where one of the first list failed, none of the
/// second is made.
pub fn writes_compose()
    ensures compose { WritesCompose }
    ensures stop { WritesStop }
{}

/// Whatever becomes of puts, a prefix of them is made, and all of them where none failed.
pub fn a_prefix_is_written()
    ensures { APrefixIsWritten }
{}

/// Puts at other slots leave the record of a slot, whatever becomes of them.
pub fn other_slots_stay()
    ensures slots { OtherSlotsStay }
    ensures outside { APutStaysInItsSlot }
{}

/// The sorted keys of a table, looked up one by one, give its entries in the order of their keys.
pub fn sorted_keys_find_all<A>()
    ensures { SortedKeysFindAll A }
{}
