//! The law of the format.
ghost use Rattle.host_calls.specs.Items.{ItemsAreReadBack, SpellingsAreUnique};

/// Items that were written one after another are read back: the first of them, and then the others. So octets are the spelling of one list
/// of items at most.
pub fn items_are_read_back()
    ensures back { ItemsAreReadBack }
    ensures unique { SpellingsAreUnique }
{}
