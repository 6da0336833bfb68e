//! Laws of markup that is put together: each stands as the contract of a function that does nothing.
ghost use Rattle.markup.specs.PartLaws.{MarkupsAreContent};

/// All markup closes what it opens, and nothing else, whatever its texts and attributes hold.
pub fn markups_are_content()
    ensures { MarkupsAreContent }
{}
