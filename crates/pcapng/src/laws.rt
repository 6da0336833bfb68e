//! Laws of captures, over their definitions alone: each stands as the contract of a function that does nothing.
ghost use Rattle.pcapng.specs.Laws.{CapturesAreReadBack, CapturesAreAligned};

/// The blocks that octets spell are read out of them, with all their options.
pub fn captures_are_read_back()
    ensures { CapturesAreReadBack }
{}

/// Each block has a multiple of four octets.
pub fn captures_are_aligned()
    ensures { CapturesAreAligned }
{}
