//! A law of pages: it stands as the contract of a function that does nothing.
ghost use Rattle.run_pages.specs.Laws.{PagesAreWhole};

/// After the type of the document, a page closes all that it opens, and nothing else, whatever the script and its comments hold.
pub fn pages_are_whole()
    ensures { PagesAreWhole }
{}
