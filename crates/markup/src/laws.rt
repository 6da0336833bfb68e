//! Laws of markup, over its definitions alone: each stands as the contract of a function that does nothing.
ghost use Rattle.markup.specs.Laws.{TextsAreContent, LeavesAreContent, ElementsAreContent, RawElementsAreContent, ContentsJoin};

/// A text opens nothing and closes nothing, whatever it holds.
pub fn texts_are_content()
    ensures { TextsAreContent }
{}

/// An element without content, with any attributes, opens nothing and closes nothing.
pub fn leaves_are_content()
    ensures { LeavesAreContent }
{}

/// An element closes what it opens, where what is in it does.
pub fn elements_are_content()
    ensures { ElementsAreContent }
{}

/// So does a style or a script, which what is in it does not end.
pub fn raw_elements_are_content()
    ensures { RawElementsAreContent }
{}

/// What closes all that it opens may follow its like.
pub fn contents_join()
    ensures { ContentsJoin }
{}
