//! Laws of pages: each stands as the contract of a function that does nothing.
ghost use Rattle.markup.specs.FrameLaws.{EndsMeet, PagesNest};

/// After the type of the document, a page closes all that it opens, and nothing else, whatever its title holds, where its content does.
pub fn pages_nest()
    ensures { PagesNest }
{}

/// What is before the content, the content, and what is after it are the page.
pub fn ends_meet()
    ensures { EndsMeet }
{}
