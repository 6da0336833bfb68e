//! The law of all lines, carried by a function that does nothing.
ghost use Rattle.line_script.specs.Laws.{LinesAreReadBack};

/// A line can say each event whose fields are in their ranges: it is read back from its kind's word and its fields, with numbers
/// in decimal, octets in lower case and one space between two words.
#[tactic(auto)]
pub fn lines_are_read_back()
    ensures { LinesAreReadBack }
{}
