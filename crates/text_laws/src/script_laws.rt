//! The laws of the language of scripts: each carried by a function that does nothing.
ghost use Rattle.text_laws.specs.ScriptLaws.{CaseIsNotRead, OneLineForAnEvent, OnlyLinesAreRead};

/// A line is read as an event exactly where the event's fields are in their ranges and the line is the one that `push_line` writes for it: its
/// kind's word and its fields, with numbers in decimal without leading zeros and one space between two words. Only the hexadecimal digits of
/// its octets may be in either case.
pub fn only_lines_are_read()
    ensures { OnlyLinesAreRead }
{}

/// The case of hexadecimal digits makes no difference to what is read: a bad line is bad in either case.
pub fn case_is_not_read()
    ensures { CaseIsNotRead }
{}

/// So two lines that are read as one event differ in the case of hexadecimal digits alone.
pub fn one_line_for_an_event()
    ensures { OneLineForAnEvent }
{}
