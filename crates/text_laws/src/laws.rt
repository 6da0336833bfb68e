//! The laws of reports: each carried by a function that does nothing.
ghost use Rattle.text_laws.specs.Laws.{LinesAreInRange, OneLineForAText, OneOutcomeForAReport, OneReportForAText, OneRunForAReport, ReportsAreLines};

/// Two lines of a report that have the same text are the same line: of the same kind, with the same fields. Their numbers have 32 bits, their
/// addresses two octets, and their octets are octets.
pub fn one_line_for_a_text()
    ensures { OneLineForAText }
{}

/// Two lists of such lines that have the same text are the same list, since each line ends in the only line feed that it has.
pub fn one_report_for_a_text()
    ensures { OneReportForAText }
{}

/// What `line_script` writes into a report is the text of such lines: of an event (`happened_text`), of a node that is shown (`node_text`), of a
/// flight (`fly_text`), of a bad line (`bad_text`) and of the end (`end_text`).
pub fn reports_are_lines()
    ensures { ReportsAreLines }
{}

/// These lines are in their ranges where what they speak of is in the ranges that its types have.
pub fn lines_are_in_range()
    ensures { LinesAreInRange }
{}

/// Two events that are reported by the same text, without their flights, have the same number and the same outcome: the answer, whether it is
/// forged, what was handed up, the agent that was chosen, the answer to a path request, who was allowed, took a grant and is done, and the node
/// that is shown.
///
/// What has no line may differ: the event itself, where its flights begin and how many there are, what is shown at any event but `show`, and all
/// but `halted` of a halted node. A floor of 0 has no line, but the other floors say which ones are 0.
pub fn one_outcome_for_a_report()
    ensures { OneOutcomeForAReport }
{}

/// Two runs whose reports are the same text took as many events, and of each the same is reported: its number, its outcome and its flights, with
/// their numbers, senders and octets. Both ended with the same totals, at the same bad line for the same reason, or both without a last line.
pub fn one_run_for_a_report()
    ensures { OneRunForAReport }
{}
