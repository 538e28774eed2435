//! That a report tells its replies, as the contract of a function that does nothing.

ghost use Rattle.trace_csv.specs.OneReport.{OneDrawnReport, OneMarkedReport, OneReport};

/// Two lists of replies with one report are equal, whatever their summaries and however large the numbers of
/// one of them, where the identifiers of the other have 64 bits.
pub fn one_report_of_replies()
    ensures { OneReport }
{}

/// Two reports with workers that are equal have equal replies and workers, as far as the numbers of one of
/// them have 64 bits.
pub fn one_drawn_report_of_replies()
    ensures { OneDrawnReport }
{}

/// Two reports with marks that are equal have equal replies and marks, where the identifiers of one of them
/// have 64 bits and no full line is marked.
pub fn one_marked_report_of_replies()
    ensures { OneMarkedReport }
{}
