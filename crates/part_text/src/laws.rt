//! That what is printed is read, as a function whose contract states it.

ghost use Rattle.part_text.specs.Told.{ReportsAreRead};

/// Printed reports, one after another and each perhaps with counts, are read by `read_reports` as what was printed.
pub fn reports_are_read()
    ensures { ReportsAreRead }
{}
