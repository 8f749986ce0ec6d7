//! The laws of reports, over the definitions alone.
ghost use Rattle.plus_report.specs.ReportLaws.{ReportGrows, ReportStays};
ghost use Rattle.plus_report.specs.Rows.{DoorRow, TankRow, MixRow, TimedRow};

/// One more part adds its text to the report.
pub fn report_grows()
    ensures { ReportGrows }
{}

/// Lines that come later in the plan change nothing in the report of what was done before.
pub fn report_stays()
    ensures { ReportStays }
{}

/// A row over atoms: a door is unlocked and opened.
pub fn door_row()
    ensures { DoorRow }
{}

/// A row with an event, a process and a fluent: a tank fills up.
pub fn tank_row()
    ensures { TankRow }
{}

/// A row with fractions: an action changes two values.
pub fn mix_row()
    ensures { MixRow }
{}

/// A row with timed literals.
pub fn timed_row()
    ensures { TimedRow }
{}
