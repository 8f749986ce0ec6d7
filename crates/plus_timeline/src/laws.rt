//! What a caller that plays a plan may rely on, over the definitions alone.
ghost use Rattle.plus_timeline.specs.Rows.{RampRow};
ghost use Rattle.plus_timeline.specs.AskedLaws.{AskedStays, AdvanceFirst, LineBehind};
ghost use Rattle.plus_timeline.specs.Laws.{ActFollows, ActBreaks, AdvanceFollows, DoneIsWorked, AdvanceBreaks, FinishBreaks};

use plus_number::exact::Exact;

// An `advance` up to the time of the next line adds a part that may come next, or nothing is left to do before that line.
pub fn advance_follows<Q: Exact>()
    ensures { AdvanceFollows Q.value }
{}

// Where nothing is left to do and no action comes, the lines are worked.
pub fn done_is_worked()
    ensures { DoneIsWorked }
{}

// A breach that such an `advance` names stands in the history.
pub fn advance_breaks<Q: Exact>()
    ensures { AdvanceBreaks Q.value }
{}

// Where the lines are worked, so does a goal that fails.
pub fn finish_breaks()
    ensures { FinishBreaks }
{}

// An `act` with the action of the next line, at its time, adds that act.
pub fn act_follows()
    ensures { ActFollows }
{}

// A breach that such an `act` names stands in the history.
pub fn act_breaks<Q: Exact>()
    ensures { ActBreaks Q.value }
{}

// What is asked at a history from which a part comes next stays the same whatever lines follow.
pub fn asked_stays()
    ensures { AskedStays }
{}

// What `advance` asks up to the time of the next line stands first in what is asked.
pub fn advance_first()
    ensures { AdvanceFirst }
{}

// Where nothing is due and time goes no further, the tests of the next line follow.
pub fn line_behind()
    ensures { LineBehind }
{}

// A worked row: what is asked along a running set up to the first moment of an event.
pub fn ramp_row()
    ensures { RampRow }
{}
