//! What was taken at a fault of the sink, or at want of memory, begins what a whole answer has. Laws alone, there is no code here.

ghost use Rattle.laws_answers.specs.Beginnings.{ToldOnWayBegins, Beginnings};

/// What first lines of a plan text tell begins the one report that the text has with its verdict line.
pub fn told_on_way_begins()
    ensures { ToldOnWayBegins }
{}

/// What the sink took in an answer that was cut short begins what it took in one that tells of no fault.
pub fn beginnings()
    ensures { Beginnings }
{}
