//! What `lift` makes a timed plan of is a stepped plan of the pair. Laws alone, there is no code here.

ghost use Rattle.laws_answers.specs.Lifted.{AcceptedIsStepped, LiftedIsStepped};

/// The calls of a plan of the printed translation are a stepped plan of the pair, once rounds of events are dropped.
pub fn accepted_is_stepped()
    ensures { AcceptedIsStepped }
{}

/// What `lift` writes with the status Valid is the timed plan of a stepped plan of the pair.
pub fn lifted_is_stepped()
    ensures { LiftedIsStepped }
{}
