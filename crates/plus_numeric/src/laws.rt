//! What a reader of an answer may rely on, over the definitions alone.
ghost use Rattle.plus_numeric.specs.Laws.{OneRefusal, NotBoth, PassingIsPlan, BreachIsNone};

/// Two refusals of one text have the same line.
pub fn one_refusal()
    ensures { OneRefusal }
{}

/// No text is accepted and refused.
pub fn not_both()
    ensures { NotBoth }
{}

/// Where all tests pass, the lines of the text are a plan.
pub fn passing_is_plan()
    ensures { PassingIsPlan }
{}

/// Where the first test that fails is a breach, there is no plan.
pub fn breach_is_none()
    ensures { BreachIsNone }
{}
