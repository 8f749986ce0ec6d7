//! Worked rows of what is ground, each a proved fact: a pair with subtypes, a constant, an empty type, a process and an
//! event, its ground form worked by hand, and timed literals. They show that the definitions of `plus_expansion`
//! say what they are meant to say.

ghost use Rattle.rows.specs.Expansion.Counts.{CountRows};
ghost use Rattle.rows.specs.Expansion.Ground.{ObjectRows, NumberRows, ProblemRows, TimedRows, CallRows, ConditionRows, ExpressionRows, SizeRows};

/// The objects of each type, and the choices of objects for variables.
pub fn object_rows()
    ensures { ObjectRows }
{}

/// The numbers and labels of ground atoms and fluents.
pub fn number_rows()
    ensures { NumberRows }
{}

/// Processes, events, the initial state and the goal.
pub fn problem_rows()
    ensures { ProblemRows }
{}

/// Timed literals, by their times and then by the text.
pub fn timed_rows()
    ensures { TimedRows }
{}

/// The instance of a call, its refusals, and the order of instances.
pub fn call_rows()
    ensures { CallRows }
{}

/// Connectives, quantifiers and negations, and what a variable stands for.
pub fn condition_rows()
    ensures { ConditionRows }
{}

/// Sums and products of several operands, and a minus sign.
pub fn expression_rows()
    ensures { ExpressionRows }
{}

/// Nodes, counts and literals.
pub fn size_rows()
    ensures { SizeRows }
{}

/// The six counts in their order with their limits: a limit may be reached and not passed.
pub fn count_rows()
    ensures { CountRows }
{}
