//! Worked rows of the definitions, each a proved fact.
ghost use Rattle.plus_translation.specs.Rows.{HalfTexts, LiteralTexts, EarlyTexts, FourSteps, TwoSteps, HalfSteps};

/// The canonical texts of the tank's translation in steps of 1/2.
pub fn half_texts()
    ensures { HalfTexts }
{}

/// The canonical texts in steps of 1, with literals that come later: a clock counts the steps.
pub fn literal_texts()
    ensures { LiteralTexts }
{}

/// The text of the problem where all literals come at time 0.
pub fn early_texts()
    ensures { EarlyTexts }
{}

/// A plan of the translation with literals, and the stepped plan that it leaves.
pub fn four_steps()
    ensures { FourSteps }
{}

/// Where the goal does not hold at the end, there is no plan.
pub fn two_steps()
    ensures { TwoSteps }
{}

/// A plan of the translation with a round of events, and the stepped plan that it leaves.
pub fn half_steps()
    ensures { HalfSteps }
{}
