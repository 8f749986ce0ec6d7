//! What a reader of an answer may rely on, over the definitions alone.
ghost use Rattle.plus_validator.specs.Laws.{PairOrPlan, OneLine, OneAnswer, OneJudgement, JudgedAsChecked, CheckedAsJudged, CountsFit, TameDecides, InvalidIsNone, Decides, ValidIsTame, InOrderIsTame, InvalidIsTame};
ghost use Rattle.plus_validator.specs.KeepingUp.{MoreTellsMore, ReadsOnePieceAhead};

/// Where the pair is refused, no plan for it is accepted or refused.
pub fn pair_or_plan()
    ensures { PairOrPlan }
{}

/// A pair that is not grounded is refused with one line.
pub fn one_line()
    ensures { OneLine }
{}

/// The bytes of a plan text have one answer: one outcome, and one report with its verdict line.
pub fn one_answer()
    ensures { OneAnswer }
{}

/// A plan text has one judgement: one outcome, one verdict line, as many moments and as many events.
pub fn one_judgement()
    ensures { OneJudgement }
{}

/// A judgement is an answer of the check: its outcome, and a report behind which the verdict's line stands.
pub fn judged_as_checked()
    ensures { JudgedAsChecked }
{}

/// Each answer of the check has the outcome and the line of the judgement.
pub fn checked_as_judged()
    ensures { CheckedAsJudged }
{}

/// A history has no more moments and events than its report has bytes.
pub fn counts_fit()
    ensures { CountsFit }
{}

/// A plan that stays inside the limits is refused only by a breach, or by a line out of its place.
pub fn tame_decides()
    ensures { TameDecides }
{}

/// A plan that is refused as invalid has no trajectory.
pub fn invalid_is_none()
    ensures { InvalidIsNone }
{}

/// A plan that stays inside the limits is valid and has a trajectory, or is invalid and has none.
pub fn decides()
    ensures { Decides }
{}

/// An accepted plan stays inside the limits.
pub fn valid_is_tame()
    ensures { ValidIsTame }
{}

/// Lines in order with times that are values stay inside the limits where they do at the text's end.
pub fn in_order_is_tame()
    ensures { InOrderIsTame }
{}

/// A plan that is refused as invalid stays inside the limits.
pub fn invalid_is_tame()
    ensures { InvalidIsTame }
{}

/// What the whole lines of a text tell is a beginning of what they tell with more.
pub fn more_tells_more()
    ensures { MoreTellsMore }
{}

/// Where the reading keeps up, it is one piece at most behind any first lines whose report is not out.
pub fn reads_one_piece_ahead()
    ensures { ReadsOnePieceAhead }
{}
