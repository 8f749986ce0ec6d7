//! There is an answer. Laws alone, there is no code here.

ghost use Rattle.laws_answers.specs.Existing.{PairOrRefusal, OneAnswerExists};

/// Any two texts spell a well-typed pair, or one line says why not.
pub fn pair_or_refusal()
    ensures { PairOrRefusal }
{}

/// Where the shelf tells the files, `show`, `numeric`, `translate` and words that are no command have exactly one answer that tells of
/// no fault and of no want of memory.
pub fn one_answer_exists()
    ensures { OneAnswerExists }
{}
