//! Where no cause of a refusal stands, an answer is that it is valid. Laws alone, there is no code here.

ghost use Rattle.laws_answers.specs.Complete.{Complete};

/// Where no cause of a refusal stands, an answer that tells of no fault and of no want of memory is that it is valid.
pub fn complete()
    ensures { Complete }
{}
