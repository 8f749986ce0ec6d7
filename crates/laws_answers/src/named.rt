//! The numbers that the words of a command name are inside their bounds. Laws alone, there is no code here.

ghost use Rattle.laws_answers.specs.Named.{PlanIsNamed, LiftIsNamed, TranslateIsNamed};

/// Each interval that the words name is above 0 and a number of the program, and a plan has at most 64 decisions.
pub fn words_are_within()
    ensures plan { PlanIsNamed }
    ensures lift { LiftIsNamed }
    ensures translate { TranslateIsNamed }
{}
