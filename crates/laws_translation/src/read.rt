//! What `translate` hands out is read again from its printed texts, and what plans they have. Laws alone, there is no code here.

ghost use Rattle.laws_translation.specs.Read.Laws.{TranslationIsRead, ReadPlans};

/// The printed translation of a pair that texts spell is read again as the translated pair.
pub fn translation_is_read()
    ensures { TranslationIsRead }
{}

/// The plans of what is read from it are the stepped plans of the old pair.
pub fn read_plans()
    ensures { ReadPlans }
{}
