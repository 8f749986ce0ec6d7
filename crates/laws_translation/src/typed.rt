//! The translated pair is well typed, and when: laws alone, there is no code here.

ghost use Rattle.laws_translation.specs.Typed.Laws.{TranslationIsTyped, TypedIsApart};

/// The translated pair is well typed, where no list around a rate of a process binds a variable that its condition binds.
pub fn translation_is_typed()
    ensures { TranslationIsTyped }
{}

/// It is so only there.
pub fn typed_is_apart()
    ensures { TypedIsApart }
{}
