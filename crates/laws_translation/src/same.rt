//! Pairs that are equal but for spans mean the same: a law alone, there is no code here.

ghost use Rattle.laws_translation.specs.Same.Laws.{SpansMeanNothing};

/// Pairs that are equal but for spans are both well typed or both not, and stand for the same ground forms.
pub fn spans_mean_nothing()
    ensures { SpansMeanNothing }
{}
