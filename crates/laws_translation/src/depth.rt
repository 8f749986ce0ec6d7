//! The depth of a translation: that of its trees is that of its texts. A law alone, there is no code here.

ghost use Rattle.laws_translation.specs.Depth.Laws.{TranslationDepth};

/// The trees of a translation are within the depth by their shape exactly where its texts are.
pub fn translation_depth()
    ensures { TranslationDepth }
{}
