//! The printed translation of a domain and a problem reads again as the translated pair: laws alone, there is no code
//! here.

ghost use Rattle.laws_translation.specs.Laws.{TranslationReadsAgain, SpellsWithinItsDepth, FewInText};

/// The canonical texts of a translated pair spell it again, but for spans.
pub fn translation_reads_again()
    ensures { TranslationReadsAgain }
{}

/// A text that nests to a depth spells within that depth what it spells.
pub fn spells_within_its_depth()
    ensures { SpellsWithinItsDepth }
{}

/// A domain that a text in memory spells has few events and variables.
pub fn few_in_text()
    ensures { FewInText }
{}
