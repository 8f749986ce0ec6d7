//! Laws of what is written.
ghost use Rattle.plus_drawing.specs.MarkupLaws.{TextsAreNoMarkup};

// No text is taken for markup, whatever it says.
pub fn texts_are_no_markup()
    ensures { TextsAreNoMarkup }
{}
