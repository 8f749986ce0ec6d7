//! The lines of a plan text, by the tokens that spell them. A law alone, there is no code here.

ghost use Rattle.laws_answers.specs.Lines.{LinesAreSpelled};

use plus_plan::laws::read_as_spelled;

/// A plan text has just the lines that its pieces between the LFs spell.
pub fn lines_are_spelled()
    ensures { LinesAreSpelled }
{
    read_as_spelled();
}
