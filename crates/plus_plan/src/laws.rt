//! Laws of lines, each the contract of a function that does nothing.

ghost use Rattle.std.specs.Prelude.{◌≡◌, ◌<◌, ◌∷◌, ◌++◌, ◌↔◌, ℕ, false, true, List, [], drop, length, map, Ok};
ghost use Rattle.plus_plan.specs.Cut.{line_from, lines_of, next_line};
ghost use Rattle.plus_plan.specs.Given.{HasGiven, GoesOnWith};
ghost use Rattle.plus_plan.specs.Lines.{plan_lines, read_line};
ghost use Rattle.plus_plan.specs.Pending.{Pending};
ghost use Rattle.plus_plan.specs.Pieces.{fresh, fed, at_end, without_line, IsIdle, IsNext};
ghost use Rattle.plus_plan.specs.Place.{IsFault, IsPlace};
ghost use Rattle.plus_plan.specs.Spells.{Spells};
ghost use Rattle.plus_plan.specs.declared.faults.PlanFault.{PlanFault};
ghost use Rattle.plus_plan.specs.declared.forms.Line.{Line};
ghost use Rattle.plus_plan.specs.declared.forms.PlanForm.{PlanForm};
ghost use Rattle.plus_tokens.specs.declared.span.Span.{Span};

/// No bytes spell two lines.
pub fn one_line()
    ensures { (form : PlanForm) (n : ℕ) (bytes : List ℕ) (l m : Line)
        → Spells form n l bytes → Spells form n m bytes → l ≡ m }
{}

/// What is read of a line is what its bytes spell.
pub fn read_as_spelled()
    ensures { (form : PlanForm) (n : ℕ) (bytes : List ℕ) (l : Line)
        → (read_line form n bytes ≡ Ok l) ↔ Spells form n l bytes }
{}

/// A line that is refused is refused for its one cause, at the place behind the longest front of
/// its tokens with which some line begins.
pub fn refused_in_its_place()
    ensures { (form : PlanForm) (n : ℕ) (bytes : List ℕ) (e : PlanFault)
        → read_line form n bytes ≡ Err e → IsFault form n bytes e }
{}

/// The lines of a text from an offset on are the one that begins there and those from the next on.
pub fn lines_one_by_one()
    ensures { (text : List ℕ) (from : ℕ) → from < length text
        → lines_of (drop from text) ≡ line_from text from ∷ lines_of (drop (next_line text from) text) }
{}

/// No line has two such places.
pub fn one_place()
    ensures { (form : PlanForm) (n : ℕ) (bytes : List ℕ) (s t : Span)
        → IsPlace form n bytes s → IsPlace form n bytes t → s ≡ t }
{}

/// However a text is cut into pieces, the lines of all that it may become begin with those given and
/// go on with those that wait.
pub fn any_cutting()
    ensures { (form : PlanForm) (text : List ℕ) (lines : List Line) (r : Pending)
        → HasGiven form text lines r → GoesOnWith form text lines r }
{}

/// What is taken, the end of the text, and a line that is given, among fewer than 2^32 bytes, keep it that
/// the lines given are the first of the text; and at its end they are all.
pub fn lines_given()
    ensures none { (form : PlanForm) → HasGiven form [] [] (fresh form) }
    ensures taken { (form : PlanForm) (text piece : List ℕ) (lines : List Line) (r : Pending)
        → HasGiven form text lines r → r.closed ≡ false → HasGiven form (text ++ piece) lines (fed r piece) }
    ensures ended { (form : PlanForm) (text : List ℕ) (lines : List Line) (r : Pending)
        → HasGiven form text lines r → r.closed ≡ false → HasGiven form text lines (at_end r) }
    ensures given { (form : PlanForm) (text : List ℕ) (lines : List Line) (r : Pending) (line : Line)
        → HasGiven form text lines r → length text < 4294967294 → IsNext r line
        → HasGiven form text (lines ++ line ∷ []) (without_line r) }
    ensures all { (form : PlanForm) (text : List ℕ) (lines : List Line) (r : Pending)
        → HasGiven form text lines r → r.closed ≡ true → IsIdle r → plan_lines form text ≡ map Ok lines }
{}
