//! A timed plan as a text: what is written of it reads back as that plan.

ghost use Rattle.std.specs.Prelude.{◌≡◌, All, List};
ghost use Rattle.plus_fraction.specs.Fraction.{Fraction};
ghost use Rattle.laws_found.specs.Text.Rows.{WrittenRow, EmptyRow, ReadRow};
ghost use Rattle.laws_found.specs.Text.Written.{TimedCall, IsPlanTime, IsPlainCall, HasFewArguments, written_plan, HasShortLines, ReadsAs};

/// What is written of a plan of plain calls reads back as that plan, where no line is too long.
pub fn written_plan_reads_back()
    ensures { (calls : List TimedCall) (last : Fraction)
        → All IsPlainCall calls → IsPlanTime last → HasShortLines (written_plan calls last)
        → ReadsAs calls last (written_plan calls last) }
{}

/// No line is too long where no call has more than 61 arguments.
pub fn few_arguments_have_room()
    ensures { (calls : List TimedCall) (last : Fraction)
        → All IsPlainCall calls → All HasFewArguments calls → IsPlanTime last
        → HasShortLines (written_plan calls last) }
{}

/// No two plans are written alike.
pub fn one_written_plan()
    ensures { (calls calls' : List TimedCall) (last last' : Fraction)
        → All IsPlainCall calls → IsPlanTime last → All IsPlainCall calls' → IsPlanTime last'
        → HasShortLines (written_plan calls last) → written_plan calls last ≡ written_plan calls' last'
        → (calls ≡ calls') × (last ≡ last') }
{}

/// Two plans, byte by byte, and the lines of the first.
pub fn plan_rows()
    ensures written { WrittenRow }
    ensures empty { EmptyRow }
    ensures read { ReadRow }
{}
