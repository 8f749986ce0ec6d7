//! What `plan` writes is accepted by `check`, over two calls of the program. Laws alone, there is no code here.

ghost use Rattle.laws_answers.specs.Chained.{FewDecisionsHaveRoom, FewParametersHaveShortLines, CheckAcceptsPlan};

use laws_found::calls::{found_plan_is_called, texts_have_plain_names};
use laws_found::checked::{few_parameters_have_room, what_plan_writes_is_accepted};
use laws_found::text::written_plan_reads_back;
use plus_run::laws::one_answer;

/// The plan of at most 64 decisions that `plan` writes is within the length of a text, where each of its lines is within that of a line.
pub fn few_decisions_have_room()
    ensures { FewDecisionsHaveRoom }
{
    texts_have_plain_names();
    found_plan_is_called();
    written_plan_reads_back();
}

/// Each of its lines is within that of a line, where no action of the domain has more than 61 parameters.
pub fn few_parameters_have_short_lines()
    ensures { FewParametersHaveShortLines }
{
    few_parameters_have_room();
}

/// Where `plan` is answered as valid, a check of what it wrote over the same two files is answered as valid, or tells of a fault or of
/// want of memory.
pub fn check_accepts_plan()
    ensures { CheckAcceptsPlan }
{
    what_plan_writes_is_accepted();
    few_decisions_have_room();
    one_answer();
}
