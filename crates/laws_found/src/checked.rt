//! What `plan` writes is accepted by `check`: laws alone, there is no code here.

ghost use Rattle.std.specs.Prelude.{◌≡◌, ◌≤◌, ℕ, Bool, List, pos};
ghost use Rattle.plus_fraction.specs.Fraction.{Fraction, whole, ◌<ℚ◌};
ghost use Rattle.plus_number.specs.declared.frac.Frac64.{Frac64};
ghost use Rattle.plus_state.specs.declared.outcome.TimedPlan.{TimedPlan};
ghost use Rattle.plus_tree.specs.declared.trees.Domain.{Domain};
ghost use Rattle.plus_tree.specs.declared.trees.Problem.{Problem};
ghost use Rattle.plus_plan.specs.declared.forms.Line.{Line};
ghost use Rattle.laws_found.specs.Text.Written.{HasShortLines};
ghost use Rattle.plus_planner.specs.declared.searching.Answer.TheVariants.{Plan};
ghost use Rattle.plus_planner.specs.Places.{most_entries};
ghost use Rattle.plus_plan_command.specs.Planning.Planned.{IsPlanned};
ghost use Rattle.plus_validator.specs.declared.judge.Outcome.{Outcome};
ghost use Rattle.plus_validator.specs.declared.judge.Outcome.TheVariants as outcomes;
ghost use Rattle.plus_validator.specs.Verdicts.{IsAnswered};
ghost use Rattle.plus_reply.specs.Pair.Pair.{SpellsWellTyped};
ghost use Rattle.plus_report.specs.declared.status.Status.TheVariants as statuses;
ghost use Rattle.plus_plan_command.specs.Plan.{answer_text, Plans};
ghost use Rattle.laws_found.specs.Passing.{IsTextOf, InstancesPass};
ghost use Rattle.laws_found.specs.Room.{HasRoom, HasFewParameters, AcceptsText};

use crate::accepted::{grid_plan_is_accepted, grid_plan_is_answered_as_valid};
use crate::calls::{
    actions_are_called, decisions_are_actions, found_plan_is_called, texts_have_plain_names,
};
use crate::text::{few_arguments_have_room, written_plan_reads_back};

/// What `plan` writes with the status Valid, with the cut or without, is accepted by `check` over the same two files, where its text and its lines have
/// room, and as many moments are allowed as in a search or more.
pub fn what_plan_writes_is_accepted()
    ensures { (q : Fraction) (k tries most : ℕ) (cut : Bool) (domain problem written : List ℕ)
        → whole (pos 0) <ℚ q
        → Plans q k tries cut domain problem statuses.Valid written
        → HasRoom written
        → most_entries ≤ most
        → (d : Domain) × (p : Problem) × SpellsWellTyped domain problem d p × AcceptsText d p most written }
{
    found_plan_is_accepted();
}

/// So whatever `check` answers to it is that it is valid.
pub fn what_plan_writes_is_valid()
    ensures { (q : Fraction) (k tries most : ℕ) (cut : Bool) (domain problem written : List ℕ)
        → whole (pos 0) <ℚ q
        → Plans q k tries cut domain problem statuses.Valid written
        → HasRoom written
        → most_entries ≤ most
        → (d : Domain) (p : Problem) → SpellsWellTyped domain problem d p
        → (outcome : Outcome) (bytes : List ℕ) → IsAnswered d p most written outcome bytes → outcome ≡ outcomes.Valid }
{
    found_plan_is_valid();
}

/// A plan that a search finds is accepted as it is written.
pub fn found_plan_is_accepted()
    ensures { (domain problem : List ℕ) (d : Domain) (p : Problem) (q : Fraction) (k tries most : ℕ) (cut : Bool) (plan : TimedPlan Frac64)
        → SpellsWellTyped domain problem d p
        → whole (pos 0) <ℚ q
        → IsPlanned d p q k tries cut (Plan plan)
        → HasRoom (answer_text k (Plan plan))
        → most_entries ≤ most → AcceptsText d p most (answer_text k (Plan plan)) }
{
    found_plan_is_said();
    grid_plan_is_accepted();
}

/// And whatever a check of it answers, it is that the plan is valid.
pub fn found_plan_is_valid()
    ensures { (domain problem : List ℕ) (d : Domain) (p : Problem) (q : Fraction) (k tries most : ℕ) (cut : Bool) (plan : TimedPlan Frac64)
        → SpellsWellTyped domain problem d p
        → whole (pos 0) <ℚ q
        → IsPlanned d p q k tries cut (Plan plan)
        → HasRoom (answer_text k (Plan plan))
        → most_entries ≤ most
        → (outcome : Outcome) (bytes : List ℕ) → IsAnswered d p most (answer_text k (Plan plan)) outcome bytes
        → outcome ≡ outcomes.Valid }
{
    found_plan_is_said();
    grid_plan_is_answered_as_valid();
}

/// What is written of a plan that a search finds says the decisions of the plan, line by line, and no instance that it calls is
/// over a limit.
pub fn found_plan_is_said()
    ensures { (domain problem : List ℕ) (d : Domain) (p : Problem) (q : Fraction) (k tries : ℕ) (cut : Bool) (plan : TimedPlan Frac64)
        → SpellsWellTyped domain problem d p
        → whole (pos 0) <ℚ q
        → (planned : IsPlanned d p q k tries cut (Plan plan))
        → HasRoom (answer_text k (Plan plan))
        → (lines : List Line)
        × IsTextOf d p q planned.answers.decisions (answer_text k (Plan plan)) lines
        × InstancesPass d p lines }
{
    texts_have_plain_names();
    found_plan_is_called();
    written_plan_reads_back();
}

/// No line of it is too long where no action of the domain has more than 61 parameters.
pub fn few_parameters_have_room()
    ensures { (domain problem : List ℕ) (d : Domain) (p : Problem) (q : Fraction) (k tries : ℕ) (cut : Bool) (plan : TimedPlan Frac64)
        → SpellsWellTyped domain problem d p
        → whole (pos 0) <ℚ q
        → IsPlanned d p q k tries cut (Plan plan)
        → HasFewParameters d
        → HasShortLines (answer_text k (Plan plan)) }
{
    texts_have_plain_names();
    decisions_are_actions();
    actions_are_called();
    few_arguments_have_room();
}
