//! The calls of ground actions: each ground action is what the call in its label names.

ghost use Rattle.std.specs.Prelude.{◌≡◌, ℕ, List, All, Some, map, pos, slice_get};
ghost use Rattle.plus_fraction.specs.Fraction.{Fraction, whole, ◌<ℚ◌};
ghost use Rattle.plus_number.specs.declared.frac.Frac64.{Frac64};
ghost use Rattle.plus_number.specs.Frac.{fraction_of, IsFrac64};
ghost use Rattle.plus_state.specs.declared.outcome.TimedPlan.{TimedPlan};
ghost use Rattle.plus_model.specs.Terms.{Action};
ghost use Rattle.plus_model.specs.Plan.{Instance};
ghost use Rattle.plus_tree.specs.declared.trees.Call.{Call};
ghost use Rattle.plus_tree.specs.declared.trees.Domain.{Domain};
ghost use Rattle.plus_tree.specs.declared.trees.Problem.{Problem};
ghost use Rattle.plus_typing.specs.WellTyped.{IsWellTyped};
ghost use Rattle.plus_expansion.specs.Calls.{called_of};
ghost use Rattle.plus_report.specs.Plans.{plan_text};
ghost use Rattle.plus_plan.specs.declared.forms.Line.{Line};
ghost use Rattle.plus_stretch.specs.Tests.{AllPass};
ghost use Rattle.plus_actions.specs.Actions.{ground_actions, IsGroundable};
ghost use Rattle.laws_found.specs.Text.Written.{TimedCall, IsPlanTime, IsPlainCall, written_plan, Say};
ghost use Rattle.plus_planner.specs.Grid.{ticks, lines_from, tick_after, timed, AllTimes};
ghost use Rattle.plus_planner.specs.Listing.{labels_from, IsPlanOf};
ghost use Rattle.plus_plan_command.specs.Planning.Planned.{task_of};
ghost use Rattle.plus_validator.specs.Plans.{pair, lines_meant};
ghost use Rattle.plus_validator.specs.Asking.{call_tests, instances_of};
ghost use Rattle.plus_grammar.specs.Texts.{IsDomainText, IsProblemText};
ghost use Rattle.laws_found.specs.Calls.Calls.{IsCalledBy, HasPlainNames, IsPlain};
ghost use Rattle.laws_found.specs.Calls.Searched.{AreCallsOfGround};
ghost use Rattle.laws_found.specs.Calls.Plans.{TimedAction, AreGround, HavePlanTimes, AreCalledBy, plan_with, labelled};
ghost use Rattle.laws_found.specs.Calls.Decided.{decided_from, AreCallsOf};

/// Each ground action is what a call names, the one that its label shows.
pub fn each_ground_action_is_called()
    ensures { (d : Domain) (p : Problem) (k : ℕ) (action : Action)
        → slice_get (ground_actions d p) k ≡ Some action
        → (call : Call) × IsCalledBy d p action call }
{}

/// The ground actions of a well-typed pair, which a search tries, are the instances of all calls that name one, and no call
/// stands twice.
pub fn all_calls_are_searched()
    ensures { (d : Domain) (p : Problem) → IsWellTyped d p → AreCallsOfGround d p }
{}

/// Whatever call names an instance is shown as the instance's label says, by names that are declared.
pub fn instance_is_called_so()
    ensures { (d : Domain) (p : Problem) (action : Action) (call : Call)
        → called_of d p call.name call.args ≡ Instance action
        → IsCalledBy d p action call }
{}

/// Where the ground actions are inside the limits, all passes that is asked of the instance that a
/// call names: it has few enough nodes, and each literal of its action is a value.
pub fn called_instance_is_within()
    ensures { (d : Domain) (p : Problem) (action : Action) (call : Call)
        → IsGroundable IsFrac64 d p
        → IsCalledBy d p action call → AllPass IsFrac64 (call_tests (pair d p) call) }
{}

/// Where all names are plain, so are those of the calls of the ground actions.
pub fn plain_calls()
    ensures { (d : Domain) (p : Problem) (action : Action) (call : Call)
        → HasPlainNames d p
        → IsCalledBy d p action call → IsPlain call }
{}

/// The names of a domain and a problem that texts spell are plain.
pub fn texts_have_plain_names()
    ensures { (depth : ℕ) (domain problem : List ℕ) (d : Domain) (p : Problem)
        → IsDomainText depth domain d → IsProblemText depth problem p
        → HasPlainNames d p }
{}

/// Ground actions at times have calls, one for each: what is written of these are the actions' labels at
/// their times, and where all names are plain they are plain calls.
pub fn actions_are_called()
    ensures called { (d : Domain) (p : Problem) (acts : List TimedAction)
        → AreGround d p acts → (calls : List TimedCall) × AreCalledBy d p acts calls }
    ensures written { (d : Domain) (p : Problem) (acts : List TimedAction) (calls : List TimedCall)
        (last : Fraction)
        → AreCalledBy d p acts calls → written_plan calls last ≡ plan_text (map labelled acts) last }
    ensures plain { (d : Domain) (p : Problem) (acts : List TimedAction) (calls : List TimedCall)
        → HasPlainNames d p → HavePlanTimes acts → AreCalledBy d p acts calls → All IsPlainCall calls }
{}

/// Lines that say such calls are the plan with these actions, and all passes that is asked of the instances
/// that they call, where the ground actions are inside the limits.
pub fn lines_mean_actions()
    ensures meant { (d : Domain) (p : Problem) (acts : List TimedAction) (calls : List TimedCall)
        (last : Fraction) (n : ℕ) (lines : List Line)
        → AreCalledBy d p acts calls → Say n calls last lines
        → lines_meant (pair d p) lines ≡ plan_with acts last }
    ensures within { (d : Domain) (p : Problem) (acts : List TimedAction) (calls : List TimedCall)
        (last : Fraction) (n : ℕ) (lines : List Line)
        → IsGroundable IsFrac64 d p → AreCalledBy d p acts calls → Say n calls last lines
        → (i : ℕ) → AllPass IsFrac64 (instances_of (pair d p) lines i) }
{}

/// The decisions of a search are actions at times: its lines are the plan with these, its labels are theirs,
/// they are ground actions, and where all times are values they are times of a plan.
pub fn decisions_are_actions()
    ensures lines { (actions : List Action) (q : Fraction) (n : ℕ) (ds : List ℕ)
        → lines_from actions q n ds
        ≡ plan_with (decided_from actions q n ds) (ticks q (tick_after actions n ds)) }
    ensures labels { (actions : List Action) (q : Fraction) (n : ℕ) (ds : List ℕ)
        → labels_from actions q n ds ≡ map labelled (decided_from actions q n ds) }
    ensures ground { (d : Domain) (p : Problem) (q : Fraction) (n : ℕ) (ds : List ℕ)
        → AreGround d p (decided_from (ground_actions d p) q n ds) }
    ensures times { (actions : List Action) (q : Fraction) (n : ℕ) (ds : List ℕ)
        → whole (pos 0) <ℚ q → AllTimes IsFrac64 (lines_from actions q n ds)
        → HavePlanTimes (decided_from actions q n ds) × IsPlanTime (ticks q (tick_after actions n ds)) }
{}

/// The plan that a search found has calls that say it: what is written of it is written of these, and
/// whatever lines say them are the lines of what was decided, and pass what is asked of their instances.
pub fn found_plan_is_called()
    ensures { (d : Domain) (p : Problem) (q : Fraction) (ds : List ℕ) (plan : TimedPlan Frac64)
        → HasPlainNames d p → IsGroundable IsFrac64 d p → whole (pos 0) <ℚ q
        → AllTimes IsFrac64 (timed (task_of d p q) ds).lines
        → IsPlanOf fraction_of (task_of d p q) ds plan
        → (calls : List TimedCall) × (last : Fraction) × AreCallsOf d p q ds plan calls last }
{}
