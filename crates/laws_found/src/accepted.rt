//! What `plan` finds is accepted by `check`: laws alone, there is no code here.

ghost use Rattle.std.specs.Prelude.{◌≡◌, ◌≤◌, ℕ, List, All};
ghost use Rattle.plus_fraction.specs.Fraction.{Fraction};
ghost use Rattle.plus_number.specs.Frac.{IsFrac64};
ghost use Rattle.plus_model.specs.History.{Part};
ghost use Rattle.plus_model.specs.Trajectory.{view_of};
ghost use Rattle.plus_tree.specs.declared.trees.Domain.{Domain};
ghost use Rattle.plus_tree.specs.declared.trees.Problem.{Problem};
ghost use Rattle.plus_plan.specs.declared.forms.Line.{Line};
ghost use Rattle.plus_expansion.specs.Counting.{IsGroundable};
ghost use Rattle.plus_stretch.specs.Tests.{Test, AllPass};
ghost use Rattle.plus_timeline.specs.Asked.{goal_tests};
ghost use Rattle.plus_planner.specs.Grid.{Task, Plays, GridPlan};
ghost use Rattle.plus_planner.specs.Laws.{whole_plan};
ghost use Rattle.plus_planner.specs.Places.{most_entries};
ghost use Rattle.plus_plan_command.specs.Planning.Planned.{task_of};
ghost use Rattle.plus_validator.specs.declared.judge.Outcome.{Outcome};
ghost use Rattle.plus_validator.specs.declared.judge.Outcome.TheVariants.{Valid};
ghost use Rattle.plus_validator.specs.Accepted.{IsAccepted};
ghost use Rattle.plus_timeline.specs.Played.{entries_of};
ghost use Rattle.plus_validator.specs.Asking.{IsClear, NoneFails};
ghost use Rattle.plus_validator.specs.Verdicts.{IsAnswered};
ghost use Rattle.laws_found.specs.Passing.{AreClean, PassesCheck, IsTextOf, InstancesPass, CallPasses};

/// What happens of a list that a search can play enters no more moments than the search allows.
pub fn few_moments()
    ensures { (task : Task) (ds : List ℕ) (h : List Part)
        → Plays IsFrac64 task ds h
        → 1 ≤ task.most
        → entries_of h ≤ task.most }
{}

/// What is asked of such a list where it is all, and the goal holds at its end, passes: with tests that pass in front of each
/// action, and as many moments or more.
pub fn all_passes()
    ensures { (task : Task) (ds : List ℕ) (h : List Part) (most : ℕ) (instance : ℕ → List Test)
        → Plays IsFrac64 task ds h
        → AllPass IsFrac64 (goal_tests task.problem (view_of task.problem h).state)
        → AreClean instance
        → 1 ≤ task.most
        → task.most ≤ most
        → IsClear task.problem (whole_plan task ds) most instance h × NoneFails task.problem (whole_plan task ds) most instance h }
{}

/// A plan on the grid passes all that a check asks of it.
pub fn grid_plan_passes()
    ensures { (task : Task) (k : ℕ) (ds : List ℕ) (most : ℕ) (instance : ℕ → List Test)
        → GridPlan IsFrac64 task k ds
        → AreClean instance
        → 1 ≤ task.most
        → task.most ≤ most
        → (h : List Part) × PassesCheck task.problem (whole_plan task ds) most instance h }
{}

/// No instance is over a limit where that of each line's call is not.
pub fn instances_pass_by_calls()
    ensures { (d : Domain) (p : Problem) (lines : List Line)
        → All (CallPasses d p) lines → InstancesPass d p lines }
{}

/// A plan on the grid of a pair is accepted in each text that says it, where the check allows as many moments as the search.
pub fn grid_plan_is_accepted()
    ensures { (d : Domain) (p : Problem) (q : Fraction) (k : ℕ) (ds : List ℕ) (most : ℕ) (text : List ℕ) (lines : List Line)
        → IsGroundable IsFrac64 d p
        → GridPlan IsFrac64 (task_of d p q) k ds
        → IsTextOf d p q ds text lines
        → InstancesPass d p lines
        → most_entries ≤ most
        → (bytes : List ℕ) × IsAccepted d p most text bytes }
{}

/// So whatever a check of such a text answers, it is that the plan is valid.
pub fn grid_plan_is_answered_as_valid()
    ensures { (d : Domain) (p : Problem) (q : Fraction) (k : ℕ) (ds : List ℕ) (most : ℕ) (text : List ℕ) (lines : List Line)
        → IsGroundable IsFrac64 d p
        → GridPlan IsFrac64 (task_of d p q) k ds
        → IsTextOf d p q ds text lines
        → InstancesPass d p lines → most_entries ≤ most
        → (outcome : Outcome) (written : List ℕ) → IsAnswered d p most text outcome written → outcome ≡ Valid }
{}
