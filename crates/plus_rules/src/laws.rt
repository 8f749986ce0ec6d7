//! The law over these definitions alone.
ghost use Rattle.std.specs.Prelude.{List};
ghost use Rattle.plus_tree.specs.declared.trees.Constraint.{Constraint};
ghost use Rattle.plus_tree.specs.declared.trees.Domain.{Domain};
ghost use Rattle.plus_tree.specs.declared.trees.Problem.{Problem};
ghost use Rattle.plus_rules.specs.Laws.{AreAsGoal};

/// Constraints beside a pair have the faults and the meaning of a goal in their place.
pub fn are_as_goal()
    ensures { (d : Domain) (p : Problem) (cs : List Constraint) → AreAsGoal d p cs }
{}
