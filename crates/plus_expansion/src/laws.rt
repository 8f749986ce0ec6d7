//! Laws about the expansion of a pair.
ghost use Rattle.plus_expansion.specs.Laws.{ExpansionFits, InstancesFit};
ghost use Rattle.plus_tree.specs.declared.trees.Domain.{Domain};
ghost use Rattle.plus_tree.specs.declared.trees.Problem.{Problem};

/// Where a well-typed pair passes no count, each id of its ground problem is a place in the list of its kind.
pub fn expansion_fits()
    ensures { (d : Domain) (p : Problem) → ExpansionFits d p }
{}

/// Each id of an instance of an action of a well-typed pair is a place in the list of its kind.
pub fn instances_fit()
    ensures { (d : Domain) (p : Problem) → InstancesFit d p }
{}
