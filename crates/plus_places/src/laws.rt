//! The laws. Each is a function with an empty body, whose contract is the law.

ghost use Rattle.std.specs.Prelude.{◌≡◌, ◌⊎◌, ℕ, List, [], ◌≤◌, Some};
ghost use Rattle.plus_tree.specs.declared.trees.Constraint.{Constraint as ConstraintTree};
ghost use Rattle.plus_tree.specs.declared.trees.Domain.{Domain as DomainTree};
ghost use Rattle.plus_tree.specs.declared.trees.Problem.{Problem as ProblemTree};
ghost use Rattle.plus_tree.specs.declared.faults.TextFault.{TextFault as Fault};
ghost use Rattle.plus_tokens.specs.Items.{Piece};
ghost use Rattle.plus_parser.specs.SpellsConstraints.{ConstraintTokens, SpellsConstraintsWithin};
ghost use Rattle.plus_parser.specs.SpellsDomain.{DomainTokens, SpellsWithin};
ghost use Rattle.plus_parser.specs.SpellsProblem.{ProblemTokens, SpellsProblemWithin};
ghost use Rattle.plus_places.specs.Table.{run, domain_symbols, problem_symbols, constraint_symbols};
ghost use Rattle.plus_places.specs.Place.{IsPlace};

/// Each text spells a domain, or is refused somewhere.
pub fn domain_or_place()
    ensures { (depth : ℕ) (text : List ℕ) → 2 ≤ depth →
        ((d : DomainTree) × SpellsWithin depth text d)
        ⊎ ((fault : Fault) × IsPlace DomainTokens depth text fault) }
{}

/// A text that is refused somewhere spells no domain.
pub fn refused_spells_no_domain()
    ensures { (depth : ℕ) (text : List ℕ) (fault : Fault) → 2 ≤ depth →
        IsPlace DomainTokens depth text fault → (d : DomainTree) → SpellsWithin depth text d → ⊥ }
{}

/// As a domain, no text is refused at two places.
pub fn one_domain_place()
    ensures { (depth : ℕ) (text : List ℕ) (a b : Fault) → 2 ≤ depth →
        IsPlace DomainTokens depth text a → IsPlace DomainTokens depth text b → a ≡ b }
{}

/// The table takes the tokens of a domain.
pub fn table_takes_domains()
    ensures { (d : DomainTree) (ts : List Piece) →
        DomainTokens d ts → run domain_symbols ts ≡ Some [] }
{}

/// From the symbols of a domain it takes no others.
pub fn table_takes_only_domains()
    ensures { (ts : List Piece) →
        run domain_symbols ts ≡ Some [] → (d : DomainTree) × DomainTokens d ts }
{}

/// Each text spells a problem, or is refused somewhere.
pub fn problem_or_place()
    ensures { (depth : ℕ) (text : List ℕ) → 2 ≤ depth →
        ((p : ProblemTree) × SpellsProblemWithin depth text p)
        ⊎ ((fault : Fault) × IsPlace ProblemTokens depth text fault) }
{}

/// A text that is refused somewhere spells no problem.
pub fn refused_spells_no_problem()
    ensures { (depth : ℕ) (text : List ℕ) (fault : Fault) → 2 ≤ depth →
        IsPlace ProblemTokens depth text fault →
        (p : ProblemTree) → SpellsProblemWithin depth text p → ⊥ }
{}

/// As a problem, no text is refused at two places.
pub fn one_problem_place()
    ensures { (depth : ℕ) (text : List ℕ) (a b : Fault) → 2 ≤ depth →
        IsPlace ProblemTokens depth text a → IsPlace ProblemTokens depth text b → a ≡ b }
{}

/// The table takes the tokens of a problem.
pub fn table_takes_problems()
    ensures { (p : ProblemTree) (ts : List Piece) →
        ProblemTokens p ts → run problem_symbols ts ≡ Some [] }
{}

/// From the symbols of a problem it takes no others.
pub fn table_takes_only_problems()
    ensures { (ts : List Piece) →
        run problem_symbols ts ≡ Some [] → (p : ProblemTree) × ProblemTokens p ts }
{}

/// Each text spells constraints, or is refused somewhere.
pub fn constraints_or_place()
    ensures { (depth : ℕ) (text : List ℕ) → 2 ≤ depth →
        ((cs : List ConstraintTree) × SpellsConstraintsWithin depth text cs)
        ⊎ ((fault : Fault) × IsPlace ConstraintTokens depth text fault) }
{}

/// A text that is refused somewhere spells no constraints.
pub fn refused_spells_no_constraints()
    ensures { (depth : ℕ) (text : List ℕ) (fault : Fault) → 2 ≤ depth →
        IsPlace ConstraintTokens depth text fault →
        (cs : List ConstraintTree) → SpellsConstraintsWithin depth text cs → ⊥ }
{}

/// As constraints, no text is refused at two places.
pub fn one_constraints_place()
    ensures { (depth : ℕ) (text : List ℕ) (a b : Fault) → 2 ≤ depth →
        IsPlace ConstraintTokens depth text a → IsPlace ConstraintTokens depth text b → a ≡ b }
{}

/// The table takes the tokens of constraints.
pub fn table_takes_constraints()
    ensures { (cs : List ConstraintTree) (ts : List Piece) →
        ConstraintTokens cs ts → run constraint_symbols ts ≡ Some [] }
{}

/// From the symbol of constraints it takes no others.
pub fn table_takes_only_constraints()
    ensures { (ts : List Piece) →
        run constraint_symbols ts ≡ Some [] → (cs : List ConstraintTree) × ConstraintTokens cs ts }
{}
