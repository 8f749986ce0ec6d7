//! Reads a text.

ghost use Rattle.std.specs.Prelude.{◌≡◌, List, IfOk, IfErr, MatchResult};
ghost use Rattle.plus_tree.specs.declared.trees.Constraint.{Constraint as ConstraintTree};
ghost use Rattle.plus_tree.specs.declared.trees.Domain.{Domain as DomainTree};
ghost use Rattle.plus_tree.specs.declared.trees.Problem.{Problem as ProblemTree};
ghost use Rattle.plus_parser.specs.SpellsConstraints.{ConstraintTokens, SpellsConstraintsWithin};
ghost use Rattle.plus_parser.specs.SpellsDomain.{DomainTokens, SpellsWithin};
ghost use Rattle.plus_parser.specs.SpellsProblem.{ProblemTokens, SpellsProblemWithin};
ghost use Rattle.plus_places.specs.Place.{Refuses};

use plus_tree::{Constraint, Domain, Problem, TextFault};
use std::alloc::Global;

/// The domain that a text spells, with at most 64 parentheses open at once.
///
/// A refusal names the first token behind which no text of the grammar goes on; there a fault of
/// spelling comes first, then the depth, then the grammar. Where the tokens end too early it is
/// `Unclosed`. The time is linear in the length of the text.
pub fn read_domain(alloc: Global, text: &[u8]) -> Result<Domain, TextFault>
    // What is read is spelled so.
    ensures found { IfOk result (λ d. SpellsWithin 64 text.now d) }
    // What is spelled is read, unless memory runs out.
    ensures only { (d : DomainTree) → SpellsWithin 64 text.now d →
        MatchResult result (λ e. e ≡ d) (λ e. e ≡ TextFault.Memory) }
    // What is refused is refused at its place.
    ensures placed { IfErr result (λ e. Refuses DomainTokens 64 text.now e) }
{
    plus_parser::read_domain(alloc, text)
}

/// The problem that a text spells, with at most 64 parentheses open at once. Refusals are as those
/// of `read_domain`; where `:domain`, `:init` or `:goal` is missing, the last parenthesis is named.
pub fn read_problem(alloc: Global, text: &[u8]) -> Result<Problem, TextFault>
    // What is read is spelled so.
    ensures found { IfOk result (λ p. SpellsProblemWithin 64 text.now p) }
    // What is spelled is read, unless memory runs out.
    ensures only { (p : ProblemTree) → SpellsProblemWithin 64 text.now p →
        MatchResult result (λ e. e ≡ p) (λ e. e ≡ TextFault.Memory) }
    // What is refused is refused at its place.
    ensures placed { IfErr result (λ e. Refuses ProblemTokens 64 text.now e) }
{
    plus_parser::read_problem(alloc, text)
}

/// The constraints that a text spells, with at most 64 parentheses open at once. Refusals are as
/// those of `read_domain`.
pub fn read_constraints(alloc: Global, text: &[u8]) -> Result<Vec<Constraint>, TextFault>
    // What is read is spelled so.
    ensures found { IfOk result (λ cs. SpellsConstraintsWithin 64 text.now cs.items) }
    // What is spelled is read, unless memory runs out.
    ensures only { (cs : List ConstraintTree) → SpellsConstraintsWithin 64 text.now cs →
        MatchResult result (λ e. e.items ≡ cs) (λ e. e ≡ TextFault.Memory) }
    // What is refused is refused at its place.
    ensures placed { IfErr result (λ e. Refuses ConstraintTokens 64 text.now e) }
{
    plus_parser::read_constraints(alloc, text)
}
