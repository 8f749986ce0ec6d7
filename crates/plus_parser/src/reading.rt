//! Reads a text.

ghost use Rattle.std.specs.Prelude.{◌≡◌, List, ℕ, Ok, IfOk, MatchResult};
ghost use Rattle.plus_tree.specs.declared.faults.TextFault.{TextFault};
ghost use Rattle.plus_tree.specs.declared.trees.Constraint.{Constraint as ConstraintTree};
ghost use Rattle.plus_tree.specs.declared.trees.Domain.{Domain as DomainTree};
ghost use Rattle.plus_tree.specs.declared.trees.Problem.{Problem as ProblemTree};
ghost use Rattle.plus_tokens.specs.Items.{items_of};
ghost use Rattle.plus_parser.specs.Phrases.Reading.{Fails};
ghost use Rattle.plus_parser.specs.ReadingConstraints.{constraints_of};
ghost use Rattle.plus_parser.specs.ReadingDomain.{domain_of};
ghost use Rattle.plus_parser.specs.ReadingProblem.{problem_of};
ghost use Rattle.plus_parser.specs.SpellsConstraints.{SpellsConstraints, SpellsConstraintsWithin};
ghost use Rattle.plus_parser.specs.SpellsDomain.{Spells, SpellsWithin};
ghost use Rattle.plus_parser.specs.SpellsProblem.{SpellsProblem, SpellsProblemWithin};

use crate::constraints::constraints;
use crate::domains::domain;
use crate::phrases::reader::Reader;
use crate::problems::problem;
use plus_tree::{Constraint, Domain, Problem, TextFault};
use std::alloc::Global;

fn whole_domain(alloc: Global, text: &[u8]) -> Result<Domain, TextFault>
    ensures { MatchResult result
        (λ d. domain_of 64 (items_of text.now) ≡ Ok d)
        (λ e. Fails e (domain_of 64 (items_of text.now))) }
{
    let mut reader = Reader::new(text);
    domain(alloc, &mut reader)
}

/// The domain that a text spells, with at most 64 parentheses open at once.
///
/// A refusal names the first place that shows that the text spells none; at one token a fault of
/// its spelling comes first, then the depth, then the grammar. The time is linear in the length of
/// the text.
pub fn read_domain(alloc: Global, text: &[u8]) -> Result<Domain, TextFault>
    // What is read is spelled so.
    ensures found { IfOk result (λ d. SpellsWithin 64 text.now d) }
    // What is spelled is read, unless memory runs out.
    ensures only { (d : DomainTree) → SpellsWithin 64 text.now d →
        MatchResult result (λ e. e ≡ d) (λ e. e ≡ TextFault.Memory) }
    // Which refusal it is, and where.
    ensures exact { MatchResult result
        (λ d. domain_of 64 (items_of text.now) ≡ Ok d)
        (λ e. Fails e (domain_of 64 (items_of text.now))) }
{
    whole_domain(alloc, text)
}

fn whole_problem(alloc: Global, text: &[u8]) -> Result<Problem, TextFault>
    ensures { MatchResult result
        (λ p. problem_of 64 (items_of text.now) ≡ Ok p)
        (λ e. Fails e (problem_of 64 (items_of text.now))) }
{
    let mut reader = Reader::new(text);
    problem(alloc, &mut reader)
}

/// The problem that a text spells, with at most 64 parentheses open at once. Refusals are as those
/// of `read_domain`; where `:domain`, `:init` or `:goal` is missing, the last parenthesis is named.
pub fn read_problem(alloc: Global, text: &[u8]) -> Result<Problem, TextFault>
    // What is read is spelled so.
    ensures found { IfOk result (λ p. SpellsProblemWithin 64 text.now p) }
    // What is spelled is read, unless memory runs out.
    ensures only { (p : ProblemTree) → SpellsProblemWithin 64 text.now p →
        MatchResult result (λ e. e ≡ p) (λ e. e ≡ TextFault.Memory) }
    // Which refusal it is, and where.
    ensures exact { MatchResult result
        (λ p. problem_of 64 (items_of text.now) ≡ Ok p)
        (λ e. Fails e (problem_of 64 (items_of text.now))) }
{
    whole_problem(alloc, text)
}

fn whole_constraints(alloc: Global, text: &[u8]) -> Result<Vec<Constraint>, TextFault>
    ensures { MatchResult result
        (λ cs. constraints_of 64 (items_of text.now) ≡ Ok cs.items)
        (λ e. Fails e (constraints_of 64 (items_of text.now))) }
{
    let mut reader = Reader::new(text);
    constraints(alloc, &mut reader)
}

/// The constraints that a text spells, with at most 64 parentheses open at once. Refusals are as
/// those of `read_domain`.
pub fn read_constraints(alloc: Global, text: &[u8]) -> Result<Vec<Constraint>, TextFault>
    // What is read is spelled so.
    ensures found { IfOk result (λ cs. SpellsConstraintsWithin 64 text.now cs.items) }
    // What is spelled is read, unless memory runs out.
    ensures only { (cs : List ConstraintTree) → SpellsConstraintsWithin 64 text.now cs →
        MatchResult result (λ e. e.items ≡ cs) (λ e. e ≡ TextFault.Memory) }
    // Which refusal it is, and where.
    ensures exact { MatchResult result
        (λ cs. constraints_of 64 (items_of text.now) ≡ Ok cs.items)
        (λ e. Fails e (constraints_of 64 (items_of text.now))) }
{
    whole_constraints(alloc, text)
}

/// No text spells two domains, of whatever depth.
pub fn one_domain()
    ensures { (text : List ℕ) (d e : DomainTree) → Spells text d → Spells text e → d ≡ e }
{}

/// No text spells two problems, of whatever depth.
pub fn one_problem()
    ensures { (text : List ℕ) (p q : ProblemTree) →
        SpellsProblem text p → SpellsProblem text q → p ≡ q }
{}

/// No text spells two lists of constraints, of whatever depth.
pub fn one_constraints()
    ensures { (text : List ℕ) (a b : List ConstraintTree) →
        SpellsConstraints text a → SpellsConstraints text b → a ≡ b }
{}
