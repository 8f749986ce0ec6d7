//! The laws. Each is a function with an empty body, whose contract is the law.

ghost use Rattle.std.specs.Prelude.{◌≡◌, ℕ, List, ◌≤◌};
ghost use Rattle.plus_tree.specs.declared.trees.Domain.{Domain as DomainTree};
ghost use Rattle.plus_tree.specs.declared.trees.Problem.{Problem as ProblemTree};
ghost use Rattle.plus_parser.specs.SpellsDomain.{Spells, SpellsWithin};
ghost use Rattle.plus_parser.specs.SpellsProblem.{SpellsProblem, SpellsProblemWithin};
ghost use Rattle.plus_printer.specs.Canon.{domain_text, problem_text};
ghost use Rattle.plus_canonical.specs.Same.{SameDomain, SameProblem};

/// The canonical text of a domain that a text spells, of whatever depth, spells it again, but for
/// spans.
pub fn domain_reads_again()
    ensures { (text : List ℕ) (d : DomainTree) → Spells text d →
        (again : DomainTree) × Spells (domain_text d) again × SameDomain d again }
{}

/// It opens no more parentheses at once than the text did, or three, which a schema with its
/// parameters takes. So what `read_domain` reads, it reads again from the canonical text.
pub fn domain_keeps_its_depth()
    ensures { (depth : ℕ) (text : List ℕ) (d : DomainTree) → 3 ≤ depth → SpellsWithin depth text d →
        (again : DomainTree) × SpellsWithin depth (domain_text d) again × SameDomain d again }
{}

/// The canonical text of a problem that a text spells, of whatever depth, spells it again, but for
/// spans.
pub fn problem_reads_again()
    ensures { (text : List ℕ) (p : ProblemTree) → SpellsProblem text p →
        (again : ProblemTree) × SpellsProblem (problem_text p) again × SameProblem p again }
{}

/// It opens no more parentheses at once than the text did. So what `read_problem` reads, it reads
/// again from the canonical text.
pub fn problem_keeps_its_depth()
    ensures { (depth : ℕ) (text : List ℕ) (p : ProblemTree) → SpellsProblemWithin depth text p →
        (again : ProblemTree) × SpellsProblemWithin depth (problem_text p) again
        × SameProblem p again }
{}

/// Domains that are equal but for spans have one canonical text: printing what was read again
/// changes no byte.
pub fn one_domain_text()
    ensures { (d again : DomainTree) → SameDomain d again → domain_text d ≡ domain_text again }
{}

/// So do problems.
pub fn one_problem_text()
    ensures { (p again : ProblemTree) → SameProblem p again → problem_text p ≡ problem_text again }
{}
