//! The canonical text of a tree.

ghost use Rattle.std.specs.Prelude.{◌≡◌, IfOk};
ghost use Rattle.plus_printer.specs.Canon.{domain_text, problem_text};

use plus_printer::{print_domain, print_problem};
use plus_tree::{Domain, Problem};
use std::alloc::{AllocError, Global};

/// The canonical text of a domain.
pub fn domain_text(alloc: Global, domain: &Domain) -> Result<Vec<u8>, AllocError>
    ensures { IfOk result (λ text. text.items ≡ domain_text domain.now) }
{
    let mut text = Vec::new(alloc);
    print_domain(domain, &mut text)?;
    Ok(text)
}

/// The canonical text of a problem.
pub fn problem_text(alloc: Global, problem: &Problem) -> Result<Vec<u8>, AllocError>
    ensures { IfOk result (λ text. text.items ≡ problem_text problem.now) }
{
    let mut text = Vec::new(alloc);
    print_problem(problem, &mut text)?;
    Ok(text)
}
