//! The atoms and the fluents that a condition names, in text order, with repeats.
ghost use Rattle.std.specs.Prelude.{◌≡◌, [], ◌++◌, IfOk};
ghost use Rattle.plus_model.specs.Running.{names as names_in};
ghost use Rattle.plus_state.specs.View.{condition_of, expression_of};
ghost use Rattle.plus_reads.specs.Reads.{atoms_read, fluents_read};

use plus_number::exact::Exact;
use plus_state::term::{Cond, Expr};
use std::alloc::{AllocError, Global};

/// Numbers of atoms and of fluents.
#[derive(Drop)]
pub struct Names {
    pub atoms: Vec<u32>,
    pub fluents: Vec<u32>,
}

// Adds the fluents that an expression names.
#[tactic(auto, using(crate::proofs::Naming::naming))]
fn add_fluents<Q: Exact>(fluents: &mut Vec<u32>, expr: &Expr<Q>) -> Result<(), AllocError>
    ensures { IfOk result (λ _. fluents.new.items ≡ fluents.old.items ++ names_in (expression_of Q.value expr.now)) }
{
    match expr {
        Expr::Number(_) => Ok(()),
        Expr::Fluent(fluent) => {
            fluents.push(fluent.0)?;
            Ok(())
        }
        Expr::Add(a, b) => {
            add_fluents(fluents, a)?;
            add_fluents(fluents, b)
        }
        Expr::Sub(a, b) => {
            add_fluents(fluents, a)?;
            add_fluents(fluents, b)
        }
        Expr::Mul(a, b) => {
            add_fluents(fluents, a)?;
            add_fluents(fluents, b)
        }
        Expr::Div(a, b) => {
            add_fluents(fluents, a)?;
            add_fluents(fluents, b)
        }
    }
}

impl Names {
    /// No names. It takes no memory.
    pub fn none(alloc: Global) -> Names
        ensures atoms { result.atoms.items ≡ [] }
        ensures fluents { result.fluents.items ≡ [] }
    {
        Names {
            atoms: Vec::new(alloc),
            fluents: Vec::new(alloc),
        }
    }

    /// Forgets them, and keeps their memory.
    pub fn clear(&mut self)
        ensures atoms { self.new.atoms.items ≡ [] }
        ensures fluents { self.new.fluents.items ≡ [] }
    {
        self.atoms.clear();
        self.fluents.clear();
    }
}

/// Adds what a condition names.
#[tactic(auto, using(crate::proofs::Naming::naming))]
pub fn add_names<Q: Exact>(names: &mut Names, cond: &Cond<Q>) -> Result<(), AllocError>
    ensures atoms { IfOk result (λ _. names.new.atoms.items
        ≡ names.old.atoms.items ++ atoms_read (condition_of Q.value cond.now)) }
    ensures fluents { IfOk result (λ _. names.new.fluents.items
        ≡ names.old.fluents.items ++ fluents_read (condition_of Q.value cond.now)) }
{
    match cond {
        Cond::All(members) => {
            'all: for member in members {
                add_names(names, member)?;
            }
            Ok(())
        }
        Cond::Any(members) => {
            'any: for member in members {
                add_names(names, member)?;
            }
            Ok(())
        }
        Cond::Atom { atom, .. } => {
            names.atoms.push(atom.0)?;
            Ok(())
        }
        Cond::Compare { left, right, .. } => {
            add_fluents(&mut names.fluents, left)?;
            add_fluents(&mut names.fluents, right)
        }
    }
}
