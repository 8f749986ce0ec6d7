//! The readers of each atom and of each fluent among the events, or among the processes.
ghost use Rattle.std.specs.Prelude.{◌≡◌, ◌<◌, ℕ, length, All, IfOk};
ghost use Rattle.plus_state.specs.View.{problem_of};
ghost use Rattle.plus_reads.specs.Tables.{AreBelow, Covers};
ghost use Rattle.plus_reads.specs.Listing.{AddsReader};

use crate::names::{Names, add_names};
use crate::table::{Entries, Table};
use plus_number::exact::Exact;
use plus_state::problem::Ground;
use plus_state::walk::Conditional;
use std::alloc::{AllocError, Global};

/// For each atom, and for each fluent, the members whose condition names it.
#[derive(Drop)]
pub struct Readers {
    pub atoms: Table,
    pub fluents: Table,
}

// The member with this number reads all these keys.
#[inline(always)]
fn add_all(table: &mut Entries, keys: &[u32], reader: u32) -> Result<(), AllocError>
    requires { All (λ k. k < length table.old) keys.now }
    ensures { IfOk result (λ _. AddsReader table.old table.new keys.now reader) }
{
    'each: for key in keys {
        table.add(*key, reader)?;
    }
    Ok(())
}

/// The readers among the events, or among the processes, of a ground problem.
pub fn readers_of<Q: Exact, I: Conditional>(
    alloc: Global,
    ground: &Ground<Q>,
) -> Result<Readers, AllocError>
    ensures covers { IfOk result (Covers (I.conditions (problem_of Q.value ground.now))) }
    ensures below { IfOk result (AreBelow (length (I.conditions (problem_of Q.value ground.now)))) }
{
    let mut atoms = Entries::new(alloc, ground.atoms.len() as u32);
    let mut fluents = Entries::new(alloc, ground.fluents.len() as u32);
    let mut names = Names::none(alloc);
    'each: for number in 0..I::count(ground) {
        names.clear();
        add_names(&mut names, I::with_number(number).condition(ground))?;
        add_all(&mut atoms, &names.atoms, number)?;
        add_all(&mut fluents, &names.fluents, number)?;
    }
    Ok(Readers {
        atoms: atoms.table(alloc)?,
        fluents: fluents.table(alloc)?,
    })
}
