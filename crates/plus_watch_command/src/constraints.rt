//! Reads constraints.

ghost use Rattle.std.specs.Prelude.{◌≡◌, ◌+◌, IfOk, IfErr};
ghost use Rattle.plus_io.specs.Files.{KeepsFiles};
ghost use Rattle.plus_io.specs.Limits.{text_limit};
ghost use Rattle.plus_io.specs.Picks.{ReadsOnce};
ghost use Rattle.plus_watch_command.specs.Constraints.{ReadsConstraints, NoConstraints};

use plus_io::Shelf;
use plus_places::read_constraints;
use plus_reply::pair::pair::{Refusal, refuse_text, text_of};
use plus_report::Text;
use plus_tree::Constraint;
use std::alloc::Global;

/// The constraints that the text under a name spells.
pub fn constraints_under<S: Shelf>(
    alloc: Global,
    shelf: &mut S,
    name: &str,
) -> Result<Vec<Constraint>, Refusal>
    ensures read { IfOk result (λ cs. ReadsConstraints (S.bytes shelf.old name.now) cs.items) }
    ensures not_read { IfErr result (NoConstraints (S.bytes shelf.old name.now)
        (S.faults shelf.old) (S.faults shelf.new)) }
    ensures reads { ReadsOnce S.bytes S.picked S.rest S.picks (text_limit + 1) name.now shelf.old shelf.new }
    ensures keeps { KeepsFiles S.names S.bytes S.faults shelf.old shelf.new }
{
    let text = text_of(alloc, shelf, name, Text::Constraints)?;
    match read_constraints(alloc, &text) {
        Ok(rules) => Ok(rules),
        Err(fault) => Err(refuse_text(Text::Constraints, text.len(), fault)),
    }
}
