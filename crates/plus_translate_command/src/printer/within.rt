//! Whether the texts of a translation have no more than 64 parentheses open at once.

ghost use Rattle.std.specs.Prelude.{◌≡◌, ◌&&◌};
ghost use Rattle.std.specs.List.{list_all};
ghost use Rattle.plus_translate_command.specs.Printer.Frame.{own_within, spliced_within};

use plus_translate::depth::{MOST_DEPTH, cond_within, domain_within, effect_within};
use plus_tree::{Domain, Problem, Schema};

// What is taken over unchanged stands in three forms.
const OWN_ROOM: u8 = MOST_DEPTH - 3;

fn own_within(action: &Schema) -> bool
    ensures { result ≡ own_within action.now }
{
    cond_within(OWN_ROOM, &action.condition) && effect_within(OWN_ROOM, &action.effect)
}

fn owns_within(actions: &[Schema]) -> bool
    ensures { result ≡ list_all own_within actions.now }
{
    actions.iter().all(|action| own_within(action))
}

/// Whether a translation is within, by its frame and what it takes over.
pub fn spliced_within(frame: &Domain, domain: &Domain, problem: &Problem) -> bool
    ensures { result ≡ spliced_within frame.now domain.now problem.now }
{
    domain_within(MOST_DEPTH, frame)
        && owns_within(domain.actions.as_slice())
        && cond_within(OWN_ROOM, &problem.goal)
}
