//! What of a pair goes beyond actions and numbers.
ghost use Rattle.std.specs.Prelude.{◌≡◌, [], ◌∷◌, map, MatchOption};
ghost use Rattle.std.specs.List.{flat_map};
ghost use Rattle.plus_numeric.specs.Level.{schema_place, literal_places, beyond_level_two, IsFirstPlace};

use plus_tree::{Init, Schema, Span};
use plus_types::{File, Typed};

/// A place in one of the two texts.
#[derive(Clone, Copy, PartialEq, Eq)]
pub struct Place {
    pub file: File,
    pub span: Span,
}

// The first process or event of a list, at its name.
fn first_schema(schemas: &[Schema]) -> Option<Place>
    ensures { IsFirstPlace (map schema_place schemas.now) result }
{
    match schemas {
        [] => None,
        [first, ..] => Some(Place {
            file: File::Domain,
            span: first.name.span,
        }),
    }
}

// A timed literal, at its number.
fn literal_place(init: &Init) -> Option<Place>
    ensures { MatchOption result (literal_places init.now ≡ []) (λ place. literal_places init.now ≡ place ∷ []) }
{
    match init {
        Init::At(time, _, _) | Init::AtNot(time, _, _) => Some(Place {
            file: File::Problem,
            span: time.span,
        }),
        _ => None,
    }
}

// The first timed literal, at its number.
fn first_literal(inits: &[Init]) -> Option<Place>
    ensures { IsFirstPlace (flat_map literal_places inits.now) result }
{
    'inits: for init in inits {
        match literal_place(init) {
            Some(place) => return Some(place),
            None => {}
        }
    }
    None
}

/// The first process, else the first event, else the first timed literal of a pair.
pub fn first_beyond(typed: &Typed) -> Option<Place>
    ensures { IsFirstPlace (beyond_level_two typed.now.domain typed.now.problem) result }
{
    if let Some(place) = first_schema(typed.domain.processes.as_slice()) {
        return Some(place);
    }
    if let Some(place) = first_schema(typed.domain.events.as_slice()) {
        return Some(place);
    }
    first_literal(typed.problem.init.as_slice())
}
