//! Of which there are too many.

use plus_tree::{Head, Schema, Span, TypedName};
use plus_types::Typed;

/// What there are most of among those of a kind: how many, and where it is declared.
#[derive(Clone, Copy)]
pub struct Largest {
    pub count: u64,
    pub span: Span,
}

/// How many objects are looked at, of those of all types together.
const LOOKED: u64 = 10_000_000;

// Counts the objects of types, as long as few enough are looked at.
#[derive(Clone, Copy)]
struct Counter<'a> {
    typed: &'a Typed,
    left: u64,
    best: Option<Largest>,
}

impl<'a> Counter<'a> {
    // Nothing is counted yet.
    fn new(typed: &'a Typed) -> Counter<'a> {
        Counter {
            typed,
            left: LOOKED,
            best: None,
        }
    }

    // How many objects of a list are of a type.
    fn listed(&mut self, objects: &[TypedName], kind: &[u8]) -> u64 {
        let mut count = 0u64;
        self.left = self.left.saturating_sub(objects.len() as u64);
        for object in objects {
            if self.typed.types.is_under(object.kind.name.bytes(), kind) {
                count = count.saturating_add(1);
            }
        }
        count
    }

    // How many objects there are of a type.
    fn members(&mut self, kind: &[u8]) -> u64 {
        let typed = self.typed;
        let constants = self.listed(typed.domain.constants.as_slice(), kind);
        constants.saturating_add(self.listed(typed.problem.objects.as_slice(), kind))
    }

    // Counts the choices of objects for parameters, and keeps the most.
    fn count(&mut self, params: &[TypedName], span: Span) {
        let mut count = 1u64;
        for param in params {
            if self.left == 0 {
                return;
            }
            count = count.saturating_mul(self.members(param.kind.name.bytes()));
        }
        match self.best {
            Some(largest) if largest.count >= count => {}
            _ => self.best = Some(Largest { count, span }),
        }
    }

    fn count_heads(&mut self, heads: &[Head]) {
        for head in heads {
            self.count(head.params.as_slice(), head.name.span);
        }
    }

    fn count_schemas(&mut self, schemas: &[Schema]) {
        for schema in schemas {
            self.count(schema.params.as_slice(), schema.name.span);
        }
    }
}

/// What there are most of among those of a kind, as a verdict calls it: the predicate with the most atoms, the action with
/// the most choices of objects. Of nodes it is the process or the event that is repeated most. Where there are very many
/// types and objects, only the first are looked at.
pub fn largest_of(typed: &Typed, kind: &str) -> Option<Largest> {
    let domain = &typed.domain;
    let mut counter = Counter::new(typed);
    match kind {
        "atoms" => counter.count_heads(domain.predicates.as_slice()),
        "fluents" => counter.count_heads(domain.functions.as_slice()),
        "actions" => counter.count_schemas(domain.actions.as_slice()),
        _ => {}
    }
    if kind == "processes" || kind == "nodes" {
        counter.count_schemas(domain.processes.as_slice());
    }
    if kind == "events" || kind == "nodes" {
        counter.count_schemas(domain.events.as_slice());
    }
    counter.best
}
