//! The member of a condition that objects alone decide.

use plus_tree::{CondNode, CondTree, Span, Spelled, Term, TypedName};
use plus_types::Typed;

/// The most parameters of an action that are looked at.
const MOST: usize = 100;

/// The objects that stand for the parameters of an action: their names, one behind the other.
#[derive(Clone, Copy)]
pub struct Bound<'a> {
    params: &'a [TypedName],
    objects: &'a str,
}

impl<'a> Bound<'a> {
    // The object that stands for a variable.
    fn object(&self, variable: &Spelled) -> Option<&'a [u8]> {
        for (param, object) in self.params.iter().zip(self.objects.split(' ')) {
            if param.name.name.bytes() == variable.name.bytes() {
                return Some(object.as_bytes());
            }
        }
        None
    }
}

// Whether a term is this object, where it is known which object it is.
fn is_object(bound: &Bound<'_>, term: &Term, object: &[u8]) -> Option<bool> {
    match term {
        Term::Object(name) => Some(name.name.bytes() == object),
        Term::Variable(name) => Some(bound.object(name)? == object),
    }
}

// Whether two terms are the same object.
fn are_same(bound: &Bound<'_>, left: &Term, right: &Term) -> Option<bool> {
    match left {
        Term::Object(name) => is_object(bound, right, name.name.bytes()),
        Term::Variable(name) => is_object(bound, right, bound.object(name)?),
    }
}

// Whether a condition is one on objects alone that does not hold.
fn fails(bound: &Bound<'_>, cond: &CondTree) -> bool {
    match &cond.node {
        CondNode::Same(left, right) => are_same(bound, left, right) == Some(false),
        CondNode::Not(inner) => match &inner.node {
            CondNode::Same(left, right) => are_same(bound, left, right) == Some(true),
            _ => false,
        },
        _ => false,
    }
}

// The place of the first member of a condition that is one on objects alone and does not hold.
fn failing(bound: &Bound<'_>, cond: &CondTree) -> Option<Span> {
    if let CondNode::All(members) = &cond.node {
        'members: for member in members {
            if let Some(span) = failing(bound, member) {
                return Some(span);
            }
        }
        return None;
    }
    if fails(bound, cond) {
        Some(cond.span)
    } else {
        None
    }
}

/// The place of the first member of an action's condition that asks whether objects are the same and does not hold. The
/// action goes by its label, as `(drive van north north)`.
pub fn failing_same(typed: &Typed, label: &str) -> Option<Span> {
    let inside = label.strip_prefix('(')?.strip_suffix(')')?;
    let (name, objects) = inside.split_once(' ').unwrap_or((inside, ""));
    let place = typed.actions.number(name.as_bytes())?;
    let schema = typed.domain.actions.as_slice().get(place)?;
    if schema.params.as_slice().len() > MOST {
        return None;
    }
    let bound = Bound {
        params: schema.params.as_slice(),
        objects,
    };
    failing(&bound, &schema.condition)
}

/// The same of the goal.
pub fn failing_same_in_goal(typed: &Typed) -> Option<Span> {
    let bound = Bound {
        params: &[],
        objects: "",
    };
    failing(&bound, &typed.problem.goal)
}
