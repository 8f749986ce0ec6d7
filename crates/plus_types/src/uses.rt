//! Walks atoms, fluents and expressions.

ghost use Rattle.std.specs.Prelude.{◌≡◌, [], ◌∷◌, length, MatchOption, Some, None};
ghost use Rattle.plus_types.specs.Faults.{Walks, unknown_term, term_kind, term_span, term_faults, argument_faults, arguments_faults, use_faults, expr_faults};
ghost use Rattle.plus_types.specs.Known.{context};

use crate::faults::{File, TypeFault, Wrong};
use crate::kinds::Kinds;
use crate::known::{Declared, Known};
use plus_tree::{ExprNode, ExprTree, Span, Term, TypedName, Use};

// The type of a term, where it is known.
fn term_kind<'a>(known: &'a Known<'_>, vars: &'a Kinds, term: &Term) -> Option<&'a [u8]>
    ensures { MatchOption result (term_kind (context known.now) vars.now term.now ≡ None)
        (λ k. term_kind (context known.now) vars.now term.now ≡ Some k.now) }
{
    match term {
        Term::Object(name) => known.objects.kind(name.name.bytes()),
        Term::Variable(name) => vars.kind(name.name.bytes()),
    }
}

// The place of a term.
fn term_span(term: &Term) -> Span
    ensures { result ≡ term_span term.now }
{
    match term {
        Term::Object(name) | Term::Variable(name) => name.span,
    }
}

// A term that is not known.
fn unknown(file: File, term: &Term) -> TypeFault
    ensures { result ∷ [] ≡ unknown_term file term.now }
{
    match term {
        Term::Object(name) => TypeFault::At {
            wrong: Wrong::UnknownName,
            file,
            span: name.span,
        },
        Term::Variable(name) => TypeFault::At {
            wrong: Wrong::Unbound,
            file,
            span: name.span,
        },
    }
}

/// An object is declared, a variable is bound.
pub fn term(known: &Known<'_>, vars: &Kinds, term: &Term) -> Result<(), TypeFault>
    ensures { Walks (term_faults (context known.now) vars.now term.now) result }
{
    match term_kind(known, vars, term) {
        Some(_) => Ok(()),
        None => Err(unknown(known.file, term)),
    }
}

// The type of an argument is that of the parameter, or is under it.
fn argument(
    known: &Known<'_>,
    vars: &Kinds,
    param: &TypedName,
    term: &Term,
) -> Result<(), TypeFault>
    ensures { Walks (argument_faults (context known.now) vars.now param.now.kind.name term.now) result }
{
    match term_kind(known, vars, term) {
        None => Err(unknown(known.file, term)),
        Some(kind) => {
            if known.types.is_under(kind, param.kind.name.bytes()) {
                Ok(())
            } else {
                Err(TypeFault::At {
                    wrong: Wrong::WrongType,
                    file: known.file,
                    span: term_span(term),
                })
            }
        }
    }
}

#[tactic(auto, using(crate::proofs::WalkLemmas::walking))]
fn arguments(
    known: &Known<'_>,
    vars: &Kinds,
    params: &[TypedName],
    args: &[Term],
) -> Result<(), TypeFault>
    requires { length args.now ≡ length params.now }
    ensures { Walks (arguments_faults (context known.now) vars.now params.now args.now) result }
{
    'pairs: for (i, term) in args.iter().enumerate() {
        argument(known, vars, &params[i], term)?;
    }
    Ok(())
}

/// A predicate or a function is declared, and the arguments fit its parameters.
#[tactic(auto, using(crate::proofs::WalkLemmas::walking))]
pub fn used(
    known: &Known<'_>,
    vars: &Kinds,
    declared: &Declared<'_>,
    used: &Use,
) -> Result<(), TypeFault>
    ensures { Walks (use_faults (context known.now) vars.now declared.now.heads.now used.now) result }
{
    let args = used.args.as_slice();
    match declared.params(used.head.name.bytes()) {
        None => Err(TypeFault::At {
            wrong: Wrong::UnknownName,
            file: known.file,
            span: used.head.span,
        }),
        Some(params) => {
            if args.len() == params.len() {
                arguments(known, vars, params, args)
            } else {
                Err(TypeFault::At {
                    wrong: Wrong::Arity,
                    file: known.file,
                    span: used.span,
                })
            }
        }
    }
}

/// Walks an expression, in which `#t` may stand where `clock` says so.
#[tactic(auto, using(crate::proofs::WalkLemmas::walking))]
pub fn expression(
    known: &Known<'_>,
    vars: &Kinds,
    clock: bool,
    expr: &ExprTree,
) -> Result<(), TypeFault>
    ensures { Walks (expr_faults (context known.now) vars.now clock expr.now) result }
{
    match &expr.node {
        ExprNode::Number(_) => Ok(()),
        ExprNode::Clock => {
            if clock {
                Ok(())
            } else {
                Err(TypeFault::At {
                    wrong: Wrong::RateForm,
                    file: known.file,
                    span: expr.span,
                })
            }
        }
        ExprNode::Fluent(fluent) => used(known, vars, &known.functions, fluent),
        ExprNode::Sum(members) | ExprNode::Product(members) => {
            'members: for member in members {
                expression(known, vars, clock, member)?;
            }
            Ok(())
        }
        ExprNode::Minus(operand) => expression(known, vars, clock, operand),
        ExprNode::Difference(left, right) | ExprNode::Quotient(left, right) => {
            expression(known, vars, clock, left)?;
            expression(known, vars, clock, right)
        }
    }
}
