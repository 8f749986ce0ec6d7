//! The trees of domains and problems. Each form and name has its place in the text; the place of
//! a form goes from its opening parenthesis to the end of its closing one.

use crate::lists::{Members, NameArgs};
use crate::names::{Name, Spelled};
use crate::terms::{Comparison, Literal, Term, TypedName, Use};
use plus_tokens::Span;
use std::marker::Model;

/// An expression. Contracts see it as an `Expr`.
#[cycle(expr)]
#[derive(Drop)]
pub struct ExprTree {
    pub node: ExprNode,
    pub span: Span,
}

/// What an expression is worth.
#[cycle(expr)]
#[derive(Drop)]
pub enum ExprNode {
    /// This number. Its place is that of the expression.
    Number(Literal),
    /// The time that passes in a process: `#t`.
    Clock,
    /// The value of this fluent. Its place is that of the expression.
    Fluent(Box<Use>),
    /// `(+ ..)`, of two or more.
    Sum(Vec<ExprTree>),
    /// `(* ..)`, of two or more.
    Product(Vec<ExprTree>),
    /// `(- x)`
    Minus(Box<ExprTree>),
    /// `(- x y)`
    Difference(Box<ExprTree>, Box<ExprTree>),
    /// `(/ x y)`
    Quotient(Box<ExprTree>, Box<ExprTree>),
}

impl Model for ExprTree {
    ghost use Rattle.plus_tree.specs.Expr.{Expr, expr_code};

    ghost Value = { Expr };

    ghost coded = { expr_code };

    ghost use Rattle.plus_tree.specs.ExprView.{expr_view};
    ghost use Rattle.plus_tree.specs.Expr.{expr_size};

    ghost view = { λ a. expr_view a.node a.span };

    ghost size = { expr_size };

    ghost use Rattle.plus_tree.specs.ExprFalls.{expr_falls};

    ghost size_decreases = { λ a h. expr_falls a.node a.span };
}

/// A condition. Contracts see it as a `Cond`.
#[cycle(cond)]
#[derive(Drop)]
pub struct CondTree {
    pub node: CondNode,
    pub span: Span,
}

/// What a condition asks.
#[cycle(cond)]
#[derive(Drop)]
pub enum CondNode {
    /// Each of these holds: `(and ..)`. With no member it always holds.
    All(Vec<CondTree>),
    /// One of these holds: `(or ..)`. With no member it never holds.
    Any(Vec<CondTree>),
    /// This one does not hold: `(not ..)`.
    Not(Box<CondTree>),
    /// The second holds where the first does: `(imply ..)`.
    Imply(Box<CondTree>, Box<CondTree>),
    /// It holds for all objects in place of the variables: `(forall (..) ..)`.
    ForAll(Members<TypedName>, Box<CondTree>),
    /// It holds for some objects in place of the variables: `(exists (..) ..)`.
    Exists(Members<TypedName>, Box<CondTree>),
    /// This atom is true. Its place is that of the condition.
    Atom(Box<Use>),
    /// The two are the same object: `(= ..)`.
    Same(Box<Term>, Box<Term>),
    /// The two numbers compare so.
    Compare(Comparison, Box<ExprTree>, Box<ExprTree>),
}

impl Model for CondTree {
    ghost use Rattle.plus_tree.specs.Cond.{Cond, cond_code};

    ghost Value = { Cond };

    ghost coded = { cond_code };

    ghost use Rattle.plus_tree.specs.CondView.{cond_view};
    ghost use Rattle.plus_tree.specs.Cond.{cond_size};

    ghost view = { λ a. cond_view a.node a.span };

    ghost size = { cond_size };

    ghost use Rattle.plus_tree.specs.CondFalls.{cond_falls};

    ghost size_decreases = { λ a h. cond_falls a.node a.span };
}

/// One write of an effect.
#[derive(Drop)]
pub struct Leaf {
    pub node: LeafNode,
    pub span: Span,
}

/// What is written.
#[derive(Drop)]
pub enum LeafNode {
    /// The atom becomes true. Its place is that of the leaf.
    Add(Use),
    /// The atom becomes false: `(not ..)`.
    Delete(Use),
    /// The fluent becomes this number: `(assign ..)`.
    Assign(Use, ExprTree),
    /// The fluent goes up: `(increase ..)`.
    Increase(Use, ExprTree),
    /// The fluent goes down: `(decrease ..)`.
    Decrease(Use, ExprTree),
    /// The fluent is multiplied: `(scale-up ..)`.
    ScaleUp(Use, ExprTree),
    /// The fluent is divided: `(scale-down ..)`.
    ScaleDown(Use, ExprTree),
}

/// An effect. Contracts see it as an `Effect`.
#[cycle(effect)]
#[derive(Drop)]
pub struct EffectTree {
    pub node: EffectNode,
    pub span: Span,
}

/// What an effect does.
#[cycle(effect)]
#[derive(Drop)]
pub enum EffectNode {
    /// Each of these: `(and ..)`. With no member it does nothing.
    All(Vec<EffectTree>),
    /// This for all objects in place of the variables: `(forall (..) ..)`.
    ForAll(Members<TypedName>, Box<EffectTree>),
    /// These writes where the condition holds: `(when ..)`.
    When(Box<CondTree>, Members<Leaf>),
    /// This one write. Its place is that of the effect.
    Leaf(Box<Leaf>),
}

impl Model for EffectTree {
    ghost use Rattle.plus_tree.specs.Effect.{Effect, effect_code};

    ghost Value = { Effect };

    ghost coded = { effect_code };

    ghost use Rattle.plus_tree.specs.EffectView.{effect_view};
    ghost use Rattle.plus_tree.specs.Effect.{effect_size};

    ghost view = { λ a. effect_view a.node a.span };

    ghost size = { effect_size };

    ghost use Rattle.plus_tree.specs.EffectFalls.{effect_falls};

    ghost size_decreases = { λ a h. effect_falls a.node a.span };
}

/// A predicate or a function that is declared.
#[derive(Drop)]
pub struct Head {
    pub name: Spelled,
    pub params: Members<TypedName>,
    pub span: Span,
}

/// An action, a process or an event. A condition or an effect that is not written has no members,
/// and the place 0 to 0.
#[derive(Drop)]
pub struct Schema {
    pub name: Spelled,
    pub params: Members<TypedName>,
    pub condition: CondTree,
    pub effect: EffectTree,
    pub span: Span,
}

/// A domain. A requirement is kept without its colon.
#[derive(Drop)]
pub struct Domain {
    pub name: Spelled,
    pub requirements: Members<Spelled>,
    /// Each type with the one above it.
    pub types: Members<TypedName>,
    pub constants: Members<TypedName>,
    pub predicates: Members<Head>,
    pub functions: Members<Head>,
    pub actions: Members<Schema>,
    pub processes: Members<Schema>,
    pub events: Members<Schema>,
    pub span: Span,
}

/// A member of `:init`.
#[derive(Drop)]
pub enum Init {
    /// An atom that is true at first.
    Holds(Use),
    /// An atom that is false at first: `(not ..)`, with the place of the whole form.
    Absent(Use, Span),
    /// The first value of a fluent: `(= ..)`, with the place of the whole form.
    Value(Use, Literal, Span),
    /// A timed initial literal: from this time on the atom is true. `(at 2 ..)`, with the place of
    /// the whole form.
    At(Literal, Use, Span),
    /// A timed initial literal: from this time on the atom is false. `(at 2 (not ..))`, with the place
    /// of the whole form.
    AtNot(Literal, Use, Span),
}

/// A problem.
#[derive(Drop)]
pub struct Problem {
    pub name: Spelled,
    /// The name of the domain that the problem is for.
    pub domain: Spelled,
    pub requirements: Members<Spelled>,
    pub objects: Members<TypedName>,
    pub init: Members<Init>,
    pub goal: CondTree,
    pub span: Span,
}

/// When the condition of a constraint is to hold along a plan.
#[derive(Clone, Copy, PartialEq, Eq)]
pub enum Rule {
    /// All the way: `(always ..)`.
    Always,
    /// At some moment: `(sometime ..)`.
    Sometime,
    /// At some moment up to this time: `(within 3 ..)`.
    Within(Literal),
    /// All the way from this time on: `(hold-after 3 ..)`.
    HoldAfter(Literal),
}

/// A constraint on the way that a plan takes.
#[derive(Drop)]
pub struct Constraint {
    pub rule: Rule,
    pub cond: CondTree,
    pub span: Span,
}

/// An action with its arguments, as a plan names it.
#[derive(Drop)]
pub struct Call {
    pub name: Name,
    pub args: NameArgs,
}
