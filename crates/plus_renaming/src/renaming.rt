//! Events whose variables have new names.

ghost use Rattle.std.specs.Prelude.{◌≡◌, ◌+◌, suc, ◌∷◌, ◌++◌, map, length, IfOk, OnOk};
ghost use Rattle.plus_tree.specs.ExprView.{expr_view};
ghost use Rattle.plus_tree.specs.CondView.{cond_view};
ghost use Rattle.plus_tree.specs.EffectView.{effect_view};
ghost use Rattle.plus_translation.specs.Renamed.{spelled, fresh_name, scope_with, bindings_in, effect_bindings, renamed_list, renamed_term, renamed_use, renamed_expr, renamed_cond, renamed_leaf, renamed_effect, renamed_event, renamed_from};

use crate::copies;
use crate::numerals::fresh_name;
use crate::scope::Scope;
use plus_tree::{
    Args, CondNode, CondTree, EffectNode, EffectTree, ExprNode, ExprTree, Leaf, LeafNode, Members,
    NOWHERE, Name, Schema, Span, Spelled, Term, TypedName, Use,
};
use std::alloc::{AllocError, Global};

// One more. A count past 64 bits would not lie in memory.
fn one_more(count: u64) -> Result<u64, AllocError>
    ensures { IfOk result (λ more. more ≡ suc count) }
{
    match count.checked_add(1) {
        Some(more) => Ok(more),
        None => Err(AllocError),
    }
}

fn made_expression(node: ExprNode, span: Span) -> ExprTree
    ensures { result ≡ expr_view node span }
{
    ExprTree { node, span }
}

fn made_condition(node: CondNode, span: Span) -> CondTree
    ensures { result ≡ cond_view node span }
{
    CondTree { node, span }
}

fn made_effect(node: EffectNode, span: Span) -> EffectTree
    ensures { result ≡ effect_view node span }
{
    EffectTree { node, span }
}

/// Renames the variables of an event, binding by binding.
#[derive(Drop)]
pub struct Renamer<'a> {
    /// The number of the event, from 1.
    pub event: u64,
    /// The number of its next binding, from 1.
    pub next: u64,
    /// The variables in force.
    pub scope: Scope<'a>,
}

impl<'a> Renamer<'a> {
    // The next variable of a list is in force.
    fn bind_one(&mut self, alloc: Global, member: &'a TypedName) -> Result<TypedName, AllocError>
        ensures name { IfOk result (λ v. v ≡ record {
          name = spelled (fresh_name self.old.event self.old.next);
          kind = member.now.kind;
        }) }
        ensures after { OnOk result (self.new ≡ record self.old {
          next = suc self.old.next;
          scope = (member.now.name.name, fresh_name self.old.event self.old.next) ∷ self.old.scope;
        }) }
    {
        let name = fresh_name(alloc, self.event, self.next)?;
        let new = fresh_name(alloc, self.event, self.next)?;
        let kind = copies::spelled(alloc, &member.kind)?;
        self.scope.bind(member.name.name.bytes(), new)?;
        self.next = one_more(self.next)?;
        Ok(TypedName {
            name: Spelled {
                name,
                span: NOWHERE,
            },
            kind,
        })
    }

    // The variables of a list are in force.
    #[tactic(auto, using(crate::proofs::SoFar::binding))]
    fn bind(
        &mut self,
        alloc: Global,
        list: &'a [TypedName],
    ) -> Result<Members<TypedName>, AllocError>
        ensures list { IfOk result (λ names. names
            ≡ renamed_list self.old.event self.old.next list.now) }
        ensures after { OnOk result (self.new ≡ record self.old {
          next = self.old.next + length list.now;
          scope = scope_with self.old.event self.old.next list.now self.old.scope;
        }) }
    {
        let mut names = Members::new(alloc);
        'list: for member in list {
            names.push(self.bind_one(alloc, member)?)?;
        }
        Ok(names)
    }

    // An argument.
    fn term(&self, alloc: Global, term: &Term) -> Result<Term, AllocError>
        ensures { IfOk result (λ copy. copy ≡ renamed_term self.now.scope term.now) }
    {
        match term {
            Term::Object(object) => Ok(Term::Object(copies::spelled(alloc, object)?)),
            Term::Variable(variable) => Ok(Term::Variable(Spelled {
                name: Name::new(alloc, self.scope.new_name(variable.name.bytes()))?,
                span: variable.span,
            })),
        }
    }

    // The arguments of a use.
    fn terms(&self, alloc: Global, terms: &[Term]) -> Result<Args, AllocError>
        ensures { IfOk result (λ copy. copy ≡ map (renamed_term self.now.scope) terms.now) }
    {
        let mut copy = Args::new(alloc);
        'terms: for member in terms {
            copy.push(self.term(alloc, member)?)?;
        }
        Ok(copy)
    }

    // A predicate or a function that is used.
    fn used(&self, alloc: Global, used: &Use) -> Result<Use, AllocError>
        ensures { IfOk result (λ copy. copy ≡ renamed_use self.now.scope used.now) }
    {
        Ok(Use {
            head: copies::spelled(alloc, &used.head)?,
            args: self.terms(alloc, used.args.as_slice())?,
            span: used.span,
        })
    }

    // An expression.
    #[tactic(auto, using(crate::proofs::SoFar::expressions))]
    fn expression(&self, alloc: Global, expr: &ExprTree) -> Result<ExprTree, AllocError>
        ensures { IfOk result (λ copy. copy ≡ renamed_expr self.now.scope expr.now) }
    {
        match &expr.node {
            ExprNode::Number(number) => Ok(made_expression(ExprNode::Number(*number), expr.span)),
            ExprNode::Clock => Ok(made_expression(ExprNode::Clock, expr.span)),
            ExprNode::Fluent(fluent) => Ok(made_expression(
                ExprNode::Fluent(Box::new(alloc, self.used(alloc, fluent)?)?),
                expr.span,
            )),
            ExprNode::Sum(members) => {
                let mut copy = Vec::with_capacity(alloc, members.len())?;
                'sum: for member in members {
                    copy.push(self.expression(alloc, member)?)?;
                }
                Ok(made_expression(ExprNode::Sum(copy), expr.span))
            }
            ExprNode::Product(members) => {
                let mut copy = Vec::with_capacity(alloc, members.len())?;
                'product: for member in members {
                    copy.push(self.expression(alloc, member)?)?;
                }
                Ok(made_expression(ExprNode::Product(copy), expr.span))
            }
            ExprNode::Minus(only) => Ok(made_expression(
                ExprNode::Minus(Box::new(alloc, self.expression(alloc, only)?)?),
                expr.span,
            )),
            ExprNode::Difference(left, right) => {
                let left = Box::new(alloc, self.expression(alloc, left)?)?;
                let right = Box::new(alloc, self.expression(alloc, right)?)?;
                Ok(made_expression(ExprNode::Difference(left, right), expr.span))
            }
            ExprNode::Quotient(left, right) => {
                let left = Box::new(alloc, self.expression(alloc, left)?)?;
                let right = Box::new(alloc, self.expression(alloc, right)?)?;
                Ok(made_expression(ExprNode::Quotient(left, right), expr.span))
            }
        }
    }

    // A condition.
    #[tactic(auto, using(crate::proofs::SoFar::conds))]
    fn condition(&mut self, alloc: Global, cond: &'a CondTree) -> Result<CondTree, AllocError>
        ensures value { IfOk result (λ copy. copy
            ≡ renamed_cond self.old.event self.old.scope self.old.next cond.now) }
        ensures after { OnOk result (self.new
            ≡ record self.old { next = self.old.next + bindings_in cond.now }) }
    {
        match &cond.node {
            CondNode::All(members) => {
                let mut copy = Vec::with_capacity(alloc, members.len())?;
                'all: for member in members {
                    copy.push(self.condition(alloc, member)?)?;
                }
                Ok(made_condition(CondNode::All(copy), cond.span))
            }
            CondNode::Any(members) => {
                let mut copy = Vec::with_capacity(alloc, members.len())?;
                'any: for member in members {
                    copy.push(self.condition(alloc, member)?)?;
                }
                Ok(made_condition(CondNode::Any(copy), cond.span))
            }
            CondNode::Not(negated) => Ok(made_condition(
                CondNode::Not(Box::new(alloc, self.condition(alloc, negated)?)?),
                cond.span,
            )),
            CondNode::Imply(first, second) => {
                let first = Box::new(alloc, self.condition(alloc, first)?)?;
                let second = Box::new(alloc, self.condition(alloc, second)?)?;
                Ok(made_condition(CondNode::Imply(first, second), cond.span))
            }
            CondNode::ForAll(names, inner) => {
                let renamed = self.bind(alloc, names.as_slice())?;
                let inner = Box::new(alloc, self.condition(alloc, inner)?)?;
                self.scope.unbind(names.as_slice().len());
                Ok(made_condition(CondNode::ForAll(renamed, inner), cond.span))
            }
            CondNode::Exists(names, inner) => {
                let renamed = self.bind(alloc, names.as_slice())?;
                let inner = Box::new(alloc, self.condition(alloc, inner)?)?;
                self.scope.unbind(names.as_slice().len());
                Ok(made_condition(CondNode::Exists(renamed, inner), cond.span))
            }
            CondNode::Atom(atom) => Ok(made_condition(
                CondNode::Atom(Box::new(alloc, self.used(alloc, atom)?)?),
                cond.span,
            )),
            CondNode::Same(left, right) => {
                let left = Box::new(alloc, self.term(alloc, left)?)?;
                let right = Box::new(alloc, self.term(alloc, right)?)?;
                Ok(made_condition(CondNode::Same(left, right), cond.span))
            }
            CondNode::Compare(sign, left, right) => {
                let left = Box::new(alloc, self.expression(alloc, left)?)?;
                let right = Box::new(alloc, self.expression(alloc, right)?)?;
                Ok(made_condition(CondNode::Compare(*sign, left, right), cond.span))
            }
        }
    }

    // A write.
    fn leaf(&self, alloc: Global, leaf: &Leaf) -> Result<Leaf, AllocError>
        ensures { IfOk result (λ copy. copy ≡ renamed_leaf self.now.scope leaf.now) }
    {
        let node = match &leaf.node {
            LeafNode::Add(atom) => LeafNode::Add(self.used(alloc, atom)?),
            LeafNode::Delete(atom) => LeafNode::Delete(self.used(alloc, atom)?),
            LeafNode::Assign(fluent, amount) => {
                LeafNode::Assign(self.used(alloc, fluent)?, self.expression(alloc, amount)?)
            }
            LeafNode::Increase(fluent, amount) => {
                LeafNode::Increase(self.used(alloc, fluent)?, self.expression(alloc, amount)?)
            }
            LeafNode::Decrease(fluent, amount) => {
                LeafNode::Decrease(self.used(alloc, fluent)?, self.expression(alloc, amount)?)
            }
            LeafNode::ScaleUp(fluent, amount) => {
                LeafNode::ScaleUp(self.used(alloc, fluent)?, self.expression(alloc, amount)?)
            }
            LeafNode::ScaleDown(fluent, amount) => {
                LeafNode::ScaleDown(self.used(alloc, fluent)?, self.expression(alloc, amount)?)
            }
        };
        Ok(Leaf {
            node,
            span: leaf.span,
        })
    }

    // The writes of a `when`.
    fn leaves(&self, alloc: Global, leaves: &[Leaf]) -> Result<Members<Leaf>, AllocError>
        ensures { IfOk result (λ copy. copy ≡ map (renamed_leaf self.now.scope) leaves.now) }
    {
        let mut copy = Members::new(alloc);
        'leaves: for member in leaves {
            copy.push(self.leaf(alloc, member)?)?;
        }
        Ok(copy)
    }

    // An effect.
    #[tactic(auto, using(crate::proofs::SoFar::effects))]
    fn effect(&mut self, alloc: Global, effect: &'a EffectTree) -> Result<EffectTree, AllocError>
        ensures value { IfOk result (λ copy. copy
            ≡ renamed_effect self.old.event self.old.scope self.old.next effect.now) }
        ensures after { OnOk result (self.new
            ≡ record self.old { next = self.old.next + effect_bindings effect.now }) }
    {
        match &effect.node {
            EffectNode::All(members) => {
                let mut copy = Vec::with_capacity(alloc, members.len())?;
                'all: for member in members {
                    copy.push(self.effect(alloc, member)?)?;
                }
                Ok(made_effect(EffectNode::All(copy), effect.span))
            }
            EffectNode::ForAll(names, inner) => {
                let renamed = self.bind(alloc, names.as_slice())?;
                let inner = Box::new(alloc, self.effect(alloc, inner)?)?;
                self.scope.unbind(names.as_slice().len());
                Ok(made_effect(EffectNode::ForAll(renamed, inner), effect.span))
            }
            EffectNode::When(guard, writes) => {
                let guard = Box::new(alloc, self.condition(alloc, guard)?)?;
                Ok(made_effect(
                    EffectNode::When(guard, self.leaves(alloc, writes.as_slice())?),
                    effect.span,
                ))
            }
            EffectNode::Leaf(write) => Ok(made_effect(
                EffectNode::Leaf(Box::new(alloc, self.leaf(alloc, write)?)?),
                effect.span,
            )),
        }
    }
}

/// The event with this number, with new names for its variables.
pub fn event(alloc: Global, number: u64, event: &Schema) -> Result<Schema, AllocError>
    ensures { IfOk result (λ renamed. renamed ≡ renamed_event number event.now) }
{
    let mut renamer = Renamer {
        event: number,
        next: 1,
        scope: Scope::new(alloc),
    };
    let name = copies::spelled(alloc, &event.name)?;
    let params = renamer.bind(alloc, event.params.as_slice())?;
    let condition = renamer.condition(alloc, &event.condition)?;
    let effect = renamer.effect(alloc, &event.effect)?;
    Ok(Schema {
        name,
        params,
        condition,
        effect,
        span: event.span,
    })
}

/// The events of a domain, with new names for their variables.
pub fn events(alloc: Global, events: &[Schema]) -> Result<Vec<Schema>, AllocError>
    ensures { IfOk result (λ renamed. renamed.items ≡ renamed_from 1 events.now) }
{
    let mut renamed = Vec::with_capacity(alloc, events.len())?;
    'events: for (before, member) in events.iter().enumerate() {
        renamed.push(event(alloc, before as u64 + 1, member)?)?;
    }
    Ok(renamed)
}
