//! The comparisons of the goal that are of one fluent with a number.

use crate::collector::Collector;
use crate::slots::Slot;
use plus_number::frac::Frac64;
use plus_replay::unmet::append_condition;
use plus_rows::Goal;
use plus_state::{Cond, Expr, FluentId};
use std::alloc::AllocError;

// The fluent and the number that are compared, if these are compared.
fn compared(left: &Expr<Frac64>, right: &Expr<Frac64>) -> Option<(FluentId, Frac64)> {
    match (left, right) {
        (Expr::Fluent(fluent), Expr::Number(value)) => Some((*fluent, *value)),
        (Expr::Number(value), Expr::Fluent(fluent)) => Some((*fluent, *value)),
        _ => None,
    }
}

impl Collector<'_, '_, '_> {
    // Puts a comparison beside the row of its fluent.
    fn goal(
        &mut self,
        condition: &Cond<Frac64>,
        fluent: FluentId,
        value: Frac64,
    ) -> Result<(), AllocError> {
        let Slot::At(place) = self.tables.fluents.get(fluent.0 as usize) else {
            return Ok(());
        };
        let mut text = Vec::from_slice(self.alloc, b"goal: ")?;
        append_condition(&mut text, condition, self.ground)?;
        if let Some(row) = self.rows.get_mut(place) {
            row.goals.push(Goal { value, text })?;
        }
        Ok(())
    }

    /// Puts all comparisons of a condition of the goal beside the rows of their fluents.
    pub fn goals(&mut self, condition: &Cond<Frac64>) -> Result<(), AllocError> {
        match condition {
            Cond::All(members) => {
                'all: for member in members {
                    self.goals(member)?;
                }
                Ok(())
            }
            Cond::Any(members) => {
                'any: for member in members {
                    self.goals(member)?;
                }
                Ok(())
            }
            Cond::Atom { .. } => Ok(()),
            Cond::Compare { left, right, .. } => match compared(left, right) {
                Some((fluent, value)) => self.goal(condition, fluent, value),
                None => Ok(()),
            },
        }
    }
}
