//! The events that have fired in a cascade.
ghost use Rattle.std.specs.Prelude.{◌≡◌, ◌<◌, ◌++◌, ℕ, List, false, [], length, replicate, option_map, All, IfOk};
ghost use Rattle.plus_cascade.specs.Fired.{event_numbers, with_fired, first_repeated, IsSetOf};

use plus_number::exact::Exact;
use plus_state::bits::Bits;
use plus_state::problem::Ground;
use plus_state::term::EventId;
use std::alloc::{AllocError, Global};
use std::marker::Model;

/// The set of the events that have fired in a cascade, for a number of events. Contracts see one truth
/// for each event, by its number.
#[derive(Drop)]
pub struct Cascade {
    fired: Bits,
}

impl Model for Cascade {
    ghost use Rattle.std.specs.Prelude.{Bool, List};

    ghost Value = { List Bool };

    ghost view = { λ c. c.fired };
}

/// The empty set, for the events of this problem.
pub fn begin<Q: Exact>(alloc: Global, ground: &Ground<Q>) -> Result<Cascade, AllocError>
    ensures { IfOk result (λ c. c ≡ replicate (length (ground.now.events.items)) false) }
{
    Ok(Cascade {
        fired: Bits::new(alloc, ground.events.len() as u32)?,
    })
}

impl Cascade {
    /// An equal set.
    pub fn copy(&self, alloc: Global) -> Result<Cascade, AllocError>
        ensures { IfOk result (λ c. c ≡ self.now) }
    {
        Ok(Cascade {
            fired: self.fired.copy(alloc)?,
        })
    }

    // The first of these events that has fired.
    pub fn first_fired(&self, events: &[EventId]) -> Option<EventId>
        requires { All (λ e. e < length self.now) (event_numbers events.now) }
        ensures { option_map (λ e. e.0) result ≡ first_repeated self.now (event_numbers events.now) }
    {
        'each: for event in events {
            if self.fired.get(event.0) {
                return Some(*event);
            }
        }
        None
    }

    // These events have fired too.
    pub fn add(&mut self, events: &[EventId])
        requires { All (λ e. e < length self.old) (event_numbers events.now) }
        ensures set { self.new ≡ with_fired self.old (event_numbers events.now) }
        ensures grows { (before : List ℕ) → IsSetOf self.old before → IsSetOf self.new (before ++ event_numbers events.now) }
        ensures size { length self.new ≡ length self.old }
    {
        'each: for event in events {
            self.fired.set(event.0, true);
        }
    }

    /// These events have not fired. Where they are all that have, the set is empty then.
    pub fn clear(&mut self, events: &[EventId])
        requires { All (λ e. e < length self.old) (event_numbers events.now) }
        ensures empty { IsSetOf self.old (event_numbers events.now) → IsSetOf self.new [] }
        ensures size { length self.new ≡ length self.old }
    {
        'each: for event in events {
            self.fired.set(event.0, false);
        }
    }
}
