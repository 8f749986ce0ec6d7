//! What is found of constraints, by the first place of each.
ghost use Rattle.std.specs.Prelude.{◌≡◌, ◌<◌, length, slice_get};
ghost use Rattle.plus_number.specs.Frac.{fraction_of};
ghost use Rattle.plus_report.specs.Puts.{Puts};
ghost use Rattle.plus_report.specs.Wrote.{Wrote};
ghost use Rattle.plus_watch.specs.View.{found_of};
ghost use Rattle.plus_watch.specs.Watched.{constraint_of, constraints_of, places_of};
ghost use Rattle.plus_watch_lines.specs.Lines.{found_at, found_lines, all_held, is_held, holds_at};

use crate::line::put_line;
use plus_io::{Failed, Sink};
use plus_number::frac::Frac64;
use plus_report::put::{Waiting, flush};
use plus_watch::place::{Found, Place, told};
use plus_watch::rule::is_lasting;
use plus_watch::watched::Watched;

// What the first place of one of them tells.
fn found(one: &Watched<Frac64>, firsts: &[Option<Place<Frac64>>], index: usize) -> Found<Frac64>
    requires { index < length firsts.now }
    ensures { found_of fraction_of result ≡ found_at (constraint_of fraction_of one.now) (slice_get (places_of fraction_of firsts.now) index) }
{
    told(is_lasting(one.rule), firsts[index])
}

fn holds(found: Found<Frac64>) -> bool
    ensures { result ≡ is_held (found_of fraction_of found) }
{
    match found {
        Found::Holds => true,
        Found::Never | Found::FailsAt(_) | Found::FailsAfter(_) => false,
    }
}

/// Whether all hold.
pub fn all_hold(watched: &[Watched<Frac64>], firsts: &[Option<Place<Frac64>>]) -> bool
    requires each { length firsts.now ≡ length watched.now }
    ensures { result ≡ all_held (constraints_of fraction_of watched.now) (places_of fraction_of firsts.now) }
{
    let mut all = true;
    'each: for (index, one) in watched.iter().enumerate() {
        let held = holds(found(one, firsts, index));
        all = all && held;
    }
    all
}

// Puts a line for each, numbered from 1.
fn put_lines<O: Sink>(
    out: &mut O,
    waiting: &mut Waiting,
    watched: &[Watched<Frac64>],
    firsts: &[Option<Place<Frac64>>],
) -> Result<(), Failed>
    requires each { length firsts.now ≡ length watched.now }
    ensures { Puts O.taken O.faults out.old out.new waiting.old.items waiting.new.items
        (found_lines (constraints_of fraction_of watched.now) (places_of fraction_of firsts.now)) result }
{
    'each: for (index, one) in watched.iter().enumerate() {
        put_line(
            out,
            waiting,
            index as u64 + 1,
            one.rule,
            found(one, firsts, index),
        )?;
    }
    Ok(())
}

/// Writes a line for each, numbered from 1.
pub fn write_lines<O: Sink>(
    out: &mut O,
    watched: &[Watched<Frac64>],
    firsts: &[Option<Place<Frac64>>],
) -> Result<(), Failed>
    requires each { length firsts.now ≡ length watched.now }
    ensures { Wrote O.taken O.faults out.old out.new
        (found_lines (constraints_of fraction_of watched.now) (places_of fraction_of firsts.now)) result }
{
    let mut waiting = Waiting::new();
    put_lines(out, &mut waiting, watched, firsts)?;
    flush(out, &mut waiting)
}
