//! Net rates: how much each fluent gains in a unit of time.
ghost use Rattle.std.specs.Prelude.{◌≡◌, ◌<◌, ◌≤◌, ◌↔◌, ℕ, replicate, length, insert, slice_set, true, pos, IfOk, OnOk, OnErr};
ghost use Rattle.plus_fraction.specs.Fraction.{whole};
ghost use Rattle.plus_model.specs.Piece.{rate_of};
ghost use Rattle.plus_state.specs.Changes.{AreIn, Rises};
ghost use Rattle.plus_crossing.specs.Rated.{all_rates, fluent_numbers, moving_of, IsFoundAt, IsAt};

use plus_number::consts::zero;
use plus_number::exact::Exact;
use plus_state::evaluation::is_zero;
use plus_state::term::FluentId;
use std::alloc::{AllocError, Global};
use std::marker::Model;

// Places are noted where at least one in so many fluents has one.
const SPREAD: usize = 8;

/// The net rate of each fluent, 0 where none was given. Contracts see the list of the fractions, by the
/// numbers of the fluents. Only the rates that were given are kept, in a list by rising fluents: other
/// fluents cost nothing. A rate takes the time of a search; a fluent that has no place yet also that of
/// moving those behind it, so places for fluents in any order are made at once (`make_places`).
#[derive(Drop)]
pub struct Rates<Q: Exact> {
    // How many there are: the length of the list that contracts see.
    fluents: usize,
    // Above all fluents that have a place: a look at another one costs nothing.
    below: usize,
    given: Vec<(u32, Q)>,
    // For each fluent a place at which it may stand, which is looked at before it is believed; for none
    // where no places were made at once.
    guesses: Vec<u32>,
}

impl<Q: Exact> Model for Rates<Q> {
    ghost use Rattle.std.specs.Prelude.{List, ◌≤◌};
    ghost use Rattle.std.specs.Coded.{coded_list};
    ghost use Rattle.plus_fraction.specs.Fraction.{Fraction};
    ghost use Rattle.plus_fraction.specs.FractionCode.{coded_fraction};
    ghost use Rattle.plus_state.specs.Changes.{AreIn, Rises};
    ghost use Rattle.plus_crossing.specs.Rated.{all_rates};

    ghost Value = { List Fraction };

    ghost coded = { coded_list coded_fraction };

    ghost view = { λ r. all_rates Q.value r.given.items 0 r.fluents };

    ghost invariant = { λ r. AreIn r.below r.given.items × (r.below ≤ r.fluents) × Rises r.given.items };
}

fn greater(x: usize, y: usize) -> usize
    ensures first { x ≤ result }
    ensures second { y ≤ result }
    ensures least { (n : ℕ) → x ≤ n → y ≤ n → result ≤ n }
{
    if x < y { y } else { x }
}

// Whether this fluent stands at this place.
fn stands_at<Q: Exact>(given: &[(u32, Q)], place: usize, fluent: u32) -> bool
    ensures { result ≡ true → IsAt place fluent given.now }
{
    place < given.len() && given[place].0 == fluent
}

// A place at which this fluent may stand.
fn guessed(guesses: &[u32], fluent: u32) -> usize {
    match guesses.get(fluent as usize) {
        Some(place) => *place as usize,
        None => 0,
    }
}

// The place of this fluent, if none is left out from it up to the last one, which is below this number.
fn place_from_last<Q: Exact>(given: &[(u32, Q)], fluent: u32, below: usize) -> usize {
    given
        .len()
        .saturating_sub(below.saturating_sub(fluent as usize))
}

// Where this fluent stands, or else where it would be put in.
fn search<Q: Exact>(given: &[(u32, Q)], fluent: u32) -> Result<usize, usize>
    requires { Rises given.now }
    ensures { IsFoundAt fluent given.now result }
{
    match given.binary_search_by_key(&fluent, |entry| entry.0) {
        Ok(place) => Ok(place),
        Err(place) => Err(place),
    }
}

// The same. Two places are looked at first: where it is if fluents stand in a row, and where it was put.
fn place_of<Q: Exact>(
    given: &[(u32, Q)],
    guesses: &[u32],
    fluent: u32,
    below: usize,
) -> Result<usize, usize>
    requires { Rises given.now }
    ensures { IsFoundAt fluent given.now result }
{
    let late = place_from_last(given, fluent, below);
    if stands_at(given, late, fluent) {
        return Ok(late);
    }
    let guess = guessed(guesses, fluent);
    if stands_at(given, guess, fluent) {
        return Ok(guess);
    }
    search(given, fluent)
}

// Notes where each of these fluents stands, which are below this number. What was noted of others is left. Where they are few
// among the fluents below it, nothing is noted: room for all of them would cost more than what moves.
fn note_places<Q: Exact>(
    given: &[(u32, Q)],
    below: usize,
    guesses: &mut Vec<u32>,
) -> Result<(), AllocError> {
    if below / SPREAD > given.len() {
        return Ok(());
    }
    if guesses.len() < below {
        guesses.resize(below, 0)?;
    }
    let mut place: u32 = 0;
    'each: for entry in given {
        if let Some(guess) = guesses.get_mut(entry.0 as usize) {
            *guess = place;
        }
        place = place.saturating_add(1);
    }
    Ok(())
}

// Puts an entry in at this place, which is mostly the end.
#[inline(always)]
fn put_in<Q: Exact>(
    given: &mut Vec<(u32, Q)>,
    place: usize,
    entry: (u32, Q),
) -> Result<(), AllocError>
    requires { place ≤ length given.old.items }
    ensures ok { OnOk result (given.new.items ≡ insert given.old.items place entry) }
    ensures err { OnErr result (given.new.items ≡ given.old.items) }
{
    if place == given.len() {
        given.push(entry)?;
    } else {
        given.insert(place, entry)?;
    }
    Ok(())
}

impl<Q: Exact> Rates<Q> {
    /// All rates are 0, for so many fluents.
    pub fn zero(alloc: Global, fluents: usize) -> Rates<Q>
        ensures { result ≡ replicate fluents (whole (pos 0)) }
    {
        Rates {
            fluents,
            below: 0,
            given: Vec::new(alloc),
            guesses: Vec::new(alloc),
        }
    }

    /// All rates become 0, for so many fluents. The memory stays.
    #[inline(always)]
    pub fn renew(&mut self, fluents: usize)
        ensures { self.new ≡ replicate fluents (whole (pos 0)) }
    {
        self.given.clear();
        self.fluents = fluents;
        self.below = 0;
    }

    /// Equal rates.
    pub fn copy(&self, alloc: Global) -> Result<Rates<Q>, AllocError>
        ensures { IfOk result (λ r. r ≡ self.now) }
    {
        Ok(Rates {
            fluents: self.fluents,
            below: self.below,
            given: Vec::from_slice(alloc, &self.given)?,
            guesses: Vec::new(alloc),
        })
    }

    /// The rate of a fluent.
    pub fn get(&self, fluent: FluentId) -> Q
        requires { fluent.0 < length self.now }
        ensures { Q.value result ≡ rate_of self.now fluent.0 }
    {
        if self.below <= fluent.0 as usize {
            return zero();
        }
        match place_of(&self.given, &self.guesses, fluent.0, self.below) {
            Ok(place) => self.given[place].1,
            Err(_) => zero(),
        }
    }

    /// Gives a fluent this rate, and changes nothing else.
    pub fn set(&mut self, fluent: FluentId, rate: Q) -> Result<(), AllocError>
        requires { fluent.0 < length self.old }
        ensures ok { OnOk result (self.new ≡ slice_set self.old fluent.0 (Q.value rate)) }
        ensures err { OnErr result (self.new ≡ self.old) }
    {
        match place_of(&self.given, &self.guesses, fluent.0, self.below) {
            Ok(place) => {
                self.given[place] = (fluent.0, rate);
            }
            Err(place) => {
                put_in(&mut self.given, place, (fluent.0, rate))?;
                self.below = greater(self.below, fluent.0 as usize + 1);
            }
        }
        Ok(())
    }

    // Puts these fluents in the list, with the rate 0, where no fluent has a place yet.
    fn put_places(&mut self, alloc: Global, mut numbers: Vec<u32>) -> Result<(), AllocError>
        ensures { self.new ≡ self.old }
    {
        if self.below != 0 {
            return Ok(());
        }
        numbers.sort()?;
        let mut given = Vec::with_capacity(alloc, numbers.len())?;
        let mut below = 0;
        'each: for number in &numbers {
            if below <= *number as usize && (*number as usize) < self.fluents {
                given.push((*number, zero()))?;
                below = *number as usize + 1;
            }
        }
        self.given = given;
        self.below = below;
        Ok(())
    }

    // Notes where each fluent that has a place stands.
    fn note(&mut self) -> Result<(), AllocError>
        ensures { self.new ≡ self.old }
    {
        note_places(&self.given, self.below, &mut self.guesses)
    }

    /// Makes places for these fluents, in whatever order they come, where no fluent has one yet.
    pub fn make_places(&mut self, alloc: Global, numbers: Vec<u32>) -> Result<(), AllocError>
        ensures { self.new ≡ self.old }
    {
        self.put_places(alloc, numbers)?;
        self.note()
    }

    // The rates that were given, by the numbers of the fluents.
    pub fn given(&self) -> &[(u32, Q)]
        ensures rates { all_rates Q.value result.now 0 (length self.now) ≡ self.now }
        ensures inside { AreIn (length self.now) result.now }
        ensures rising { Rises result.now }
    {
        &self.given
    }

    /// Puts the fluents whose rate is not zero, by their numbers, in place of others, whose memory they take.
    pub fn moving_into(&self, fluents: &mut Vec<FluentId>) -> Result<(), AllocError>
        ensures { IfOk result (λ _. fluent_numbers fluents.new.items ≡ moving_of self.now) }
    {
        fluents.clear();
        'each: for entry in &self.given {
            if !is_zero(entry.1) {
                fluents.push(FluentId(entry.0))?;
            }
        }
        Ok(())
    }

    /// Whether the fluents whose rate is not zero are just these, in this order.
    #[inline(always)]
    pub fn moves_just(&self, fluents: &[FluentId]) -> bool
        ensures { result ≡ true ↔ (fluent_numbers fluents.now ≡ moving_of self.now) }
    {
        let mut place = 0;
        'each: for entry in &self.given {
            if !is_zero(entry.1) {
                if place >= fluents.len() || fluents[place].0 != entry.0 {
                    return false;
                }
                place += 1;
            }
        }
        place == fluents.len()
    }
}
