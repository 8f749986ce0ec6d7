//! The instances of actions that a plan calls. Those that were made are kept.
ghost use Rattle.std.specs.Prelude.{◌≡◌, ◌<◌, length, slice_get, Some, IsSome, IsTrue, IfOk, IfErr, IfSome};
ghost use Rattle.plus_number.specs.Frac.{fraction_of, IsFrac64};
ghost use Rattle.plus_state.specs.View.{action_of};
ghost use Rattle.plus_expansion.specs.Calls.{called_of};
ghost use Rattle.plus_ground.specs.Refusals.{RefusesCall};
ghost use Rattle.plus_instances.specs.Made.{IsMade, IsKept, AreMade, StayMade, HasMade, made_at};
ghost use Rattle.plus_instances.specs.declared.instances.Place.{Place};

use indexmap::IndexMap;
use plus_ground::{InstanceFault, instance};
use plus_number::frac::Frac64;
use plus_numbering::Numbering;
use plus_state::problem::Action;
use plus_state::term::Cond;
use plus_tree::{Call, Name};
use smallvec::SmallVec;
use std::alloc::{AllocError, Global};

/// The most conditions and effects of the large instances that are kept together.
const MOST_KEPT: u32 = 1_000_000;

/// The fewest conditions and effects of a large instance.
const LARGE: u32 = 64;

/// How many slots the small instances have.
const SLOTS: usize = 4096;

/// Where an instance stands, until the next call of `place`.
#[derive(Clone, Copy)]
pub enum Place {
    /// Among the large ones.
    Large(usize),
    /// Among the small ones.
    Small(usize),
}

/// An instance, with the names of its action and of the objects that it was called with.
#[derive(Drop)]
struct Kept {
    name: Name,
    args: SmallVec<Name, 1>,
    action: Action<Frac64>,
}

/// The instances of the actions of a pair. Each that is made is kept, and found again by its call. Large ones
/// are kept until they have more than 1,000,000 conditions and effects together: then all of them are let go.
/// A small one is kept at the slot of its call, until one of another call takes the slot.
#[derive(Drop)]
pub struct Instances<'a> {
    pub numbering: &'a Numbering<'a>,
    large: Vec<Kept>,
    // the places of the large ones, by the hashes of their calls: of several with one hash, that of the last
    places: IndexMap<u64, usize>,
    // how many conditions and effects the large ones have
    size: u32,
    small: Vec<Kept>,
    // the places of the small ones, by the slots of their calls; no slot before there is a small one
    slots: Vec<Option<usize>>,
}

// How many conditions a condition has, with itself.
fn conditions(condition: &Cond<Frac64>) -> u32 {
    match condition {
        Cond::All(members) => {
            let mut count = 1u32;
            'all: for member in members {
                count = count.saturating_add(conditions(member));
            }
            count
        }
        Cond::Any(members) => {
            let mut count = 1u32;
            'any: for member in members {
                count = count.saturating_add(conditions(member));
            }
            count
        }
        Cond::Atom { .. } => 1,
        Cond::Compare { .. } => 1,
    }
}

// How many conditions and effects an instance has.
fn size_of(action: &Action<Frac64>) -> u32 {
    let mut size = conditions(&action.condition);
    for effect in &action.effects {
        size = size.saturating_add(conditions(&effect.guard));
        size = size.saturating_add(1);
    }
    size
}

// The hash FNV-1a of no byte, and its factor.
const BASIS: u64 = 0xcbf29ce484222325;

const FACTOR: u64 = 0x100000001b3;

// A byte that no name has.
const BETWEEN: u64 = 0xff;

// The hash of a name behind what has this hash.
fn mixed(hash: u64, name: &[u8]) -> u64 {
    let mut hash = hash;
    'bytes: for byte in name {
        hash = (hash ^ *byte as u64).wrapping_mul(FACTOR);
    }
    (hash ^ BETWEEN).wrapping_mul(FACTOR)
}

// The hash of a call.
fn hash_of(call: &Call) -> u64 {
    let mut hash = mixed(BASIS, call.name.bytes());
    'args: for arg in call.args.as_slice() {
        hash = mixed(hash, arg.bytes());
    }
    hash
}

// The slot of a call with this hash.
fn slot_of(hash: u64) -> usize {
    (hash % SLOTS as u64) as usize
}

fn copied(alloc: Global, names: &[Name]) -> Result<SmallVec<Name, 1>, AllocError>
    ensures { IfOk result (λ copy. copy.items ≡ names.now) }
{
    let mut copy = SmallVec::new(alloc);
    for name in names {
        copy.push(Name::new(alloc, name.bytes())?)?;
    }
    Ok(copy)
}

fn are_same(names: &[Name], others: &[Name]) -> bool
    ensures { IsTrue result → names.now ≡ others.now }
{
    match names {
        [] => others.is_empty(),
        [name, names @ ..] => match others {
            [] => false,
            [other, others @ ..] => name.bytes() == other.bytes() && are_same(names, others),
        },
    }
}

impl Kept {
    // Whether it is the instance of a call.
    fn is_of(&self, call: &Call) -> bool
        ensures name { IsTrue result → self.now.name ≡ call.now.name }
        ensures args { IsTrue result → self.now.args.items ≡ call.now.args }
    {
        self.name.bytes() == call.name.bytes()
            && are_same(self.args.as_slice(), call.args.as_slice())
    }
}

impl<'a> Instances<'a> {
    /// No instance is made yet.
    pub fn new(alloc: Global, numbering: &'a Numbering<'a>) -> Instances<'a>
        ensures of { result.numbering.now ≡ numbering.now }
        ensures made { AreMade result }
    {
        Instances {
            numbering,
            large: Vec::new(alloc),
            places: IndexMap::new(alloc),
            size: 0,
            small: Vec::new(alloc),
            slots: Vec::new(alloc),
        }
    }

    /// The place of the instance of a call, until the next call of `place`. It is made where it is not
    /// kept. An `Err` comes as from `plus_ground::instance`.
    #[inline(always)]
    pub fn place(&mut self, alloc: Global, call: &Call) -> Result<Place, InstanceFault>
        requires { AreMade self.old }
        ensures kept { StayMade self.old self.new }
        ensures made { IfOk result (HasMade self.old.numbering.now.typed.now self.new call.now.name call.now.args) }
        ensures refused { IfErr result (RefusesCall IsFrac64 self.old.numbering.now.typed.now.domain call.now.name
            (called_of self.old.numbering.now.typed.now.domain self.old.numbering.now.typed.now.problem call.now.name call.now.args)) }
    {
        let hash = hash_of(call);
        if let Some(place) = self.small_place(slot_of(hash), call) {
            return Ok(Place::Small(place));
        }
        if let Some(place) = self.large_place(hash, call) {
            return Ok(Place::Large(place));
        }
        let action = instance::<Frac64>(alloc, self.numbering, call)?;
        Ok(self.keep(alloc, hash, call, action)?)
    }

    /// The instance at a place.
    pub fn at(&self, place: Place) -> &Action<Frac64>
        requires { IsSome (made_at self.now place) }
        ensures { made_at self.now place ≡ Some (action_of fraction_of result.now) }
    {
        match place {
            Place::Large(place) => &self.large[place].action,
            Place::Small(place) => &self.small[place].action,
        }
    }

    // The place of the small instance of a call with this slot, where it is kept.
    #[inline(always)]
    fn small_place(&self, slot: usize, call: &Call) -> Option<usize>
        requires { AreMade self.now }
        ensures { IfSome result (λ place.
            HasMade self.now.numbering.now.typed.now self.now call.now.name call.now.args (Place.Small place)) }
    {
        let place = (*self.slots.get(slot)?)?;
        let kept = self.small.get(place)?;
        if kept.is_of(call) { Some(place) } else { None }
    }

    // The place of the large instance of a call with this hash, where it is kept.
    #[inline(always)]
    fn large_place(&self, hash: u64, call: &Call) -> Option<usize>
        requires { AreMade self.now }
        ensures { IfSome result (λ place.
            HasMade self.now.numbering.now.typed.now self.now call.now.name call.now.args (Place.Large place)) }
    {
        if self.large.is_empty() {
            return None;
        }
        let place = *self.places.get(&hash)?;
        let kept = self.large.get(place)?;
        if kept.is_of(call) { Some(place) } else { None }
    }

    // Keeps the instance of a call with this hash, and answers its place.
    fn keep(
        &mut self,
        alloc: Global,
        hash: u64,
        call: &Call,
        action: Action<Frac64>,
    ) -> Result<Place, AllocError>
        requires kept { AreMade self.old }
        requires made { IsMade self.old.numbering.now.typed.now call.now.name call.now.args (action_of fraction_of action) }
        ensures kept { StayMade self.old self.new }
        ensures made { IfOk result (HasMade self.old.numbering.now.typed.now self.new call.now.name call.now.args) }
    {
        let size = size_of(&action);
        let kept = Kept {
            name: Name::new(alloc, call.name.bytes())?,
            args: copied(alloc, call.args.as_slice())?,
            action,
        };
        if size < LARGE {
            Ok(Place::Small(self.keep_small(alloc, slot_of(hash), kept)?))
        } else {
            Ok(Place::Large(self.keep_large(hash, kept, size)?))
        }
    }

    // Keeps a small instance at a slot, and answers its place.
    fn keep_small(&mut self, alloc: Global, slot: usize, kept: Kept) -> Result<usize, AllocError>
        requires kept { AreMade self.old }
        requires made { IsKept self.old.numbering.now.typed.now kept }
        ensures kept { StayMade self.old self.new }
        ensures stands { IfOk result (λ place. slice_get self.new.small.items place ≡ Some kept) }
    {
        self.make_slots(alloc)?;
        if let Some(place) = self.taken(slot) {
            self.small[place] = kept;
            return Ok(place);
        }
        let place = self.small.len();
        self.small.push(kept)?;
        self.mark(slot, place);
        Ok(place)
    }

    // Makes the slots, where there are none yet.
    fn make_slots(&mut self, alloc: Global) -> Result<(), AllocError>
        requires { AreMade self.old }
        ensures { StayMade self.old self.new }
    {
        if self.slots.is_empty() {
            self.slots = vec![in alloc; None; SLOTS]?;
        }
        Ok(())
    }

    // The place at a slot, where it is taken.
    fn taken(&self, slot: usize) -> Option<usize>
        ensures { IfSome result (λ place. place < length self.now.small.items) }
    {
        let place = (*self.slots.get(slot)?)?;
        if place < self.small.len() {
            Some(place)
        } else {
            None
        }
    }

    // Says which place a slot has.
    fn mark(&mut self, slot: usize, place: usize)
        requires { AreMade self.old }
        ensures kept { StayMade self.old self.new }
        ensures small { self.new.small ≡ self.old.small }
    {
        if slot < self.slots.len() {
            self.slots[slot] = Some(place);
        }
    }

    // Lets all large instances go where one more of this size would be too much.
    fn make_room(&mut self, size: u32)
        requires { AreMade self.old }
        ensures { StayMade self.old self.new }
    {
        if size <= MOST_KEPT.saturating_sub(self.size) {
            return;
        }
        self.large.clear();
        self.places.clear();
        self.size = 0;
    }

    // Keeps a large instance of this size, whose call has this hash, and answers its place.
    fn keep_large(&mut self, hash: u64, kept: Kept, size: u32) -> Result<usize, AllocError>
        requires kept { AreMade self.old }
        requires made { IsKept self.old.numbering.now.typed.now kept }
        ensures kept { StayMade self.old self.new }
        ensures stands { IfOk result (λ place. slice_get self.new.large.items place ≡ Some kept) }
    {
        self.make_room(size);
        let place = self.large.len();
        self.places.insert(hash, place)?;
        self.large.push(kept)?;
        self.size = self.size.saturating_add(size);
        Ok(place)
    }
}
