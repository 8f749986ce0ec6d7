//! The objects of a well-typed pair by their types.

ghost use Rattle.std.specs.Prelude.{◌≡◌, ℕ, List, map, false, ◌+◌, ◌<◌, ◌≤◌, ◌^◌, [], ◌∷◌, ◌++◌, length, slice_index_or, if◌then◌else◌, OnOk, IfOk};
ghost use Rattle.std.specs.List.{position_or_len};
ghost use Rattle.std.specs.Str.{bytes_eq};
ghost use Rattle.plus_types.specs.Types.{is_among, is_under, bindings_of, bound_names, objects_of};
ghost use Rattle.plus_expansion.specs.Counts.{most_objects};
ghost use Rattle.plus_expansion.specs.Objects.{places_from, members_of};
ghost use Rattle.plus_numbering.specs.Tables.{context, places_of, once, IsPlace, AreBelow};

use plus_tree::TypedName;
use plus_types::types::OBJECT;
use plus_types::{Names, Typed, Types};
use std::alloc::{AllocError, Global};

/// The objects of a well-typed pair by their types.
#[derive(Drop)]
pub struct Extents<'a> {
    pub typed: &'a Typed,
    names: Names,
    lists: Vec<Vec<u32>>,
    ghost sizes: { length names ≡ length lists.items },
    ghost few: { length (objects_of typed.now.domain typed.now.problem) ≤ most_objects },
    ghost lists_are: { (kind : List ℕ) → places_of names (map (λ v. v.items) lists.items) kind ≡ members_of (context typed.now) kind },
}

// The list of a type; where it has none, no object.
fn places<'a>(names: &Names, lists: &'a Vec<Vec<u32>>, kind: &[u8]) -> &'a [u32]
    ensures { result.now ≡ places_of names.now (map (λ v. v.items) lists.now.items) kind.now }
{
    match names.number(kind) {
        None => &[],
        Some(place) => {
            if place < lists.len() {
                return lists[place].as_slice();
            }
            &[]
        }
    }
}

// Puts an object at the end of a list, unless it stands there.
fn put_once(list: &mut Vec<u32>, object: u32) -> Result<(), AllocError>
    ensures { OnOk result (list.new.items ≡ once object list.old.items) }
{
    let len = list.len();
    if len > 0 {
        if list[len - 1] == object {
            return Ok(());
        }
    }
    list.push(object)?;
    Ok(())
}

// Sees that a type has a list.
fn know(
    alloc: Global,
    names: &mut Names,
    lists: &mut Vec<Vec<u32>>,
    name: &[u8],
) -> Result<usize, AllocError>
    requires { length names.old ≡ length lists.old.items }
    ensures size { IfOk result (λ _. length names.new ≡ length lists.new.items) }
    ensures place { IfOk result (λ i. IsPlace names.new name.now i) }
    ensures same { IfOk result (λ _. (k : List ℕ) → places_of names.new (map (λ v. v.items) lists.new.items) k
        ≡ places_of names.old (map (λ v. v.items) lists.old.items) k) }
    ensures within { IfOk result (λ i. i < length lists.new.items) }
{
    if let Some(place) = names.number(name) {
        return Ok(place);
    }
    let place = names.len();
    lists.push(Vec::new(alloc))?;
    names.add(alloc, name)?;
    Ok(place)
}

// Puts an object at the end of the list of a type.
fn put(
    alloc: Global,
    names: &mut Names,
    lists: &mut Vec<Vec<u32>>,
    name: &[u8],
    object: u32,
) -> Result<(), AllocError>
    requires { length names.old ≡ length lists.old.items }
    ensures size { OnOk result (length names.new ≡ length lists.new.items) }
    ensures put { OnOk result ((k : List ℕ) → places_of names.new (map (λ v. v.items) lists.new.items) k
        ≡ (if bytes_eq k name.now then once object (places_of names.old (map (λ v. v.items) lists.old.items) k)
        else places_of names.old (map (λ v. v.items) lists.old.items) k)) }
{
    let place = know(alloc, names, lists, name)?;
    put_once(&mut lists[place], object)?;
    Ok(())
}

// Puts an object at the end of the lists of these types.
fn put_all(
    alloc: Global,
    names: &mut Names,
    lists: &mut Vec<Vec<u32>>,
    ups: &Names,
    object: u32,
) -> Result<(), AllocError>
    requires { length names.old ≡ length lists.old.items }
    ensures size { OnOk result (length names.new ≡ length lists.new.items) }
    ensures put { OnOk result ((k : List ℕ) → places_of names.new (map (λ v. v.items) lists.new.items) k
        ≡ (if is_among ups.now k then once object (places_of names.old (map (λ v. v.items) lists.old.items) k)
        else places_of names.old (map (λ v. v.items) lists.old.items) k)) }
{
    'ups: for place in 0..ups.len() {
        put(alloc, names, lists, ups.name(place), object)?;
    }
    Ok(())
}

// The types that a type is, or is under; those of the type before, where it is the same.
fn ups_of(
    alloc: Global,
    types: &Types,
    ups: Names,
    before: &[u8],
    kind: &[u8],
) -> Result<Names, AllocError>
    requires { (k : List ℕ) → is_among ups k ≡ is_under types.now before.now k }
    ensures { IfOk result (λ ups. (k : List ℕ) → is_among ups k ≡ is_under types.now kind.now k) }
{
    if kind == before {
        return Ok(ups);
    }
    types.ups(alloc, kind)
}

// Puts each of these objects, whose places are counted on from `first`, into the lists of all types that it is of:
// a walk up for each run of objects of one type.
fn put_objects<'a>(
    alloc: Global,
    types: &Types,
    names: &mut Names,
    lists: &mut Vec<Vec<u32>>,
    first: u32,
    objects: &'a [TypedName],
) -> Result<(), AllocError>
    requires room { first + length objects.now < 2 ^ 32 }
    requires size { length names.old ≡ length lists.old.items }
    requires below { (k : List ℕ) → AreBelow first (places_of names.old (map (λ v. v.items) lists.old.items) k) }
    ensures size { OnOk result (length names.new ≡ length lists.new.items) }
    ensures put { OnOk result ((k : List ℕ) → places_of names.new (map (λ v. v.items) lists.new.items) k
        ≡ places_of names.old (map (λ v. v.items) lists.old.items) k ++ places_from types.now k first (bindings_of objects.now)) }
{
    let mut before: &'a [u8] = OBJECT.as_slice();
    let mut ups = types.ups(alloc, before)?;
    let mut place = first;
    'objects: for object in objects {
        let kind = object.kind.name.bytes();
        ups = ups_of(alloc, types, ups, before, kind)?;
        before = kind;
        put_all(alloc, names, lists, &ups, place)?;
        place += 1;
    }
    Ok(())
}

impl<'a> Extents<'a> {
    /// Finds the objects of each type.
    pub fn new(alloc: Global, typed: &'a Typed) -> Result<Extents<'a>, AllocError>
        requires { length (objects_of typed.now.domain typed.now.problem) ≤ most_objects }
        ensures { IfOk result (λ m. m.typed.now ≡ typed.now) }
    {
        let mut names = Names::new(alloc);
        let mut lists = Vec::new(alloc);
        let constants = typed.domain.constants.as_slice();
        put_objects(alloc, &typed.types, &mut names, &mut lists, 0, constants)?;
        let first = constants.len() as u32;
        let objects = typed.problem.objects.as_slice();
        put_objects(alloc, &typed.types, &mut names, &mut lists, first, objects)?;
        Ok(Extents {
            typed,
            names,
            lists,
        })
    }

    /// The number of the list of a type; where it has none, how many lists there are.
    pub fn number(&self, kind: &[u8]) -> usize
        ensures { result ≡ position_or_len (bytes_eq kind.now) self.now.names }
    {
        match self.names.number(kind) {
            None => self.names.len(),
            Some(place) => place,
        }
    }

    /// The objects of a type, in order, by the number of its list.
    pub fn numbered(&self, number: usize, kind: &[u8]) -> &[u32]
        requires { number ≡ position_or_len (bytes_eq kind.now) self.now.names }
        ensures members { result.now ≡ members_of (context self.now.typed.now) kind.now }
        ensures few { length result.now ≤ most_objects }
    {
        if number < self.lists.len() {
            self.lists[number].as_slice()
        } else {
            self.of_type(kind)
        }
    }

    /// The objects of a type, in order.
    pub fn of_type(&self, kind: &[u8]) -> &[u32]
        ensures members { result.now ≡ members_of (context self.now.typed.now) kind.now }
        ensures few { length result.now ≤ most_objects }
    {
        places(&self.names, &self.lists, kind)
    }

    /// The name of an object; where there is none, nothing.
    pub fn name(&self, object: u32) -> &[u8]
        ensures { result.now ≡ slice_index_or (bound_names (bindings_of (objects_of self.now.typed.now.domain self.now.typed.now.problem))) object [] }
    {
        let constants = self.typed.domain.constants.as_slice();
        let place = object as usize;
        if place < constants.len() {
            return constants[place].name.name.bytes();
        }
        match self
            .typed
            .problem
            .objects
            .as_slice()
            .get(place - constants.len())
        {
            None => &[],
            Some(named) => named.name.name.bytes(),
        }
    }
}
