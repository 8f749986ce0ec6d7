//! The types of a domain, and which of them is above which.

ghost use Rattle.std.specs.Prelude.{◌≡◌, ℕ, List, true, ◌||◌, ◌&&◌, [], ◌∷◌, ◌++◌, IfOk, IfSome, OnOk};
ghost use Rattle.std.specs.List.{list_any};
ghost use Rattle.std.specs.Str.{bytes_eq};
ghost use Rattle.plus_types.specs.Types.{is_among, bindings_of, bound_names, bound_kinds, right_above, is_above};
ghost use Rattle.plus_types.specs.Faults.{Walks, listed_faults, types_faults};
ghost use Rattle.plus_types.specs.Ranks.{AreSuspects};

use crate::faults::{File, TypeFault, Wrong};
use crate::jumps::Jumps;
use crate::kinds::Kinds;
use crate::loops::{finds_loop, suspects};
use crate::names::{Names, is_name};
use plus_tree::TypedName;
use std::alloc::{AllocError, Global};
use std::marker::Model;

/// The name of the type above all others.
pub const OBJECT: &[u8; 6] = b"object";

/// The types of a domain. Contracts see them as the list of those that are listed, each with the
/// one above it.
#[derive(Drop)]
pub struct Types {
    listed: Kinds,
    above: Names,
    jumps: Option<Jumps>,
}

impl Model for Types {
    ghost use Rattle.std.specs.Prelude.{List, ℕ};
    ghost use Rattle.std.specs.Coded.{coded_list, coded×, coded_ℕ};
    ghost use Rattle.plus_types.specs.Jumps.{Holds};

    ghost Value = { List (List ℕ × List ℕ) };

    ghost coded = { coded_list (coded× (coded_list coded_ℕ) (coded_list coded_ℕ)) };

    ghost view = { λ t. t.listed };

    ghost invariant = { λ t. Holds t.listed t.above t.jumps };
}

impl Types {
    ghost use Rattle.plus_types.specs.Types.{is_type, is_under};

    /// Whether a name is a type.
    pub fn contains(&self, name: &[u8]) -> bool
        ensures { result ≡ is_type self.now name.now }
    {
        if name == OBJECT.as_slice() || self.listed.contains(name) {
            true
        } else {
            self.above.contains(name)
        }
    }

    /// Whether a type is another, or is under it.
    pub fn is_under(&self, low: &[u8], high: &[u8]) -> bool
        ensures { result ≡ is_under self.now low.now high.now }
    {
        if is_name(high, low) {
            return true;
        }
        if let Some(under) = self.is_under_by_jumps(low, high) {
            return under;
        }
        self.is_above(low, high)
    }

    // Whether a type is another, or is under it, where jumps tell.
    fn is_under_by_jumps(&self, low: &[u8], high: &[u8]) -> Option<bool>
        ensures { IfSome result (λ under. under ≡ is_under self.now low.now high.now) }
    {
        match &self.jumps {
            None => None,
            Some(jumps) => {
                if high == OBJECT.as_slice() {
                    None
                } else {
                    jumps.is_under(&self.listed, low, high)
                }
            }
        }
    }

    /// All types that a type is, or is under, without repeats.
    pub fn ups(&self, alloc: Global, low: &[u8]) -> Result<Names, AllocError>
        ensures { IfOk result (λ ups. (k : List ℕ) → is_among ups k ≡ is_under self.now low.now k) }
    {
        let mut ups = Names::new(alloc);
        add_where(alloc, &mut ups, true, OBJECT)?;
        add_where(alloc, &mut ups, true, low)?;
        let mut at = low;
        let mut left = self.listed.len() + 1;
        'steps: while left > 0 {
            left -= 1;
            match self.listed.kind(at) {
                None => return Ok(ups),
                Some(kind) => {
                    add_where(alloc, &mut ups, true, kind)?;
                    at = kind;
                }
            }
        }
        Ok(ups)
    }

    // Whether a type is above another: it is `object`, or is met on the way up.
    fn is_above(&self, low: &[u8], high: &[u8]) -> bool
        ensures { result ≡ is_above self.now high.now low.now }
    {
        let mut at = low;
        let mut left = self.listed.len() + 1;
        if high == OBJECT.as_slice() {
            return low != OBJECT.as_slice();
        }
        'steps: while left > 0 {
            left -= 1;
            match self.listed.kind(at) {
                None => return false,
                Some(kind) => {
                    if high == kind {
                        return true;
                    }
                    at = kind;
                }
            }
        }
        false
    }
}

// Adds a name where the test holds.
pub(crate) fn add_where(
    alloc: Global,
    up: &mut Names,
    holds: bool,
    name: &[u8],
) -> Result<(), AllocError>
    ensures { OnOk result ((k : List ℕ) → is_among up.new k ≡ (is_among up.old k || (holds && bytes_eq k name.now))) }
{
    if holds {
        up.add(alloc, name)?;
    }
    Ok(())
}

// The types right above those of a level.
fn next_level(alloc: Global, types: &[TypedName], level: &Names) -> Result<Names, AllocError>
    ensures { IfOk result (λ up. (k : List ℕ) → is_among up k
        ≡ list_any (λ low. is_among (right_above (bindings_of types.now) low) k) level.now) }
{
    let mut up = Names::new(alloc);
    add_where(alloc, &mut up, level.has_another(OBJECT), OBJECT)?;
    'types: for member in types {
        let below = level.contains(member.name.name.bytes());
        add_where(alloc, &mut up, below, member.kind.name.bytes())?;
    }
    Ok(up)
}

// Whether a listed type is above itself, where the list may have types twice: each level up is
// gathered whole.
fn is_above_itself(alloc: Global, types: &[TypedName], name: &[u8]) -> Result<bool, AllocError>
    ensures { IfOk result (λ r. r ≡ is_above (bindings_of types.now) name.now name.now) }
{
    let mut level = Names::new(alloc);
    level.add(alloc, name)?;
    let mut left = types.len() + 1;
    'levels: while left > 0 {
        if level.is_empty() {
            return Ok(false);
        }
        level = next_level(alloc, types, &level)?;
        if level.contains(name) {
            return Ok(true);
        }
        left -= 1;
    }
    Ok(false)
}

// Whether a listed type is above itself: it is not where it is no suspect, and it is where a way up was
// found. Where the searches were no help, which no list has shown yet, all levels up are gathered.
fn loops(
    alloc: Global,
    types: &[TypedName],
    suspects: &Option<Names>,
    name: &[u8],
) -> Result<bool, AllocError>
    requires suspects { IfSome suspects.now (λ s. AreSuspects (bindings_of types.now) s) }
    requires listed { is_among (bound_names (bindings_of types.now)) name.now ≡ true }
    ensures { IfOk result (λ r. r ≡ is_above (bindings_of types.now) name.now name.now) }
{
    if let Some(names) = suspects {
        if !names.contains(name) {
            return Ok(false);
        }
    }
    if finds_loop(alloc, types, name)? {
        return Ok(true);
    }
    is_above_itself(alloc, types, name)
}

// A listed type is listed once, and is not above itself.
#[tactic(auto, unfolding(crate::specs::Faults::listed_faults))]
fn listed(
    alloc: Global,
    types: &[TypedName],
    suspects: &Option<Names>,
    table: &mut Kinds,
    member: &TypedName,
) -> Result<(), TypeFault>
    requires suspects { IfSome suspects.now (λ s. AreSuspects (bindings_of types.now) s) }
    requires listed { is_among (bound_names (bindings_of types.now)) member.now.name.name ≡ true }
    ensures walks { Walks (listed_faults (bindings_of types.now) (bound_names table.old) member.now) result }
    ensures bound { IfOk result (λ _. table.new ≡ table.old ++ (member.now.name.name, member.now.kind.name) ∷ []) }
{
    let name = member.name.name.bytes();
    if table.contains(name) {
        return Err(TypeFault::At {
            wrong: Wrong::Twice,
            file: File::Domain,
            span: member.name.span,
        });
    }
    if loops(alloc, types, suspects, name)? {
        return Err(TypeFault::At {
            wrong: Wrong::TypeLoop,
            file: File::Domain,
            span: member.name.span,
        });
    }
    table.bind(alloc, name, member.kind.name.bytes())?;
    Ok(())
}

// The types that stand above a listed one.
fn kinds(alloc: Global, types: &[TypedName]) -> Result<Names, AllocError>
    ensures { IfOk result (λ above. (k : List ℕ) → is_among above k ≡ is_among (bound_kinds (bindings_of types.now)) k) }
{
    let mut above = Names::new(alloc);
    'types: for member in types {
        add_where(alloc, &mut above, true, member.kind.name.bytes())?;
    }
    Ok(above)
}

// The listed types, each with the one above it.
fn table(alloc: Global, types: &[TypedName]) -> Result<Kinds, TypeFault>
    ensures walks { Walks (types_faults (bindings_of types.now) [] types.now) result }
    ensures table { IfOk result (λ t. t ≡ bindings_of types.now) }
{
    let suspects = suspects(alloc, types)?;
    let mut table = Kinds::new(alloc);
    'types: for member in types {
        listed(alloc, types, &suspects, &mut table, member)?;
    }
    Ok(table)
}

/// Walks the types of a domain, and answers their table.
pub fn walk(alloc: Global, types: &[TypedName]) -> Result<Types, TypeFault>
    ensures walks { Walks (types_faults (bindings_of types.now) [] types.now) result }
    ensures table { IfOk result (λ t. t ≡ bindings_of types.now) }
{
    let listed = table(alloc, types)?;
    let above = kinds(alloc, types)?;
    let jumps = Jumps::build(alloc, types, &listed)?;
    Ok(Types {
        listed,
        above,
        jumps,
    })
}
