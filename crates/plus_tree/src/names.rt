//! Names, and where they stand.

ghost use Rattle.std.specs.Prelude.{◌≡◌, ◌≤◌, [], IfOk, length, map};
ghost use Rattle.plus_tokens.specs.Lowered.{lowered};

use plus_tokens::Span;
use smallvec::SmallVec;
use std::alloc::{AllocError, Global};
use std::default::MadeWith;
use std::marker::Model;

/// A name in small letters, of which up to 16 bytes need no memory of their own. Contracts see it as the
/// list of its bytes.
#[derive(Drop)]
pub struct Name {
    bytes: SmallVec<u8, 16>,
}

impl Model for Name {
    ghost use Rattle.std.specs.Prelude.{List, ℕ};

    ghost Value = { List ℕ };

    ghost view = { λ a. a.bytes.items };
}

// What an empty place of a list of names holds.
impl MadeWith<Global> for Name {
    fn made_with(alloc: Global) -> Name {
        Name {
            bytes: SmallVec::new(alloc),
        }
    }
}

impl Name {
    /// The name of these bytes. PDDL tells no case apart, so names are kept in small letters.
    #[inline(always)]
    pub fn new(alloc: Global, bytes: &[u8]) -> Result<Name, AllocError>
        ensures { IfOk result (λ name. name ≡ bytes.now) }
    {
        Ok(Name {
            bytes: SmallVec::from_slice(alloc, bytes)?,
        })
    }

    /// The name that a word of a text spells: its bytes in small letters.
    #[inline(always)]
    pub fn of_word(alloc: Global, word: &[u8]) -> Result<Name, AllocError>
        ensures { IfOk result (λ name. name ≡ lowered word.now) }
    {
        if word.len() <= 16 {
            return Ok(short_name(alloc, word));
        }
        let lower: SmallVec<u8, 16> = word.iter().map(|b| b.to_ascii_lowercase()).collect(alloc)?;
        Ok(Name { bytes: lower })
    }

    /// The bytes of the name.
    pub fn bytes(&self) -> &[u8]
        ensures { result.now ≡ self.now }
    {
        self.bytes.as_slice()
    }
}

// The name that a word of few bytes spells.
fn short_name(alloc: Global, word: &[u8]) -> Name
    requires { length word.now ≤ 16 }
    ensures { result ≡ lowered word.now }
{
    let mut bytes = SmallVec::new(alloc);
    for b in word {
        bytes.push_reserved(b.to_ascii_lowercase());
    }
    Name { bytes }
}

/// A name where it stands in a text.
#[derive(Drop)]
pub struct Spelled {
    pub name: Name,
    pub span: Span,
}

impl Spelled {
    /// The name without a byte, which stands from 0 to 0.
    pub fn nothing(alloc: Global) -> Spelled
        ensures { result ≡ record { name = []; span = record { start = 0; «end» = 0 } } }
    {
        Spelled {
            name: Name {
                bytes: SmallVec::new(alloc),
            },
            span: Span { start: 0, end: 0 },
        }
    }
}
