//! The text by which a ground atom, fluent, action, event or process is shown.
ghost use Rattle.std.specs.Prelude.{◌≡◌, IfOk};

use smallvec::SmallVec;
use std::alloc::{AllocError, Global};
use std::marker::Model;

/// The text of a ground thing, `(name argument argument)`, as bytes, of which up to 24 need no memory of their
/// own. Contracts see the list of its bytes.
#[derive(Drop)]
pub struct Label {
    text: SmallVec<u8, 24>,
}

impl Model for Label {
    ghost use Rattle.std.specs.Prelude.{ℕ, List};

    ghost Value = { List ℕ };

    ghost view = { λ l. l.text.items };
}

impl Label {
    /// The label with these bytes.
    pub fn new(alloc: Global, bytes: &[u8]) -> Result<Label, AllocError>
        ensures { IfOk result (λ l. l ≡ bytes.now) }
    {
        Ok(Label {
            text: SmallVec::from_slice(alloc, bytes)?,
        })
    }

    /// The label that this text spells.
    #[inline(always)]
    pub fn of_text(text: SmallVec<u8, 24>) -> Label
        ensures { result ≡ text.items }
    {
        Label { text }
    }

    /// Its bytes.
    pub fn bytes(&self) -> &[u8]
        ensures { result.now ≡ self.now }
    {
        self.text.as_slice()
    }
}
