//! A line as the tokens that are still to come.

ghost use Rattle.std.specs.Prelude.{◌≡◌, ◌+◌, ◌^◌, ◌<◌, false, true, length, OnOk, OnErr, MatchOption};
ghost use Rattle.plus_tokens.specs.Ahead.{is_close, is_colon, is_name, is_open};
ghost use Rattle.plus_tokens.specs.Coming.{comes, is_done, without, word_ahead};
ghost use Rattle.plus_tokens.specs.Items.{items_of};
ghost use Rattle.plus_tokens.specs.Lowered.{lowered};
ghost use Rattle.plus_tokens.specs.Seen.{byte_of, seen, seen_or_none};
ghost use Rattle.plus_plan.specs.Ahead.{refusal_ahead};
ghost use Rattle.plus_plan.specs.Reading.{Gives, byte_place, next_of};
ghost use Rattle.plus_plan.specs.Grammar.{next_or_none};
ghost use Rattle.plus_plan.specs.declared.reader.Refusal.TheVariants.{Memory};

use plus_tokens::{LexFault, Seen, Span, Tokens};
use std::alloc::AllocError;
use std::marker::Model;

/// Why a line is refused.
#[derive(Clone, Copy)]
pub enum Refusal {
    /// At this place.
    At(Span),
    /// Where it ends.
    AtEnd,
    Memory,
}

impl From<AllocError> for Refusal {
    ghost from_gives = { λ _ e. e ≡ Memory };

    fn from(_e: AllocError) -> Refusal {
        Refusal::Memory
    }
}

/// Gives the tokens of a line one after the other.
#[derive(Drop)]
pub struct Reader<'a> {
    tokens: Tokens<'a>,
}

impl<'a> Model for Reader<'a> {
    ghost use Rattle.std.specs.Prelude.{List};
    ghost use Rattle.plus_tokens.specs.Items.{Item};

    ghost Value = { List Item };

    ghost view = { λ r. r.tokens };
}

impl<'a> Reader<'a> {
    pub fn new(line: &'a [u8]) -> Reader<'a>
        ensures { result ≡ items_of line.now }
    {
        Reader {
            tokens: Tokens::new(line),
        }
    }

    /// The next token.
    pub fn next(&mut self) -> Result<Seen<'a>, Refusal>
        ensures gives { Gives seen self.new result (next_of self.old) }
        ensures shorter { OnOk result (length self.new < length self.old) }
        ensures unchanged { OnErr result (self.new ≡ self.old) }
    {
        match self.tokens.next() {
            Ok(Some(token)) => Ok(token),
            Ok(None) => Err(Refusal::AtEnd),
            Err(fault) => Err(Refusal::At(place(fault))),
        }
    }

    /// The next token, and none where the line ends.
    pub fn next_or_none(&mut self) -> Result<Option<Seen<'a>>, Refusal>
        ensures gives { Gives seen_or_none self.new result (next_or_none self.old) }
    {
        match self.tokens.next() {
            Ok(token) => Ok(token),
            Err(fault) => Err(Refusal::At(place(fault))),
        }
    }

    /// The name that comes next, if one does. Else nothing is read.
    pub fn name(&mut self) -> Option<&'a [u8]>
        ensures word { MatchOption result
            (comes is_name self.old ≡ false)
            (λ w. (comes is_name self.old ≡ true) × (lowered w.now ≡ word_ahead self.old)) }
        ensures leaves { self.new ≡ without is_name self.old }
    {
        self.tokens.name()
    }

    /// Reads an opening parenthesis, if one comes next, and answers whether it did.
    pub fn open(&mut self) -> bool
        ensures comes { result ≡ comes is_open self.old }
        ensures leaves { self.new ≡ without is_open self.old }
    {
        self.tokens.open()
    }

    /// Reads a closing parenthesis, if one comes next, and answers whether it did.
    pub fn close(&mut self) -> bool
        ensures comes { result ≡ comes is_close self.old }
        ensures leaves { self.new ≡ without is_close self.old }
    {
        self.tokens.close()
    }

    /// Reads a colon, if one comes next, and answers whether it did.
    pub fn colon(&mut self) -> bool
        ensures comes { result ≡ comes is_colon self.old }
        ensures leaves { self.new ≡ without is_colon self.old }
    {
        self.tokens.colon()
    }

    /// Whether the line ends here.
    pub fn is_done(&self) -> bool
        ensures { result ≡ is_done self.now }
    {
        self.tokens.is_done()
    }

    /// Why no line goes on with what comes next.
    pub fn refusal(&self) -> Refusal
        ensures { result ≡ refusal_ahead self.now }
    {
        match self.tokens.peek() {
            Ok(Some(token)) => Refusal::At(token.span),
            Ok(None) => Refusal::AtEnd,
            Err(fault) => Refusal::At(place(fault)),
        }
    }
}

// The byte at which no token can be read, as a place.
fn place(fault: LexFault) -> Span
    requires { byte_of fault + 1 < 2 ^ 64 }
    ensures { result ≡ byte_place fault }
{
    let (LexFault::BadByte { at } | LexFault::TooLong { at }) = fault;
    Span {
        start: at,
        end: at + 1,
    }
}
