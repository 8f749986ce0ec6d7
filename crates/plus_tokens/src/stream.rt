//! A text as the tokens that are still to come.

ghost use Rattle.std.specs.Prelude.{◌≡◌, ◌∷◌, [], ◌+◌, ◌^◌, ◌<◌, ◌≤◌, false, true, Ok, Err, length, IfErr, IfOk, IfSome, MatchOption, MatchResult};
ghost use Rattle.plus_tokens.specs.Ahead.{is_close, is_colon, is_name, is_open, place_if};
ghost use Rattle.plus_tokens.specs.Coming.{comes, first_of, is_done, rest_of, rest_within, without, word_ahead};
ghost use Rattle.plus_tokens.specs.First.{first_token};
ghost use Rattle.plus_tokens.specs.Items.{Stands, bad, items_at, items_of, piece_of, tok};
ghost use Rattle.plus_tokens.specs.Lowered.{lowered};
ghost use Rattle.plus_tokens.specs.Numeral.{piece_numeral};
ghost use Rattle.plus_tokens.specs.Seen.{byte_of, seen, seen_or_none};

use crate::ahead::{close_ahead, colon_ahead, name_ahead, none_ahead, open_ahead};
use crate::lexer::next_token;
use crate::numeral::{Numeral, numeral_of};
use crate::span::Span;
use crate::token::{Kind, LexFault, Token};
use std::marker::Model;

/// A token with its bytes.
#[derive(Clone, Copy)]
pub struct Seen<'a> {
    pub kind: Kind,
    pub word: &'a [u8],
    pub span: Span,
}

impl<'a> Seen<'a> {
    /// The number that the token spells, where it spells one.
    #[inline(always)]
    pub fn numeral(&self) -> Option<Numeral>
        ensures is { result ≡ piece_numeral (seen self.now) }
        ensures few { IfSome result (λ n. n.places ≤ 9) }
    {
        match self.kind {
            Kind::Number => numeral_of(self.word),
            _ => None,
        }
    }
}

/// Gives the tokens of a text one after the other. Contracts see it as the list of the tokens that
/// are still to come, up to the first place where none can be read.
#[derive(Drop)]
pub struct Tokens<'a> {
    text: &'a [u8],
    at: usize,
}

impl<'a> Model for Tokens<'a> {
    ghost use Rattle.std.specs.Prelude.{List, ◌≤◌, length};
    ghost use Rattle.plus_tokens.specs.Items.{Item, items_at};

    ghost Value = { List Item };

    ghost view = { λ r. items_at r.text.now r.at };

    ghost invariant = { λ r. r.at ≤ length r.text.now };
}

impl<'a> Tokens<'a> {
    /// All tokens of a text.
    pub fn new(text: &'a [u8]) -> Tokens<'a>
        ensures { result ≡ items_of text.now }
    {
        Tokens { text, at: 0 }
    }

    /// The token that comes next, and none at the end.
    #[inline(always)]
    pub fn next(&mut self) -> Result<Option<Seen<'a>>, LexFault>
        ensures gives { MatchResult result
            (λ o. first_of self.old ≡ Ok (seen_or_none o)) (λ f. first_of self.old ≡ Err f) }
        ensures leaves { self.new ≡ rest_of self.old }
        ensures shorter { IfOk result (λ o. IfSome o (λ _. length self.new < length self.old)) }
        ensures some { IfOk result (λ o. IfSome o (λ t. 0 < length t.word.now)) }
        ensures within { IfErr result (λ f. byte_of f + 1 < 2 ^ 64) }
    {
        self.next_within(true)
    }

    /// The same, but an opening parenthesis is read only where one may be opened.
    #[inline(always)]
    #[tactic(auto, using(crate::proofs::Items::at_token, crate::proofs::Items::at_none, crate::proofs::Items::at_fault, crate::proofs::Items::stands, crate::proofs::Sound::fault_within))]
    pub fn next_within(&mut self, may_open: bool) -> Result<Option<Seen<'a>>, LexFault>
        ensures gives { MatchResult result
            (λ o. first_of self.old ≡ Ok (seen_or_none o)) (λ f. first_of self.old ≡ Err f) }
        ensures leaves { self.new ≡ rest_within may_open self.old }
        ensures some { IfOk result (λ o. IfSome o (λ t. 0 < length t.word.now)) }
        ensures within { IfErr result (λ f. byte_of f + 1 < 2 ^ 64) }
    {
        match next_token(self.text, self.at) {
            Ok(Some(token)) => {
                if may_open || !matches!(token.kind, Kind::Open) {
                    self.at = token.end;
                }
                Ok(Some(with_bytes(self.text, &token)))
            }
            Ok(None) => Ok(None),
            Err(fault) => Err(fault),
        }
    }

    /// The same, where nothing is read.
    #[tactic(auto, using(crate::proofs::Items::at_token, crate::proofs::Items::at_none, crate::proofs::Items::at_fault, crate::proofs::Items::stands, crate::proofs::Sound::fault_within))]
    pub fn peek(&self) -> Result<Option<Seen<'a>>, LexFault>
        ensures gives { MatchResult result
            (λ o. first_of self.now ≡ Ok (seen_or_none o)) (λ f. first_of self.now ≡ Err f) }
        ensures within { IfErr result (λ f. byte_of f + 1 < 2 ^ 64) }
    {
        match next_token(self.text, self.at) {
            Ok(Some(token)) => Ok(Some(with_bytes(self.text, &token))),
            Ok(None) => Ok(None),
            Err(fault) => Err(fault),
        }
    }

    /// The name that comes next, if one does. Else nothing is read.
    pub fn name(&mut self) -> Option<&'a [u8]>
        ensures word { MatchOption result
            (comes is_name self.old ≡ false)
            (λ w. (comes is_name self.old ≡ true) × (lowered w.now ≡ word_ahead self.old)) }
        ensures leaves { self.new ≡ without is_name self.old }
    {
        let (word, end) = word_at(self.text, self.at)?;
        self.at = end;
        Some(word)
    }

    /// Reads an opening parenthesis, if one comes next, and answers whether it did.
    pub fn open(&mut self) -> bool
        ensures comes { result ≡ comes is_open self.old }
        ensures leaves { self.new ≡ without is_open self.old }
    {
        let Some(end) = open_ahead(self.text, self.at) else {
            return false;
        };
        self.at = end;
        true
    }

    /// Reads a closing parenthesis, if one comes next, and answers whether it did.
    pub fn close(&mut self) -> bool
        ensures comes { result ≡ comes is_close self.old }
        ensures leaves { self.new ≡ without is_close self.old }
    {
        let Some(end) = close_ahead(self.text, self.at) else {
            return false;
        };
        self.at = end;
        true
    }

    /// Reads a colon, if one comes next, and answers whether it did.
    pub fn colon(&mut self) -> bool
        ensures comes { result ≡ comes is_colon self.old }
        ensures leaves { self.new ≡ without is_colon self.old }
    {
        let Some(end) = colon_ahead(self.text, self.at) else {
            return false;
        };
        self.at = end;
        true
    }

    /// Whether no token is left.
    pub fn is_done(&self) -> bool
        ensures { result ≡ is_done self.now }
    {
        none_ahead(self.text, self.at)
    }
}

// A token with its bytes.
#[inline(always)]
fn with_bytes<'a>(text: &'a [u8], token: &Token) -> Seen<'a>
    requires order { token.now.start ≤ token.now.end }
    requires inside { token.now.end ≤ length text.now }
    ensures is { seen result ≡ piece_of text.now token.now }
    ensures kind { result.kind ≡ token.now.kind }
    ensures some { token.now.start < token.now.end → 0 < length result.word.now }
{
    Seen {
        kind: token.kind,
        word: &text[token.start..token.end],
        span: Span {
            start: token.start,
            end: token.end,
        },
    }
}

// The name that comes next from an offset on, and where it ends, if one does.
fn word_at(text: &[u8], at: usize) -> Option<(&[u8], usize)>
    requires { at ≤ length text.now }
    ensures word { MatchOption result
        (comes is_name (items_at text.now at) ≡ false)
        (λ x. (comes is_name (items_at text.now at) ≡ true) × (lowered x.0.now ≡ word_ahead (items_at text.now at))) }
    ensures leaves { MatchOption result
        (items_at text.now at ≡ without is_name (items_at text.now at))
        (λ x. items_at text.now x.1 ≡ without is_name (items_at text.now at)) }
    ensures inside { IfSome result (λ x. x.1 ≤ length text.now) }
{
    let Some((start, end)) = place_at(text, at) else {
        return None;
    };
    Some((&text[start..end], end))
}

// Where the name that comes next from an offset on begins and ends, if one does.
fn place_at(text: &[u8], at: usize) -> Option<(usize, usize)>
    requires { at ≤ length text.now }
    ensures is { result ≡ place_if is_name (first_token text.now at) }
    ensures order { IfSome result (λ x. x.0 ≤ x.1) }
    ensures inside { IfSome result (λ x. x.1 ≤ length text.now) }
{
    name_ahead(text, at)
}
