//! A text as the tokens that are still to come.

ghost use Rattle.std.specs.Prelude.{◌≡◌, ◌==◌, ◌&&◌, true, ◌<◌, length, IfOk, OnOk, MatchResult};
ghost use Rattle.plus_tokens.specs.Lowered.{lowered};
ghost use Rattle.plus_tokens.specs.Items.{items_of};
ghost use Rattle.plus_parser.specs.Phrases.Reading.{Gives, is_open, next_of};
ghost use Rattle.plus_parser.specs.Phrases.Grammar.{time_of, time_ahead, token_of, open_of, close_of, name_of, plain_of, word_of};
ghost use Rattle.plus_tokens.specs.Seen.{seen};

use crate::phrases::words::{HeadWord, head_of, is_close, is_open, is_time, is_word};
use plus_tokens::{Kind, Seen, Tokens};
use plus_tree::TextFault;
use std::marker::Model;

/// Gives the tokens of a text one after the other, where one is wanted. Contracts see it as the list
/// of the tokens that are still to come.
#[derive(Drop)]
pub struct Reader<'a> {
    tokens: Tokens<'a>,
}

impl<'a> Model for Reader<'a> {
    ghost use Rattle.std.specs.Prelude.{List};
    ghost use Rattle.plus_tokens.specs.Items.{Item};

    ghost Value = { List Item };

    ghost view = { λ r. r.tokens };
}

impl<'a> Reader<'a> {
    /// All tokens of a text.
    pub fn new(text: &'a [u8]) -> Reader<'a>
        ensures { result ≡ items_of text.now }
    {
        Reader {
            tokens: Tokens::new(text),
        }
    }

    /// The next token, where room is left for so many more parentheses.
    pub fn next(&mut self, room: u8) -> Result<Seen<'a>, TextFault>
        ensures gives { Gives seen self.new result (next_of room self.old) }
        ensures room_left { IfOk result (λ t. is_open t.kind ≡ true → 0 < room) }
        ensures some { IfOk result (λ t. 0 < length t.word.now) }
        ensures shorter { OnOk result (length self.new < length self.old) }
        ensures kept { MatchResult result (λ _. Unit {0}) (λ _. self.new ≡ self.old) }
    {
        match self.tokens.next_within(room > 0) {
            Ok(Some(token)) => {
                if is_full(token.kind, room) {
                    return Err(TextFault::Depth {
                        at: token.span.start,
                    });
                }
                Ok(token)
            }
            Ok(None) => Err(TextFault::Unclosed),
            Err(fault) => Err(TextFault::Lex(fault)),
        }
    }

    /// Whether a time comes next. Nothing is read.
    pub fn is_time_next(&self, room: u8) -> bool
        ensures { result ≡ time_ahead room self.now }
    {
        match self.tokens.peek() {
            Ok(Some(token)) => is_time(&token),
            _ => false,
        }
    }

    /// The opening parenthesis that comes next.
    #[tactic(auto, unfolding(crate::specs::Phrases::Grammar::token_of))]
    pub fn open(&mut self, room: u8) -> Result<Seen<'a>, TextFault>
        ensures gives { Gives seen self.new result (open_of room self.old) }
        ensures room_left { OnOk result (0 < room) }
        ensures shorter { OnOk result (length self.new < length self.old) }
    {
        match self.next(room) {
            Ok(token) if is_open(token.kind) => Ok(token),
            Ok(token) => Err(TextFault::Form { span: token.span }),
            Err(fault) => Err(fault),
        }
    }

    /// The closing parenthesis that comes next.
    #[inline(always)]
    #[tactic(auto, unfolding(crate::specs::Phrases::Grammar::token_of))]
    pub fn close(&mut self, room: u8) -> Result<Seen<'a>, TextFault>
        ensures gives { Gives seen self.new result (close_of room self.old) }
        ensures shorter { OnOk result (length self.new < length self.old) }
    {
        match self.next(room) {
            Ok(token) if is_close(token.kind) => Ok(token),
            Ok(token) => Err(TextFault::Form { span: token.span }),
            Err(fault) => Err(fault),
        }
    }

    /// The name that comes next.
    #[tactic(auto, unfolding(crate::specs::Phrases::Grammar::token_of))]
    pub fn name(&mut self, room: u8) -> Result<Seen<'a>, TextFault>
        ensures gives { Gives seen self.new result (name_of room self.old) }
        ensures shorter { OnOk result (length self.new < length self.old) }
    {
        match self.next(room) {
            Ok(token) if matches!(token.kind, Kind::Name) => Ok(token),
            Ok(token) => Err(TextFault::Form { span: token.span }),
            Err(fault) => Err(fault),
        }
    }

    /// The name that comes next, which may be that of a predicate.
    #[inline(always)]
    #[tactic(auto, unfolding(crate::specs::Phrases::Grammar::token_of))]
    pub fn plain(&mut self, room: u8) -> Result<Seen<'a>, TextFault>
        ensures gives { Gives seen self.new result (plain_of room self.old) }
        ensures shorter { OnOk result (length self.new < length self.old) }
    {
        match self.next(room) {
            Ok(token) if matches!(head_of(&token), HeadWord::Plain) => Ok(token),
            Ok(token) => Err(TextFault::Form { span: token.span }),
            Err(fault) => Err(fault),
        }
    }

    /// The number without a sign that comes next.
    #[tactic(auto, unfolding(crate::specs::Phrases::Grammar::token_of))]
    pub fn time(&mut self, room: u8) -> Result<Seen<'a>, TextFault>
        ensures gives { Gives seen self.new result (time_of room self.old) }
        ensures shorter { OnOk result (length self.new < length self.old) }
    {
        match self.next(room) {
            Ok(token) if is_time(&token) => Ok(token),
            Ok(token) => Err(TextFault::Form { span: token.span }),
            Err(fault) => Err(fault),
        }
    }

    /// This very word.
    #[tactic(auto, unfolding(crate::specs::Phrases::Grammar::token_of))]
    pub fn word(&mut self, small: &[u8], room: u8) -> Result<Seen<'a>, TextFault>
        requires { lowered small.now ≡ small.now }
        ensures gives { Gives seen self.new result (word_of small.now room self.old) }
        ensures shorter { OnOk result (length self.new < length self.old) }
    {
        let token = self.next(room)?;
        if is_word(&token, small) {
            Ok(token)
        } else {
            Err(TextFault::Form { span: token.span })
        }
    }
}

// Whether no room is left for this token.
fn is_full(kind: Kind, room: u8) -> bool
    ensures { result ≡ (is_open kind && (room == 0)) }
{
    matches!(kind, Kind::Open) && room == 0
}
