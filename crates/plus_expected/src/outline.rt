//! The tokens of a text, and the forms that their parentheses make.

use crate::say::text_of;
use plus_tokens::{Kind, Tokens};
use std::alloc::{AllocError, Global};

/// A token, and its place in the text.
#[derive(Clone, Copy)]
pub struct Piece {
    pub kind: Kind,
    pub start: usize,
    pub end: usize,
}

/// The tokens of a text. A token goes by its number, from 0; behind the last one there is none.
#[derive(Drop)]
pub struct Outline<'a> {
    text: &'a [u8],
    pieces: Vec<Piece>,
}

impl<'a> Outline<'a> {
    /// The tokens of a text, up to the first place where none can be read.
    pub fn read(alloc: Global, text: &'a [u8]) -> Result<Outline<'a>, AllocError> {
        let mut pieces = Vec::new(alloc);
        let mut tokens = Tokens::new(text);
        for _token in 0..text.len() {
            let Ok(Some(seen)) = tokens.next() else {
                break;
            };
            pieces.push(Piece {
                kind: seen.kind,
                start: seen.span.start,
                end: seen.span.end,
            })?;
        }
        Ok(Outline { text, pieces })
    }

    /// How many tokens there are.
    pub fn len(&self) -> usize {
        self.pieces.len()
    }

    /// The token of this number.
    pub fn piece(&self, number: usize) -> Option<Piece> {
        self.pieces.get(number).copied()
    }

    /// Where the token of this number begins; behind the last one that is the end of the text.
    pub fn start(&self, number: usize) -> usize {
        match self.piece(number) {
            Some(piece) => piece.start,
            None => self.text.len(),
        }
    }

    /// Where the token of this number ends.
    pub fn end(&self, number: usize) -> usize {
        match self.piece(number) {
            Some(piece) => piece.end,
            None => self.text.len(),
        }
    }

    /// The bytes of the token of this number, and none behind the last one.
    pub fn word(&self, number: usize) -> &'a [u8] {
        let found = self.text.get(self.start(number)..self.end(number));
        found.unwrap_or(b"")
    }

    /// The same as a text.
    pub fn text(&self, number: usize) -> &'a str {
        text_of(self.word(number))
    }

    /// Whether a token is this word; case makes no difference.
    pub fn is(&self, number: usize, word: &str) -> bool {
        self.word(number).eq_ignore_ascii_case(word.as_bytes())
    }

    /// Whether two tokens are the same word.
    pub fn repeats(&self, number: usize, other: usize) -> bool {
        self.word(number).eq_ignore_ascii_case(self.word(other))
    }

    /// Whether two tokens, the second of another text, are the same word.
    pub fn is_same(&self, number: usize, other: &Outline<'_>, place: usize) -> bool {
        self.word(number).eq_ignore_ascii_case(other.word(place))
    }

    /// Whether a token has this kind.
    pub fn has_kind(&self, number: usize, kind: Kind) -> bool {
        match self.piece(number) {
            Some(piece) => piece.kind == kind,
            None => false,
        }
    }

    /// Whether a token opens a parenthesis.
    pub fn opens(&self, number: usize) -> bool {
        self.has_kind(number, Kind::Open)
    }

    /// Whether a token closes a parenthesis.
    pub fn closes(&self, number: usize) -> bool {
        self.has_kind(number, Kind::Close)
    }

    /// The number of the first token at or behind an offset.
    pub fn at(&self, offset: usize) -> usize {
        for (number, piece) in self.pieces.iter().enumerate() {
            if piece.start >= offset {
                return number;
            }
        }
        self.pieces.len()
    }

    /// The number of the token that closes the parenthesis which a token opens, or the number of all tokens.
    pub fn close_of(&self, number: usize) -> usize {
        let mut depth = 0usize;
        for place in number..self.pieces.len() {
            if self.opens(place) {
                depth = depth.saturating_add(1);
            }
            if self.closes(place) {
                depth = depth.saturating_sub(1);
            }
            if depth == 0 {
                return place;
            }
        }
        self.pieces.len()
    }

    /// The form that a token opens, its tokens with one blank between them, as `(level ?t)`.
    pub fn form(&self, alloc: Global, number: usize) -> Result<String, AllocError> {
        let mut text = String::new(alloc);
        let close = self.close_of(number);
        for place in number..close {
            let is_apart = place > number && !self.opens(place.saturating_sub(1));
            if is_apart && !self.closes(place) {
                text.push_str(" ")?;
            }
            text.push_str(self.text(place))?;
        }
        text.push_str(")")?;
        Ok(text)
    }

    /// The number of the token that opens the innermost parenthesis around a token.
    pub fn around(&self, number: usize) -> Option<usize> {
        let mut depth = 0usize;
        for back in 0..number {
            let place = number - back - 1;
            if self.closes(place) {
                depth = depth.saturating_add(1);
            }
            if self.opens(place) && depth == 0 {
                return Some(place);
            }
            if self.opens(place) {
                depth = depth.saturating_sub(1);
            }
        }
        None
    }

    /// The number of the first token of the section in which a token stands: the parenthesis that opens behind that of
    /// the whole text.
    pub fn section_of(&self, number: usize) -> Option<usize> {
        let mut inner = self.around(number)?;
        for _form in 0..number {
            let Some(outer) = self.around(inner) else {
                return None;
            };
            if outer == 0 {
                return Some(inner);
            }
            inner = outer;
        }
        None
    }

    /// The number of the token that opens the section of this keyword.
    pub fn section(&self, keyword: &str) -> Option<usize> {
        for number in 0..self.pieces.len() {
            if self.opens(number) && self.is(number + 1, keyword) {
                return Some(number);
            }
        }
        None
    }
}
