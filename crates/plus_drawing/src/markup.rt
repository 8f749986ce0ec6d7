//! Elements of markup, written one after the other.
ghost use Rattle.std.specs.Prelude.{ℕ, List, ◌≡◌, ◌++◌, ◌∷◌, [], true, OnOk, IfOk, IfSome};
ghost use Rattle.plus_drawing.specs.Markup.{name_of, entity, escaped, opening, closing, Written};

use plus_rows::words::append_tenths;
use std::alloc::{AllocError, Global};

/// The name of an element.
#[derive(Clone, Copy, PartialEq, Eq, Debug)]
pub enum Tag {
    Svg,
    Style,
    Definitions,
    Clip,
    Group,
    Title,
    Rectangle,
    Line,
    Path,
    Circle,
    Text,
}

impl Tag {
    fn name(self) -> &'static [u8]
        ensures { result.now ≡ name_of self }
    {
        match self {
            Tag::Svg => b"svg",
            Tag::Style => b"style",
            Tag::Definitions => b"defs",
            Tag::Clip => b"clipPath",
            Tag::Group => b"g",
            Tag::Title => b"title",
            Tag::Rectangle => b"rect",
            Tag::Line => b"line",
            Tag::Path => b"path",
            Tag::Circle => b"circle",
            Tag::Text => b"text",
        }
    }
}

/// An attribute of an element: its name and its value.
#[derive(Clone, Copy)]
pub enum Attribute<'a> {
    /// A value as it stands.
    Named(&'static str, &'a [u8]),
    /// A place or a length on the page, in tenths of a pixel.
    Tenths(&'static str, i64),
}

fn append_attribute(head: &mut Vec<u8>, attribute: Attribute<'_>) -> Result<(), AllocError> {
    head.push(b' ')?;
    match attribute {
        Attribute::Named(name, value) => {
            head.extend_from_slice(name.as_bytes())?;
            head.extend_from_slice(b"=\"")?;
            head.extend_from_slice(value)?;
        }
        Attribute::Tenths(name, tenths) => {
            head.extend_from_slice(name.as_bytes())?;
            head.extend_from_slice(b"=\"")?;
            append_tenths(head, tenths)?;
        }
    }
    head.push(b'"')?;
    Ok(())
}

fn append_attributes(head: &mut Vec<u8>, attributes: &[Attribute<'_>]) -> Result<(), AllocError> {
    for attribute in attributes {
        append_attribute(head, *attribute)?;
    }
    Ok(())
}

// Appends a text, with what stands for the bytes that would be markup.
fn append_escaped(into: &mut Vec<u8>, text: &[u8]) -> Result<(), AllocError>
    ensures { OnOk result (into.new.items ≡ into.old.items ++ escaped text.now) }
{
    'bytes: for byte in text {
        append_entity(into, *byte)?;
    }
    Ok(())
}

fn append_entity(into: &mut Vec<u8>, byte: u8) -> Result<(), AllocError>
    ensures { OnOk result (into.new.items ≡ into.old.items ++ entity byte) }
{
    match byte {
        b'<' => into.extend_from_slice(b"&lt;"),
        b'>' => into.extend_from_slice(b"&gt;"),
        b'&' => into.extend_from_slice(b"&amp;"),
        _ => into.extend_from_slice(&[byte]),
    }
}

// The tag that begins an element, up to `end`, its last bytes.
fn opening_piece(
    alloc: Global,
    tag: Tag,
    attributes: &[Attribute<'_>],
    end: &[u8],
) -> Result<Vec<u8>, AllocError>
    ensures { IfOk result (λ piece. (head : List ℕ) × (piece.items ≡ opening tag head «end».now)) }
{
    let mut head = Vec::new(alloc);
    append_attributes(&mut head, attributes)?;
    tag_piece(alloc, tag, &head, end)
}

// The same, with the text of its attributes.
#[tactic(auto, using(std::proofs::lemmas::List::append_assoc), unfolding(crate::specs::Markup::opening))]
fn tag_piece(alloc: Global, tag: Tag, head: &[u8], end: &[u8]) -> Result<Vec<u8>, AllocError>
    ensures { IfOk result (λ piece. piece.items ≡ opening tag head.now «end».now) }
{
    let mut piece = Vec::from_slice(alloc, b"<")?;
    piece.extend_from_slice(tag.name())?;
    append_escaped(&mut piece, head)?;
    piece.extend_from_slice(end)?;
    Ok(piece)
}

// The tag that ends an element.
#[tactic(auto, using(std::proofs::lemmas::List::append_assoc), unfolding(crate::specs::Markup::closing))]
fn closing_piece(alloc: Global, tag: Tag) -> Result<Vec<u8>, AllocError>
    ensures { IfOk result (λ piece. piece.items ≡ closing tag) }
{
    let mut piece = Vec::from_slice(alloc, b"</")?;
    piece.extend_from_slice(tag.name())?;
    piece.extend_from_slice(b">")?;
    Ok(piece)
}

// A text as it is written.
fn text_piece(alloc: Global, text: &[u8]) -> Result<Vec<u8>, AllocError>
    ensures { IfOk result (λ piece. piece.items ≡ escaped text.now) }
{
    let mut piece = Vec::new(alloc);
    append_escaped(&mut piece, text)?;
    Ok(piece)
}

/// Markup as it is written. An element that is opened stays open until it is closed, so what is finished is balanced. Where
/// memory is wanting, there is nothing at the end.
#[derive(Drop)]
pub struct Markup {
    alloc: Global,
    bytes: Vec<u8>,
    opened: Vec<Tag>,
    is_whole: bool,
    ghost written: { ∥ (is_whole ≡ true → Written opened.items bytes.items) ∥₁ },
}

// Appends a piece, if there is memory for it.
fn appends(bytes: &mut Vec<u8>, piece: &[u8]) -> bool
    ensures { result ≡ true → bytes.new.items ≡ bytes.old.items ++ piece.now }
{
    bytes.extend_from_slice(piece).is_ok()
}

// Puts an element behind those that are open, if there is memory for it.
fn opens(opened: &mut Vec<Tag>, tag: Tag) -> bool
    ensures { result ≡ true → opened.new.items ≡ opened.old.items ++ tag ∷ [] }
{
    opened.push(tag).is_ok()
}

impl Markup {
    /// No markup yet.
    pub fn new(alloc: Global) -> Markup {
        Markup {
            alloc,
            bytes: Vec::new(alloc),
            opened: Vec::new(alloc),
            is_whole: true,
        }
    }

    /// Opens an element.
    pub fn open(&mut self, tag: Tag, attributes: &[Attribute<'_>]) {
        match opening_piece(self.alloc, tag, attributes, b">") {
            Ok(piece) => {
                if !opens(&mut self.opened, tag) || !appends(&mut self.bytes, &piece) {
                    self.is_whole = false;
                }
            }
            Err(_) => self.is_whole = false,
        }
    }

    /// Writes an element that has nothing in it.
    pub fn lone(&mut self, tag: Tag, attributes: &[Attribute<'_>]) {
        match opening_piece(self.alloc, tag, attributes, b"/>") {
            Ok(piece) => {
                if !appends(&mut self.bytes, &piece) {
                    self.is_whole = false;
                }
            }
            Err(_) => self.is_whole = false,
        }
    }

    /// Writes a text.
    pub fn text(&mut self, text: &[u8]) {
        match text_piece(self.alloc, text) {
            Ok(piece) => {
                if !appends(&mut self.bytes, &piece) {
                    self.is_whole = false;
                }
            }
            Err(_) => self.is_whole = false,
        }
    }

    /// Closes the element that was opened last of those that are open.
    pub fn close(&mut self) {
        let Some(tag) = self.opened.pop() else {
            return;
        };
        match closing_piece(self.alloc, tag) {
            Ok(piece) => {
                if !appends(&mut self.bytes, &piece) {
                    self.is_whole = false;
                }
            }
            Err(_) => self.is_whole = false,
        }
    }

    /// All that was written, where memory was not wanting. Elements that are open are closed.
    pub fn finish(mut self) -> Option<Vec<u8>>
        ensures { IfSome result (λ bytes. ∥ Written [] bytes.items ∥₁) }
    {
        'open: for _depth in 0..self.opened.len() {
            self.close();
        }
        if self.is_whole && self.opened.is_empty() {
            Some(self.bytes)
        } else {
            None
        }
    }
}
