//! Refusals that are no matter of a plan's meaning: of texts, of lines, of grounding.
ghost use Rattle.std.specs.Prelude.{◌≡◌, ◌++◌, codes, decimal};
ghost use Rattle.plus_report.specs.Puts.{Puts};
ghost use Rattle.plus_report.specs.Wrote.{Wrote};
ghost use Rattle.plus_report.specs.Text.{newline};
ghost use Rattle.plus_report.specs.Refusals.{text_name, word_text, kind_text, place_text, early_text};

use crate::put::{Waiting, flush, put, put_natural, put_numbered, put_three};
use plus_io::{Failed, Sink};

/// A text that is read, or printed and read again.
#[derive(Clone, Copy, PartialEq, Eq, Debug)]
pub enum Text {
    Domain,
    Problem,
    Plan,
    Constraints,
    TranslatedDomain,
    TranslatedProblem,
}

/// What is wrong at a place of a text.
#[derive(Clone, Copy, PartialEq, Eq, Debug)]
pub enum Word {
    Byte,
    Long,
    Unclosed,
    Form,
    UnknownType,
    UnknownName,
    Arity,
    WrongType,
    Twice,
    UnboundVariable,
    ShadowedVariable,
    TypeLoop,
    RateForm,
    DomainName,
    NameTaken,
    NotLevelTwo,
    OffGrid,
}

/// What a ground problem has too many of.
#[derive(Clone, Copy, PartialEq, Eq, Debug)]
pub enum Kinds {
    Objects,
    Atoms,
    Fluents,
    Processes,
    Events,
    Actions,
    Nodes,
    NodesInConstraints,
}

/// A refusal before a problem is ground or a plan is judged. Places are offsets of bytes, as the
/// reader that refuses gives them.
#[derive(Clone, Copy, PartialEq, Eq, Debug)]
pub enum Early {
    /// The text is refused at this place.
    BadText {
        text: Text,
        start: usize,
        end: usize,
        word: Word,
    },
    /// The line of the plan, from 1, is none at this place of it.
    BadLine {
        line: u32,
        start: usize,
        end: usize,
    },
    /// The text has more than 1,048,576 bytes.
    TooLong {
        text: Text,
    },
    /// The text nests deeper than 64 at this byte.
    Depth {
        text: Text,
        at: usize,
    },
    /// The translation would nest deeper than 64.
    DepthOut,
    /// The line of the plan has more than 4,096 bytes.
    LineTooLong {
        line: u32,
    },
    /// The number at this place is no value of the number type.
    Literal {
        text: Text,
        start: usize,
        end: usize,
    },
    /// The ground problem has more than so many things of a kind.
    TooMany {
        kind: Kinds,
        most: u32,
    },
}

fn name_of(text: Text) -> &'static [u8]
    ensures { result.now ≡ text_name text }
{
    match text {
        Text::Domain => b"domain",
        Text::Problem => b"problem",
        Text::Plan => b"plan",
        Text::Constraints => b"constraints",
        Text::TranslatedDomain => b"translated domain",
        Text::TranslatedProblem => b"translated problem",
    }
}

fn word_of(word: Word) -> &'static [u8]
    ensures { result.now ≡ word_text word }
{
    match word {
        Word::Byte => b"byte",
        Word::Long => b"long",
        Word::Unclosed => b"unclosed",
        Word::Form => b"form",
        Word::UnknownType => b"unknown type",
        Word::UnknownName => b"unknown name",
        Word::Arity => b"arity",
        Word::WrongType => b"wrong type",
        Word::Twice => b"twice",
        Word::UnboundVariable => b"unbound variable",
        Word::ShadowedVariable => b"shadowed variable",
        Word::TypeLoop => b"type loop",
        Word::RateForm => b"rate form",
        Word::DomainName => b"domain name",
        Word::NameTaken => b"name taken",
        Word::NotLevelTwo => b"not level two",
        Word::OffGrid => b"off grid",
    }
}

fn kind_of(kind: Kinds) -> &'static [u8]
    ensures { result.now ≡ kind_text kind }
{
    match kind {
        Kinds::Objects => b"objects",
        Kinds::Atoms => b"atoms",
        Kinds::Fluents => b"fluents",
        Kinds::Processes => b"processes",
        Kinds::Events => b"events",
        Kinds::Actions => b"actions",
        Kinds::Nodes => b"nodes",
        Kinds::NodesInConstraints => b"nodes in constraints",
    }
}

fn put_place<O: Sink>(
    out: &mut O,
    waiting: &mut Waiting,
    start: usize,
    finish: usize,
) -> Result<(), Failed>
    ensures { Puts O.taken O.faults out.old out.new waiting.old.items waiting.new.items
        (place_text start finish) result }
{
    put_numbered(out, waiting, b"", start as u64, b"-")?;
    put_natural(out, waiting, finish as u64)
}

fn put_bad_text<O: Sink>(
    out: &mut O,
    waiting: &mut Waiting,
    text: Text,
    start: usize,
    finish: usize,
    word: Word,
) -> Result<(), Failed>
    ensures { Puts O.taken O.faults out.old out.new waiting.old.items waiting.new.items
        (early_text (Early.BadText text start finish word)) result }
{
    put_three(out, waiting, b"bad text: ", name_of(text), b" ")?;
    put_place(out, waiting, start, finish)?;
    put_three(out, waiting, b": ", word_of(word), b"\n")
}

fn put_bad_line<O: Sink>(
    out: &mut O,
    waiting: &mut Waiting,
    line: u32,
    start: usize,
    finish: usize,
) -> Result<(), Failed>
    ensures { Puts O.taken O.faults out.old out.new waiting.old.items waiting.new.items
        (early_text (Early.BadLine line start finish)) result }
{
    put_numbered(
        out,
        waiting,
        b"bad text: plan line ",
        line as u64,
        b", bytes ",
    )?;
    put_place(out, waiting, start, finish)?;
    put(out, waiting, b"\n")
}

fn put_literal<O: Sink>(
    out: &mut O,
    waiting: &mut Waiting,
    text: Text,
    start: usize,
    finish: usize,
) -> Result<(), Failed>
    ensures { Puts O.taken O.faults out.old out.new waiting.old.items waiting.new.items
        (early_text (Early.Literal text start finish)) result }
{
    put_three(out, waiting, b"beyond: literal in ", name_of(text), b" ")?;
    put_place(out, waiting, start, finish)?;
    put(out, waiting, b"\n")
}

fn put_depth<O: Sink>(
    out: &mut O,
    waiting: &mut Waiting,
    text: Text,
    at: usize,
) -> Result<(), Failed>
    ensures { Puts O.taken O.faults out.old out.new waiting.old.items waiting.new.items
        (early_text (Early.Depth text at)) result }
{
    put_three(
        out,
        waiting,
        b"beyond: depth 64 in ",
        name_of(text),
        b" at ",
    )?;
    put_natural(out, waiting, at as u64)?;
    put(out, waiting, b"\n")
}

fn put_too_many<O: Sink>(
    out: &mut O,
    waiting: &mut Waiting,
    kind: Kinds,
    most: u32,
) -> Result<(), Failed>
    ensures { Puts O.taken O.faults out.old out.new waiting.old.items waiting.new.items
        (early_text (Early.TooMany kind most)) result }
{
    put_numbered(out, waiting, b"beyond: more than ", most as u64, b" ")?;
    put(out, waiting, kind_of(kind))?;
    put(out, waiting, b"\n")
}

fn put_too_long<O: Sink>(out: &mut O, waiting: &mut Waiting, text: Text) -> Result<(), Failed>
    ensures { Puts O.taken O.faults out.old out.new waiting.old.items waiting.new.items
        (early_text (Early.TooLong text)) result }
{
    put_three(
        out,
        waiting,
        b"beyond: ",
        name_of(text),
        b" text over 1048576 bytes\n",
    )
}

fn put_depth_out<O: Sink>(out: &mut O, waiting: &mut Waiting) -> Result<(), Failed>
    ensures { Puts O.taken O.faults out.old out.new waiting.old.items waiting.new.items
        (early_text Early.DepthOut) result }
{
    put(out, waiting, b"beyond: depth 64 in translation\n")
}

fn put_line_too_long<O: Sink>(out: &mut O, waiting: &mut Waiting, line: u32) -> Result<(), Failed>
    ensures { Puts O.taken O.faults out.old out.new waiting.old.items waiting.new.items
        (early_text (Early.LineTooLong line)) result }
{
    put_numbered(
        out,
        waiting,
        b"beyond: line ",
        line as u64,
        b" over 4096 bytes\n",
    )
}

/// Puts the line of a refusal.
pub fn put_early<O: Sink>(out: &mut O, waiting: &mut Waiting, early: &Early) -> Result<(), Failed>
    ensures { Puts O.taken O.faults out.old out.new waiting.old.items waiting.new.items
        (early_text early.now) result }
{
    match *early {
        Early::BadText {
            text,
            start,
            end,
            word,
        } => put_bad_text(out, waiting, text, start, end, word),
        Early::BadLine { line, start, end } => put_bad_line(out, waiting, line, start, end),
        Early::TooLong { text } => put_too_long(out, waiting, text),
        Early::Depth { text, at } => put_depth(out, waiting, text, at),
        Early::DepthOut => put_depth_out(out, waiting),
        Early::LineTooLong { line } => put_line_too_long(out, waiting, line),
        Early::Literal { text, start, end } => put_literal(out, waiting, text, start, end),
        Early::TooMany { kind, most } => put_too_many(out, waiting, kind, most),
    }
}

/// Writes the line of a refusal that comes before a problem is ground.
pub fn write_early<O: Sink>(out: &mut O, early: &Early) -> Result<(), Failed>
    ensures { Wrote O.taken O.faults out.old out.new (early_text early.now) result }
{
    let mut waiting = Waiting::new();
    put_early(out, &mut waiting, early)?;
    flush(out, &mut waiting)
}
