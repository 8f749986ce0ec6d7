//! Reads the domain and the problem, and tests their types.

ghost use Rattle.std.specs.Prelude.{◌≡◌, ◌≤◌, ◌+◌, [], ◌∷◌, length, IfOk, IfErr, IfSome, OnOk};
ghost use Rattle.plus_io.specs.Faults.{Rose};
ghost use Rattle.plus_io.specs.Files.{KeepsFiles};
ghost use Rattle.plus_io.specs.Picks.{ReadsOnce, ReadsEach, ReadsInOrder};
ghost use Rattle.plus_parser.specs.SpellsDomain.{SpellsWithin};
ghost use Rattle.plus_parser.specs.SpellsProblem.{SpellsProblemWithin};
ghost use Rattle.plus_reply.specs.Pair.Pair.{behind, text_refusal, type_refusal, word_of, text_named};
ghost use Rattle.plus_io.specs.Limits.{text_limit};
ghost use Rattle.plus_reply.specs.Pair.Reads.{NotRead, ReadsDomain, ReadsProblem, ReadsPair, NoDomain, NoProblem, NoPair};

use plus_io::{Freeing, ReadStop, Shelf, TEXT_LIMIT, read_all};
use plus_places::{read_domain, read_problem};
use plus_report::{Early, Text, Word};
use plus_tokens::LexFault;
use plus_tree::{Domain, Problem, Span, TextFault};
use plus_types::{File, TypeFault, Typed, Wrong, check};
use std::alloc::Global;

/// Why there is no pair to check.
#[derive(Drop)]
pub enum Refusal {
    /// One of the texts, or the pair, is refused with one line.
    Early(Early),
    /// A text was not read.
    ReadFault,
    /// Memory was wanting.
    NoMemory,
}

/// A text is refused at this place.
pub fn bad_text(text: Text, span: Span, word: Word) -> Refusal
    ensures { result ≡ Refusal.Early (Early.BadText text span.start span.«end» word) }
{
    Refusal::Early(Early::BadText {
        text,
        start: span.start,
        end: span.end,
        word,
    })
}

fn bad_byte(text: Text, at: usize, word: Word) -> Refusal
    ensures { result ≡ Refusal.Early (Early.BadText text at (behind at) word) }
{
    Refusal::Early(Early::BadText {
        text,
        start: at,
        end: at.saturating_add(1),
        word,
    })
}

/// Why a text of this length spells no tree.
pub fn refuse_text(text: Text, length: usize, fault: TextFault) -> Refusal
    ensures { result ≡ text_refusal text length fault }
{
    match fault {
        TextFault::Lex(LexFault::BadByte { at }) => bad_byte(text, at, Word::Byte),
        TextFault::Lex(LexFault::TooLong { at }) => bad_byte(text, at, Word::Long),
        TextFault::Unclosed => bad_text(
            text,
            Span {
                start: length,
                end: length,
            },
            Word::Unclosed,
        ),
        TextFault::Depth { at } => Refusal::Early(Early::Depth { text, at }),
        TextFault::Form { span } => bad_text(text, span, Word::Form),
        TextFault::Memory => Refusal::NoMemory,
    }
}

fn word_for(wrong: Wrong) -> Word
    ensures { result ≡ word_of wrong }
{
    match wrong {
        Wrong::UnknownType => Word::UnknownType,
        Wrong::UnknownName => Word::UnknownName,
        Wrong::Arity => Word::Arity,
        Wrong::WrongType => Word::WrongType,
        Wrong::Twice => Word::Twice,
        Wrong::Unbound => Word::UnboundVariable,
        Wrong::Shadowed => Word::ShadowedVariable,
        Wrong::TypeLoop => Word::TypeLoop,
        Wrong::RateForm => Word::RateForm,
        Wrong::DomainName => Word::DomainName,
    }
}

/// The text of a file.
pub fn text_for(file: File) -> Text
    ensures { result ≡ text_named file }
{
    match file {
        File::Domain => Text::Domain,
        File::Problem => Text::Problem,
    }
}

/// Why a pair is not well typed.
pub fn refuse_types(fault: TypeFault) -> Refusal
    ensures { result ≡ type_refusal fault }
{
    match fault {
        TypeFault::At { wrong, file, span } => bad_text(text_for(file), span, word_for(wrong)),
        TypeFault::Memory => Refusal::NoMemory,
    }
}

/// The text under a name.
pub fn text_of<S: Shelf>(
    alloc: Global,
    shelf: &mut S,
    name: &str,
    text: Text,
) -> Result<Vec<u8>, Refusal>
    ensures read { IfOk result (λ v. IfSome (S.bytes shelf.old name.now) (λ bytes.
        (v.items ≡ bytes) × (length bytes ≤ text_limit))) }
    ensures not_read { IfErr result (NotRead text (S.bytes shelf.old name.now)
        (S.faults shelf.old) (S.faults shelf.new)) }
    ensures reads { ReadsOnce S.bytes S.picked S.rest S.picks (text_limit + 1) name.now shelf.old shelf.new }
    ensures keeps { KeepsFiles S.names S.bytes S.faults shelf.old shelf.new }
{
    let mut bytes = Vec::new(alloc);
    match read_all(shelf, name, TEXT_LIMIT, &mut bytes) {
        Ok(()) => Ok(bytes),
        Err(ReadStop::Failed) => Err(Refusal::ReadFault),
        Err(ReadStop::TooLong) => Err(Refusal::Early(Early::TooLong { text })),
        Err(ReadStop::Memory) => Err(Refusal::NoMemory),
    }
}

/// The domain that the text under a name spells.
pub fn domain_under<S: Shelf>(alloc: Global, shelf: &mut S, name: &str) -> Result<Domain, Refusal>
    ensures read { IfOk result (ReadsDomain (S.bytes shelf.old name.now)) }
    ensures not_read { IfErr result (NoDomain (S.bytes shelf.old name.now)
        (S.faults shelf.old) (S.faults shelf.new)) }
    ensures reads { ReadsOnce S.bytes S.picked S.rest S.picks (text_limit + 1) name.now shelf.old shelf.new }
    ensures keeps { KeepsFiles S.names S.bytes S.faults shelf.old shelf.new }
{
    let text = text_of(alloc, shelf, name, Text::Domain)?;
    match read_domain(alloc, &text) {
        Ok(domain) => Ok(domain),
        Err(fault) => Err(refuse_text(Text::Domain, text.len(), fault)),
    }
}

/// The problem that the text under a name spells.
pub fn problem_under<S: Shelf>(alloc: Global, shelf: &mut S, name: &str) -> Result<Problem, Refusal>
    ensures read { IfOk result (ReadsProblem (S.bytes shelf.old name.now)) }
    ensures not_read { IfErr result (NoProblem (S.bytes shelf.old name.now)
        (S.faults shelf.old) (S.faults shelf.new)) }
    ensures reads { ReadsOnce S.bytes S.picked S.rest S.picks (text_limit + 1) name.now shelf.old shelf.new }
    ensures keeps { KeepsFiles S.names S.bytes S.faults shelf.old shelf.new }
{
    let text = text_of(alloc, shelf, name, Text::Problem)?;
    match read_problem(alloc, &text) {
        Ok(problem) => Ok(problem),
        Err(fault) => Err(refuse_text(Text::Problem, text.len(), fault)),
    }
}

/// The well-typed pair that the texts under two names spell.
pub fn pair<S: Shelf>(
    alloc: Global,
    shelf: &mut S,
    domain: &str,
    problem: &str,
) -> Result<Typed, Refusal>
    ensures read { IfOk result (λ t. ReadsPair (S.bytes shelf.old domain.now)
        (S.bytes shelf.old problem.now) t.domain t.problem) }
    ensures not_read { IfErr result (NoPair (S.bytes shelf.old domain.now)
        (S.bytes shelf.old problem.now) (S.faults shelf.old) (S.faults shelf.new)) }
    // The domain's file is read and then the problem's, each once, and no other.
    ensures reads { ReadsInOrder S.bytes S.picked S.rest S.picks (text_limit + 1)
        (domain.now ∷ problem.now ∷ []) shelf.old shelf.new }
    ensures both { OnOk result (ReadsEach S.bytes S.picked S.rest S.picks (text_limit + 1)
        (domain.now ∷ problem.now ∷ []) shelf.old shelf.new) }
    ensures keeps { KeepsFiles S.names S.bytes S.faults shelf.old shelf.new }
{
    let domain = domain_under(alloc, shelf, domain)?;
    let problem = problem_under(alloc, shelf, problem)?;
    match check(alloc, domain, problem) {
        Ok(typed) => Ok(typed),
        Err(fault) => Err(refuse_types(fault)),
    }
}

/// Lets a pair go. That its trees can be freed is proved here, and not once more where this is called.
pub fn release(typed: Typed, freeing: Freeing) {
    freeing.let_go(typed);
}

/// Lets the tree of a domain go, at once and proved here in the same way.
pub fn release_domain(_domain: Domain) {}

/// Lets the tree of a problem go, in the same way.
pub fn release_problem(_problem: Problem) {}
