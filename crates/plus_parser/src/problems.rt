//! Reads a problem.

ghost use Rattle.std.specs.Prelude.{◌≡◌, true, ◌<◌, ◌≤◌, ◌-◌, ◌+◌, List, [], length, OnOk, Ok, MatchResult, codes};
ghost use Rattle.plus_tokens.specs.Items.{Item};
ghost use Rattle.plus_parser.specs.Phrases.Literals.{literal_of};
ghost use Rattle.plus_parser.specs.Phrases.Reading.{Gives, Fails, is_open};
ghost use Rattle.plus_parser.specs.Phrases.Grammar.{around, until_close, form_step};
ghost use Rattle.plus_parser.specs.ReadingDomain.{section_step};
ghost use Rattle.plus_parser.specs.ReadingProblem.{literal_or, literal_next, timed_of, init_at, problem_part, all_found, problem_step, no_problem_parts, problem_made, or_early, problem_of, problem_in};
ghost use Rattle.plus_tokens.specs.Seen.{seen};

use crate::declarations::requirements;
use crate::domains::{end, front};
use crate::forms::conditions;
use crate::keywords::{ProblemWord, problem_part_of};
use crate::metric::skip;
use crate::parts::{Kept, ProblemParts};
use crate::phrases::expressions::literal_of;
use crate::phrases::lists::list;
use crate::phrases::reader::Reader;
use crate::phrases::spelled::spelled_of;
use crate::phrases::uses::{around, use_end, use_form};
use crate::phrases::words::{Allowed, HeadWord, head_of, is_close, is_open, is_word};
use crate::schemas::or_none;
use plus_tokens::Seen;
use plus_tree::{Comparison, CondTree, Init, Literal, Members, Problem, Span, Spelled, TextFault};
use std::alloc::Global;

// A timed literal, behind its `at`.
#[tactic(auto, unfolding(crate::specs::ReadingProblem::timed_of))]
fn timed(alloc: Global, reader: &mut Reader<'_>, room: u8, front: Span) -> Result<Init, TextFault>
    ensures gives { Gives (λ i. i) reader.new result (timed_of room front reader.old) }
    ensures shorter { OnOk result (length reader.new < length reader.old) }
{
    let time = number(reader, room)?;
    let start = reader.open(room)?;
    let token = reader.next(room - 1)?;
    match head_of(&token) {
        HeadWord::Plain => {
            let atom = use_end(alloc, reader, Allowed::Terms, room - 1, start.span, &token)?;
            let last = reader.close(room)?;
            Ok(Init::At(time, atom, around(front, last.span)))
        }
        HeadWord::Not => {
            let atom = use_form(alloc, reader, Allowed::Terms, room - 1)?;
            reader.close(room - 1)?;
            let last = reader.close(room)?;
            Ok(Init::AtNot(time, atom, around(front, last.span)))
        }
        _ => Err(TextFault::Form { span: token.span }),
    }
}

// The member of `:init` whose opening parenthesis took one of so many places.
#[tactic(auto, unfolding(crate::specs::ReadingProblem::init_at))]
fn init(alloc: Global, reader: &mut Reader<'_>, room: u8, front: Span) -> Result<Init, TextFault>
    requires { 0 < room }
    ensures gives { Gives (λ i. i) reader.new result (init_at room front reader.old) }
    ensures shorter { OnOk result (length reader.new < length reader.old) }
{
    let token = reader.next(room - 1)?;
    match head_of(&token) {
        HeadWord::Plain => {
            if is_word(&token, b"at") && reader.is_time_next(room - 1) {
                return timed(alloc, reader, room - 1, front);
            }
            let atom = use_end(alloc, reader, Allowed::Names, room - 1, front, &token)?;
            Ok(Init::Holds(atom))
        }
        HeadWord::Not => {
            let atom = use_form(alloc, reader, Allowed::Names, room - 1)?;
            let last = reader.close(room - 1)?;
            Ok(Init::Absent(atom, around(front, last.span)))
        }
        HeadWord::Compare(Comparison::Equal) => {
            let fluent = use_form(alloc, reader, Allowed::Names, room - 1)?;
            let value = number(reader, room - 1)?;
            let last = reader.close(room - 1)?;
            Ok(Init::Value(fluent, value, around(front, last.span)))
        }
        _ => Err(TextFault::Form { span: token.span }),
    }
}

// The number that comes next.
#[inline(always)]
#[tactic(auto, unfolding(crate::specs::ReadingProblem::literal_next))]
fn number(reader: &mut Reader<'_>, room: u8) -> Result<Literal, TextFault>
    ensures gives { Gives (λ n. n) reader.new result (literal_next room reader.old) }
    ensures shorter { OnOk result (length reader.new < length reader.old) }
{
    let token = reader.next(room)?;
    literal(&token)
}

/// The number that a token spells, where one is wanted.
#[inline(always)]
pub fn literal(token: &Seen<'_>) -> Result<Literal, TextFault>
    ensures gives { (rest : List Item) → Gives (λ n. n) rest result
        (literal_or (literal_of (seen token.now)) (seen token.now) rest) }
{
    match literal_of(token) {
        Some(literal) => Ok(literal),
        None => Err(TextFault::Form { span: token.span }),
    }
}

// One more member of `:init`, which begins with a token.
#[tactic(auto, unfolding(crate::specs::Phrases::Grammar::form_step))]
fn next_init(
    alloc: Global,
    reader: &mut Reader<'_>,
    room: u8,
    found: &mut Members<Init>,
    token: &Seen<'_>,
) -> Result<(), TextFault>
    requires { is_open token.now.kind ≡ true → 0 < room }
    ensures gives { Gives (λ _. found.new) reader.new result
        (form_step (init_at room) found.old (seen token.now) reader.old) }
    ensures shorter { OnOk result (length reader.new < length reader.old) }
{
    if !is_open(token.kind) {
        return Err(TextFault::Form { span: token.span });
    }
    let one = init(alloc, reader, room, token.span)?;
    found.push(one)?;
    Ok(())
}

// The members of `:init` up to the closing parenthesis.
fn inits(
    alloc: Global,
    reader: &mut Reader<'_>,
    room: u8,
) -> Result<(Members<Init>, Span), TextFault>
    ensures gives { Gives (λ x. x) reader.new result
        (until_close (form_step (init_at room)) room (length reader.old) [] reader.old) }
    ensures shorter { OnOk result (length reader.new < length reader.old) }
{
    let mut found = Members::new(alloc);
    'found: loop {
        let token = reader.next(room)?;
        if is_close(token.kind) {
            return Ok((found, token.span));
        }
        next_init(alloc, reader, room, &mut found, &token)?;
    }
}

// The section behind its keyword.
#[tactic(auto, unfolding(crate::specs::ReadingProblem::problem_part))]
fn part(
    alloc: Global,
    reader: &mut Reader<'_>,
    room: u8,
    found: &mut ProblemParts,
    front: Span,
    keyword: &Seen<'_>,
) -> Result<(), TextFault>
    ensures gives { Gives (λ _. found.new) reader.new result
        (problem_part room found.old front (seen keyword.now) reader.old) }
    ensures shorter { OnOk result (length reader.new < length reader.old) }
{
    match problem_part_of(keyword) {
        ProblemWord::Domain if found.domain.is_none() => {
            let name = reader.name(room)?;
            reader.close(room)?;
            found.domain = Some(spelled_of(alloc, &name)?);
            Ok(())
        }
        ProblemWord::Requirements if found.requirements.is_none() => {
            let (members, _) = requirements(alloc, reader, room)?;
            found.requirements = Some(members);
            Ok(())
        }
        ProblemWord::Objects if found.objects.is_none() => {
            let (members, _) = list(alloc, reader, Allowed::Names, room)?;
            found.objects = Some(members);
            Ok(())
        }
        ProblemWord::Init if found.init.is_none() => {
            let (members, _) = inits(alloc, reader, room)?;
            found.init = Some(members);
            Ok(())
        }
        ProblemWord::Goal if found.goal.is_none() => {
            let start = reader.open(room)?;
            let goal = conditions::inside(alloc, reader, room, start.span)?;
            let goal = Kept::new(alloc, goal)?;
            reader.close(room)?;
            found.goal = Some(goal);
            Ok(())
        }
        ProblemWord::Metric if !found.metric => {
            skip(reader, room)?;
            found.metric = true;
            Ok(())
        }
        _ => Err(TextFault::Form { span: keyword.span }),
    }
}

impl ProblemParts {
    // Whether each section was found.
    fn all_found(&self) -> bool
        ensures { result ≡ all_found self.now }
    {
        self.domain.is_some()
            && self.requirements.is_some()
            && self.objects.is_some()
            && self.init.is_some()
            && self.goal.is_some()
            && self.metric
    }
}

// The section that begins with a token.
#[tactic(auto, unfolding(crate::specs::ReadingDomain::section_step))]
fn section(
    alloc: Global,
    reader: &mut Reader<'_>,
    room: u8,
    found: &mut ProblemParts,
    token: &Seen<'_>,
) -> Result<(), TextFault>
    requires { is_open token.now.kind ≡ true → 0 < room }
    ensures gives { Gives (λ _. found.new) reader.new result
        (problem_step room found.old (seen token.now) reader.old) }
    ensures shorter { OnOk result (length reader.new < length reader.old) }
{
    if !is_open(token.kind) {
        return Err(TextFault::Form { span: token.span });
    }
    if found.all_found() {
        return Err(TextFault::Form { span: token.span });
    }
    let keyword = reader.next(room - 1)?;
    part(alloc, reader, room - 1, found, token.span, &keyword)
}

// The sections of a problem, up to its closing parenthesis.
fn sections(
    alloc: Global,
    reader: &mut Reader<'_>,
    room: u8,
) -> Result<(ProblemParts, Span), TextFault>
    ensures gives { Gives (λ x. x) reader.new result
        (until_close (problem_step room) room (length reader.old) no_problem_parts reader.old) }
    ensures shorter { OnOk result (length reader.new < length reader.old) }
{
    let mut found = ProblemParts {
        domain: None,
        requirements: None,
        objects: None,
        init: None,
        goal: None,
        metric: false,
    };
    'found: loop {
        let token = reader.next(room)?;
        if is_close(token.kind) {
            return Ok((found, token.span));
        }
        section(alloc, reader, room, &mut found, &token)?;
    }
}

// The problem of these parts, whose last parenthesis comes too early where one is missing.
fn made(
    alloc: Global,
    name: Spelled,
    parts: ProblemParts,
    span: Span,
    last: Span,
) -> Result<Problem, TextFault>
    ensures { result ≡ or_early last (problem_made name parts span) }
{
    let early = TextFault::Form { span: last };
    let ProblemParts {
        domain,
        requirements,
        objects,
        init,
        goal,
        ..
    } = parts;
    let Some(domain) = domain else {
        return Err(early);
    };
    let Some(init) = init else {
        return Err(early);
    };
    let Some(goal) = goal else {
        return Err(early);
    };
    Ok(Problem {
        name,
        domain,
        requirements: or_none(alloc, requirements),
        objects: or_none(alloc, objects),
        init,
        goal: goal.into_tree(),
        span,
    })
}

/// The problem that a reader gives.
#[tactic(auto, unfolding(crate::specs::ReadingProblem::problem_in))]
pub fn problem(alloc: Global, reader: &mut Reader<'_>) -> Result<Problem, TextFault>
    ensures gives { MatchResult result
        (λ p. problem_of 64 reader.old ≡ Ok p) (λ e. Fails e (problem_of 64 reader.old)) }
    ensures rest { OnOk result (reader.new ≡ []) }
{
    let (name, start) = front(alloc, reader, b"problem")?;
    let (parts, last) = sections(alloc, reader, 63)?;
    let problem = made(alloc, name, parts, around(start, last), last)?;
    end(reader)?;
    Ok(problem)
}
