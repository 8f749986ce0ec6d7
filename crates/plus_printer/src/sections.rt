//! Domains and problems.
ghost use Rattle.std.specs.Prelude.{◌++◌, codes};
ghost use Rattle.plus_printer.specs.Appended.{Prints};
ghost use Rattle.plus_printer.specs.Words.{word, predicates_opening, functions_opening, spaced, typed_text, use_text, literal_text};
ghost use Rattle.plus_printer.specs.Canon.{section, requirements_text, keyword_text, head_text, keys_text, schema_text, schemas_text, heads_text, declared_text, happening_text, domain_text, absent_text, timed_text, init_text, stated_text, for_text, titled_text, problem_text};

use crate::conditions::condition;
use crate::effects::effect;
use crate::words::{
    domain_opening, literal, precondition_key, problem_opening, put, put_word,
    requirements_opening, spaced_variables, typed, used, variables,
};
use plus_tree::{Domain, Head, Init, Literal, Problem, Schema, Spelled, TypedName, Use};
use std::alloc::AllocError;

#[tactic(auto, using(crate::proofs::AppendedLemmas::appending), unfolding(crate::specs::Canon::keyword_text))]
fn spaced_keyword(text: &mut Vec<u8>, keyword: &Spelled) -> Result<(), AllocError>
    ensures { Prints text.old.items text.new.items (word (codes " ") ++ keyword_text keyword.now) result }
{
    put_word(text, b" ")?;
    put_word(text, b":")?;
    put(text, keyword.name.bytes())?;
    Ok(())
}

#[tactic(auto, using(crate::proofs::AppendedLemmas::looping))]
fn keywords(text: &mut Vec<u8>, keywords: &[Spelled]) -> Result<(), AllocError>
    ensures { Prints text.old.items text.new.items (spaced keyword_text keywords.now) result }
{
    'members: for member in keywords {
        spaced_keyword(text, member)?;
    }
    Ok(())
}

#[tactic(auto, using(crate::proofs::AppendedLemmas::appending))]
fn spaced_typed(text: &mut Vec<u8>, name: &TypedName) -> Result<(), AllocError>
    ensures { Prints text.old.items text.new.items (word (codes " ") ++ typed_text name.now) result }
{
    put_word(text, b" ")?;
    typed(text, name)?;
    Ok(())
}

#[tactic(auto, using(crate::proofs::AppendedLemmas::looping))]
fn typed_names(text: &mut Vec<u8>, names: &[TypedName]) -> Result<(), AllocError>
    ensures { Prints text.old.items text.new.items (spaced typed_text names.now) result }
{
    'members: for member in names {
        spaced_typed(text, member)?;
    }
    Ok(())
}

#[tactic(auto, using(crate::proofs::AppendedLemmas::appending), unfolding(crate::specs::Canon::head_text))]
fn head(text: &mut Vec<u8>, head: &Head) -> Result<(), AllocError>
    ensures { Prints text.old.items text.new.items (head_text head.now) result }
{
    put_word(text, b"(")?;
    put(text, head.name.name.bytes())?;
    spaced_variables(text, head.params.as_slice())?;
    put_word(text, b")")?;
    Ok(())
}

#[tactic(auto, using(crate::proofs::AppendedLemmas::appending))]
fn spaced_head(text: &mut Vec<u8>, member: &Head) -> Result<(), AllocError>
    ensures { Prints text.old.items text.new.items (word (codes " ") ++ head_text member.now) result }
{
    put_word(text, b" ")?;
    head(text, member)?;
    Ok(())
}

#[tactic(auto, using(crate::proofs::AppendedLemmas::looping))]
fn heads(text: &mut Vec<u8>, heads: &[Head]) -> Result<(), AllocError>
    ensures { Prints text.old.items text.new.items (spaced head_text heads.now) result }
{
    'members: for member in heads {
        spaced_head(text, member)?;
    }
    Ok(())
}

#[tactic(auto, using(crate::proofs::AppendedLemmas::appending), unfolding(crate::specs::Canon::requirements_text))]
fn requirements(text: &mut Vec<u8>, members: &[Spelled]) -> Result<(), AllocError>
    ensures { Prints text.old.items text.new.items (requirements_text members.now) result }
{
    if members.is_empty() {
        return Ok(());
    }
    requirements_opening(text)?;
    keywords(text, members)?;
    put_word(text, b")\n")?;
    Ok(())
}

#[tactic(auto, using(crate::proofs::AppendedLemmas::appending), unfolding(crate::specs::Canon::section))]
fn typed_section(text: &mut Vec<u8>, opens: &[u8], members: &[TypedName]) -> Result<(), AllocError>
    ensures { Prints text.old.items text.new.items (section opens.now typed_text members.now) result }
{
    if members.is_empty() {
        return Ok(());
    }
    put_word(text, opens)?;
    typed_names(text, members)?;
    put_word(text, b")\n")?;
    Ok(())
}

#[tactic(auto, using(crate::proofs::AppendedLemmas::appending), unfolding(crate::specs::Canon::section))]
fn head_section(text: &mut Vec<u8>, opens: &[u8], members: &[Head]) -> Result<(), AllocError>
    ensures { Prints text.old.items text.new.items (section opens.now head_text members.now) result }
{
    if members.is_empty() {
        return Ok(());
    }
    put_word(text, opens)?;
    heads(text, members)?;
    put_word(text, b")\n")?;
    Ok(())
}

// The three keys of a schema.
#[tactic(auto, using(crate::proofs::AppendedLemmas::appending), unfolding(crate::specs::Canon::keys_text))]
fn keys(text: &mut Vec<u8>, schema: &Schema) -> Result<(), AllocError>
    ensures { Prints text.old.items text.new.items (keys_text schema.now) result }
{
    variables(text, schema.params.as_slice())?;
    precondition_key(text)?;
    condition(text, &schema.condition)?;
    put_word(text, b" :effect ")?;
    effect(text, &schema.effect)?;
    Ok(())
}

#[tactic(auto, using(crate::proofs::AppendedLemmas::appending), unfolding(crate::specs::Canon::schema_text))]
fn schema(text: &mut Vec<u8>, opens: &[u8], schema: &Schema) -> Result<(), AllocError>
    ensures { Prints text.old.items text.new.items (schema_text opens.now schema.now) result }
{
    put_word(text, opens)?;
    put(text, schema.name.name.bytes())?;
    put_word(text, b" :parameters ")?;
    keys(text, schema)?;
    put_word(text, b")\n")?;
    Ok(())
}

#[tactic(auto, using(crate::proofs::AppendedLemmas::line_by_line))]
fn schemas(text: &mut Vec<u8>, opens: &[u8], schemas: &[Schema]) -> Result<(), AllocError>
    ensures { Prints text.old.items text.new.items (schemas_text opens.now schemas.now) result }
{
    'members: for member in schemas {
        schema(text, opens, member)?;
    }
    Ok(())
}

#[tactic(auto, unfolding(crate::specs::Words::predicates_opening))]
fn predicates(text: &mut Vec<u8>, heads: &[Head]) -> Result<(), AllocError>
    ensures { Prints text.old.items text.new.items (section predicates_opening head_text heads.now) result }
{
    head_section(text, b" (:predicates", heads)
}

#[tactic(auto, unfolding(crate::specs::Words::functions_opening))]
fn functions(text: &mut Vec<u8>, heads: &[Head]) -> Result<(), AllocError>
    ensures { Prints text.old.items text.new.items (section functions_opening head_text heads.now) result }
{
    head_section(text, b" (:functions", heads)
}

// The predicates and functions of a domain.
#[tactic(auto, using(crate::proofs::AppendedLemmas::appending), unfolding(crate::specs::Canon::heads_text))]
fn head_sections(text: &mut Vec<u8>, domain: &Domain) -> Result<(), AllocError>
    ensures { Prints text.old.items text.new.items (heads_text domain.now) result }
{
    predicates(text, domain.predicates.as_slice())?;
    functions(text, domain.functions.as_slice())?;
    Ok(())
}

/// Appends what a domain declares.
#[tactic(auto, using(crate::proofs::AppendedLemmas::appending), unfolding(crate::specs::Canon::declared_text))]
pub fn declared(text: &mut Vec<u8>, domain: &Domain) -> Result<(), AllocError>
    ensures { Prints text.old.items text.new.items (declared_text domain.now) result }
{
    requirements(text, domain.requirements.as_slice())?;
    typed_section(text, b" (:types", domain.types.as_slice())?;
    typed_section(text, b" (:constants", domain.constants.as_slice())?;
    head_sections(text, domain)?;
    Ok(())
}

/// Appends what happens in a domain, to its end.
#[tactic(auto, using(crate::proofs::AppendedLemmas::appending), unfolding(crate::specs::Canon::happening_text))]
pub fn happening(text: &mut Vec<u8>, domain: &Domain) -> Result<(), AllocError>
    ensures { Prints text.old.items text.new.items (happening_text domain.now) result }
{
    schemas(text, b" (:action ", domain.actions.as_slice())?;
    schemas(text, b" (:process ", domain.processes.as_slice())?;
    schemas(text, b" (:event ", domain.events.as_slice())?;
    put_word(text, b")\n")?;
    Ok(())
}

/// Appends the canonical text of a domain. After a refusal some first bytes of it are appended.
#[tactic(auto, using(crate::proofs::AppendedLemmas::appending), unfolding(crate::specs::Canon::domain_text))]
pub fn print_domain(domain: &Domain, text: &mut Vec<u8>) -> Result<(), AllocError>
    ensures { Prints text.old.items text.new.items (domain_text domain.now) result }
{
    domain_opening(text)?;
    put(text, domain.name.name.bytes())?;
    put_word(text, b")\n")?;
    declared(text, domain)?;
    happening(text, domain)?;
    Ok(())
}

#[tactic(auto, using(crate::proofs::AppendedLemmas::appending))]
fn absent(text: &mut Vec<u8>, atom: &Use) -> Result<(), AllocError>
    ensures { Prints text.old.items text.new.items (absent_text atom.now) result }
{
    put_word(text, b"(not ")?;
    used(text, atom)?;
    put_word(text, b")")?;
    Ok(())
}

#[tactic(auto, using(crate::proofs::AppendedLemmas::appending))]
fn first_value(text: &mut Vec<u8>, fluent: &Use, value: &Literal) -> Result<(), AllocError>
    ensures { Prints text.old.items text.new.items (word (codes "(= ") ++ (use_text fluent.now
        ++ (word (codes " ") ++ (literal_text value.now ++ word (codes ")"))))) result }
{
    put_word(text, b"(= ")?;
    used(text, fluent)?;
    put_word(text, b" ")?;
    literal(text, value)?;
    put_word(text, b")")?;
    Ok(())
}

#[tactic(auto, using(crate::proofs::AppendedLemmas::appending))]
fn timed(text: &mut Vec<u8>, time: &Literal, atom: &Use) -> Result<(), AllocError>
    ensures { Prints text.old.items text.new.items (timed_text time.now (use_text atom.now)) result }
{
    put_word(text, b"(at ")?;
    literal(text, time)?;
    put_word(text, b" ")?;
    used(text, atom)?;
    put_word(text, b")")?;
    Ok(())
}

#[tactic(auto, using(crate::proofs::AppendedLemmas::appending))]
fn timed_absent(text: &mut Vec<u8>, time: &Literal, atom: &Use) -> Result<(), AllocError>
    ensures { Prints text.old.items text.new.items (timed_text time.now (absent_text atom.now)) result }
{
    put_word(text, b"(at ")?;
    literal(text, time)?;
    put_word(text, b" ")?;
    absent(text, atom)?;
    put_word(text, b")")?;
    Ok(())
}

fn initial(text: &mut Vec<u8>, member: &Init) -> Result<(), AllocError>
    ensures { Prints text.old.items text.new.items (init_text member.now) result }
{
    match member {
        Init::Holds(atom) => used(text, atom),
        Init::Absent(atom, _) => absent(text, atom),
        Init::Value(fluent, value, _) => first_value(text, fluent, value),
        Init::At(time, atom, _) => timed(text, time, atom),
        Init::AtNot(time, atom, _) => timed_absent(text, time, atom),
    }
}

#[tactic(auto, using(crate::proofs::AppendedLemmas::appending))]
fn spaced_initial(text: &mut Vec<u8>, member: &Init) -> Result<(), AllocError>
    ensures { Prints text.old.items text.new.items (word (codes " ") ++ init_text member.now) result }
{
    put_word(text, b" ")?;
    initial(text, member)?;
    Ok(())
}

#[tactic(auto, using(crate::proofs::AppendedLemmas::looping))]
fn initials(text: &mut Vec<u8>, members: &[Init]) -> Result<(), AllocError>
    ensures { Prints text.old.items text.new.items (spaced init_text members.now) result }
{
    'members: for member in members {
        spaced_initial(text, member)?;
    }
    Ok(())
}

// What a problem states.
#[tactic(auto, using(crate::proofs::AppendedLemmas::appending), unfolding(crate::specs::Canon::stated_text))]
fn stated(text: &mut Vec<u8>, problem: &Problem) -> Result<(), AllocError>
    ensures { Prints text.old.items text.new.items (stated_text problem.now) result }
{
    put_word(text, b" (:init")?;
    initials(text, problem.init.as_slice())?;
    put_word(text, b")\n (:goal ")?;
    condition(text, &problem.goal)?;
    put_word(text, b")\n)\n")?;
    Ok(())
}

// The domain that a problem is for.
#[tactic(auto, using(crate::proofs::AppendedLemmas::appending), unfolding(crate::specs::Canon::for_text))]
fn for_domain(text: &mut Vec<u8>, problem: &Problem) -> Result<(), AllocError>
    ensures { Prints text.old.items text.new.items (for_text problem.now) result }
{
    put_word(text, b" (:domain ")?;
    put(text, problem.domain.name.bytes())?;
    put_word(text, b")\n")?;
    Ok(())
}

// The name of a problem and of its domain.
#[tactic(auto, using(crate::proofs::AppendedLemmas::appending), unfolding(crate::specs::Canon::titled_text))]
fn titled(text: &mut Vec<u8>, problem: &Problem) -> Result<(), AllocError>
    ensures { Prints text.old.items text.new.items (titled_text problem.now) result }
{
    problem_opening(text)?;
    put(text, problem.name.name.bytes())?;
    put_word(text, b")\n")?;
    for_domain(text, problem)?;
    Ok(())
}

/// Appends the canonical text of a problem. After a refusal some first bytes of it are appended.
#[tactic(auto, using(crate::proofs::AppendedLemmas::appending), unfolding(crate::specs::Canon::problem_text))]
pub fn print_problem(problem: &Problem, text: &mut Vec<u8>) -> Result<(), AllocError>
    ensures { Prints text.old.items text.new.items (problem_text problem.now) result }
{
    titled(text, problem)?;
    requirements(text, problem.requirements.as_slice())?;
    typed_section(text, b" (:objects", problem.objects.as_slice())?;
    stated(text, problem)?;
    Ok(())
}
