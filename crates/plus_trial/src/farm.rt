//! The three texts of a farm.
ghost use Rattle.std.specs.Prelude.{◌≡◌, ◌≤◌, ◌++◌, OnOk, IfOk};
ghost use Rattle.std.specs.List.{flat_map};
ghost use Rattle.plus_trial.specs.Farm.{tanks, domain_text, object_text, init_text, problem_text, line_text, plan_text};

use crate::text::{put, put_numbered};
use std::alloc::{AllocError, Global};

/// The text of the domain.
pub fn domain_text(alloc: Global) -> Result<Vec<u8>, AllocError>
    ensures { IfOk result (λ text. text.items ≡ domain_text) }
{
    let mut text = Vec::new(alloc);
    put(&mut text, b"(define (domain farm) (:types tank)\n")?;
    put(
        &mut text,
        b" (:predicates (open ?t - tank)) (:functions (level ?t - tank) (rate ?t - tank) (cap ?t - tank))\n",
    )?;
    put(
        &mut text,
        b" (:action open-valve :parameters (?t - tank) :precondition (not (open ?t)) :effect (open ?t))\n",
    )?;
    put(
        &mut text,
        b" (:process fill :parameters (?t - tank) :precondition (open ?t) :effect (increase (level ?t) (* #t (rate ?t))))\n",
    )?;
    put(
        &mut text,
        b" (:event full :parameters (?t - tank) :precondition (and (open ?t) (>= (level ?t) (cap ?t))) :effect (not (open ?t))))\n",
    )?;
    Ok(text)
}

// About how many bytes a text has that tells so many of each tank.
fn room(count: u32, bytes: usize) -> usize {
    (count as usize).saturating_mul(bytes).saturating_add(256)
}

// The names of the tanks, as objects.
fn put_objects(text: &mut Vec<u8>, count: u32) -> Result<(), AllocError>
    ensures { OnOk result (text.new.items ≡ text.old.items ++ flat_map object_text (tanks count)) }
{
    'tanks: for before in 0..count {
        put_numbered(text, b" t", before as u64 + 1, b"")?;
    }
    Ok(())
}

// What is so of a tank at first.
fn put_init(text: &mut Vec<u8>, tank: u64) -> Result<(), AllocError>
    ensures { OnOk result (text.new.items ≡ text.old.items ++ init_text tank) }
{
    put_numbered(text, b"  (= (level t", tank, b") 0)")?;
    put_numbered(text, b" (= (rate t", tank, b") ")?;
    put_numbered(text, b"", 1 + tank % 3, b")")?;
    put_numbered(text, b" (= (cap t", tank, b") ")?;
    put_numbered(text, b"", 1 + tank % 5, b")\n")
}

fn put_inits(text: &mut Vec<u8>, count: u32) -> Result<(), AllocError>
    ensures { OnOk result (text.new.items ≡ text.old.items ++ flat_map init_text (tanks count)) }
{
    'tanks: for before in 0..count {
        put_init(text, before as u64 + 1)?;
    }
    Ok(())
}

/// The text of the problem with so many tanks.
pub fn problem_text(alloc: Global, count: u32) -> Result<Vec<u8>, AllocError>
    ensures { IfOk result (λ text. text.items ≡ problem_text count) }
{
    let mut text = Vec::with_capacity(alloc, room(count, 80))?;
    put_numbered(
        &mut text,
        b"(define (problem farm",
        count as u64,
        b") (:domain farm)\n (:objects",
    )?;
    put_objects(&mut text, count)?;
    put(&mut text, b" - tank)\n (:init\n")?;
    put_inits(&mut text, count)?;
    put(
        &mut text,
        b" )\n (:goal (forall (?t - tank) (>= (level ?t) (cap ?t)))))\n",
    )?;
    Ok(text)
}

// The line that opens a tank.
fn put_line(text: &mut Vec<u8>, tank: u64) -> Result<(), AllocError>
    ensures { OnOk result (text.new.items ≡ text.old.items ++ line_text tank) }
{
    put_numbered(text, b"", tank, b": (open-valve t")?;
    put_numbered(text, b"", tank, b")\n")?;
    Ok(())
}

fn put_lines(text: &mut Vec<u8>, count: u32) -> Result<(), AllocError>
    ensures { OnOk result (text.new.items ≡ text.old.items ++ flat_map line_text (tanks count)) }
{
    'tanks: for before in 0..count {
        put_line(text, before as u64 + 1)?;
    }
    Ok(())
}

/// The text of the plan for so many tanks.
pub fn plan_text(alloc: Global, count: u32) -> Result<Vec<u8>, AllocError>
    ensures { IfOk result (λ text. text.items ≡ plan_text count) }
{
    let mut text = Vec::with_capacity(alloc, room(count, 32))?;
    put_lines(&mut text, count)?;
    put_numbered(&mut text, b"", count as u64 + 5, b": @end\n")?;
    Ok(text)
}
