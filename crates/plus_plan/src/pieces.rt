//! Reads the lines of a plan text that comes in pieces.
ghost use Rattle.std.specs.Prelude.{◌≡◌, ◌+◌, ◌<◌, ◌≤◌, ◌++◌, ◌↔◌, false, true, length, vec_len, take, Some, IfErr, IfOk, IfSome, IfNone, IsTrue, IsFalse, OnOk, OnErr};
ghost use Rattle.plus_plan.specs.Cut.{line_end, line_from};
ghost use Rattle.plus_plan.specs.Spells.{line_limit};
ghost use Rattle.plus_plan.specs.Pieces.{fresh, taken_of, fed, at_end, without_line, keeping, is_due, IsIdle, IsNext, IsRefusedNext};
ghost use Rattle.plus_plan.specs.declared.faults.PlanFault.{PlanFault};

use crate::faults::PlanFault;
use crate::forms::{Line, PlanForm};
use crate::lines::{LINE_LIMIT, line_end, read_line};
use std::alloc::{AllocError, Global};
use std::marker::Model;

/// Gives the lines of a text that is fed in pieces, whatever their length. It holds one line.
#[derive(Drop)]
pub struct PlanReader {
    alloc: Global,
    form: PlanForm,
    // the line that waits, or what is taken of it, and then room
    buffer: Vec<u8>,
    // how many of these bytes are taken
    len: usize,
    // whether the last of them is an LF
    whole: bool,
    closed: bool,
    number: u32,
    fault: Option<PlanFault>,
}

impl Model for PlanReader {
    ghost use Rattle.plus_plan.specs.Pending.{Pending};

    ghost Value = { Pending };

    ghost use Rattle.plus_plan.specs.Held.{IsHeld, pending};

    ghost view = { pending };

    ghost invariant = { IsHeld };
}

// Writes bytes into a buffer at an offset.
fn put(buffer: &mut Vec<u8>, at: usize, bytes: &[u8])
    requires { at + length bytes.now ≤ vec_len buffer.old }
    ensures length { vec_len buffer.new ≡ vec_len buffer.old }
    ensures written { take (at + length bytes.now) buffer.new.items ≡ take at buffer.old.items ++ bytes.now }
{
    buffer[at..at + bytes.len()].copy_from_slice(bytes);
}

impl PlanReader {
    /// A reader of the lines of this form, numbered from 1, with a buffer for one line.
    pub fn new(alloc: Global, form: PlanForm) -> Result<PlanReader, AllocError>
        ensures { IfOk result (λ reader. reader ≡ fresh form) }
    {
        Ok(PlanReader {
            alloc,
            form,
            buffer: vec![in alloc; 0; LINE_LIMIT + 1]?,
            len: 0,
            whole: false,
            closed: false,
            number: 1,
            fault: None,
        })
    }

    /// Takes the first bytes of a piece, and answers how many: up to and with the first LF, or until
    /// there is one byte more than a line may have. It takes none where a whole line waits.
    pub fn feed(&mut self, piece: &[u8]) -> usize
        requires going { self.old.closed ≡ false }
        ensures count { result ≡ taken_of self.old piece.now }
        ensures within { result ≤ length piece.now }
        // They are appended to the rest, and nothing else changes.
        ensures takes { self.new ≡ fed self.old (take result piece.now) }
    {
        if self.whole {
            return 0;
        }
        let end = line_end(piece, 0);
        let taken = (end + 1).min(piece.len()).min(LINE_LIMIT + 1 - self.len);
        put(&mut self.buffer, self.len, &piece[..taken]);
        self.len += taken;
        self.whole = end < taken;
        taken
    }

    /// Says that the text has ended: what is left is its last line.
    pub fn close(&mut self)
        ensures { self.new ≡ at_end self.old }
    {
        self.closed = true;
    }

    // The bytes of the line that waits.
    fn line(&self) -> &[u8]
        ensures { result.now ≡ line_from self.now.rest 0 }
    {
        let end = if self.whole { self.len - 1 } else { self.len };
        &self.buffer[..end]
    }

    // Whether a line is to be given or refused.
    fn is_due(&self) -> bool
        ensures { result ≡ is_due self.now }
    {
        self.whole || self.len > LINE_LIMIT || (self.closed && self.len > 0)
    }

    // Puts the line that is due in place of a line.
    fn due_line(&self, into: &mut Line) -> Result<(), PlanFault>
        requires no_fault { self.now.fault ≡ None }
        requires due { is_due self.now ≡ true }
        ensures line { OnOk result (IsNext self.now into.new) }
        ensures refused { IfErr result (IsRefusedNext self.now) }
        ensures too_long { (result ≡ Err (PlanFault.LineTooLong self.now.number)) ↔ (line_limit < length (line_from self.now.rest 0)) }
    {
        read_line(self.alloc, self.line(), self.number, self.form, into)
    }

    // Lets the line go that was given.
    fn leave(&mut self)
        ensures { self.new ≡ without_line self.old }
    {
        self.len = 0;
        self.whole = false;
        self.number = self.number.saturating_add(1);
    }

    // Keeps a fault, but for want of memory.
    fn keep(&mut self, fault: PlanFault)
        ensures { self.new ≡ keeping fault self.old }
    {
        match fault {
            PlanFault::NotLine { .. } | PlanFault::LineTooLong { .. } => self.fault = Some(fault),
            PlanFault::Memory => (),
        }
    }

    /// The next line. A fault is kept, and answered from then on; for want of memory the line waits.
    pub fn next_line(&mut self) -> Result<Option<Line>, PlanFault>
        // There is none exactly where no fault is kept and nothing is due.
        ensures none { (result ≡ Ok None) ↔ IsIdle self.old }
        ensures unchanged { IfOk result (λ found. IfNone found (self.new ≡ self.old)) }
        // What is given is the first of the lines that wait, and leaves the rest.
        ensures line { IfOk result (λ found. IfSome found (IsNext self.old)) }
        ensures leaves { IfOk result (λ found. IfSome found (λ _. self.new ≡ without_line self.old)) }
        // Else the first of the lines that wait is refused, at the one place of its fault, or since it is too long.
        ensures refused { self.old.fault ≡ None → IfErr result (IsRefusedNext self.old) }
        ensures keeps { self.old.fault ≡ None → IfErr result (λ fault. self.new ≡ keeping fault self.old) }
        ensures too_long { self.old.fault ≡ None →
            ((result ≡ Err (PlanFault.LineTooLong self.old.number)) ↔ (line_limit < length (line_from self.old.rest 0))) }
        // A fault that is kept is answered again.
        ensures again { (fault : PlanFault) → self.old.fault ≡ Some fault → (result ≡ Err fault) × (self.new ≡ self.old) }
    {
        let mut line = Line::Blank;
        match self.next_line_in(&mut line) {
            Ok(true) => Ok(Some(line)),
            Ok(false) => Ok(None),
            Err(fault) => Err(fault),
        }
    }

    /// The same, but the line is put in place of another, and the answer says whether there is one.
    #[inline(always)]
    pub fn next_line_in(&mut self, into: &mut Line) -> Result<bool, PlanFault>
        ensures none { (result ≡ Ok false) ↔ IsIdle self.old }
        ensures unchanged { IfOk result (λ found. IsFalse found → self.new ≡ self.old) }
        ensures line { IfOk result (λ found. IsTrue found → IsNext self.old into.new) }
        ensures leaves { IfOk result (λ found. IsTrue found → self.new ≡ without_line self.old) }
        ensures refused { self.old.fault ≡ None → IfErr result (IsRefusedNext self.old) }
        ensures keeps { self.old.fault ≡ None → IfErr result (λ fault. self.new ≡ keeping fault self.old) }
        ensures too_long { self.old.fault ≡ None →
            ((result ≡ Err (PlanFault.LineTooLong self.old.number)) ↔ (line_limit < length (line_from self.old.rest 0))) }
        ensures again { (fault : PlanFault) → self.old.fault ≡ Some fault → (result ≡ Err fault) × (self.new ≡ self.old) }
    {
        if let Some(fault) = self.fault {
            return Err(fault);
        }
        if !self.is_due() {
            return Ok(false);
        }
        match self.due_line(into) {
            Ok(()) => {
                self.leave();
                Ok(true)
            }
            Err(fault) => {
                self.keep(fault);
                Err(fault)
            }
        }
    }
}
