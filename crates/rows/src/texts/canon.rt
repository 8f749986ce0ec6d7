//! The canonical text, byte by byte.
ghost use Rattle.rows.specs.Texts.Canon.{DomainRow, BareRow, ProblemRow, ShortRow};

/// A domain with each form once.
pub fn domain_row()
    ensures { DomainRow }
{}

/// A domain that declares nothing.
pub fn bare_row()
    ensures { BareRow }
{}

/// A problem with each section.
pub fn problem_row()
    ensures { ProblemRow }
{}

/// A problem with no more than it must have.
pub fn short_row()
    ensures { ShortRow }
{}
