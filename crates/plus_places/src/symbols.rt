//! What may still be wanted of a text.

use plus_parser::phrases::words::Allowed;

/// Which sections of a problem were met.
#[derive(Clone, Copy, PartialEq, Eq)]
pub struct Met {
    pub domain: bool,
    pub requirements: bool,
    pub objects: bool,
    pub init: bool,
    pub goal: bool,
    pub metric: bool,
}

/// Which keys of an action, a process or an event were met.
#[derive(Clone, Copy, PartialEq, Eq)]
pub struct KeysMet {
    pub parameters: bool,
    pub condition: bool,
    pub effect: bool,
}

/// Which sections of a domain were met.
#[derive(Clone, Copy, PartialEq, Eq)]
pub struct DomainMet {
    pub requirements: bool,
    pub types: bool,
    pub constants: bool,
    pub predicates: bool,
    pub functions: bool,
}

/// A part of a text that is still to come. What is called inside comes behind its opening
/// parenthesis, and goes up to its closing one; so does a list.
#[derive(Clone, Copy, PartialEq, Eq)]
pub enum Symbol {
    /// A parenthesis that opens.
    Open,
    /// A parenthesis that closes.
    Close,
    /// A name.
    Name,
    /// A name that begins no form of another kind.
    Plain,
    /// A number.
    Number,
    /// An object or a variable.
    Term,
    /// The word `define`.
    Define,
    /// The word `problem`.
    ProblemWord,
    /// The keywords of `:requirements`.
    Requirements,
    /// The terms of an atom or a fluent.
    Arguments(Allowed),
    /// An atom or a fluent.
    Use(Allowed),
    /// Names with their types; whether a name waits for its type.
    Listed(Allowed, bool),
    /// Variables with their types, in parentheses.
    Variables,
    /// An expression.
    Expr,
    ExprInside,
    /// A list of expressions.
    Exprs,
    /// Behind the first expression of a difference.
    MinusEnd,
    /// A condition.
    Cond,
    CondInside,
    /// A list of conditions.
    Conds,
    /// Behind the sign of a comparison; whether terms may follow.
    Compared(bool),
    /// A list of what holds first.
    Inits,
    InitInside,
    /// Behind a name `at` in `:init`.
    AtEnd,
    /// An atom or its negation, behind its time.
    Timed,
    TimedInside,
    /// Any tokens up to the parenthesis that closes.
    Balanced,
    /// The sections of a problem.
    Sections(Met),
    /// A section of a problem behind its parenthesis, and the sections after it.
    Section(Met),
    /// The word `domain`.
    DomainWord,
    /// An effect.
    Effect,
    EffectInside,
    /// A list of effects.
    Effects,
    /// The effect of `when`.
    Simple,
    SimpleInside,
    LeafInside,
    /// A list of atoms, their negations, and changes of numbers.
    Leaves,
    HeadInside,
    /// A list of predicates.
    Heads,
    /// The word `number`.
    NumberWord,
    /// A list of functions; whether their type may follow.
    Functions(bool),
    /// The keys of an action, a process or an event.
    Keys(KeysMet),
    /// The sections of a domain.
    DomainSections(DomainMet),
    /// A section of a domain behind its parenthesis, and the sections after it.
    DomainSection(DomainMet),
    /// A number without a sign.
    Time,
    /// Constraints: a list or a single one.
    Constraints,
    ConstraintsInside,
    /// A list of constraints.
    ConstraintList,
    ConstraintInside,
}
