//! The laws, the contracts of functions with empty bodies.
ghost use Rattle.plus_grammar.specs.Laws.{ListsByGroups, TypesByGroups, FunctionsByGroups, ConditionsByGroups, EffectsByGroups, KeysByCounts, SectionsByCounts, ProblemsByCounts, SchemasSpelled, DomainsSpelled, ProblemsSpelled, ConstraintsSpelled, TokensSpelled, DepthByCounts, PairsByCounts, DomainTexts, ProblemTexts, ConstraintTexts};

/// Tokens spell a list of names with their types exactly where they are groups of names.
pub fn lists_by_groups()
    ensures { ListsByGroups }
{}

/// So are the types of a domain, with the type above each.
pub fn types_by_groups()
    ensures { TypesByGroups }
{}

/// So are its functions, whose only type is `number`.
pub fn functions_by_groups()
    ensures { FunctionsByGroups }
{}

/// Conditions are those whose variables stand by groups.
pub fn conditions_by_groups()
    ensures { ConditionsByGroups }
{}

/// And so are effects.
pub fn effects_by_groups()
    ensures { EffectsByGroups }
{}

/// Keys are added up to a schema exactly where each stands once at most, and the schema has what they give.
pub fn keys_by_counts()
    ensures { KeysByCounts }
{}

/// So are the sections of a domain.
pub fn sections_by_counts()
    ensures { SectionsByCounts }
{}

/// So are those of a problem, of which three must stand.
pub fn problems_by_counts()
    ensures { ProblemsByCounts }
{}

/// So the tokens of an action, a process or an event are those by groups and counts.
pub fn schemas_spelled()
    ensures { SchemasSpelled }
{}

/// The tokens of a domain are those by groups and counts.
pub fn domains_spelled()
    ensures { DomainsSpelled }
{}

/// The tokens of a problem are those by groups and counts.
pub fn problems_spelled()
    ensures { ProblemsSpelled }
{}

/// The tokens of constraints are those whose conditions have their variables by groups.
pub fn constraints_spelled()
    ensures { ConstraintsSpelled }
{}

/// The tokens of a text stand one behind the other, each the first behind the one before it.
pub fn tokens_spelled()
    ensures { TokensSpelled }
{}

/// Room for parentheses that is counted down and up lasts exactly where no more than so many are open behind any token.
pub fn depth_by_counts()
    ensures { DepthByCounts }
{}

/// Parentheses that a reader counts up and down are in pairs exactly where behind no token more are closed than opened.
pub fn pairs_by_counts()
    ensures { PairsByCounts }
{}

/// So the texts of a domain are those of such tokens.
pub fn domain_texts()
    ensures { DomainTexts }
{}

/// And so are those of a problem.
pub fn problem_texts()
    ensures { ProblemTexts }
{}

/// So the texts of constraints are those of such tokens.
pub fn constraint_texts()
    ensures { ConstraintTexts }
{}
