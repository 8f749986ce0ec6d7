//! Worked rows of typing, each a proved fact: what is above what, and each fault of a pair with its place. They show
//! that the definitions of `plus_types` say what they are meant to say, word by word.

ghost use Rattle.plus_typing.specs.Worked.Typing.{TypesRows, TypeListRows, DeclarationRows, UseRows, VariableRows, SchemaRows, RateRows, InitialRows};

/// Which type is under which, and what is a type.
pub fn types_rows()
    ensures { TypesRows }
{}

/// Types that are listed twice, or are above themselves.
pub fn type_list_rows()
    ensures { TypeListRows }
{}

/// Constants, objects, parameters, predicates and functions, and the name of a problem's domain.
pub fn declaration_rows()
    ensures { DeclarationRows }
{}

/// Names, numbers of arguments, and types of arguments.
pub fn use_rows()
    ensures { UseRows }
{}

/// Variables of quantifiers.
pub fn variable_rows()
    ensures { VariableRows }
{}

/// Conditions and effects of actions, processes and events.
pub fn schema_rows()
    ensures { SchemaRows }
{}

/// What is a rate, and where one stands.
pub fn rate_rows()
    ensures { RateRows }
{}

/// Members of the initial state.
pub fn initial_rows()
    ensures { InitialRows }
{}
