//! The grammar as a table of words, for what is wanted at a place.
//!
//! A part of a text has ways, between bars: the token that it begins with, and the parts behind that. A word in capital
//! letters stands for a kind of token, a word with one capital letter for a part of the table, and any other for itself.

/// A part of a text, and its ways.
pub struct Rule {
    pub part: &'static str,
    pub ways: &'static str,
}

/// A text that is read, and the parts that it begins with.
#[derive(Clone, Copy, PartialEq, Eq)]
pub enum Whole {
    Domain,
    Problem,
    TimedLine,
    UntimedLine,
}

impl Whole {
    /// Its parts.
    pub fn parts(self) -> &'static str {
        match self {
            Whole::Domain => "( define ( domain NAME ) Sections",
            Whole::Problem => "( define ( problem NAME ) Parts",
            Whole::TimedLine => "Time",
            Whole::UntimedLine => "( NAME Arguments",
        }
    }
}

/// The words that begin a form of their own, so that no predicate and no function has such a name.
pub static RESERVED: [&str; 12] = [
    "and",
    "or",
    "not",
    "imply",
    "forall",
    "exists",
    "when",
    "assign",
    "increase",
    "decrease",
    "scale-up",
    "scale-down",
];

/// The parts of a problem that must stand.
pub static NEEDED: [&str; 3] = [":domain", ":init", ":goal"];

/// The keys of an action, a process or an event.
pub static KEYS: [&str; 3] = [":parameters", ":precondition", ":effect"];

/// What may stand as often as it will.
pub static SCHEMAS: [&str; 3] = [":action", ":process", ":event"];

/// The table. A condition, an effect and an expression stand in it from their parenthesis on, and from behind it.
pub static RULES: [Rule; 41] = [
    Rule {
        part: "Sections",
        ways: ")|( Section Sections",
    },
    Rule {
        part: "Section",
        ways: ":requirements Keywords|:types Names|:constants Names|:predicates Heads|:functions Functions|:action NAME Keys|:process NAME Keys|:event NAME Keys",
    },
    Rule {
        part: "Keywords",
        ways: ")|KEYWORD Keywords",
    },
    Rule {
        part: "Names",
        ways: ")|NAME Named",
    },
    Rule {
        part: "Named",
        ways: ")|NAME Named|- NAME Names",
    },
    Rule {
        part: "Variables",
        ways: "( Listed",
    },
    Rule {
        part: "Listed",
        ways: ")|VARIABLE Listing",
    },
    Rule {
        part: "Listing",
        ways: ")|VARIABLE Listing|- NAME Listed",
    },
    Rule {
        part: "Heads",
        ways: ")|( PLAIN Listed Heads",
    },
    Rule {
        part: "Functions",
        ways: ")|( PLAIN Listed Functioning",
    },
    Rule {
        part: "Functioning",
        ways: ")|( PLAIN Listed Functioning|- number Functions",
    },
    Rule {
        part: "Keys",
        ways: ")|:parameters Variables Keys|:precondition Condition Keys|:effect Effect Keys",
    },
    Rule {
        part: "Condition",
        ways: "( Asked",
    },
    Rule {
        part: "Asked",
        ways: ")|and Conditions|or Conditions|not Condition )|imply Condition Condition )|forall Variables Condition )|exists Variables Condition )|= Compared|< Expression Expression )|<= Expression Expression )|>= Expression Expression )|> Expression Expression )|PLAIN Terms",
    },
    Rule {
        part: "Conditions",
        ways: ")|( Asked Conditions",
    },
    Rule {
        part: "Compared",
        ways: "NAME Term )|VARIABLE Term )|NUMBER Expression )|#t Expression )|( Worked Expression )",
    },
    Rule {
        part: "Term",
        ways: "NAME|VARIABLE",
    },
    Rule {
        part: "Terms",
        ways: ")|NAME Terms|VARIABLE Terms",
    },
    Rule {
        part: "Expression",
        ways: "NUMBER|#t|( Worked",
    },
    Rule {
        part: "Worked",
        ways: "+ Expression Expression Expressions|* Expression Expression Expressions|- Expression Minus|/ Expression Expression )|PLAIN Terms",
    },
    Rule {
        part: "Expressions",
        ways: ")|NUMBER Expressions|#t Expressions|( Worked Expressions",
    },
    Rule {
        part: "Minus",
        ways: ")|NUMBER )|#t )|( Worked )",
    },
    Rule {
        part: "Effect",
        ways: "( Done",
    },
    Rule {
        part: "Done",
        ways: ")|and Effects|forall Variables Effect )|when Condition Writes )|not Use )|assign Use Expression )|increase Use Expression )|decrease Use Expression )|scale-up Use Expression )|scale-down Use Expression )|PLAIN Terms",
    },
    Rule {
        part: "Effects",
        ways: ")|( Done Effects",
    },
    Rule {
        part: "Writes",
        ways: "( Written",
    },
    Rule {
        part: "Written",
        ways: ")|and Writing|not Use )|assign Use Expression )|increase Use Expression )|decrease Use Expression )|scale-up Use Expression )|scale-down Use Expression )|PLAIN Terms",
    },
    Rule {
        part: "Writing",
        ways: ")|( Write Writing",
    },
    Rule {
        part: "Write",
        ways: "not Use )|assign Use Expression )|increase Use Expression )|decrease Use Expression )|scale-up Use Expression )|scale-down Use Expression )|PLAIN Terms",
    },
    Rule {
        part: "Use",
        ways: "( PLAIN Terms",
    },
    Rule {
        part: "Parts",
        ways: ")|( Part Parts",
    },
    Rule {
        part: "Part",
        ways: ":domain NAME )|:requirements Keywords|:objects Names|:init Initials|:goal Condition )|:metric Balanced",
    },
    Rule {
        part: "Initials",
        ways: ")|( Initial Initials",
    },
    Rule {
        part: "Initial",
        ways: "not Holder )|= Holder NUMBER )|at Timed|PLAIN Arguments",
    },
    Rule {
        part: "Holder",
        ways: "( PLAIN Arguments",
    },
    Rule {
        part: "Timed",
        ways: ")|NUMBER Literal )|NAME Arguments",
    },
    Rule {
        part: "Literal",
        ways: "( Later",
    },
    Rule {
        part: "Later",
        ways: "not Use )|PLAIN Terms",
    },
    Rule {
        part: "Arguments",
        ways: ")|NAME Arguments",
    },
    Rule {
        part: "Balanced",
        ways: ")|( Balanced Balanced|ANY Balanced",
    },
    Rule {
        part: "Time",
        ways: "NUMBER Colon",
    },
];

/// The rest of the table: the lines of a plan.
pub static LINE_RULES: [Rule; 3] = [
    Rule {
        part: "Colon",
        ways: ": Act|/ NUMBER : Act",
    },
    Rule {
        part: "Act",
        ways: "( NAME Arguments Square|@end",
    },
    Rule {
        part: "Square",
        ways: "[ NUMBER ]",
    },
];

/// The ways of a part; a word that stands for a token has itself for its only way.
pub fn ways_of(part: &'static str) -> &'static str {
    for rule in &RULES {
        if rule.part == part {
            return rule.ways;
        }
    }
    for rule in &LINE_RULES {
        if rule.part == part {
            return rule.ways;
        }
    }
    part
}
