//! What is answered on a plan that is none.

ghost use Rattle.std.specs.Prelude.{◌≡◌};
ghost use Rattle.plus_numeric.specs.Verdicts.{kind_status};

use plus_report::Status;

/// What kind of refusal it is.
#[derive(Clone, Copy, PartialEq, Eq)]
pub enum Kind {
    /// The plan breaks a rule.
    Invalid,
    /// A limit of the program is reached before the plan can be judged.
    Beyond,
    /// A text goes beyond the language of plans without time, or a line is none of a plan.
    BadText,
}

impl Kind {
    /// The status of a run that ends so.
    pub fn status(self) -> Status
        ensures { result ≡ kind_status self }
    {
        match self {
            Kind::Invalid => Status::Invalid,
            Kind::Beyond => Status::Beyond,
            Kind::BadText => Status::BadText,
        }
    }
}

/// A plan that is refused, and the line that says why.
#[derive(Drop)]
pub struct Refused {
    pub kind: Kind,
    pub line: Vec<u8>,
}

/// Why no plan is told.
#[derive(Drop)]
pub enum Stop {
    /// The pair or the plan is refused.
    Refused(Refused),
    /// The shelf failed.
    ReadFault,
    /// Memory is wanting.
    NoMemory,
}
