//! How a run ends.

ghost use Rattle.std.specs.Prelude.{◌≡◌};
ghost use Rattle.std.specs.Process.{exit_status};
ghost use Rattle.plus_report.specs.Statuses.{exit_number};

use std::process::ExitCode;

/// How a run ends. The exit statuses are 0 to 7 in this order.
#[derive(Clone, Copy, Debug, PartialEq, Eq)]
pub enum Status {
    /// The plan is valid.
    Valid,
    /// The plan breaks a rule.
    Invalid,
    /// A limit of the program is reached before there is an answer.
    Beyond,
    /// A text or a plan line is none.
    BadText,
    /// The words are no command.
    Usage,
    /// A file cannot be read.
    ReadFault,
    /// The output cannot be written.
    WriteFault,
    /// Memory is wanting.
    NoMemory,
}

impl Status {
    /// The exit status of the process.
    pub fn exit_code(self) -> ExitCode
        ensures { exit_status result ≡ exit_number self }
    {
        ExitCode::from(match self {
            Status::Valid => 0,
            Status::Invalid => 1,
            Status::Beyond => 2,
            Status::BadText => 3,
            Status::Usage => 4,
            Status::ReadFault => 5,
            Status::WriteFault => 6,
            Status::NoMemory => 7,
        })
    }
}
