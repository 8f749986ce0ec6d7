//! Why a run halts before the end of its plan.
ghost use Rattle.std.specs.Prelude.{◌≡◌, ◌≢◌};
ghost use Rattle.plus_validator.specs.declared.halt.Halt.TheVariants as halts;
ghost use Rattle.plus_model.specs.Terms.{Problem};
ghost use Rattle.plus_validator.specs.Halts.{stop_halt, line_halt, HaltFits};

use plus_io::Failed;
use plus_number::frac::Frac64;
use plus_plan::PlanFault;
use plus_report::{Early, Verdict};
use plus_timeline::Stop;
use std::alloc::AllocError;

/// Why a run halts before the end of its plan.
#[derive(Drop)]
pub enum Halt {
    /// The plan is refused with this verdict.
    Refused(Verdict<Frac64>),
    /// Memory is wanting.
    Memory,
    /// The sink failed.
    WriteFault,
}

impl From<Failed> for Halt {
    ghost from_gives = { λ _ halt. halt ≡ halts.Memory };

    fn from(_: Failed) -> Halt {
        Halt::Memory
    }
}

impl From<AllocError> for Halt {
    ghost from_gives = { λ _ halt. halt ≡ halts.Memory };

    fn from(_: AllocError) -> Halt {
        Halt::Memory
    }
}

/// Why a run halts where a call of its timeline, which was going, is refused.
pub fn halted(stop: Stop<Frac64>) -> Halt
    requires { stop ≢ Stop.Ended }
    ensures { result ≡ stop_halt stop }
{
    match stop {
        Stop::Breach(breach) => Halt::Refused(Verdict::Invalid(breach)),
        Stop::Limit(limit) => Halt::Refused(Verdict::Beyond(limit)),
        Stop::Ended => unreachable!(),
        Stop::Memory => Halt::Memory,
    }
}

/// Why a run halts at a line that is none.
pub fn fault_halt(fault: PlanFault) -> Halt
    ensures says { result ≡ line_halt fault }
    ensures fits { (P : Problem) → HaltFits P result }
{
    match fault {
        PlanFault::NotLine { line, start, end } => Halt::Refused(Verdict::Other(Early::BadLine {
            line,
            start,
            end,
        })),
        PlanFault::LineTooLong { line } => Halt::Refused(Verdict::Other(Early::LineTooLong {
            line,
        })),
        PlanFault::Memory => Halt::Memory,
    }
}
