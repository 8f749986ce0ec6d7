//! One who plays lines.
ghost use Rattle.std.specs.Prelude.{OnOk, IfErr, ◌∷◌, []};
ghost use Rattle.plus_plan.specs.Answers.{HasBottom};
ghost use Rattle.plus_play.specs.Rules.{Rules, TellsMore, Goes, Hands, Finishes, StopsAt, on_line, no_line, too_long, at_end, handing};

use plus_plan::{Line, PlanFault};
use std::alloc::Global;

/// One who plays the lines of a plan, one after the other, and tells what it plays.
pub trait Plays<O> {
    /// Why no more is played.
    type Stop;

    // what it says of the lines that it played
    ghost rules: { Rules Self O Self.Stop };

    /// Plays one line.
    fn line(&mut self, alloc: Global, read: &mut Line, out: &mut O) -> Result<(), Self::Stop>
        requires can { rules.Can self.old out.old }
        requires bottom { HasBottom read.old }
        ensures can { OnOk result (rules.Can self.new out.new) }
        ensures goes { OnOk result (Goes rules (read.old ∷ []) self.old out.old self.new out.new) }
        ensures stops { IfErr result (StopsAt rules (on_line read.old) self.old out.old self.new out.new) }
        ensures told { TellsMore rules out.old out.new };

    /// The lines have ended.
    fn end(&mut self, alloc: Global, out: &mut O) -> Result<(), Self::Stop>
        requires can { rules.Can self.old out.old }
        ensures ends { OnOk result (Finishes rules self.old out.old self.new out.new) }
        ensures stops { IfErr result (StopsAt rules at_end self.old out.old self.new out.new) }
        ensures told { TellsMore rules out.old out.new };

    /// Hands on what is told so far.
    fn hand_on(&mut self, out: &mut O) -> Result<(), Self::Stop>
        requires can { rules.Can self.old out.old }
        ensures can { OnOk result (rules.Can self.new out.new) }
        ensures hands { OnOk result (Hands rules self.old out.old self.new out.new) }
        ensures handed { OnOk result (rules.Handed self.new out.new) }
        ensures stops { IfErr result (StopsAt rules handing self.old out.old self.new out.new) }
        ensures told { TellsMore rules out.old out.new };

    /// Stops at what is no line.
    fn no_line(&self, fault: PlanFault, out: &O) -> Self::Stop
        requires can { rules.Can self.now out.now }
        ensures { StopsAt rules (no_line fault) self.now out.now self.now out.now result };

    /// Stops behind the limit of the text.
    fn too_long(&self, out: &O) -> Self::Stop
        requires can { rules.Can self.now out.now }
        ensures { StopsAt rules too_long self.now out.now self.now out.now result };
}
