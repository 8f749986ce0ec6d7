//! One who tells what happens while a plan is played.
ghost use Rattle.std.specs.Prelude.{◌≡◌, ◌≤◌, ℕ, List, [], ◌∷◌, OnOk, OnErr};
ghost use Rattle.plus_io.specs.Faults.{Rose};
ghost use Rattle.plus_io.specs.Files.{IsPrefix};
ghost use Rattle.plus_number.specs.Frac.{fraction_of};
ghost use Rattle.plus_model.specs.Terms.{Action, Problem};
ghost use Rattle.plus_model.specs.Plan.{Plan};
ghost use Rattle.plus_model.specs.Trajectory.{first_part};
ghost use Rattle.plus_state.specs.View.{Labels, problem_of, labels_of};
ghost use Rattle.plus_timeline.specs.Timeline.{TimelineView};
ghost use Rattle.plus_timeline.specs.Act.{DoesAct};
ghost use Rattle.plus_validator.specs.Handing.{StaysSo, IsAllOut, BreaksOff};
ghost use Rattle.plus_validator.specs.Standing.{CanShow, IsBegun, IsStep, TellsAct, TellsStep};
ghost use Rattle.plus_validator.specs.Told.{Telling};

use plus_indexed::Indexed;
use plus_io::{Failed, Sink};
use plus_number::frac::Frac64;
use plus_state::Label;
use plus_state::problem::Ground;
use plus_timeline::Next;
use std::alloc::AllocError;

/// One who tells what happens while a plan is played, part by part.
pub trait Teller: Drop {
    // what is told
    ghost Told: { Type 0 };
    // what one tells who has handed on these bytes of it
    ghost told: { List ℕ → Self → Told };
    // how the histories of plans over a problem are told
    ghost telling: { Labels → (P : Problem) → Telling P Told };
    // what one keeps all the while: what one tells by
    ghost Kept: { Type 0 };

    ghost kept: { Self → Kept };
    // nothing is told yet
    ghost IsNew: { Self → Type 0 };

    /// Tells the first entry.
    fn begin(
        &mut self,
        ground: &Ground<Frac64>,
        timeline: &Indexed<Frac64>,
    ) -> Result<(), AllocError>
        requires new { IsNew self.old }
        requires can { CanShow (problem_of fraction_of ground.now) timeline.now.line }
        requires begun { IsBegun (problem_of fraction_of ground.now) timeline.now.line }
        ensures keeps { kept self.new ≡ kept self.old }
        ensures tells { OnOk result ((L : Plan) → (telling (labels_of ground.now) (problem_of fraction_of ground.now)).Tells L
            (first_part (problem_of fraction_of ground.now) ∷ []) (told [] self.new)) };

    /// Tells what the timeline did: it took this step.
    fn step(
        &mut self,
        ground: &Ground<Frac64>,
        timeline: &Indexed<Frac64>,
        next: Next<Frac64>,
    ) -> Result<(), AllocError>
        requires can { CanShow (problem_of fraction_of ground.now) timeline.now.line }
        requires step { IsStep (problem_of fraction_of ground.now) timeline.now.line next }
        ensures keeps { kept self.new ≡ kept self.old }
        ensures tells { (sent : List ℕ) → OnOk result (TellsStep (problem_of fraction_of ground.now) (telling (labels_of ground.now) (problem_of fraction_of ground.now))
            timeline.now.line next (told sent self.old) (told sent self.new)) };

    /// Tells an action that was done.
    fn act(
        &mut self,
        ground: &Ground<Frac64>,
        timeline: &Indexed<Frac64>,
        label: &Label,
    ) -> Result<(), AllocError>
        requires can { CanShow (problem_of fraction_of ground.now) timeline.now.line }
        ensures keeps { kept self.new ≡ kept self.old }
        ensures tells { (sent : List ℕ) (action : Action) (old : TimelineView) → action.label ≡ label.now
            → DoesAct (problem_of fraction_of ground.now) action old timeline.now.line
            → OnOk result (TellsAct (problem_of fraction_of ground.now) (telling (labels_of ground.now) (problem_of fraction_of ground.now))
            action old timeline.now.line (told sent self.old) (told sent self.new)) };

    /// Whether much waits to be handed on.
    fn has_much(&self) -> bool;

    /// Hands on all that waits.
    fn hand_on<O: Sink>(&mut self, out: &mut O) -> Result<(), Failed>
        ensures keeps { kept self.new ≡ kept self.old }
        ensures stays { OnOk result (StaysSo told self.old self.new (O.taken out.old) (O.taken out.new)) }
        ensures all { OnOk result (IsAllOut told telling self.new) }
        ensures breaks { OnErr result (BreaksOff told telling self.old self.new (O.taken out.old) (O.taken out.new)) }
        ensures cause { OnErr result (Rose (O.faults out.old) (O.faults out.new)) }
        ensures no_fall { O.faults out.old ≤ O.faults out.new };

    // what was handed on begins what is told
    ghost behind: { (N : Labels) → (P : Problem) → (sent : List ℕ) → (s : Self) → IsPrefix sent ((telling N P).bytes (told sent s)) };
}
