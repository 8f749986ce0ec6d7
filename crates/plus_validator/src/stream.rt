//! Plays the plan text under a name of a shelf, and the plan text that stands in memory.
ghost use Rattle.std.specs.Prelude.{◌≡◌, ◌≤◌, ◌+◌, [], IfErr, IfSome};
ghost use Rattle.plus_io.specs.Faults.{Rose};
ghost use Rattle.plus_io.specs.Files.{KeepsFiles};
ghost use Rattle.plus_io.specs.Limits.{text_limit};
ghost use Rattle.plus_io.specs.Picks.{ReadsOnce};
ghost use Rattle.plus_expansion.specs.Counting.{IsGroundable};
ghost use Rattle.plus_number.specs.Frac.{fraction_of, IsFrac64};
ghost use Rattle.plus_plan.specs.Pieces.{fresh};
ghost use Rattle.plus_plan.specs.declared.forms.PlanForm.TheVariants.{Timed};
ghost use Rattle.plus_state.specs.View.{problem_of, labels_of};
ghost use Rattle.plus_validator.specs.Account.{progress};
ghost use Rattle.plus_validator.specs.Plans.{pair_in};
ghost use Rattle.plus_validator.specs.Halts.{HaltFits};
ghost use Rattle.plus_validator.specs.Playing.{IsGroundOf};
ghost use Rattle.plus_validator.specs.PlayRules.{IsFresh};
ghost use Rattle.plus_validator.specs.Told.{reports, report_told};
ghost use Rattle.plus_validator.specs.Leaving.{StopsReading, BreaksOffSoFar, KeepsUp};
ghost use Rattle.plus_validator.specs.Streaming.{IsPlayedFrom, IsPlayedThrough, ended, OnPlayed, OnReadFault, OnWriteFault, UnlessReadFault};

use crate::halt::Halt;
use crate::memory::Report;
use crate::playing::Playing;
use crate::teller::Teller;
use plus_io::{QuietSink, Shelf, Sink};
use plus_plan::PlanReader;
use plus_play::{Pause, play_bytes, play_file};
use std::alloc::Global;

/// How the playing of a file ends.
#[derive(Drop)]
pub enum Ending {
    /// The text is played to its end, or the run halts in it.
    Played(Result<(), Halt>),
    /// The shelf failed.
    ReadFault,
    /// The sink failed.
    WriteFault,
}

// How the playing of a file ends whose text is played so.
fn ended(played: Result<(), Pause<Halt>>) -> Ending
    ensures { result ≡ ended played }
{
    match played {
        Ok(()) => Ending::Played(Ok(())),
        Err(Pause::Halt(Halt::Refused(verdict))) => Ending::Played(Err(Halt::Refused(verdict))),
        Err(Pause::Halt(Halt::Memory)) => Ending::Played(Err(Halt::Memory)),
        Err(Pause::Halt(Halt::WriteFault)) => Ending::WriteFault,
        Err(Pause::Failed) => Ending::ReadFault,
    }
}

/// Reads the plan text under a name, and plays it as it comes. What a piece tells is handed on before the
/// next is read, unless the run halts in it.
pub fn play_plan<S: Shelf, O: Sink>(
    playing: &mut Playing<'_, '_, Report>,
    reader: &mut PlanReader,
    alloc: Global,
    shelf: &mut S,
    plan: &str,
    out: &mut O,
    happenings: u64,
) -> Ending
    requires expands { IsGroundOf playing.old.instances.numbering.now.typed.now.domain playing.old.instances.numbering.now.typed.now.problem playing.old.ground.now }
    requires groundable { IsGroundable IsFrac64 playing.old.instances.numbering.now.typed.now.domain playing.old.instances.numbering.now.typed.now.problem }
    requires fresh { IsFresh report_told reports happenings playing.old }
    requires reader { reader.old ≡ fresh Timed }
    ensures plays { OnPlayed result (IsPlayedFrom playing.old.instances.numbering.now.typed.now.domain playing.old.instances.numbering.now.typed.now.problem
        (labels_of playing.old.ground.now) (problem_of fraction_of playing.old.ground.now) (S.bytes shelf.old plan.now) (progress report_told [] playing.old.run) playing.new.run
        (O.taken out.old) (O.taken out.new)) }
    ensures fits { OnPlayed result (λ played. IfErr played (HaltFits (problem_of fraction_of playing.old.ground.now))) }
    ensures read_fault { OnReadFault result (Rose (S.faults shelf.old) (S.faults shelf.new)
        × StopsReading playing.old.instances.numbering.now.typed.now.domain playing.old.instances.numbering.now.typed.now.problem happenings
        (S.bytes shelf.old plan.now) (S.picked shelf.new) (S.rest shelf.new) (O.taken out.old) (O.taken out.new)) }
    ensures write_fault { OnWriteFault result (Rose (O.faults out.old) (O.faults out.new) × IfSome (S.bytes shelf.old plan.now) (λ text.
        BreaksOffSoFar playing.old.instances.numbering.now.typed.now.domain playing.old.instances.numbering.now.typed.now.problem happenings
        text (O.taken out.old) (O.taken out.new))) }
    // What a piece tells is out before the next is read.
    ensures keeps_up { UnlessReadFault result (KeepsUp playing.old.instances.numbering.now.typed.now.domain playing.old.instances.numbering.now.typed.now.problem
        happenings (S.bytes shelf.old plan.now) (S.rest shelf.new) (O.taken out.old) (O.taken out.new)) }
    ensures reads { ReadsOnce S.bytes S.picked S.rest S.picks (text_limit + 1) plan.now shelf.old shelf.new }
    ensures keeps { KeepsFiles S.names S.bytes S.faults shelf.old shelf.new }
    ensures no_fall { O.faults out.old ≤ O.faults out.new }
{
    ended(play_file(playing, reader, alloc, shelf, plan, out))
}

/// Plays the plan text that stands in these bytes. What is told is let go as it comes to be much.
pub fn play_text<T: Teller>(
    playing: &mut Playing<'_, '_, T>,
    reader: &mut PlanReader,
    alloc: Global,
    bytes: &[u8],
    happenings: u64,
) -> Result<(), Halt>
    requires expands { IsGroundOf playing.old.instances.numbering.now.typed.now.domain playing.old.instances.numbering.now.typed.now.problem playing.old.ground.now }
    requires fresh { IsFresh T.told T.telling happenings playing.old }
    requires reader { reader.old ≡ fresh Timed }
    ensures played { IsPlayedThrough (pair_in playing.old.instances.numbering.now.typed.now) (problem_of fraction_of playing.old.ground.now)
        (T.telling (labels_of playing.old.ground.now) (problem_of fraction_of playing.old.ground.now)) T.told
        bytes.now (progress T.told [] playing.old.run) playing.new.run result }
    ensures fits { IfErr result (HaltFits (problem_of fraction_of playing.old.ground.now)) }
    ensures keeps { T.kept playing.new.run.teller ≡ T.kept playing.old.run.teller }
{
    let mut quiet = QuietSink::new();
    play_bytes(playing, reader, alloc, bytes, &mut quiet)
}
