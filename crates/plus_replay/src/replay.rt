//! A plan that is played again, up to where it is refused.

ghost use Rattle.std.specs.Prelude.{◌≡◌, None, false, IfOk};
ghost use Rattle.std.specs.Bool.{OnTrue};
ghost use Rattle.plus_number.specs.Frac.{fraction_of};
ghost use Rattle.plus_state.specs.View.{problem_of, action_of};
ghost use Rattle.plus_state.specs.Fits.{ActionFits};
ghost use Rattle.plus_model.specs.Trajectory.{is_below};
ghost use Rattle.plus_timeline.specs.Advance.{IsAhead};
ghost use Rattle.plus_timeline.specs.Finish.{IsPaused};
ghost use Rattle.plus_replay.specs.Replay.{Rests, Stands, IsGroundOf};
ghost use Rattle.plus_replay.specs.ReplayRules.{replay_rules};

use crate::call::append_wrong;
use crate::unmet::append_failing;
use plus_ground::{InstanceFault, ground};
use plus_indexed::Indexed;
use plus_instances::Instances;
use plus_io::MOST_HAPPENINGS;
use plus_number::exact::Exact;
use plus_number::frac::Frac64;
use plus_numbering::Numbering;
use plus_plan::{Line, PlanFault, PlanForm, PlanReader, Time, time_value};
use plus_play::{Plays, play_bytes};
use plus_state::{Action, Ground, State};
use plus_timeline::Next;
use plus_tree::Call;
use plus_types::Typed;
use std::alloc::{AllocError, Global};
use std::cmp::Ordering;

fn is_earlier(time: Frac64, other: Frac64) -> bool
    ensures { result ≡ is_below (fraction_of time) (fraction_of other) }
{
    match time.order(other) {
        Ordering::Less => true,
        Ordering::Equal => false,
        Ordering::Greater => false,
    }
}

// The time of a line, where it has one.
fn moment(time: &Time) -> Option<Frac64> {
    if time.bottom == 0 {
        return None;
    }
    time_value(time).ok()
}

// Whether a timeline may be asked to go on to a time.
#[tactic(auto, using(crate::proofs::Playing::playing))]
fn may_advance(timeline: &Indexed<Frac64>, until: Frac64, is_running: bool) -> bool
    requires { is_running ≡ false → timeline.now.line.now.running ≡ None }
    ensures { OnTrue result (IsAhead timeline.now.line.now.running timeline.now.line.now.time (fraction_of until)) }
{
    is_earlier(timeline.time(), until) || !(is_running || is_earlier(until, timeline.time()))
}

// Goes on to a time, until nothing is due there, and answers whether it came so far.
#[tactic(auto, using(crate::proofs::Playing::playing))]
fn reach(timeline: &mut Indexed<Frac64>, ground: &Ground<Frac64>, until: Frac64) -> bool
    requires { Rests (problem_of fraction_of ground.now) timeline.old }
    ensures rests { OnTrue result (Rests (problem_of fraction_of ground.now) timeline.new) }
    ensures paused { OnTrue result (IsPaused timeline.new.line) }
{
    let mut is_running = false;
    'steps: for _step in 0..u64::MAX {
        if !may_advance(timeline, until, is_running) {
            return false;
        }
        match timeline.advance(ground, until) {
            Ok(Next::There) => return true,
            Ok(next) => is_running = matches!(next, Next::Run),
            Err(_) => return false,
        }
    }
    false
}

// Does an action, or appends the member of its condition that does not hold. Answers whether it is done.
#[tactic(auto, using(crate::proofs::Playing::playing))]
fn does(
    timeline: &mut Indexed<Frac64>,
    ground: &Ground<Frac64>,
    action: &Action<Frac64>,
    line: u32,
    into: &mut Vec<u8>,
) -> Result<bool, AllocError>
    requires rests { Rests (problem_of fraction_of ground.now) timeline.old }
    requires paused { IsPaused timeline.old.line }
    requires fits { ActionFits (problem_of fraction_of ground.now).atoms (problem_of fraction_of ground.now).fluents
        (action_of fraction_of action.now) }
    ensures { IfOk result (λ b. OnTrue b (Rests (problem_of fraction_of ground.now) timeline.new)) }
{
    match timeline.act(ground, action, line) {
        Ok(()) => Ok(true),
        Err(_) => {
            append_failing(into, &action.condition, timeline.state(), ground)?;
            Ok(false)
        }
    }
}

// A plan that is played again.
#[derive(Drop)]
struct Replay<'a> {
    timeline: Indexed<Frac64>,
    instances: Instances<'a>,
}

impl<'a> Replay<'a> {
    // The plan of a pair, of which nothing is played yet.
    fn begin(
        alloc: Global,
        numbering: &'a Numbering<'a>,
        ground: &Ground<Frac64>,
    ) -> Result<Replay<'a>, AllocError>
        requires { IsGroundOf numbering.now.typed.now ground.now }
        ensures { IfOk result (Stands ground.now) }
    {
        Ok(Replay {
            timeline: Indexed::begin(alloc, ground, MOST_HAPPENINGS)?,
            instances: Instances::new(alloc, numbering),
        })
    }

    // Does the action that a line calls, or appends why it is not done. Answers whether it is done.
    fn act(
        &mut self,
        alloc: Global,
        ground: &Ground<Frac64>,
        line: u32,
        call: &Call,
        into: &mut Vec<u8>,
    ) -> Result<bool, AllocError>
        requires stands { Stands ground.now self.old }
        requires paused { IsPaused self.old.timeline.line }
        ensures { IfOk result (λ b. OnTrue b (Stands ground.now self.new)) }
    {
        let place = match self.instances.place(alloc, call) {
            Ok(place) => place,
            Err(InstanceFault::WrongArguments) => {
                append_wrong(into, self.instances.numbering, call)?;
                return Ok(false);
            }
            Err(_) => return Ok(false),
        };
        does(
            &mut self.timeline,
            ground,
            self.instances.at(place),
            line,
            into,
        )
    }

    // The time at which a line is due: its own, and the present one where it has none.
    fn due(&self, read: &Line) -> Option<Frac64> {
        match read {
            Line::Act { time, .. } | Line::End { time, .. } => moment(time),
            Line::Blank | Line::Step { .. } => Some(self.timeline.time()),
        }
    }

    // Plays a line, and answers whether it is done.
    fn line(
        &mut self,
        alloc: Global,
        ground: &Ground<Frac64>,
        read: &Line,
        into: &mut Vec<u8>,
    ) -> Result<bool, AllocError>
        requires { Stands ground.now self.old }
        ensures { IfOk result (λ b. OnTrue b (Stands ground.now self.new)) }
    {
        let Some(until) = self.due(read) else {
            return Ok(false);
        };
        if !reach(&mut self.timeline, ground, until) {
            return Ok(false);
        }
        match read {
            Line::Act { line, call, .. } => self.act(alloc, ground, *line, call, into),
            Line::Step { line, call } => self.act(alloc, ground, *line, call, into),
            Line::Blank | Line::End { .. } => Ok(true),
        }
    }

    // Plays on at the end of the text, and appends what of the goal is not met.
    fn close(&mut self, ground: &Ground<Frac64>, into: &mut Vec<u8>) -> Result<(), AllocError>
        requires { Stands ground.now self.old }
    {
        let now = self.timeline.time();
        let there = reach(&mut self.timeline, ground, now);
        if there {
            return self.ask(ground, into);
        }
        Ok(())
    }

    // Asks for the goal, and appends what of it is not met.
    fn ask(&mut self, ground: &Ground<Frac64>, into: &mut Vec<u8>) -> Result<(), AllocError>
        requires rests { Rests (problem_of fraction_of ground.now) self.old.timeline }
        requires paused { IsPaused self.old.timeline.line }
    {
        match self.timeline.finish(ground) {
            Ok(()) => Ok(()),
            Err(_) => append_failing(into, &ground.goal, self.timeline.state(), ground),
        }
    }
}

// Why a plan is played again no further.
#[derive(Drop)]
pub(crate) enum Halt {
    /// The plan is refused.
    Refused,
    /// Memory is wanting.
    Memory,
}

impl From<AllocError> for Halt {
    fn from(_: AllocError) -> Halt {
        Halt::Memory
    }
}

// A plan that is played again over a ground problem, as one who plays lines.
#[derive(Drop)]
pub(crate) struct Replaying<'n, 'g> {
    replay: Replay<'n>,
    pub(crate) ground: &'g Ground<Frac64>,
}

impl<'n, 'g> Replaying<'n, 'g> {
    // The plan of a pair over its ground form, of which nothing is played yet.
    pub(crate) fn begin(
        alloc: Global,
        numbering: &'n Numbering<'n>,
        ground: &'g Ground<Frac64>,
    ) -> Result<Replaying<'n, 'g>, AllocError>
        requires { IsGroundOf numbering.now.typed.now ground.now }
        ensures { IfOk result (λ r. Stands r.ground.now r.replay) }
    {
        let replay = Replay::begin(alloc, numbering, ground)?;
        Ok(Replaying { replay, ground })
    }

    // Plays the text of a plan, and appends why it is refused.
    pub(crate) fn text(
        &mut self,
        alloc: Global,
        plan: &[u8],
        form: PlanForm,
        into: &mut Vec<u8>,
    ) -> Result<(), AllocError>
        requires { Stands self.old.ground.now self.old.replay }
    {
        let mut reader = PlanReader::new(alloc, form)?;
        match play_bytes(self, &mut reader, alloc, plan, into) {
            Ok(()) | Err(Halt::Refused) => Ok(()),
            Err(Halt::Memory) => Err(AllocError),
        }
    }

    // The state that is come to.
    pub(crate) fn state(&self) -> &State<Frac64> {
        self.replay.timeline.state()
    }
}

impl Plays<Vec<u8>> for Replaying<'_, '_> {
    type Stop = Halt;

    ghost rules = { replay_rules };

    fn line(&mut self, alloc: Global, read: &mut Line, into: &mut Vec<u8>) -> Result<(), Halt> {
        let done = self.replay.line(alloc, self.ground, read, into)?;
        if done { Ok(()) } else { Err(Halt::Refused) }
    }

    fn end(&mut self, _alloc: Global, into: &mut Vec<u8>) -> Result<(), Halt> {
        self.replay.close(self.ground, into)?;
        Ok(())
    }

    fn hand_on(&mut self, _into: &mut Vec<u8>) -> Result<(), Halt> {
        Ok(())
    }

    fn no_line(&self, _fault: PlanFault, _into: &Vec<u8>) -> Halt {
        Halt::Refused
    }

    fn too_long(&self, _into: &Vec<u8>) -> Halt {
        Halt::Refused
    }
}

// Plays a plan of a pair again, over its ground form, and appends why it is refused.
fn play(
    alloc: Global,
    numbering: &Numbering<'_>,
    ground: &Ground<Frac64>,
    plan: &[u8],
    form: PlanForm,
    into: &mut Vec<u8>,
) -> Result<(), AllocError>
    requires { IsGroundOf numbering.now.typed.now ground.now }
{
    let mut replaying = Replaying::begin(alloc, numbering, ground)?;
    let played = replaying.text(alloc, plan, form, into);
    // By a call: what drops a plan that is played is long, and its proof stands once.
    drop(replaying);
    played
}

// Plays a plan of a pair again, and appends why it is refused.
fn play_numbered(
    alloc: Global,
    numbering: &Numbering<'_>,
    plan: &[u8],
    form: PlanForm,
    into: &mut Vec<u8>,
) -> Result<(), AllocError> {
    match ground::<Frac64>(alloc, numbering) {
        Ok(ground) => play(alloc, numbering, &ground, plan, form, into),
        Err(_) => Ok(()),
    }
}

/// Plays the plan of a pair again; a plan without times is one whose actions are all done at time 0. Where it is refused
/// for the condition of an action or for the goal, it appends the first member that does not hold; where for the
/// arguments of a call, what is wrong with them. It appends nothing where the plan is refused for another reason, or
/// not at all.
pub fn append_unmet(
    into: &mut Vec<u8>,
    alloc: Global,
    typed: &Typed,
    plan: &[u8],
    form: PlanForm,
) -> Result<(), AllocError> {
    match Numbering::new(alloc, typed) {
        Ok(numbering) => play_numbered(alloc, &numbering, plan, form, into),
        Err(_) => Ok(()),
    }
}
