ghost use Rattle.std.specs.Prelude.{◌≡◌, ◌≤◌, ◌<◌, ℕ, suc, length, Ok, IfOk, IfErr, OnErr};
ghost use Rattle.lrc_visit_meaning.specs.Values.{Call};
ghost use Rattle.lrc_store.specs.Words.{Gains, LacksOne};
ghost use Rattle.lrc_machine.specs.Counts.{IsCellOf, Ticks};
ghost use Rattle.lrc_machine.specs.Machine.{IsInner, HasLevels, AtTurn, Turns};
ghost use Rattle.lrc_machine.specs.Levels.{slots_of};
ghost use Rattle.lrc_machine.specs.declared.turns.Step.TheVariants as step;
ghost use Rattle.lrc_machine.specs.Measure.{measure};

use crate::bodies::{Bodies, Moved, Opened};
use lrc_store::{Full, Handle, Store};

/// By level, the frame of a body, and where it waits.
#[derive(Debug, Drop)]
pub struct Levels<F, M> {
    pub frames: Vec<F>,
    pub marks: Vec<M>,
}

/// What is to be done at a level.
#[derive(Debug, Clone, Copy)]
pub enum Step<M> {
    /// A call is to be opened, with fuel for the level.
    Open(Handle),
    /// The result of the level's call is there.
    Answer(Handle),
    /// The body of the level goes on at the mark.
    Go(M),
}

/// A turn of the machine.
#[derive(Debug, Clone, Copy)]
pub struct Turn<M> {
    pub level: u32,
    pub step: Step<M>,
}

/// Why a call has no answer.
#[derive(Debug, Clone, Copy, PartialEq, Eq)]
pub enum Stop {
    /// All rows are used.
    Full,
    /// It has no result with this fuel.
    Deep,
}

/// Opens a call at a level.
fn opened<St: Store, B: Bodies<St>>(
    bodies: &B,
    store: &mut St,
    levels: &mut Levels<B::Frame, B::Mark>,
    level: u32,
    inner: Handle,
) -> Result<Turn<B::Mark>, Stop>
    requires meaning { B.means bodies.now (St.meaning store.old) }
    requires turn { (fuel : ℕ) × (root : Call) × AtTurn (B.form bodies.now) (B.asks bodies.now) (B.gives bodies.now) (B.runs bodies.now) (B.waits bodies.now) (B.fits bodies.now) (St.state store.old) (slots_of levels.old) fuel root level (step.Open inner) }
    ensures turns { (fuel : ℕ) (root : Call) → AtTurn (B.form bodies.now) (B.asks bodies.now) (B.gives bodies.now) (B.runs bodies.now) (B.waits bodies.now) (B.fits bodies.now) (St.state store.old) (slots_of levels.old) fuel root level (step.Open inner) → Turns (AtTurn (B.form bodies.now) (B.asks bodies.now) (B.gives bodies.now) (B.runs bodies.now) (B.waits bodies.now) (B.fits bodies.now) (St.state store.new) (slots_of levels.new) fuel root) (Ticks (IsCellOf (B.form bodies.now) (B.calls bodies.now fuel root)) fuel (St.state store.old) (St.state store.new) level) (HasLevels (B.fits bodies.now) (slots_of levels.new) fuel) (B.whole bodies.now) (St.state store.old) (St.state store.new) (B.meets bodies.now fuel root) (B.lacks bodies.now fuel root) result }
    ensures falls { IfOk result (λ turn. measure (B.left bodies.now) (B.most bodies.now) levels.new.marks.items turn.level turn.step < measure (B.left bodies.now) (B.most bodies.now) levels.old.marks.items level (step.Open inner)) }
    ensures same_meaning { St.meaning store.new ≡ St.meaning store.old }
{
    if level == 0 {
        return Err(Stop::Deep);
    }
    let below = level - 1;
    match bodies.open(store, &mut levels.frames[below as usize], below, inner) {
        Opened::Hit(given) => Ok(Turn {
            level,
            step: Step::Answer(given),
        }),
        Opened::Begun(mark) => Ok(Turn {
            level: below,
            step: Step::Go(mark),
        }),
        Opened::Deep => Err(Stop::Deep),
    }
}

/// Goes on with the body of a level.
fn advanced<St: Store, B: Bodies<St>>(
    bodies: &B,
    store: &mut St,
    levels: &mut Levels<B::Frame, B::Mark>,
    level: u32,
    mark: B::Mark,
) -> Result<Turn<B::Mark>, Stop>
    requires meaning { B.means bodies.now (St.meaning store.old) }
    requires turn { (fuel : ℕ) × (root : Call) × AtTurn (B.form bodies.now) (B.asks bodies.now) (B.gives bodies.now) (B.runs bodies.now) (B.waits bodies.now) (B.fits bodies.now) (St.state store.old) (slots_of levels.old) fuel root level (step.Go mark) }
    ensures turns { (fuel : ℕ) (root : Call) → AtTurn (B.form bodies.now) (B.asks bodies.now) (B.gives bodies.now) (B.runs bodies.now) (B.waits bodies.now) (B.fits bodies.now) (St.state store.old) (slots_of levels.old) fuel root level (step.Go mark) → Turns (AtTurn (B.form bodies.now) (B.asks bodies.now) (B.gives bodies.now) (B.runs bodies.now) (B.waits bodies.now) (B.fits bodies.now) (St.state store.new) (slots_of levels.new) fuel root) (Ticks (IsCellOf (B.form bodies.now) (B.calls bodies.now fuel root)) fuel (St.state store.old) (St.state store.new) level) (HasLevels (B.fits bodies.now) (slots_of levels.new) fuel) (B.whole bodies.now) (St.state store.old) (St.state store.new) (B.meets bodies.now fuel root) (B.lacks bodies.now fuel root) result }
    ensures falls { IfOk result (λ turn. measure (B.left bodies.now) (B.most bodies.now) levels.new.marks.items turn.level turn.step < measure (B.left bodies.now) (B.most bodies.now) levels.old.marks.items level (step.Go mark)) }
    ensures same_meaning { St.meaning store.new ≡ St.meaning store.old }
{
    let frame = &mut levels.frames[level as usize];
    let moved = match bodies.advance(store, frame, level, mark) {
        Ok(moved) => moved,
        Err(Full) => return Err(Stop::Full),
    };
    match moved {
        Moved::Went(next) => Ok(Turn {
            level,
            step: Step::Go(next),
        }),
        Moved::Asked(waiting, inner) => {
            levels.marks[level as usize] = waiting;
            Ok(Turn {
                level,
                step: Step::Open(inner),
            })
        }
        Moved::Ended(given) => Ok(Turn {
            level: level + 1,
            step: Step::Answer(given),
        }),
        Moved::Deep => Err(Stop::Deep),
    }
}

/// Takes the result for which the body of a level waits.
fn resumed<St: Store, B: Bodies<St>>(
    bodies: &B,
    store: &mut St,
    levels: &mut Levels<B::Frame, B::Mark>,
    level: u32,
    given: Handle,
) -> Turn<B::Mark>
    requires meaning { B.means bodies.now (St.meaning store.old) }
    requires turn { (fuel : ℕ) × (root : Call) × (level < fuel) × AtTurn (B.form bodies.now) (B.asks bodies.now) (B.gives bodies.now) (B.runs bodies.now) (B.waits bodies.now) (B.fits bodies.now) (St.state store.old) (slots_of levels.old) fuel root level (step.Answer given) }
    ensures turns { (fuel : ℕ) (root : Call) → level < fuel → AtTurn (B.form bodies.now) (B.asks bodies.now) (B.gives bodies.now) (B.runs bodies.now) (B.waits bodies.now) (B.fits bodies.now) (St.state store.old) (slots_of levels.old) fuel root level (step.Answer given) → Turns (AtTurn (B.form bodies.now) (B.asks bodies.now) (B.gives bodies.now) (B.runs bodies.now) (B.waits bodies.now) (B.fits bodies.now) (St.state store.new) (slots_of levels.new) fuel root) (Ticks (IsCellOf (B.form bodies.now) (B.calls bodies.now fuel root)) fuel (St.state store.old) (St.state store.new) level) (HasLevels (B.fits bodies.now) (slots_of levels.new) fuel) (B.whole bodies.now) (St.state store.old) (St.state store.new) (B.meets bodies.now fuel root) (B.lacks bodies.now fuel root) (Ok result) }
    ensures falls { measure (B.left bodies.now) (B.most bodies.now) levels.new.marks.items result.level result.step < measure (B.left bodies.now) (B.most bodies.now) levels.old.marks.items level (step.Answer given) }
    ensures same_meaning { St.meaning store.new ≡ St.meaning store.old }
{
    let mark = levels.marks[level as usize];
    let frame = &mut levels.frames[level as usize];
    let next = bodies.resume(store, frame, level, mark, given);
    Turn {
        level,
        step: Step::Go(next),
    }
}

/// The turn behind one that is not the end.
pub(crate) fn next<St: Store, B: Bodies<St>>(
    bodies: &B,
    store: &mut St,
    levels: &mut Levels<B::Frame, B::Mark>,
    turn: Turn<B::Mark>,
) -> Result<Turn<B::Mark>, Stop>
    requires meaning { B.means bodies.now (St.meaning store.old) }
    requires turn { (fuel : ℕ) × (root : Call) × IsInner fuel turn.level turn.step × AtTurn (B.form bodies.now) (B.asks bodies.now) (B.gives bodies.now) (B.runs bodies.now) (B.waits bodies.now) (B.fits bodies.now) (St.state store.old) (slots_of levels.old) fuel root turn.level turn.step }
    ensures turns { (fuel : ℕ) (root : Call) → IsInner fuel turn.level turn.step → AtTurn (B.form bodies.now) (B.asks bodies.now) (B.gives bodies.now) (B.runs bodies.now) (B.waits bodies.now) (B.fits bodies.now) (St.state store.old) (slots_of levels.old) fuel root turn.level turn.step → Turns (AtTurn (B.form bodies.now) (B.asks bodies.now) (B.gives bodies.now) (B.runs bodies.now) (B.waits bodies.now) (B.fits bodies.now) (St.state store.new) (slots_of levels.new) fuel root) (Ticks (IsCellOf (B.form bodies.now) (B.calls bodies.now fuel root)) fuel (St.state store.old) (St.state store.new) turn.level) (HasLevels (B.fits bodies.now) (slots_of levels.new) fuel) (B.whole bodies.now) (St.state store.old) (St.state store.new) (B.meets bodies.now fuel root) (B.lacks bodies.now fuel root) result }
    ensures falls { IfOk result (λ next. measure (B.left bodies.now) (B.most bodies.now) levels.new.marks.items next.level next.step < measure (B.left bodies.now) (B.most bodies.now) levels.old.marks.items turn.level turn.step) }
    ensures same_meaning { St.meaning store.new ≡ St.meaning store.old }
{
    match turn.step {
        Step::Open(inner) => opened(bodies, store, levels, turn.level, inner),
        Step::Answer(given) => Ok(resumed(bodies, store, levels, turn.level, given)),
        Step::Go(mark) => advanced(bodies, store, levels, turn.level, mark),
    }
}
