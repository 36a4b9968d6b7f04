ghost use Rattle.std.specs.Prelude.{◌≡◌, None, Err, IfOk};
ghost use Rattle.lrc_grammar.specs.Grammar.{grammar_of};
ghost use Rattle.lrc_visit_meaning.specs.Values.{Call};
ghost use Rattle.lrc_visit_meaning.specs.Visits.{plain_visit};
ghost use Rattle.lrc_visit_meaning.specs.Demand.{reach};
ghost use Rattle.lrc_store.specs.Words.{Gains, LacksOne};
ghost use Rattle.lrc_call_meaning.specs.Reached.{cells_of};
ghost use Rattle.lrc_machine.specs.Machine.{HasLevels};
ghost use Rattle.lrc_machine.specs.Levels.{slots_of};
ghost use Rattle.lrc_visit.specs.declared.visits.VisitFault.TheVariants as fault;
ghost use Rattle.lrc_call_meaning.specs.Forms.{call_form};
ghost use Rattle.lrc_machine.specs.Counts.{IsCellOf, Counted};
ghost use Rattle.lrc_bodies.specs.Counting.{MeetsCall, IsWhole};
ghost use Rattle.lrc_bodies.specs.Bodies.{Gives, HasRoom, IsMeaningOf};
ghost use Rattle.lrc_visit.specs.Asked.{IsAsked};

use lrc_bodies::{Frames, Mark, VisitMeaning, advance_body, open_body, resume_body};
use lrc_eval::Val;
use lrc_functions::Functions;
use lrc_machine::{Bodies, Moved, Opened, Stop, run};
use lrc_store::{Full, Handle, Store};

/// The bodies of the visits of a plan, by its visit functions.
#[derive(Debug, Drop)]
struct Visits<'a> {
    functions: &'a Functions,
}

impl<'a, St: Store<M = VisitMeaning>> Bodies<St> for Visits<'a> {
    ghost use Rattle.lrc_grammar.specs.Grammar.{grammar_of};
    ghost use Rattle.lrc_visit_meaning.specs.Visits as plain;
    ghost use Rattle.lrc_visit_meaning.specs.Demand as met;
    ghost use Rattle.lrc_call_meaning.specs.Reached as cells;
    ghost use Rattle.lrc_call_meaning.specs.Forms as forms;
    ghost use Rattle.lrc_bodies.specs.Bodies as bodies;
    ghost use Rattle.lrc_bodies.specs.Counting as counting;
    ghost use Rattle.lrc_bodies.proofs.MetCellLemmas as reached;
    ghost use Rattle.lrc_bodies.proofs.LoopLemmas as laws;
    ghost use Rattle.lrc_bodies.proofs.HitLemmas as fuel;
    ghost use Rattle.std.specs.Prelude.{◌≡◌, None};

    type Frame = Vec<Val>;

    type Mark = Mark;

    ghost asks = { λ b s c h. bodies.Asks (grammar_of b.functions.now.plan.grammar) b.functions.now.plan.parts.sorts s c h };

    ghost gives = { λ b s n c h. bodies.Gives (grammar_of b.functions.now.plan.grammar) b.functions.now.plan.parts.sorts s n c h };

    ghost lacks = { λ b n c. plain.plain_visit (grammar_of b.functions.now.plan.grammar) b.functions.now.plan.parts.sorts n c ≡ None };

    ghost meets = { λ b n c. cells.cells_of (met.reach (grammar_of b.functions.now.plan.grammar) b.functions.now.plan.parts.sorts n c) };

    ghost form = { λ b c. forms.call_form c };

    ghost calls = { λ b n c d. counting.MeetsCall (grammar_of b.functions.now.plan.grammar) b.functions.now.plan.parts.sorts n c d };

    ghost whole = { λ b memo. counting.IsWhole (grammar_of b.functions.now.plan.grammar) b.functions.now.plan.parts.sorts memo };

    ghost height = { λ b n c h. laws.HasHeight (grammar_of b.functions.now.plan.grammar) b.functions.now.plan.parts.sorts n c h };

    ghost runs = { λ b s f n c m. bodies.Runs (grammar_of b.functions.now.plan.grammar) b.functions.now.plan.parts.sorts s f.items n c m };

    ghost waits = { λ b s f n c m d. bodies.WaitsAt (grammar_of b.functions.now.plan.grammar) b.functions.now.plan.parts.sorts s f.items n c m d };

    ghost means = { λ b m. bodies.IsMeaningOf b.functions.now m };

    ghost fits = { λ b f. bodies.HasRoom b.functions.now.counts f.items };

    ghost left = { λ b m. bodies.left_at b.functions.now.productions m };

    ghost most = { λ b. bodies.most_left b.functions.now.productions };

    fn open(&self, store: &mut St, frame: &mut Vec<Val>, level: u32, call: Handle) -> Opened<Mark> {
        open_body(self.functions, store, frame, level, call)
    }

    fn advance(
        &self,
        store: &mut St,
        frame: &mut Vec<Val>,
        level: u32,
        mark: Mark,
    ) -> Result<Moved<Mark>, Full> {
        advance_body(self.functions, store, frame, level, mark)
    }

    fn resume(
        &self,
        store: &mut St,
        frame: &mut Vec<Val>,
        _level: u32,
        mark: Mark,
        given: Handle,
    ) -> Mark {
        resume_body(self.functions, store, frame, mark, given)
    }

    ghost bottom = { λ b c. fuel.no_fuel (grammar_of b.functions.now.plan.grammar) b.functions.now.plan.parts.sorts c };

    ghost deep = { λ b s f n c m d w none. laws.waits_in_vain (grammar_of b.functions.now.plan.grammar) b.functions.now.plan.parts.sorts s f.items n c m d w none };

    ghost within = { λ b s f n c m d w. laws.meets_more (grammar_of b.functions.now.plan.grammar) b.functions.now.plan.parts.sorts s f.items n c m d w };

    ghost lasts = { λ b s t f n c m d w last keeps. laws.waits_on (grammar_of b.functions.now.plan.grammar) b.functions.now.plan.parts.sorts s f.items n c m d w t last keeps };

    ghost own = { λ b n c. reached.call_reached (grammar_of b.functions.now.plan.grammar) b.functions.now.plan.parts.sorts n c };

    ghost calls_within = { λ b s f n c m d w e made. laws.calls_more (grammar_of b.functions.now.plan.grammar) b.functions.now.plan.parts.sorts s f.items n c m d w e made };

    ghost sure = { λ b s n c handle gives known d made. laws.gives_sure (grammar_of b.functions.now.plan.grammar) b.functions.now.plan.parts.sorts s n c handle gives known d made };

    ghost one_height = { λ b s n c handle gives. laws.one_height (grammar_of b.functions.now.plan.grammar) b.functions.now.plan.parts.sorts s n c handle gives };

    ghost lower = { λ b s f n c m d w h high. laws.waits_lower (grammar_of b.functions.now.plan.grammar) b.functions.now.plan.parts.sorts s f.items n c m d w h high };

    ghost same_height = { λ b s t f g n k c m d e o w runs same le h high. laws.same_height (grammar_of b.functions.now.plan.grammar) b.functions.now.plan.parts.sorts s f.items n c m d w t g.items k e o runs same le h high };
}

/// Why a call has no answer.
#[derive(Debug, Clone, Copy, PartialEq, Eq)]
pub enum VisitFault {
    /// All rows are used.
    Full = 1,
    /// It has no result with this fuel.
    TooDeep = 2,
}

/// The result of a call with so much fuel, over a store whose remembered calls mean those of the plan.
/// It takes no memory, and the machine's stack does not grow with the tree.
///
/// A memo that is told stays whole: with each call that is remembered those are that its visit makes.
/// Where it is, just the calls that are made are remembered besides those before, and each of them that
/// was not is missed once.
///
/// # Errors
///
/// TooDeep, only where the plain visit has no result with this fuel, and Full, only where all rows are
/// used and a cell of what the call meets is in none.
pub fn visit<St: Store<M = VisitMeaning>>(
    store: &mut St,
    functions: &Functions,
    frames: &mut Frames,
    call: Handle,
    fuel: u32,
) -> Result<Handle, VisitFault>
    requires meaning { IsMeaningOf functions.now (St.meaning store.old) }
    requires levels { HasLevels (λ frame. HasRoom functions.now.counts frame.items) (slots_of frames.old.levels) fuel }
    requires call { (c : Call) × IsAsked (St.state store.old) c call.0 }
    ensures gains { (c : Call) → IsAsked (St.state store.old) c call.0 → Gains (St.state store.old) (St.state store.new) (cells_of (reach (grammar_of functions.now.plan.grammar) functions.now.plan.parts.sorts fuel c)) }
    ensures gives { (c : Call) → IsAsked (St.state store.old) c call.0 → IfOk result (λ given. Gives (grammar_of functions.now.plan.grammar) functions.now.plan.parts.sorts (St.state store.new) fuel c given.0) }
    ensures full { (c : Call) → IsAsked (St.state store.old) c call.0 → result ≡ Err fault.Full → LacksOne (St.state store.new) (cells_of (reach (grammar_of functions.now.plan.grammar) functions.now.plan.parts.sorts fuel c)) }
    ensures too_deep { (c : Call) → IsAsked (St.state store.old) c call.0 → result ≡ Err fault.TooDeep → plain_visit (grammar_of functions.now.plan.grammar) functions.now.plan.parts.sorts fuel c ≡ None }
    ensures levels { HasLevels (λ frame. HasRoom functions.now.counts frame.items) (slots_of frames.new.levels) fuel }
    ensures stack { frames.new.stack ≡ frames.old.stack }
    ensures whole { IsWhole (grammar_of functions.now.plan.grammar) functions.now.plan.parts.sorts (St.state store.old).memo → IsWhole (grammar_of functions.now.plan.grammar) functions.now.plan.parts.sorts (St.state store.new).memo }
    ensures counted { (c : Call) → IsAsked (St.state store.old) c call.0 → IsWhole (grammar_of functions.now.plan.grammar) functions.now.plan.parts.sorts (St.state store.old).memo → IfOk result (λ _. Counted (St.state store.old) (St.state store.new) (IsCellOf call_form (MeetsCall (grammar_of functions.now.plan.grammar) functions.now.plan.parts.sorts fuel c))) }
    ensures same_meaning { St.meaning store.new ≡ St.meaning store.old }
{
    let visits = Visits { functions };
    match run(&visits, store, &mut frames.levels, call, fuel) {
        Ok(given) => Ok(given),
        Err(Stop::Full) => Err(VisitFault::Full),
        Err(Stop::Deep) => Err(VisitFault::TooDeep),
    }
}
