ghost use Rattle.std.specs.Prelude.{◌≡◌, false, None, List, ◌∷◌, map, IsTrue, IfOk};
ghost use Rattle.std.specs.List.{list_all};
ghost use Rattle.lrc_meaning.specs.Tree.{Tree, tree};
ghost use Rattle.lrc_meaning.specs.Grammar.{Grammar};
ghost use Rattle.lrc_meaning.specs.Editing.{change, all_unopened};
ghost use Rattle.lrc_order_meaning.specs.Ordered.{HasOrder};
ghost use Rattle.lrc_grammar.specs.Grammar.{grammar_of};
ghost use Rattle.lrc_store.specs.Words.{Lasts};
ghost use Rattle.lrc_bodies.specs.Bodies.{IsMeaningOf};
ghost use Rattle.lrc_job.specs.Fitting.{edit_fits, script_fits};
ghost use Rattle.lrc_session.specs.Sessions.{IsOpen};
ghost use Rattle.lrc_run.specs.Lines.{reply_of, has_own_text, AreLines, HasOneMore};
ghost use Rattle.lrc_run.specs.Playing.{IsUnused, Plays};
ghost use Rattle.lrc_run.specs.Editing.{GainsSome, AreEdited, IsPlayed};

use crate::editing::edited;
use crate::gate::{Gate, Ticket};
use crate::lines::fixed_line;
use crate::reply::{Line, Out, Outcome};
use crate::values::values_line;
use lrc_base::{AllocError, Edit, List, Memory, Script};
use lrc_bodies::VisitMeaning;
use lrc_functions::Functions;
use lrc_session::{Session, StartFault};
use lrc_store::Store;
use std::alloc::Global;

/// Appends the line of a reply of a kind whose replies all have the same text.
fn push_fixed(alloc: Global, outcome: Outcome, lines: &mut List<Line>) -> Result<(), Memory>
    requires { has_own_text outcome ≡ false }
    ensures { (g : Grammar) → IfOk result (λ _. HasOneMore g (reply_of outcome) lines.old lines.new) }
{
    lines.push(fixed_line(alloc, outcome)?)
}

/// What a session is answered whose opening was refused: no edit is opened.
fn unopened<G: Gate>(
    alloc: Global,
    ticket: &Ticket<G>,
    outcome: Outcome,
    edits: &[Edit],
) -> Result<Out, Memory>
    requires { has_own_text outcome ≡ false }
    ensures lines { (g : Grammar) → IfOk result (λ out. AreLines g (reply_of outcome ∷ all_unopened (map change edits.now)) out.lines) }
    ensures last { IfOk result (λ out. out.last ≡ None) }
{
    let mut lines = List::new(alloc);
    push_fixed(alloc, outcome, &mut lines)?;
    'edits: for (before, _edit) in edits.iter().enumerate() {
        ticket.pass(before + 1);
        push_fixed(alloc, Outcome::Unopened, &mut lines)?;
    }
    Ok(Out { lines, last: None })
}

/// Appends the line of each edit of an open session.
fn push_edited<St: Store<M = VisitMeaning>, G: Gate>(
    alloc: Global,
    ticket: &Ticket<G>,
    store: &mut St,
    functions: &Functions,
    session: &mut Session,
    edits: &[Edit],
    lines: &mut List<Line>,
) -> Result<(), Memory>
    requires meaning { IsMeaningOf functions.now (St.meaning store.old) }
    requires session { (t : Tree) × (vs : List Tree) × IsOpen functions.now (St.state store.old) session.old t vs }
    requires fits { IsTrue (list_all (edit_fits functions.now.plan.grammar.prods) edits.now) }
    ensures edited { (t : Tree) (vs : List Tree) → IsOpen functions.now (St.state store.old) session.old t vs → IfOk result (λ _. AreEdited functions.now (St.state store.old) (St.state store.new) session.old.depth t (map change edits.now) session.new lines.old lines.new) }
    ensures gains { GainsSome (St.state store.old) (St.state store.new) }
    ensures same_meaning { St.meaning store.new ≡ St.meaning store.old }
{
    'edits: for (before, edit) in edits.iter().enumerate() {
        ticket.pass(before + 1);
        lines.push(edited(alloc, store, functions, session, edit)?)?;
    }
    Ok(())
}

/// Appends the line of an open session's values, and then that of each edit.
fn push_lines<St: Store<M = VisitMeaning>, G: Gate>(
    alloc: Global,
    ticket: &Ticket<G>,
    store: &mut St,
    functions: &Functions,
    session: &mut Session,
    edits: &[Edit],
    lines: &mut List<Line>,
) -> Result<(), Memory>
    requires meaning { IsMeaningOf functions.now (St.meaning store.old) }
    requires session { (t : Tree) × (vs : List Tree) × IsOpen functions.now (St.state store.old) session.old t vs }
    requires fits { IsTrue (list_all (edit_fits functions.now.plan.grammar.prods) edits.now) }
    ensures played { (t : Tree) (vs : List Tree) → IsOpen functions.now (St.state store.old) session.old t vs → IfOk result (λ _. IsPlayed functions.now (St.state store.old) (St.state store.new) session.old session.new t vs (map change edits.now) lines.old lines.new) }
    ensures gains { GainsSome (St.state store.old) (St.state store.new) }
    ensures same_meaning { St.meaning store.new ≡ St.meaning store.old }
{
    lines.push(values_line(alloc, store, functions, session)?)?;
    push_edited(alloc, ticket, store, functions, session, edits, lines)
}

/// Plays a session over a store that nothing was put into: each edit's line, and the last tree. The gate is
/// told of each reply before it is computed.
///
/// # Errors
///
/// Want of memory.
pub fn play<St: Store<M = VisitMeaning>, G: Gate>(
    alloc: Global,
    ticket: &Ticket<G>,
    store: &mut St,
    functions: &Functions,
    depth: u32,
    script: &Script,
) -> Result<Out, Memory>
    requires meaning { IsMeaningOf functions.now (St.meaning store.old) }
    requires unused { IsUnused (St.state store.old) }
    requires fits { IsTrue (script_fits functions.now.plan.grammar.prods functions.now.plan.grammar.start script.now) }
    ensures plays { HasOrder (grammar_of functions.now.plan.grammar) functions.now.plan.parts → IfOk result (λ out. Plays functions.now depth (St.state store.old) (St.state store.new) script.now out) }
    ensures lasts { Lasts (St.state store.old) (St.state store.new) }
    ensures same_meaning { St.meaning store.new ≡ St.meaning store.old }
{
    let edits = script.edits.as_slice();
    ticket.pass(0);
    match Session::start(alloc, store, functions, depth, &script.tree) {
        Ok(mut session) => {
            let mut lines = List::new(alloc);
            push_lines(
                alloc,
                ticket,
                store,
                functions,
                &mut session,
                edits,
                &mut lines,
            )?;
            Ok(Out {
                lines,
                last: Some(session.tree()),
            })
        }
        Err(StartFault::TooDeep) => unopened(alloc, ticket, Outcome::TooDeep, edits),
        Err(StartFault::Full) => unopened(alloc, ticket, Outcome::Full, edits),
        Err(StartFault::Memory) => Err(AllocError),
    }
}
