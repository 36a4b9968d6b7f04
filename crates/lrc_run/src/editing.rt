ghost use Rattle.std.specs.Prelude.{◌≡◌, IsTrue, List, IfOk};
ghost use Rattle.lrc_meaning.specs.Tree.{Tree, tree, fits};
ghost use Rattle.lrc_meaning.specs.Editing.{change};
ghost use Rattle.lrc_meaning.specs.Editing as a_change;
ghost use Rattle.lrc_store.specs.Words.{Reads};
ghost use Rattle.lrc_job.specs.Fitting.{edit_fits};
ghost use Rattle.lrc_bodies.specs.Bodies.{IsMeaningOf};
ghost use Rattle.lrc_session.specs.Sessions.{grammar, IsOpen};
ghost use Rattle.lrc_run.specs.Lines.{outcome_of};
ghost use Rattle.lrc_run.specs.Editing.{GainsSome, IsAnswer, IsEdited};

use crate::lines::fixed_line;
use crate::reply::{Line, Outcome};
use crate::values::values_line;
use lrc_base::{Bytes, Edit, Memory, Path};
use lrc_bodies::VisitMeaning;
use lrc_functions::Functions;
use lrc_places::Put;
use lrc_session::{EditFault, Session};
use lrc_store::Store;
use lrc_unparse::unparse;
use std::alloc::Global;

/// What an edit is answered that was refused.
fn outcome_of(fault: EditFault) -> Outcome
    ensures { result ≡ outcome_of fault }
{
    match fault {
        EditFault::BadPath => Outcome::BadPath,
        EditFault::WrongSort => Outcome::WrongSort,
        EditFault::TooDeep => Outcome::TooDeep,
        EditFault::Full => Outcome::Full,
    }
}

/// The line of a put or a copy that was answered so, in the session as it was left.
fn answered<St: Store>(
    alloc: Global,
    store: &mut St,
    functions: &Functions,
    session: &Session,
    answer: Result<(), EditFault>,
) -> Result<Line, Memory>
    requires session { (t : Tree) × (vs : List Tree) × IsOpen functions.now (St.state store.old) session.now t vs }
    ensures line { (t : Tree) (vs : List Tree) → IsOpen functions.now (St.state store.old) session.now t vs → IfOk result (λ line. IsAnswer (grammar functions.now) (St.state store.new) session.now vs answer line) }
    ensures reads { Reads (St.state store.old) (St.state store.new) }
    ensures same_meaning { St.meaning store.new ≡ St.meaning store.old }
{
    match answer {
        Ok(()) => values_line(alloc, store, functions, session),
        Err(fault) => fixed_line(alloc, outcome_of(fault)),
    }
}

/// Makes a put, and answers it with its line.
fn put_part<St: Store<M = VisitMeaning>>(
    alloc: Global,
    store: &mut St,
    functions: &Functions,
    session: &mut Session,
    put: &Put,
) -> Result<Line, Memory>
    requires meaning { IsMeaningOf functions.now (St.meaning store.old) }
    requires session { (t : Tree) × (vs : List Tree) × IsOpen functions.now (St.state store.old) session.old t vs }
    requires fits { IsTrue (fits functions.now.plan.grammar.prods (tree put.now.term.now) put.now.kind) }
    ensures edited { (t : Tree) (vs : List Tree) → IsOpen functions.now (St.state store.old) session.old t vs → IfOk result (λ line. IsEdited functions.now (St.state store.old) (St.state store.new) session.old.depth t (a_change.put put.now.path.now.steps put.now.kind (tree put.now.term.now)) session.new line) }
    ensures depth { session.new.depth ≡ session.old.depth }
    ensures gains { GainsSome (St.state store.old) (St.state store.new) }
    ensures same_meaning { St.meaning store.new ≡ St.meaning store.old }
{
    let answer = session.put(store, functions, put);
    answered(alloc, store, functions, session, answer)
}

/// Makes a copy, and answers it with its line.
fn copy_part<St: Store<M = VisitMeaning>>(
    alloc: Global,
    store: &mut St,
    functions: &Functions,
    session: &mut Session,
    from: &Path,
    to: &Path,
) -> Result<Line, Memory>
    requires meaning { IsMeaningOf functions.now (St.meaning store.old) }
    requires session { (t : Tree) × (vs : List Tree) × IsOpen functions.now (St.state store.old) session.old t vs }
    ensures edited { (t : Tree) (vs : List Tree) → IsOpen functions.now (St.state store.old) session.old t vs → IfOk result (λ line. IsEdited functions.now (St.state store.old) (St.state store.new) session.old.depth t (a_change.copy from.now.steps to.now.steps) session.new line) }
    ensures depth { session.new.depth ≡ session.old.depth }
    ensures gains { GainsSome (St.state store.old) (St.state store.new) }
    ensures same_meaning { St.meaning store.new ≡ St.meaning store.old }
{
    let answer = session.copy(store, functions, from, to);
    answered(alloc, store, functions, session, answer)
}

/// The line of the session's tree, unparsed.
fn shown<St: Store<M = VisitMeaning>>(
    alloc: Global,
    store: &mut St,
    functions: &Functions,
    session: &Session,
) -> Result<Line, Memory>
    requires session { (t : Tree) × (vs : List Tree) × IsOpen functions.now (St.state store.old) session.now t vs }
    ensures edited { (t : Tree) (vs : List Tree) → IsOpen functions.now (St.state store.old) session.now t vs → IfOk result (λ line. IsEdited functions.now (St.state store.old) (St.state store.new) session.now.depth t a_change.show session.now line) }
    ensures gains { GainsSome (St.state store.old) (St.state store.new) }
    ensures same_meaning { St.meaning store.new ≡ St.meaning store.old }
{
    let text = unparse(alloc, store, &functions.plan.grammar, session.tree())?;
    let mut body = Bytes::from_slice(alloc, b" shown ")?;
    body.append(text)?;
    Ok(Line {
        outcome: Outcome::Shown,
        first: 0,
        body,
        bodies: 0,
        cells: 0,
    })
}

/// Makes the edit, and answers it with its line.
pub(crate) fn edited<St: Store<M = VisitMeaning>>(
    alloc: Global,
    store: &mut St,
    functions: &Functions,
    session: &mut Session,
    edit: &Edit,
) -> Result<Line, Memory>
    requires meaning { IsMeaningOf functions.now (St.meaning store.old) }
    requires session { (t : Tree) × (vs : List Tree) × IsOpen functions.now (St.state store.old) session.old t vs }
    requires fits { IsTrue (edit_fits functions.now.plan.grammar.prods edit.now) }
    ensures edited { (t : Tree) (vs : List Tree) → IsOpen functions.now (St.state store.old) session.old t vs → IfOk result (λ line. IsEdited functions.now (St.state store.old) (St.state store.new) session.old.depth t (change edit.now) session.new line) }
    ensures depth { session.new.depth ≡ session.old.depth }
    ensures gains { GainsSome (St.state store.old) (St.state store.new) }
    ensures same_meaning { St.meaning store.new ≡ St.meaning store.old }
{
    match edit {
        Edit::Put(path, kind, term) => {
            let kind = *kind;
            put_part(alloc, store, functions, session, &Put { path, kind, term })
        }
        Edit::Copy(from, to) => copy_part(alloc, store, functions, session, from, to),
        Edit::Show => shown(alloc, store, functions, session),
        Edit::Forget(place) => {
            store.forget(*place);
            fixed_line(alloc, Outcome::Forgot)
        }
    }
}
