//! A session that is opened, and edited, by halves: what is asked, the root's visit, and what it gives.

ghost use Rattle.std.specs.Prelude.{◌≡◌, IfOk, IsTrue};
ghost use Rattle.std.specs.List.{list_all};
ghost use Rattle.lrc_meaning.specs.Tree.{tree, fits};
ghost use Rattle.lrc_store.specs.Words.{Reads};
ghost use Rattle.lrc_job.specs.Fitting.{edit_fits, script_fits};
ghost use Rattle.lrc_bodies.specs.Bodies.{IsMeaningOf};
ghost use Rattle.lrc_session.specs.Sessions.{IsStartTree};
ghost use Rattle.lrc_visit_tests.specs.Opened.{IsOpened};

use crate::jobs::{only, scene_of, store_for};
use crate::sessions::{SUM, first_number};
use lrc_base::{Bytes, Edit, Memory, Script, Term};
use lrc_bodies::VisitMeaning;
use lrc_functions::Functions;
use lrc_places::Put;
use lrc_session::{EditFault, Session, StartFault};
use lrc_store::Store;
use lrc_unparse::value_text;
use lrc_visit::visit;
use std::alloc::Global;
use std::test::Fail;

/// How deep the visits nest.
const DEPTH: u32 = 2;

/// The text of a session's tree, the number of its root's attribute, and how many bodies ran for it.
type Shown = (Bytes, Option<i64>, u64);

/// Opens a session.
fn opened<St: Store<M = VisitMeaning>>(
    alloc: Global,
    store: &mut St,
    functions: &Functions,
    term: &Term,
) -> Result<Session, StartFault>
    requires meaning { IsMeaningOf functions.now (St.meaning store.old) }
    requires tree { IsStartTree functions.now (tree term.now) }
    ensures session { IfOk result (λ session. IsOpened functions.now (St.state store.new) session) }
    ensures same_meaning { St.meaning store.new ≡ St.meaning store.old }
{
    let mut proposal = Session::propose(alloc, store, functions, DEPTH, term)?;
    let given = visit(store, functions, &mut proposal.frames, proposal.call, DEPTH)?;
    Ok(Session::begin(store, functions, proposal, given))
}

/// Makes a put in a session.
fn put<St: Store<M = VisitMeaning>>(
    store: &mut St,
    functions: &Functions,
    session: &mut Session,
    put: &Put<'_>,
) -> Result<(), EditFault>
    requires meaning { IsMeaningOf functions.now (St.meaning store.old) }
    requires session { IsOpened functions.now (St.state store.old) session.old }
    requires fits { IsTrue (fits functions.now.plan.grammar.prods (tree put.now.term.now) put.now.kind) }
    ensures { IfOk result (λ _. IsOpened functions.now (St.state store.new) session.new) }
{
    let call = session.propose_put(store, functions, put)?;
    let depth = session.depth;
    let given = visit(store, functions, session.frames(), call, depth)?;
    session.settle(store, functions, call, given);
    Ok(())
}

/// Makes an edit that is a put.
fn edit<St: Store<M = VisitMeaning>>(
    store: &mut St,
    functions: &Functions,
    session: &mut Session,
    edit: &Edit,
) -> Result<(), EditFault>
    requires meaning { IsMeaningOf functions.now (St.meaning store.old) }
    requires session { IsOpened functions.now (St.state store.old) session.old }
    requires fits { IsTrue (edit_fits functions.now.plan.grammar.prods edit.now) }
    ensures { IfOk result (λ _. IsOpened functions.now (St.state store.new) session.new) }
{
    let Edit::Put(path, kind, term) = edit else {
        return Ok(());
    };
    let wanted = Put {
        path,
        kind: *kind,
        term,
    };
    put(store, functions, session, &wanted)
}

/// What a session has.
fn shown<St: Store<M = VisitMeaning>>(
    alloc: Global,
    store: &mut St,
    functions: &Functions,
    session: &Session,
) -> Result<Shown, Memory>
    requires { IsOpened functions.now (St.state store.old) session.now }
    ensures reads { Reads (St.state store.old) (St.state store.new) }
    ensures same_meaning { St.meaning store.new ≡ St.meaning store.old }
{
    let number = first_number(store, session);
    let text = value_text(alloc, store, &functions.plan.grammar, session.tree())?;
    Ok((text, number, session.runs()))
}

/// Makes the first edit of a session, and what the session has then.
fn edited<St: Store<M = VisitMeaning>>(
    alloc: Global,
    store: &mut St,
    functions: &Functions,
    session: &mut Session,
    edits: &[Edit],
) -> Result<Shown, Fail>
    requires meaning { IsMeaningOf functions.now (St.meaning store.old) }
    requires session { IsOpened functions.now (St.state store.old) session.old }
    requires fits { IsTrue (list_all (edit_fits functions.now.plan.grammar.prods) edits.now) }
{
    let first = edits.first().ok_or("no edit")?;
    edit(store, functions, session, first)
        .ok()
        .ok_or("refused")?;
    Ok(shown(alloc, store, functions, session)?)
}

/// What a session has that is opened, and after its first edit.
fn played<St: Store<M = VisitMeaning>>(
    alloc: Global,
    store: &mut St,
    functions: &Functions,
    script: &Script,
) -> Result<(Shown, Shown), Fail>
    requires meaning { IsMeaningOf functions.now (St.meaning store.old) }
    requires fits { IsTrue (script_fits functions.now.plan.grammar.prods functions.now.plan.grammar.start script.now) }
{
    let mut session = opened(alloc, store, functions, &script.tree)
        .ok()
        .ok_or("not opened")?;
    let before = shown(alloc, store, functions, &session)?;
    let after = edited(
        alloc,
        store,
        functions,
        &mut session,
        script.edits.as_slice(),
    )?;
    Ok((before, after))
}

/// The same of the session of the sum.
fn sum_played(alloc: Global) -> Result<(Shown, Shown), Fail> {
    let scene = scene_of(alloc, SUM)?;
    let script = only(scene.sessions.as_slice()).ok_or("no session")?;
    let mut store = store_for(alloc, &scene.functions, 1_000)?;
    played(alloc, &mut store, &scene.functions, script)
}

#[test]
fn a_session_goes_by_halves(rt: HostRuntime) -> Result<(), Fail> {
    let ((before, three, all), (after, six, two)) = sum_played(rt.alloc())?;
    assert_eq!(rt; before.as_slice(), b"Add(Num(1), Num(2))".as_slice());
    assert!(rt; (three, all) == (Some(3), 3));
    assert_eq!(rt; after.as_slice(), b"Add(Num(1), Num(5))".as_slice());
    assert!(rt; (six, two) == (Some(6), 2));
    Ok(())
}
