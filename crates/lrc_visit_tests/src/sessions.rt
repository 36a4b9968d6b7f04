//! Sessions over a store of their own: what the opening and each put is answered, and what the session has then.
//!
//! The opening of `Add(Num(1), Num(2))` runs three bodies and takes 21 rows, and its visits nest two deep.

ghost use Rattle.std.specs.Prelude.{◌≡◌, ◌≤◌, ◌<◌, ◌^◌, List, length, IsTrue};
ghost use Rattle.std.specs.List.{list_all};
ghost use Rattle.lrc_meaning.specs.Tree.{Tree};
ghost use Rattle.lrc_store.specs.Standing.{IsKnown, Stands};
ghost use Rattle.lrc_store.specs.Words.{Reads};
ghost use Rattle.lrc_call_meaning.specs.Forms.{values_cell};
ghost use Rattle.lrc_job.specs.Fitting.{edit_fits, script_fits};
ghost use Rattle.lrc_bodies.specs.Bodies.{IsMeaningOf};
ghost use Rattle.lrc_functions.specs.declared.functions.Functions.{Functions};
ghost use Rattle.lrc_visit_tests.specs.Opened.{IsOpened};

use crate::jobs::{only, scene_of, store_for};
use lrc_base::{Edit, Memory, Path, Script};
use lrc_bodies::VisitMeaning;
use lrc_functions::Functions;
use lrc_places::Put;
use lrc_session::{EditFault, Session, StartFault};
use lrc_store::{Cell, Handle, Store};
use std::alloc::Global;
use std::test::Fail;

/// Why an edit was refused; the number of the root's attribute; and how many bodies ran for the tree.
pub(crate) type Answer = (Option<EditFault>, Option<i64>, u64);

/// A sum of two numbers, which are edited.
pub(crate) const SUM: &[u8] = b"lrc 1
sort Exp { syn val: Int; }
prod Num: Exp (n: Int) { val = n; }
prod Add: Exp (l: Exp, r: Exp) { val = l.val + r.val; }
start Exp;
session on Add(Num(1), Num(2)) {
  put /1 Num(5);
  put /7 Num(1);
  put /0 3;
  put /0 Add(Num(8), Num(9));
  put /1 Num(2);
}
";

/// The same sum, with copies of its parts.
const COPIES: &[u8] = b"lrc 1
sort Exp { syn val: Int; }
prod Num: Exp (n: Int) { val = n; }
prod Add: Exp (l: Exp, r: Exp) { val = l.val + r.val; }
start Exp;
session on Add(Num(1), Num(2)) {
  copy /0 /1;
  copy /7 /0;
  copy /0 /7;
  copy /0/0 /1;
  copy / /0;
}
";

/// Whether a list has values.
fn has_values<St: Store>(store: &mut St, values: Handle) -> bool
    requires { (vs : List Tree) × Stands (St.state store.old) values.0 (values_cell vs) }
    ensures some { (vs : List Tree) → Stands (St.state store.old) values.0 (values_cell vs) → IsTrue result → 0 < length vs }
    ensures reads { Reads (St.state store.old) (St.state store.new) }
    ensures same_meaning { St.meaning store.new ≡ St.meaning store.old }
{
    matches!(store.look(values), Cell::Pair(..))
}

/// The number of a cell.
fn number<St: Store>(store: &mut St, handle: Handle) -> Option<i64>
    requires { IsKnown (St.state store.old) handle.0 }
    ensures reads { Reads (St.state store.old) (St.state store.new) }
    ensures same_meaning { St.meaning store.new ≡ St.meaning store.old }
{
    match store.look(handle) {
        Cell::Number(value) => Some(value),
        Cell::Nil | Cell::Pair(..) => None,
    }
}

/// The number of the root's first attribute.
pub(crate) fn first_number<St: Store<M = VisitMeaning>>(
    store: &mut St,
    session: &Session,
) -> Option<i64>
    requires { (functions : Functions) × IsOpened functions (St.state store.old) session.now }
    ensures reads { Reads (St.state store.old) (St.state store.new) }
    ensures same_meaning { St.meaning store.new ≡ St.meaning store.old }
{
    if has_values(store, session.values()) {
        let handle = session.attribute(store, 0);
        return number(store, handle);
    }
    None
}

/// What there is of a session after an edit.
fn answer<St: Store<M = VisitMeaning>>(
    store: &mut St,
    session: &Session,
    fault: Option<EditFault>,
) -> Answer
    requires { (functions : Functions) × IsOpened functions (St.state store.old) session.now }
    ensures reads { Reads (St.state store.old) (St.state store.new) }
    ensures same_meaning { St.meaning store.new ≡ St.meaning store.old }
{
    (fault, first_number(store, session), session.runs())
}

/// Makes an edit that is a put; why it was refused.
fn put<St: Store<M = VisitMeaning>>(
    store: &mut St,
    functions: &Functions,
    session: &mut Session,
    edit: &Edit,
) -> Option<EditFault>
    requires meaning { IsMeaningOf functions.now (St.meaning store.old) }
    requires session { IsOpened functions.now (St.state store.old) session.old }
    requires fits { IsTrue (edit_fits functions.now.plan.grammar.prods edit.now) }
    ensures session { IsOpened functions.now (St.state store.new) session.new }
    ensures same_meaning { St.meaning store.new ≡ St.meaning store.old }
{
    let Edit::Put(path, kind, term) = edit else {
        return None;
    };
    let put = Put {
        path,
        kind: *kind,
        term,
    };
    session.put(store, functions, &put).err()
}

/// Makes a copy; why it was refused.
fn copy<St: Store<M = VisitMeaning>>(
    store: &mut St,
    functions: &Functions,
    session: &mut Session,
    from: &Path,
    to: &Path,
) -> Option<EditFault>
    requires meaning { IsMeaningOf functions.now (St.meaning store.old) }
    requires session { IsOpened functions.now (St.state store.old) session.old }
    ensures session { IsOpened functions.now (St.state store.new) session.new }
    ensures same_meaning { St.meaning store.new ≡ St.meaning store.old }
{
    session.copy(store, functions, from, to).err()
}

/// Makes an edit that is a put or a copy; why it was refused.
fn made<St: Store<M = VisitMeaning>>(
    store: &mut St,
    functions: &Functions,
    session: &mut Session,
    edit: &Edit,
) -> Option<EditFault>
    requires meaning { IsMeaningOf functions.now (St.meaning store.old) }
    requires session { IsOpened functions.now (St.state store.old) session.old }
    requires fits { IsTrue (edit_fits functions.now.plan.grammar.prods edit.now) }
    ensures session { IsOpened functions.now (St.state store.new) session.new }
    ensures same_meaning { St.meaning store.new ≡ St.meaning store.old }
{
    if let Edit::Copy(from, to) = edit {
        return copy(store, functions, session, from, to);
    }
    put(store, functions, session, edit)
}

/// What an open session has, and what it has after each edit.
fn answers<St: Store<M = VisitMeaning>>(
    alloc: Global,
    store: &mut St,
    functions: &Functions,
    session: &mut Session,
    edits: &[Edit],
) -> Result<Vec<Answer>, Memory>
    requires meaning { IsMeaningOf functions.now (St.meaning store.old) }
    requires session { IsOpened functions.now (St.state store.old) session.old }
    requires fits { IsTrue (list_all (edit_fits functions.now.plan.grammar.prods) edits.now) }
{
    let mut answers = Vec::new(alloc);
    answers.push(answer(store, session, None))?;
    'edits: for edit in edits {
        let fault = made(store, functions, session, edit);
        answers.push(answer(store, session, fault))?;
    }
    Ok(answers)
}

/// What a session is answered.
fn played<St: Store<M = VisitMeaning>>(
    alloc: Global,
    store: &mut St,
    functions: &Functions,
    depth: u32,
    script: &Script,
) -> Result<Result<Vec<Answer>, StartFault>, Memory>
    requires meaning { IsMeaningOf functions.now (St.meaning store.old) }
    requires fits { IsTrue (script_fits functions.now.plan.grammar.prods functions.now.plan.grammar.start script.now) }
{
    match Session::start(alloc, store, functions, depth, &script.tree) {
        Ok(mut session) => {
            let edits = script.edits.as_slice();
            Ok(Ok(answers(alloc, store, functions, &mut session, edits)?))
        }
        Err(fault) => Ok(Err(fault)),
    }
}

/// What the session of a text is answered over a store of so many rows.
fn text_played(
    alloc: Global,
    text: &[u8],
    rows: u32,
    depth: u32,
) -> Result<Result<Vec<Answer>, StartFault>, Fail>
    requires some { 1 ≤ rows }
    requires limit { rows ≤ 2 ^ 24 }
{
    let scene = scene_of(alloc, text)?;
    let script = only(scene.sessions.as_slice()).ok_or("no session")?;
    let mut store = store_for(alloc, &scene.functions, rows)?;
    Ok(played(alloc, &mut store, &scene.functions, depth, script)?)
}

/// The same of the session of the sum.
fn sum_played(alloc: Global, rows: u32, depth: u32) -> Result<Result<Vec<Answer>, StartFault>, Fail>
    requires some { 1 ≤ rows }
    requires limit { rows ≤ 2 ^ 24 }
{
    text_played(alloc, SUM, rows, depth)
}

/// The last edit brings the first tree back, whose calls are all remembered.
#[test]
fn a_put_is_made_or_refused(rt: HostRuntime) -> Result<(), Fail> {
    let answers = sum_played(rt.alloc(), 1_000, 2)?.ok().ok_or("not opened")?;
    let wanted = [
        (None, Some(3), 3),
        (None, Some(6), 2),
        (Some(EditFault::BadPath), Some(6), 2),
        (Some(EditFault::WrongSort), Some(6), 2),
        (Some(EditFault::TooDeep), Some(6), 2),
        (None, Some(3), 0),
    ];
    assert_eq!(rt; answers.as_slice(), wanted.as_slice());
    Ok(())
}

/// There is no row for the number 5, nor for the node `Num(8)`; the last edit changes nothing.
#[test]
fn a_put_without_a_row_is_refused(rt: HostRuntime) -> Result<(), Fail> {
    let answers = sum_played(rt.alloc(), 21, 500)?.ok().ok_or("not opened")?;
    let wanted = [
        (None, Some(3), 3),
        (Some(EditFault::Full), Some(3), 3),
        (Some(EditFault::BadPath), Some(3), 3),
        (Some(EditFault::WrongSort), Some(3), 3),
        (Some(EditFault::Full), Some(3), 3),
        (None, Some(3), 0),
    ];
    assert_eq!(rt; answers.as_slice(), wanted.as_slice());
    Ok(())
}

/// A copy runs the root's body alone, since the part's call is remembered.
#[test]
fn a_copy_is_made_or_refused(rt: HostRuntime) -> Result<(), Fail> {
    let answers = text_played(rt.alloc(), COPIES, 1_000, 2)?
        .ok()
        .ok_or("not opened")?;
    let wanted = [
        (None, Some(3), 3),
        (None, Some(2), 1),
        (Some(EditFault::BadPath), Some(2), 1),
        (Some(EditFault::BadPath), Some(2), 1),
        (Some(EditFault::WrongSort), Some(2), 1),
        (Some(EditFault::TooDeep), Some(2), 1),
    ];
    assert_eq!(rt; answers.as_slice(), wanted.as_slice());
    Ok(())
}

/// There is no row for the list of the same part twice, nor for a sum in a sum.
#[test]
fn a_copy_without_a_row_is_refused(rt: HostRuntime) -> Result<(), Fail> {
    let answers = text_played(rt.alloc(), COPIES, 21, 500)?
        .ok()
        .ok_or("not opened")?;
    let wanted = [
        (None, Some(3), 3),
        (Some(EditFault::Full), Some(3), 3),
        (Some(EditFault::BadPath), Some(3), 3),
        (Some(EditFault::BadPath), Some(3), 3),
        (Some(EditFault::WrongSort), Some(3), 3),
        (Some(EditFault::Full), Some(3), 3),
    ];
    assert_eq!(rt; answers.as_slice(), wanted.as_slice());
    Ok(())
}

#[test]
fn an_opening_is_refused(rt: HostRuntime) -> Result<(), Fail> {
    let shallow = sum_played(rt.alloc(), 1_000, 1)?.err();
    assert!(rt; shallow == Some(StartFault::TooDeep));
    let small = sum_played(rt.alloc(), 20, 500)?.err();
    assert!(rt; small == Some(StartFault::Full));
    Ok(())
}
