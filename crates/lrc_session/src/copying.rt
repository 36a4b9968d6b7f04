ghost use Rattle.std.specs.Prelude.{◌≡◌, ◌≢◌, ◌-◌, List, Some, Err, IfOk, OnErr};
ghost use Rattle.lrc_meaning.specs.Tree.{Tree, at_place, replaced};
ghost use Rattle.lrc_machine.specs.Counts.{Counted};
ghost use Rattle.lrc_bodies.specs.Bodies.{IsMeaningOf};
ghost use Rattle.lrc_bodies.specs.Counting.{IsWhole};
ghost use Rattle.lrc_session.specs.Sessions.{grammar, sorts, IsOpen, IsCalled};
ghost use Rattle.lrc_session.specs.Copying.{ProposesCopy, Copies};
ghost use Rattle.lrc_session.specs.declared.fault.EditFault.TheVariants as edit;

use crate::fault::EditFault;
use crate::proposal::put_root_call;
use crate::session::Session;
use lrc_base::Path;
use lrc_bodies::VisitMeaning;
use lrc_functions::Functions;
use lrc_places::copy_part;
use lrc_store::{Handle, Store};
use lrc_visit::visit;

impl Session {
    /// Puts the root's call of the tree with the part at the first place at the second too into the
    /// store. The session's tree and its attributes stay. It takes no memory.
    ///
    /// # Errors
    ///
    /// BadPath exactly where one of the paths names no place; WrongSort exactly where both do and the
    /// parts there are of different kinds; and Full only where all rows are used and a cell of what the
    /// changed tree demands is in none. TooDeep is left to the visit.
    pub fn propose_copy<St: Store<M = VisitMeaning>>(
        &mut self,
        store: &mut St,
        functions: &Functions,
        from: &Path,
        to: &Path,
    ) -> Result<Handle, EditFault>
        requires session { (t : Tree) × (vs : List Tree) × IsOpen functions.now (St.state store.old) self.old t vs }
        ensures proposes { (t : Tree) (vs : List Tree) → IsOpen functions.now (St.state store.old) self.old t vs → ProposesCopy functions.now (St.state store.old) (St.state store.new) t vs self.old self.new from.now.steps to.now.steps result }
        ensures not_deep { result ≢ Err edit.TooDeep }
        ensures missed { self.new.missed ≡ (St.state store.old).missed }
        ensures same_meaning { St.meaning store.new ≡ St.meaning store.old }
    {
        self.missed = store.missed();
        let prods = functions.plan.grammar.prods.as_slice();
        let whole = copy_part(store, prods, self.tree, from, to)?;
        Ok(put_root_call(store, whole)?)
    }

    /// Puts the part at the first place of the session's tree at the second too. It takes no memory, and
    /// the machine's stack does not grow with the tree's attached trees. A memo that is told stays whole,
    /// and where it is, just the calls of the root's visit of the changed tree are remembered besides
    /// those before, and each of them that was not is missed once.
    ///
    /// # Errors
    ///
    /// BadPath exactly where one of the paths names no place; WrongSort exactly where both do and the
    /// parts there are of different kinds; TooDeep only where the changed tree has no attributes within
    /// the depth; and Full only where all rows are used and a cell of what the changed tree demands is in
    /// none. The session's tree and its attributes are then as they were.
    pub fn copy<St: Store<M = VisitMeaning>>(
        &mut self,
        store: &mut St,
        functions: &Functions,
        from: &Path,
        to: &Path,
    ) -> Result<(), EditFault>
        requires meaning { IsMeaningOf functions.now (St.meaning store.old) }
        requires session { (t : Tree) × (vs : List Tree) × IsOpen functions.now (St.state store.old) self.old t vs }
        ensures copies { (t : Tree) (vs : List Tree) → IsOpen functions.now (St.state store.old) self.old t vs → Copies functions.now (St.state store.old) (St.state store.new) t vs self.old self.new from.now.steps to.now.steps result }
        ensures runs { IfOk result (λ _. self.new.runs ≡ (St.state store.new).missed - (St.state store.old).missed) }
        ensures runs_kept { OnErr result (self.new.runs ≡ self.old.runs) }
        ensures whole { IsWhole (grammar functions.now) (sorts functions.now) (St.state store.old).memo → IsWhole (grammar functions.now) (sorts functions.now) (St.state store.new).memo }
        ensures counted { (t new : Tree) (vs : List Tree) → IsOpen functions.now (St.state store.old) self.old t vs → at_place t from.now.steps ≡ Some new → IsWhole (grammar functions.now) (sorts functions.now) (St.state store.old).memo → IfOk result (λ _. Counted (St.state store.old) (St.state store.new) (IsCalled functions.now self.old.depth (replaced t to.now.steps new))) }
        ensures same_meaning { St.meaning store.new ≡ St.meaning store.old }
    {
        let call = self.propose_copy(store, functions, from, to)?;
        let given = visit(store, functions, &mut self.frames, call, self.depth)?;
        self.settle(store, functions, call, given);
        Ok(())
    }
}
