ghost use Rattle.std.specs.Borrow.{sem};
ghost use Rattle.std.specs.Prelude.{◌≡◌, ◌-◌, ◌<◌, List, Some, Err, IfOk, OnErr, length, slice_get, IsTrue};
ghost use Rattle.lrc_meaning.specs.Tree.{Tree, tree, fits, replaced, tree_height};
ghost use Rattle.lrc_store.specs.Standing.{Stands};
ghost use Rattle.lrc_store.specs.Words.{Adds, Gains, LacksOne, Reads};
ghost use Rattle.lrc_code.specs.Forms.{tree_cell};
ghost use Rattle.lrc_places.specs.Replacing.{IsPlace};
ghost use Rattle.lrc_machine.specs.Counts.{Counted};
ghost use Rattle.lrc_bodies.specs.Bodies.{IsMeaningOf};
ghost use Rattle.lrc_bodies.specs.Counting.{IsWhole};
ghost use Rattle.lrc_session.specs.Sessions.{grammar, sorts, IsStartTree, IsOpen, IsCalled, IsTooDeep, Opens, Edits, demands};
ghost use Rattle.lrc_session.specs.Lending.{LendsFrames};
ghost use Rattle.lrc_session.specs.Proposals.{IsRootAsked, IsRootGiven, IsProposal, ProposesPut};
ghost use Rattle.lrc_session.specs.declared.fault.StartFault.TheVariants as start;
ghost use Rattle.lrc_session.specs.declared.fault.EditFault.TheVariants as edit;
ghost use Rattle.lrc_functions.specs.declared.functions.Functions.{Functions};

use crate::fault::{EditFault, StartFault};
use crate::proposal::{Proposal, put_root_call, tree_of_call, values_of_result};
use lrc_base::Term;
use lrc_bodies::{Frames, VisitMeaning};
use lrc_call_meaning::term_is_spelled;
use lrc_code::{item_of, put_term};
use lrc_functions::Functions;
use lrc_places::{Put, replace};
use lrc_store::{Handle, Store};
use lrc_visit::visit;
use std::alloc::Global;

/// A tree of the start sort in a store, with the values of its root's synthesised attributes.
#[derive(Debug, Drop)]
pub struct Session {
    pub frames: Frames,
    /// How many levels the frames have.
    pub depth: u32,
    pub tree: Handle,
    /// The list of the values.
    pub values: Handle,
    /// How many bodies ran for the tree.
    pub runs: u64,
    /// How many recalls had found nothing before the last proposal.
    pub missed: u64,
}

impl Session {
    /// Makes the frames of a session, whose visits nest at most `depth` deep, and puts the root's call
    /// of its tree into the store.
    ///
    /// # Errors
    ///
    /// TooDeep exactly where the tree has more nodes on its longest path than the depth: it has no
    /// attributes within the depth then, and nothing is put; Memory; and Full only where all rows
    /// are used and a cell of what the tree demands is in none.
    pub fn propose<St: Store<M = VisitMeaning>>(
        alloc: Global,
        store: &mut St,
        functions: &Functions,
        depth: u32,
        term: &Term,
    ) -> Result<Proposal, StartFault>
        requires tree { IsStartTree functions.now (tree term.now) }
        ensures adds { Adds (St.state store.old) (St.state store.new) (demands functions.now depth (tree term.now)) }
        ensures proposal { IfOk result (λ proposal. IsProposal functions.now (St.state store.new) (tree term.now) proposal) }
        ensures depth { IfOk result (λ proposal. proposal.depth ≡ depth) }
        ensures missed { IfOk result (λ proposal. proposal.missed ≡ (St.state store.old).missed) }
        ensures full { result ≡ Err start.Full → LacksOne (St.state store.new) (demands functions.now depth (tree term.now)) }
        ensures too_deep { result ≡ Err start.TooDeep → depth < tree_height (tree term.now) }
        ensures high { depth < tree_height (tree term.now) → (result ≡ Err start.TooDeep) × (St.state store.new ≡ St.state store.old) }
        ensures same_meaning { St.meaning store.new ≡ St.meaning store.old }
    {
        if term.height() > depth {
            return Err(StartFault::TooDeep);
        }
        term_is_spelled(term);
        let mut frames = Frames::new(alloc, functions, depth)?;
        let missed = store.missed();
        let root = put_term(store, term, &mut frames.stack)?;
        let call = put_root_call(store, root)?;
        Ok(Proposal {
            frames,
            depth,
            call,
            missed,
        })
    }

    /// Opens a session with the result of the root's visit.
    pub fn begin<St: Store<M = VisitMeaning>>(
        store: &mut St,
        functions: &Functions,
        proposal: Proposal,
        given: Handle,
    ) -> Session
        requires { (t : Tree) × IsProposal functions.now (St.state store.old) t proposal × IsRootGiven functions.now (St.state store.old) proposal.depth t given.0 }
        ensures opens { (t : Tree) → IsProposal functions.now (St.state store.old) t proposal → IsRootGiven functions.now (St.state store.old) proposal.depth t given.0 → Opens functions.now (St.state store.new) proposal.depth t result }
        ensures runs { result.runs ≡ (St.state store.old).missed - proposal.missed }
        ensures reads { Reads (St.state store.old) (St.state store.new) }
        ensures same_meaning { St.meaning store.new ≡ St.meaning store.old }
    {
        let tree = tree_of_call(store, proposal.call);
        let values = values_of_result(store, given);
        Session {
            frames: proposal.frames,
            depth: proposal.depth,
            tree,
            values,
            runs: store.missed().saturating_sub(proposal.missed),
            missed: proposal.missed,
        }
    }

    /// Opens a session with a tree of the start sort, whose visits nest at most `depth` deep. A memo
    /// that is told stays whole: with each call that is remembered those are that its visit makes. Where
    /// it is, just the calls of the root's visit are remembered besides those before, and each of them
    /// that was not is missed once.
    ///
    /// # Errors
    ///
    /// TooDeep only where the tree has no attributes within the depth, and before anything is put where
    /// it has more nodes on its longest path; Full only where all rows are used and a cell of what the
    /// tree demands is in none; and Memory.
    pub fn start<St: Store<M = VisitMeaning>>(
        alloc: Global,
        store: &mut St,
        functions: &Functions,
        depth: u32,
        term: &Term,
    ) -> Result<Session, StartFault>
        requires meaning { IsMeaningOf functions.now (St.meaning store.old) }
        requires tree { IsStartTree functions.now (tree term.now) }
        ensures gains { Gains (St.state store.old) (St.state store.new) (demands functions.now depth (tree term.now)) }
        ensures opens { IfOk result (λ session. Opens functions.now (St.state store.new) depth (tree term.now) session) }
        ensures too_deep { result ≡ Err start.TooDeep → IsTooDeep functions.now depth (tree term.now) }
        ensures high { depth < tree_height (tree term.now) → (result ≡ Err start.TooDeep) × (St.state store.new ≡ St.state store.old) }
        ensures full { result ≡ Err start.Full → LacksOne (St.state store.new) (demands functions.now depth (tree term.now)) }
        ensures runs { IfOk result (λ session. session.runs ≡ (St.state store.new).missed - (St.state store.old).missed) }
        ensures whole { IsWhole (grammar functions.now) (sorts functions.now) (St.state store.old).memo → IsWhole (grammar functions.now) (sorts functions.now) (St.state store.new).memo }
        ensures counted { IsWhole (grammar functions.now) (sorts functions.now) (St.state store.old).memo → IfOk result (λ _. Counted (St.state store.old) (St.state store.new) (IsCalled functions.now depth (tree term.now))) }
        ensures same_meaning { St.meaning store.new ≡ St.meaning store.old }
    {
        let mut proposal = Session::propose(alloc, store, functions, depth, term)?;
        let given = visit(store, functions, &mut proposal.frames, proposal.call, depth)?;
        Ok(Session::begin(store, functions, proposal, given))
    }

    /// Puts the root's call of the tree with a part put at a place into the store. The session's tree
    /// and its attributes stay. It takes no memory.
    ///
    /// # Errors
    ///
    /// BadPath exactly where the path names no place; WrongSort exactly where what stands there is of
    /// another kind; else TooDeep exactly where the part has more nodes on its longest path than the
    /// session's depth, before anything is put; and Full only where all rows are used and a cell of what
    /// the changed tree demands is in none.
    pub fn propose_put<St: Store<M = VisitMeaning>>(
        &mut self,
        store: &mut St,
        functions: &Functions,
        put: &Put<'_>,
    ) -> Result<Handle, EditFault>
        requires session { (t : Tree) × (vs : List Tree) × IsOpen functions.now (St.state store.old) self.old t vs }
        requires term { IsTrue (fits functions.now.plan.grammar.prods (tree put.now.term.now) put.now.kind) }
        ensures proposes { (t : Tree) (vs : List Tree) → IsOpen functions.now (St.state store.old) self.old t vs → ProposesPut functions.now (St.state store.old) (St.state store.new) t vs self.old self.new put.now.path.now.steps (tree put.now.term.now) put.now.kind result }
        ensures high { (t : Tree) (vs : List Tree) → IsOpen functions.now (St.state store.old) self.old t vs → IsPlace functions.now.plan.grammar.prods t put.now.path.now.steps put.now.kind → self.old.depth < tree_height (tree put.now.term.now) → (result ≡ Err edit.TooDeep) × Reads (St.state store.old) (St.state store.new) }
        ensures missed { self.new.missed ≡ (St.state store.old).missed }
        ensures same_meaning { St.meaning store.new ≡ St.meaning store.old }
    {
        term_is_spelled(put.term);
        self.missed = store.missed();
        let prods = functions.plan.grammar.prods.as_slice();
        let whole = replace(
            store,
            prods,
            self.tree,
            put,
            self.depth,
            &mut self.frames.stack,
        )?;
        Ok(put_root_call(store, whole)?)
    }

    /// Gives the session the tree of a root's call, with the result of its visit.
    pub fn settle<St: Store<M = VisitMeaning>>(
        &mut self,
        store: &mut St,
        functions: &Functions,
        call: Handle,
        given: Handle,
    )
        requires session { (t : Tree) × (vs : List Tree) × IsOpen functions.now (St.state store.old) self.old t vs }
        requires call { (attempt : Tree) × IsRootAsked functions.now (St.state store.old) attempt call.0 × IsRootGiven functions.now (St.state store.old) self.old.depth attempt given.0 }
        ensures settles { (attempt : Tree) → IsRootAsked functions.now (St.state store.old) attempt call.0 → IsRootGiven functions.now (St.state store.old) self.old.depth attempt given.0 → Opens functions.now (St.state store.new) self.old.depth attempt self.new }
        ensures depth { self.new.depth ≡ self.old.depth }
        ensures runs { self.new.runs ≡ (St.state store.old).missed - self.old.missed }
        ensures reads { Reads (St.state store.old) (St.state store.new) }
        ensures same_meaning { St.meaning store.new ≡ St.meaning store.old }
    {
        self.tree = tree_of_call(store, call);
        self.values = values_of_result(store, given);
        self.runs = store.missed().saturating_sub(self.missed);
    }

    /// Puts a part at a place of the session's tree. It takes no memory, and the machine's stack does
    /// not grow with the tree's attached trees. A memo that is told stays whole, and where it is, just the
    /// calls of the root's visit of the changed tree are remembered besides those before, and each of them
    /// that was not is missed once.
    ///
    /// # Errors
    ///
    /// BadPath exactly where the path names no place; WrongSort exactly where what stands there is of
    /// another kind; else TooDeep only where the changed tree has no attributes within the depth,
    /// and before anything is put where the part has more nodes on its longest path than the depth;
    /// and Full only where all rows are used and a cell of what the changed tree demands is in none.
    /// The session's tree and its attributes are then as they were.
    pub fn put<St: Store<M = VisitMeaning>>(
        &mut self,
        store: &mut St,
        functions: &Functions,
        put: &Put<'_>,
    ) -> Result<(), EditFault>
        requires meaning { IsMeaningOf functions.now (St.meaning store.old) }
        requires session { (t : Tree) × (vs : List Tree) × IsOpen functions.now (St.state store.old) self.old t vs }
        requires term { IsTrue (fits functions.now.plan.grammar.prods (tree put.now.term.now) put.now.kind) }
        ensures edits { (t : Tree) (vs : List Tree) → IsOpen functions.now (St.state store.old) self.old t vs → Edits functions.now (St.state store.old) (St.state store.new) t vs self.old self.new put.now.path.now.steps (tree put.now.term.now) put.now.kind result }
        ensures high { (t : Tree) (vs : List Tree) → IsOpen functions.now (St.state store.old) self.old t vs → IsPlace functions.now.plan.grammar.prods t put.now.path.now.steps put.now.kind → self.old.depth < tree_height (tree put.now.term.now) → (result ≡ Err edit.TooDeep) × Reads (St.state store.old) (St.state store.new) }
        ensures runs { IfOk result (λ _. self.new.runs ≡ (St.state store.new).missed - (St.state store.old).missed) }
        ensures runs_kept { OnErr result (self.new.runs ≡ self.old.runs) }
        ensures whole { IsWhole (grammar functions.now) (sorts functions.now) (St.state store.old).memo → IsWhole (grammar functions.now) (sorts functions.now) (St.state store.new).memo }
        ensures counted { (t : Tree) (vs : List Tree) → IsOpen functions.now (St.state store.old) self.old t vs → IsWhole (grammar functions.now) (sorts functions.now) (St.state store.old).memo → IfOk result (λ _. Counted (St.state store.old) (St.state store.new) (IsCalled functions.now self.old.depth (replaced t put.now.path.now.steps (tree put.now.term.now)))) }
        ensures same_meaning { St.meaning store.new ≡ St.meaning store.old }
    {
        let call = self.propose_put(store, functions, put)?;
        let given = visit(store, functions, &mut self.frames, call, self.depth)?;
        self.settle(store, functions, call, given);
        Ok(())
    }

    /// The frames, for the visit between the halves of a put. Whoever writes to them keeps their levels,
    /// the room of each, and that of the stack.
    pub fn frames(&mut self) -> &mut Frames
        ensures* writes_back { sem 𝓛 (LendsFrames self.entry result) }
        ensures value { result.now ≡ self.old.frames }
    {
        &mut self.frames
    }

    /// The root's synthesised attribute of this number, from 0.
    pub fn attribute<St: Store<M = VisitMeaning>>(&self, store: &mut St, i: u32) -> Handle
        requires { (functions : Functions) × (t : Tree) × (vs : List Tree) × IsOpen functions (St.state store.old) self.now t vs × (i < length vs) }
        ensures value { (functions : Functions) (t : Tree) (vs : List Tree) (v : Tree) → IsOpen functions (St.state store.old) self.now t vs → slice_get vs i ≡ Some v → Stands (St.state store.new) result.0 (tree_cell v) }
        ensures reads { Reads (St.state store.old) (St.state store.new) }
        ensures same_meaning { St.meaning store.new ≡ St.meaning store.old }
    {
        item_of(store, self.values, i)
    }

    /// The tree.
    pub fn tree(&self) -> Handle
        ensures { result ≡ self.now.tree }
    {
        self.tree
    }

    /// The list of the values of the root's synthesised attributes, in order of declaration.
    pub fn values(&self) -> Handle
        ensures { result ≡ self.now.values }
    {
        self.values
    }

    /// How many bodies ran in the last `start`, `put`, `copy`, or halves of these, that gave the session its
    /// tree.
    pub fn runs(&self) -> u64
        ensures { result ≡ self.now.runs }
    {
        self.runs
    }
}
