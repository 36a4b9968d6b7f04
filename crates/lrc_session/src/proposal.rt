ghost use Rattle.std.specs.Prelude.{◌≡◌};
ghost use Rattle.lrc_meaning.specs.Tree.{Tree};
ghost use Rattle.lrc_store.specs.Standing.{Stands};
ghost use Rattle.lrc_store.specs.Words.{Reads};
ghost use Rattle.lrc_code.specs.Forms.{tree_cell};
ghost use Rattle.lrc_code.specs.Building.{Builds};
ghost use Rattle.lrc_visit_meaning.specs.Values.{Call, Result, root_call};
ghost use Rattle.lrc_call_meaning.specs.Forms.{call_form, result_form, values_cell};

use lrc_bodies::Frames;
use lrc_code::{call_parts, put_call, result_parts};
use lrc_store::{Full, Handle, Store};

/// A session that is to be opened, once the root's visit has a result.
#[derive(Debug, Drop)]
pub struct Proposal {
    pub frames: Frames,
    /// How many levels the frames have.
    pub depth: u32,
    /// The root's call.
    pub call: Handle,
    /// How many recalls had found nothing before.
    pub missed: u64,
}

/// The call of the start sort's one visit, of the tree that the handle stands for.
pub(crate) fn put_root_call<St: Store>(store: &mut St, root: Handle) -> Result<Handle, Full>
    requires { (t : Tree) × Stands (St.state store.old) root.0 (tree_cell t) }
    ensures builds { (t : Tree) → Stands (St.state store.old) root.0 (tree_cell t) → Builds (St.state store.old) (St.state store.new) (call_form (root_call t)) result }
    ensures same_meaning { St.meaning store.new ≡ St.meaning store.old }
{
    // A sound store knows nil.
    let _ = store.published();
    put_call(store, root, 1, Handle::NIL, Handle::NIL)
}

/// The tree of a call.
pub(crate) fn tree_of_call<St: Store>(store: &mut St, call: Handle) -> Handle
    requires { (c : Call) × Stands (St.state store.old) call.0 (call_form c) }
    ensures tree { (c : Call) → Stands (St.state store.old) call.0 (call_form c) → Stands (St.state store.new) result.0 (tree_cell c.tree) }
    ensures reads { Reads (St.state store.old) (St.state store.new) }
    ensures same_meaning { St.meaning store.new ≡ St.meaning store.old }
{
    call_parts(store, call).tree
}

/// The list of synthesised values of a result.
pub(crate) fn values_of_result<St: Store>(store: &mut St, outcome: Handle) -> Handle
    requires { (r : Result) × Stands (St.state store.old) outcome.0 (result_form r) }
    ensures values { (r : Result) → Stands (St.state store.old) outcome.0 (result_form r) → Stands (St.state store.new) result.0 (values_cell r.synthesised) }
    ensures reads { Reads (St.state store.old) (St.state store.new) }
    ensures same_meaning { St.meaning store.new ≡ St.meaning store.old }
{
    result_parts(store, outcome).synthesised
}
