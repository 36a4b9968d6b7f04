ghost use Rattle.std.specs.Prelude.{◌≡◌, ◌≤◌, ◌-◌, ◌^◌, ℕ, pos, min};
ghost use Rattle.lrc_store.specs.Standing.{IsKnown, meant};
ghost use Rattle.lrc_store.specs.Words.{Reads};
ghost use Rattle.lrc_code.specs.Forms.{call_cell, result_cell};
ghost use Rattle.lrc_code.specs.Building.{Builds};
ghost use Rattle.lrc_code.specs.Reading.{IsCall, IsResult, HasCallParts, HasResultParts};

use crate::pairs::{number_of, put_number, put_pair, sides_of};
use lrc_store::{Full, Handle, Store};

/// The tag of the two lists of a call or a result.
const LISTS: u32 = 5;

/// The tag of a result.
const RESULT: u32 = 6;

/// The tag of a call of visit 0, which is none; those of the visits follow it.
const CALL: u32 = 32;

/// The parts of a call.
#[derive(Debug, Clone, Copy, PartialEq, Eq)]
pub struct CallParts {
    pub tree: Handle,
    pub visit: u32,
    /// The list of inherited values.
    pub inherited: Handle,
    /// The list of bindings of earlier visits.
    pub bindings: Handle,
}

/// The parts of a result.
#[derive(Debug, Clone, Copy, PartialEq, Eq)]
pub struct ResultParts {
    /// The height; `u32::MAX` stands for every height from there on.
    pub height: u32,
    /// The list of synthesised values.
    pub synthesised: Handle,
    /// The list of bindings for later visits.
    pub bindings: Handle,
}

/// A handle of the call of this visit, from 1 to 223, of the tree, with the list of inherited values
/// and the list of bindings of earlier visits.
///
/// # Errors
///
/// Full, only where all rows are used and a part of the call is in none.
pub fn put_call<St: Store>(
    store: &mut St,
    tree: Handle,
    visit: u32,
    inherited: Handle,
    bindings: Handle,
) -> Result<Handle, Full>
    requires visit_to { visit ≤ 223 }
    requires tree_known { IsKnown (St.state store.old) tree.0 }
    requires inherited_known { IsKnown (St.state store.old) inherited.0 }
    requires bindings_known { IsKnown (St.state store.old) bindings.0 }
    ensures builds { let s = St.state store.old in Builds s (St.state store.new) (call_cell (meant s tree.0) visit (meant s inherited.0) (meant s bindings.0)) result }
    ensures same_meaning { St.meaning store.new ≡ St.meaning store.old }
{
    let lists = put_pair(store, LISTS, inherited, bindings)?;
    put_pair(store, CALL + visit, tree, lists)
}

/// A handle of the result with this height, the list of synthesised values, and the list of bindings
/// for later visits.
///
/// # Errors
///
/// Full, only where all rows are used and a part of the result is in none.
pub fn put_result<St: Store>(
    store: &mut St,
    height: u32,
    synthesised: Handle,
    bindings: Handle,
) -> Result<Handle, Full>
    requires synthesised_known { IsKnown (St.state store.old) synthesised.0 }
    requires bindings_known { IsKnown (St.state store.old) bindings.0 }
    ensures builds { let s = St.state store.old in Builds s (St.state store.new) (result_cell height (meant s synthesised.0) (meant s bindings.0)) result }
    ensures same_meaning { St.meaning store.new ≡ St.meaning store.old }
{
    let number = put_number(store, i64::from(height))?;
    let lists = put_pair(store, LISTS, synthesised, bindings)?;
    put_pair(store, RESULT, number, lists)
}

/// The parts of the call that the handle stands for.
pub fn call_parts<St: Store>(store: &mut St, call: Handle) -> CallParts
    requires known { IsKnown (St.state store.old) call.0 }
    requires call { IsCall (meant (St.state store.old) call.0) }
    ensures parts { HasCallParts (St.state store.new) (meant (St.state store.old) call.0) result }
    ensures reads { Reads (St.state store.old) (St.state store.new) }
    ensures same_meaning { St.meaning store.new ≡ St.meaning store.old }
{
    let whole = sides_of(store, call);
    let lists = sides_of(store, whole.right);
    CallParts {
        tree: whole.left,
        visit: whole.tag - CALL,
        inherited: lists.left,
        bindings: lists.right,
    }
}

/// The height that is read off a result's number: no more than `u32::MAX`.
fn height_in(number: i64) -> u32
    ensures { (height : ℕ) → number ≡ pos height → result ≡ min height (2 ^ 32 - 1) }
{
    u32::try_from(number).unwrap_or(u32::MAX)
}

/// The parts of the result that the handle stands for, which may be of any height.
pub fn result_parts<St: Store>(store: &mut St, outcome: Handle) -> ResultParts
    requires known { IsKnown (St.state store.old) outcome.0 }
    requires outcome { IsResult (meant (St.state store.old) outcome.0) }
    ensures parts { HasResultParts (St.state store.new) (meant (St.state store.old) outcome.0) result }
    ensures reads { Reads (St.state store.old) (St.state store.new) }
    ensures same_meaning { St.meaning store.new ≡ St.meaning store.old }
{
    let whole = sides_of(store, outcome);
    let number = number_of(store, whole.left);
    let lists = sides_of(store, whole.right);
    ResultParts {
        height: height_in(number),
        synthesised: lists.left,
        bindings: lists.right,
    }
}
