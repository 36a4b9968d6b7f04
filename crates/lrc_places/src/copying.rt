ghost use Rattle.std.specs.Prelude.{◌≡◌, ◌≤◌, IsSome, IsTrue, length};
ghost use Rattle.std.specs.Bool.{Decides};
ghost use Rattle.lrc_base.specs.declared.grammar.Kind.{Kind};
ghost use Rattle.lrc_meaning.specs.Tree.{Tree, fits, kind_of};
ghost use Rattle.lrc_store.specs.Standing.{Stands};
ghost use Rattle.lrc_store.specs.Words.{Reads};
ghost use Rattle.lrc_code.specs.Forms.{tree_cell};
ghost use Rattle.lrc_places.specs.Copying.{Copies};

use crate::kinds::kind_of;
use crate::places::part_at;
use crate::replacing::replaced;
use lrc_base::{Path, Production};
use lrc_store::{Full, Handle, Store};

/// Why nothing was copied.
#[derive(Debug, Clone, Copy, PartialEq, Eq)]
pub enum CopyFault {
    /// One of the paths names no place of the tree.
    BadPath = 1,
    /// The parts at the two places are of different kinds.
    WrongSort = 2,
    /// All rows are used, and a part of the new tree is in none.
    Full = 3,
}

impl From<Full> for CopyFault {
    ghost use Rattle.lrc_places.specs.declared.copying.CopyFault.TheVariants.{Full};

    ghost from_gives = { λ _ fault. fault ≡ Full };

    fn from(_full: Full) -> CopyFault {
        CopyFault::Full
    }
}

/// The two trees are of one kind. Each is looked at once.
fn are_of_one_kind<St: Store>(
    store: &mut St,
    prods: &[Production],
    one: Handle,
    other: Handle,
) -> bool
    requires one { (t : Tree) × Stands (St.state store.old) one.0 (tree_cell t) × IsSome (kind_of prods.now t) }
    requires other { (t : Tree) × Stands (St.state store.old) other.0 (tree_cell t) × IsSome (kind_of prods.now t) }
    ensures same { (t u : Tree) → Stands (St.state store.old) one.0 (tree_cell t) → Stands (St.state store.old) other.0 (tree_cell u) → Decides result (kind_of prods.now t ≡ kind_of prods.now u) }
    ensures reads { Reads (St.state store.old) (St.state store.new) }
    ensures same_meaning { St.meaning store.new ≡ St.meaning store.old }
{
    let kind = kind_of(store, prods, one);
    kind_of(store, prods, other) == kind
}

/// A handle of the tree with the part at the first place at the second too, where a part of the same
/// kind stands.
///
/// The two places, the first before the second, and the kinds of what stands there are looked up before
/// anything is put, so that the store is only read where they are wrong. The part is shared. The time is
/// linear in the paths and the numbers of their steps, of which none goes past the last child, and it
/// takes no memory.
///
/// # Errors
///
/// `BadPath` where one of the paths names no place, `WrongSort` where both do and the parts there are of
/// different kinds, and `Full` only where all rows are used and a part of the new tree is in none.
pub fn copy_part<St: Store>(
    store: &mut St,
    prods: &[Production],
    whole: Handle,
    from: &Path,
    to: &Path,
) -> Result<Handle, CopyFault>
    requires few { length prods.now ≤ 65280 }
    requires whole { (t : Tree) × (kind : Kind) × IsTrue (fits prods.now t kind) × Stands (St.state store.old) whole.0 (tree_cell t) }
    ensures copies { (t : Tree) (kind : Kind) → IsTrue (fits prods.now t kind) → Stands (St.state store.old) whole.0 (tree_cell t) → Copies prods.now (St.state store.old) (St.state store.new) t from.now.steps to.now.steps result }
    ensures same_meaning { St.meaning store.new ≡ St.meaning store.old }
{
    let part = part_at(store, whole, from.steps.as_slice()).ok_or(CopyFault::BadPath)?;
    let old = part_at(store, whole, to.steps.as_slice()).ok_or(CopyFault::BadPath)?;
    if !are_of_one_kind(store, prods, part, old) {
        return Err(CopyFault::WrongSort);
    }
    Ok(replaced(store, whole, to.steps.as_slice(), part)?)
}
