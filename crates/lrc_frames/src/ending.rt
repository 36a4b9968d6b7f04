ghost use Rattle.std.specs.Prelude.{◌≡◌, ℕ, List};
ghost use Rattle.lrc_meaning.specs.Grammar as meaning;
ghost use Rattle.lrc_order_meaning.specs.declared.Partition.{Partition};
ghost use Rattle.lrc_visit_meaning.specs.Visits.{Walked, result_of};
ghost use Rattle.lrc_frames.specs.Frames.{Run};
ghost use Rattle.lrc_frames.specs.Writing.{CanEnd, Ends};

use crate::items::{put_bindings, put_items};
use lrc_code::put_result;
use lrc_eval::Val;
use lrc_functions::Function;
use lrc_store::{Full, Handle, Store};

/// A handle of the result of a visit at its end, which has this height: its synthesised values, and
/// what it hands on.
///
/// # Errors
///
/// Full, only where all rows are used and a part of the result is in none.
pub fn finish<St: Store>(
    store: &mut St,
    frame: &[Val],
    function: &Function,
    height: u32,
) -> Result<Handle, Full>
    requires { (g : meaning.Grammar) × (parts : List Partition) × (r : Run) × (v : ℕ) × (w : Walked) × CanEnd g parts (St.state store.old) frame.now function.now height r v w }
    ensures ends { (g : meaning.Grammar) (parts : List Partition) (r : Run) (v : ℕ) (w : Walked) → CanEnd g parts (St.state store.old) frame.now function.now height r v w → Ends (St.state store.old) (St.state store.new) (result_of g parts r.production v w) result }
    ensures same_meaning { St.meaning store.new ≡ St.meaning store.old }
{
    let synthesised = put_items(store, frame, function.synthesised.as_slice())?;
    let bindings = put_bindings(store, frame, function.later.as_slice())?;
    put_result(store, height, synthesised, bindings)
}
