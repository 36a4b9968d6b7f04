ghost use Rattle.std.specs.Prelude.{◌≡◌, ℕ, List, length};
ghost use Rattle.lrc_meaning.specs.Grammar.{Grammar};
ghost use Rattle.lrc_order_meaning.specs.declared.Partition.{Partition};
ghost use Rattle.lrc_visit_meaning.specs.Values as plain;
ghost use Rattle.lrc_store.specs.Words.{Reads};
ghost use Rattle.lrc_frames.specs.declared.body.Body.{Body};
ghost use Rattle.lrc_frames.specs.Frames.{Run};
ghost use Rattle.lrc_frames.specs.Taking.{TakesFrom, Takes};

use crate::filling::fill;
use crate::reading::Reading;
use lrc_code::result_parts;
use lrc_eval::Val;
use lrc_functions::Callee;
use lrc_store::{Handle, Store};

/// Puts what a visit of a symbol gave into the frame, and answers the result's height, of which no
/// more than `u32::MAX` is told.
pub fn take_result<St: Store>(
    store: &mut St,
    frame: &mut [Val],
    callee: &Callee,
    outcome: Handle,
) -> u32
    requires { (g : Grammar) × (parts : List Partition) × (body : Body) × (r : Run) × (n : ℕ) × (v : ℕ) × (given : plain.Result) × TakesFrom g parts (St.state store.old) frame.old body r callee.now outcome.0 n v given }
    ensures takes { (g : Grammar) (parts : List Partition) (body : Body) (r : Run) (n v : ℕ) (given : plain.Result) → TakesFrom g parts (St.state store.old) frame.old body r callee.now outcome.0 n v given → Takes g parts (St.state store.new) frame.new body r n v given result }
    ensures room { length frame.new ≡ length frame.old }
    ensures reads { Reads (St.state store.old) (St.state store.new) }
    ensures same_meaning { St.meaning store.new ≡ St.meaning store.old }
{
    // There are as many values, and as many bindings, as the visit gives.
    let parts = result_parts(store, outcome);
    let values = callee.synthesised.as_slice();
    let _all_values = fill(store, frame, values, parts.synthesised, Reading::Values);
    let bindings = callee.later.as_slice();
    let _all_bindings = fill(store, frame, bindings, parts.bindings, Reading::Bindings);
    parts.height
}
