ghost use Rattle.std.specs.Prelude.{◌≡◌, ℕ, List, length};
ghost use Rattle.lrc_meaning.specs.Grammar.{Grammar};
ghost use Rattle.lrc_order_meaning.specs.declared.Partition.{Partition};
ghost use Rattle.lrc_plan_meaning.specs.declared.Bound.{Bound};
ghost use Rattle.lrc_visit_meaning.specs.Values.{Data};
ghost use Rattle.lrc_store.specs.Words.{Reads};
ghost use Rattle.lrc_frames.specs.declared.body.Body.{Body};
ghost use Rattle.lrc_frames.specs.Frames.{Run};
ghost use Rattle.lrc_frames.specs.Lists.{FillsEach, FilledEachIf};

use crate::filling::fill;
use crate::lists::front_of;
use crate::reading::Reading;
use lrc_base::List;
use lrc_eval::Val;
use lrc_store::{Handle, Store};

/// Puts what is in the bindings of a list into the frame, each item at its number; whether there are as
/// many bindings as lists of numbers, and as many items in each.
pub(crate) fn fill_each<St: Store>(
    store: &mut St,
    frame: &mut [Val],
    lists: &[List<u32>],
    bindings: Handle,
    reading: Reading,
) -> bool
    requires { (g : Grammar) × (parts : List Partition) × (body : Body) × (r : Run) × (items : ℕ → List Bound) × (visits : List ℕ) × (rows : List Data) × FillsEach g parts (St.state store.old) frame.old body r lists.now bindings.0 reading items visits rows }
    ensures filled { (g : Grammar) (parts : List Partition) (body : Body) (r : Run) (items : ℕ → List Bound) (visits : List ℕ) (rows : List Data) → FillsEach g parts (St.state store.old) frame.old body r lists.now bindings.0 reading items visits rows → FilledEachIf g parts (St.state store.new) frame.new body r items visits rows result }
    ensures room { length frame.new ≡ length frame.old }
    ensures reads { Reads (St.state store.old) (St.state store.new) }
    ensures same_meaning { St.meaning store.new ≡ St.meaning store.old }
{
    let mut rest = bindings;
    'lists: for numbers in lists {
        let Some(front) = front_of(store, rest) else {
            return false;
        };
        if !fill(store, frame, numbers.as_slice(), front.item, reading) {
            return false;
        }
        rest = front.rest;
    }
    front_of(store, rest).is_none()
}
