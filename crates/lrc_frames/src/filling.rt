ghost use Rattle.std.specs.Prelude.{◌≡◌, List, length};
ghost use Rattle.lrc_meaning.specs.Grammar.{Grammar};
ghost use Rattle.lrc_order_meaning.specs.declared.Partition.{Partition};
ghost use Rattle.lrc_plan_meaning.specs.declared.Bound.{Bound};
ghost use Rattle.lrc_visit_meaning.specs.Values.{Datum};
ghost use Rattle.lrc_store.specs.Words.{Reads};
ghost use Rattle.lrc_frames.specs.declared.body.Body.{Body};
ghost use Rattle.lrc_frames.specs.Frames.{Run};
ghost use Rattle.lrc_frames.specs.Lists.{Fills, FilledIf};

use crate::lists::front_of;
use crate::reading::{Reading, read};
use lrc_eval::Val;
use lrc_store::{Handle, Store};

/// Puts the items of a list into the frame, each at its number, as far as there are both; whether
/// there are as many items as numbers.
pub(crate) fn fill<St: Store>(
    store: &mut St,
    frame: &mut [Val],
    numbers: &[u32],
    list: Handle,
    reading: Reading,
) -> bool
    requires { (g : Grammar) × (parts : List Partition) × (body : Body) × (r : Run) × (items : List Bound) × (given : List Datum) × Fills g parts (St.state store.old) frame.old body r numbers.now list.0 reading items given }
    ensures filled { (g : Grammar) (parts : List Partition) (body : Body) (r : Run) (items : List Bound) (given : List Datum) → Fills g parts (St.state store.old) frame.old body r numbers.now list.0 reading items given → FilledIf g parts (St.state store.new) frame.new body r items given result }
    ensures room { length frame.new ≡ length frame.old }
    ensures reads { Reads (St.state store.old) (St.state store.new) }
    ensures same_meaning { St.meaning store.new ≡ St.meaning store.old }
{
    let mut rest = list;
    'numbers: for number in numbers {
        let Some(front) = front_of(store, rest) else {
            return false;
        };
        frame[*number as usize] = read(store, reading, *number, front.item);
        rest = front.rest;
    }
    front_of(store, rest).is_none()
}
