ghost use Rattle.std.specs.Prelude.{◌≡◌, ◌↔◌, ◌<◌, ◌≤◌, IsTrue, length};
ghost use Rattle.lrc_store.specs.Cells.{CellTree, number, pair, IsWithin};
ghost use Rattle.lrc_store.specs.Standing.{Standing, IsSound, IsKnown, Told, meant};
ghost use Rattle.lrc_store.specs.Words.{Puts, Reads, Stays, Shows, Tells, Recalls, Remembers};

use crate::cells::{Cell, Handle};
use crate::meanings::Meaning;

/// A cell was in no row, and all rows are used.
#[derive(Debug, Drop)]
pub struct Full;

/// What a store has of a call.
#[derive(Debug, Drop)]
pub enum Recall {
    /// A known handle, whose cell may be remembered for this call.
    Found(Handle),
    /// The word at the call's place.
    Missed(u64),
}

/// A store of cells, and of results of calls.
///
/// Every handle given to a call is known. No call takes memory, and none changes in which memory the
/// cells lie.
pub trait Store {
    /// Which results may be remembered.
    type M: Meaning;

    // What the store stands for.
    ghost state: { Self → Standing };

    // The meaning of this store, which never changes.
    ghost meaning: { Self → Self.M };

    /// A known handle that stands for the number.
    ///
    /// # Errors
    ///
    /// Full, only where all rows are used and no known handle stands for the number.
    fn int(&mut self, value: i64) -> Result<Handle, Full>
        ensures puts { Puts (state self.old) (state self.new) (number value) result }
        ensures same_meaning { meaning self.new ≡ meaning self.old };

    /// A known handle that stands for the pair, with a tag from 1 to 65,535.
    ///
    /// # Errors
    ///
    /// Full, only where all rows are used and no known handle stands for the pair.
    fn cell(&mut self, tag: u32, left: Handle, right: Handle) -> Result<Handle, Full>
        requires tag_from { 1 ≤ tag }
        requires tag_to { tag ≤ 65535 }
        requires left_known { IsKnown (state self.old) left.0 }
        requires right_known { IsKnown (state self.old) right.0 }
        ensures puts { Puts (state self.old) (state self.new) (pair tag (meant (state self.old) left.0) (meant (state self.old) right.0)) result }
        ensures same_meaning { meaning self.new ≡ meaning self.old };

    /// The outermost form of the cell that the handle stands for; its handles are known.
    fn look(&mut self, handle: Handle) -> Cell
        requires { IsKnown (state self.old) handle.0 }
        ensures shows { Shows (state self.new) result (meant (state self.old) handle.0) }
        ensures reads { Reads (state self.old) (state self.new) }
        ensures same_meaning { meaning self.new ≡ meaning self.old };

    /// Whether both handles stand for equal cells, as they do exactly where they are equal.
    fn same(&self, left: Handle, right: Handle) -> bool
        requires left_known { IsKnown (state self.now) left.0 }
        requires right_known { IsKnown (state self.now) right.0 }
        ensures cells { IsTrue result ↔ (meant (state self.now) left.0 ≡ meant (state self.now) right.0) }
        ensures handles { IsTrue result ↔ (left ≡ right) };

    /// The remembered result of a call, or that there is none.
    fn recall(&mut self, call: Handle) -> Recall
        requires { IsKnown (state self.old) call.0 }
        ensures stays { Stays (state self.old) (state self.new) }
        ensures same_memo { (state self.new).memo ≡ (state self.old).memo }
        ensures answers { Recalls (Self.M.allows (meaning self.old)) (Self.M.reach (meaning self.old)) (state self.old) (state self.new) (meant (state self.old) call.0) result }
        ensures same_meaning { meaning self.new ≡ meaning self.old };

    /// Remembers the result of a call. The meaning allows the pair, and each cell of the call's
    /// reach is in the store for good, where the store tells these cells.
    fn remember(&mut self, call: Handle, outcome: Handle)
        requires call_known { IsKnown (state self.old) call.0 }
        requires outcome_known { IsKnown (state self.old) outcome.0 }
        requires allowed { Self.M.allows (meaning self.old) (meant (state self.old) call.0) (meant (state self.old) outcome.0) }
        requires reached { Told (state self.old).seen (IsWithin (Self.M.reach (meaning self.old) (meant (state self.old) call.0) (meant (state self.old) outcome.0))) }
        ensures stays { Stays (state self.old) (state self.new) }
        ensures same_missed { (state self.new).missed ≡ (state self.old).missed }
        ensures gains { Remembers (state self.old).memo (state self.new).memo (meant (state self.old) call.0) (meant (state self.old) outcome.0) }
        ensures same_meaning { meaning self.new ≡ meaning self.old };

    /// What stands at the place may be forgotten, where the store does not tell its memo.
    fn forget(&mut self, place: u64)
        ensures reads { Reads (state self.old) (state self.new) }
        ensures same_meaning { meaning self.new ≡ meaning self.old };

    /// How many rows this owner made.
    fn published(&self) -> u32
        ensures count { result ≡ length (state self.now).made }
        ensures sound { IsSound (state self.now) };

    /// How many rows this owner may make.
    fn quota(&self) -> u32
        ensures { result ≡ (state self.now).quota };

    /// How many recalls found nothing, counted up to the type's last value.
    fn missed(&self) -> u64
        ensures { result ≡ (state self.now).missed };
}
