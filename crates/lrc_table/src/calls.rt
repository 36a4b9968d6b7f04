//! The calls of a pass, as those of a store.
ghost use Rattle.std.specs.Prelude.{◌≡◌, ◌≤◌, ◌↔◌, IsTrue};
ghost use Rattle.lrc_store.specs.Cells.{number, pair};
ghost use Rattle.lrc_store.specs.Standing.{IsKnown, meant};
ghost use Rattle.lrc_store.specs.Words.{Puts, Reads, Shows, Keeps, Grows};
ghost use Rattle.lrc_table.specs.Passes.{IsOf};
ghost use Rattle.lrc_table.specs.Standings.{standing, NotesOnly, NotesNone, IsNoted};

use crate::table::{Pass, Table};
use lrc_rule::Content;
use lrc_store::{Cell, Full, Handle, Meaning};
use std::marker::Brand;

impl<M: Meaning> Pass<M> {
    /// A known handle that stands for the number.
    ///
    /// # Errors
    ///
    /// Full, only where the number was found absent and all rows of the pass are used.
    pub fn int(&mut self, table: &Table<M>, value: i64) -> Result<Handle, Full>
        requires { IsOf self.old table.now }
        ensures of { IsOf self.new table.now }
        ensures puts { Puts (standing self.old.view) (standing self.new.view) (number value) result }
        ensures notes { NotesOnly self.old.view self.new.view (number value) }
        ensures noted { IsNoted self.old.view self.new.view (number value) result }
        ensures unnoted { NotesNone self.old.view self.new.view result }
        ensures memo_steps { self.new.view.learned.memo_steps ≡ self.old.view.learned.memo_steps }
    {
        let _rows = self.published();
        let content = Content {
            tag: 0,
            left: value.cast_unsigned(),
            right: 0,
        };
        self.put::<Brand>(table, content)
    }

    /// A known handle that stands for the pair, with a tag from 1 to 65,535.
    ///
    /// # Errors
    ///
    /// Full, only where the pair was found absent and all rows of the pass are used.
    pub fn cell(
        &mut self,
        table: &Table<M>,
        tag: u32,
        left: Handle,
        right: Handle,
    ) -> Result<Handle, Full>
        requires of { IsOf self.old table.now }
        requires tag_from { 1 ≤ tag }
        requires tag_to { tag ≤ 65535 }
        requires left_known { IsKnown (standing self.old.view) left.0 }
        requires right_known { IsKnown (standing self.old.view) right.0 }
        ensures of { IsOf self.new table.now }
        ensures puts { Puts (standing self.old.view) (standing self.new.view) (pair tag (meant (standing self.old.view) left.0) (meant (standing self.old.view) right.0)) result }
        ensures notes { NotesOnly self.old.view self.new.view (pair tag (meant (standing self.old.view) left.0) (meant (standing self.old.view) right.0)) }
        ensures noted { IsNoted self.old.view self.new.view (pair tag (meant (standing self.old.view) left.0) (meant (standing self.old.view) right.0)) result }
        ensures unnoted { NotesNone self.old.view self.new.view result }
        ensures memo_steps { self.new.view.learned.memo_steps ≡ self.old.view.learned.memo_steps }
    {
        let _rows = self.published();
        let content = Content {
            tag: u64::from(tag),
            left: u64::from(left.0),
            right: u64::from(right.0),
        };
        self.put::<Brand>(table, content)
    }

    /// The outermost form of the cell that the handle stands for; its handles are known.
    pub fn look(&mut self, table: &Table<M>, handle: Handle) -> Cell
        requires of { IsOf self.old table.now }
        requires known { IsKnown (standing self.old.view) handle.0 }
        ensures of { IsOf self.new table.now }
        ensures shows { Shows (standing self.new.view) result (meant (standing self.old.view) handle.0) }
        ensures reads { Reads (standing self.old.view) (standing self.new.view) }
        ensures notes { self.new.view.learned.notes ≡ self.old.view.learned.notes }
        ensures memo_steps { self.new.view.learned.memo_steps ≡ self.old.view.learned.memo_steps }
    {
        let _rows = self.published();
        if handle == Handle::NIL {
            return Cell::Nil;
        }
        let content = self.content_of(table, handle.0 - 1);
        if content.tag == 0 {
            return Cell::Number(content.left.cast_signed());
        }
        let left = Handle(content.left as u32);
        let right = Handle(content.right as u32);
        Cell::Pair(content.tag as u32, left, right)
    }

    /// Whether both handles stand for equal cells, as they do exactly where they are equal.
    pub fn same(&self, left: Handle, right: Handle) -> bool
        requires left_known { IsKnown (standing self.now.view) left.0 }
        requires right_known { IsKnown (standing self.now.view) right.0 }
        ensures cells { IsTrue result ↔ (meant (standing self.now.view) left.0 ≡ meant (standing self.now.view) right.0) }
        ensures handles { IsTrue result ↔ (left ≡ right) }
    {
        let _rows = self.published();
        left == right
    }

    /// This pass then knows the handles of both, and they are equal exactly where their cells are.
    /// The rows that the other has not used stay unused.
    pub fn meet(&mut self, table: &Table<M>, other: Pass<M>)
        requires of { IsOf self.old table.now }
        requires other_of { IsOf other table.now }
        ensures of { IsOf self.new table.now }
        ensures reads { Reads (standing self.old.view) (standing self.new.view) }
        ensures meets { Keeps (standing other.view) (standing self.new.view) }
        ensures seen { Grows (standing other.view).seen (standing self.new.view).seen }
        ensures notes { self.new.view.learned.notes ≡ self.old.view.learned.notes }
        ensures memo_steps { self.new.view.learned.memo_steps ≡ self.old.view.learned.memo_steps }
    {
        let _rows = self.published();
        self.take_in(table, other);
    }
}
