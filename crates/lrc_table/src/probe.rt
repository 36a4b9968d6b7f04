//! How a pass seeks the row of a cell, and publishes it where there is none.
ghost use Rattle.std.specs.Prelude.{◌≡◌, ℕ, ◌+◌, ◌%◌, ◌<◌, ◌≤◌, ◌^◌, length, max, MatchOption};
ghost use Rattle.lrc_store.specs.Cells.{CellTree};
ghost use Rattle.lrc_rule.specs.Rows.{Stands, Fits, content, depth, IsPublished, Names};
ghost use Rattle.lrc_rule.specs.Views.{now, next};
ghost use Rattle.lrc_rule.specs.Steps.{IsCurrent, Follows};
ghost use Rattle.lrc_table.specs.Passes.{IsOf, Reads, Seeks, IsOnPath, Claims, Answers, PassesBy, Drafts};

use crate::table::{Pass, Table};
use lrc_rule::{Content, Sought, home};
use lrc_store::{Full, Handle, Meaning};

/// What came of trying to publish a row in a bucket.
pub(crate) enum Claim {
    /// The bucket was empty, and all rows of the pass are used.
    Full,
    /// The bucket was empty, and has the pass's row now.
    Own(Handle),
    /// The bucket has the row of this handle.
    Taken(Handle),
}

/// The place that comes so many after another, from the last to the first.
fn place_after(place: u32, steps: u32, places: u32) -> u32
    requires place { place < places }
    requires steps { steps < places }
    requires few { places + places < 2 ^ 32 }
    ensures value { result ≡ (place + steps) % places }
    ensures within { result < places }
{
    let sum = place + steps;
    if sum < places { sum } else { sum - places }
}

/// How deep a pair is whose sides are so deep.
fn depth_over(left: u64, right: u64) -> u64
    requires left { left < 2 ^ 32 }
    requires right { right < 2 ^ 32 }
    ensures { result ≡ 1 + max left right }
{
    1 + left.max(right)
}

impl<M: Meaning> Pass<M> {
    /// The first three words of a published row.
    pub(crate) fn content_of(&mut self, table: &Table<M>, row: u32) -> Content
        requires of { IsOf self.old table.now }
        requires current { IsCurrent self.old.view }
        requires published { IsPublished self.old.view.layout (now self.old.view) row }
        ensures reads { Reads self.old self.new }
        ensures content { result ≡ content self.new.view.layout (now self.new.view) row }
    {
        let layout = table.layout();
        let tag = self.load(table, layout.part(row, 0));
        let left = self.load(table, layout.part(row, 1));
        let right = self.load(table, layout.part(row, 2));
        Content { tag, left, right }
    }

    /// How deep the cell of a known handle is.
    fn depth_of(&mut self, table: &Table<M>, handle: u64) -> u64
        requires of { IsOf self.old table.now }
        requires current { IsCurrent self.old.view }
        requires known { (cell : CellTree) × Stands self.old.view.layout (now self.old.view) cell handle }
        ensures reads { Reads self.old self.new }
        ensures depth { (cell : CellTree) → Stands self.old.view.layout (now self.old.view) cell handle → result ≡ depth cell }
        ensures small { result < 2 ^ 32 }
    {
        if handle == 0 {
            return 0;
        }
        let layout = table.layout();
        self.load(table, layout.part((handle - 1) as u32, 3))
    }

    /// How deep the cell of these three words is.
    fn depth_of_content<C: Sought>(&mut self, table: &Table<M>, content: Content) -> u64
        requires of { IsOf self.old table.now }
        requires current { IsCurrent self.old.view }
        requires fits { Fits self.old.view.layout (now self.old.view) C.cell content }
        ensures reads { Reads self.old self.new }
        ensures depth { result ≡ depth C.cell }
    {
        if content.tag == 0 {
            return 1;
        }
        let left = self.depth_of(table, content.left);
        let right = self.depth_of(table, content.right);
        depth_over(left, right)
    }

    /// Stores the four words of a row for the sought cell.
    fn draft<C: Sought>(&mut self, table: &Table<M>, content: Content)
        requires of { IsOf self.old table.now }
        requires current { IsCurrent self.old.view }
        requires room { length self.old.view.owned.made < self.old.view.owned.quota }
        requires fits { Fits self.old.view.layout (now self.old.view) C.cell content }
        ensures { Drafts self.old self.new content (depth C.cell) }
    {
        let depth = self.depth_of_content::<C>(table, content);
        self.draft_part(table, 0, content.tag);
        self.draft_part(table, 1, content.left);
        self.draft_part(table, 2, content.right);
        self.draft_part(table, 3, depth);
    }

    /// Drafts a row for the sought cell, and exchanges the bucket for it if that is still empty.
    fn publish<C: Sought>(&mut self, table: &Table<M>, content: Content, place: u32) -> Claim
        requires of { IsOf self.old table.now }
        requires current { IsCurrent self.old.view }
        requires room { length self.old.view.owned.made < self.old.view.owned.quota }
        requires place { place < table.now.layout.buckets }
        requires path { IsOnPath self.old.view C.cell content place }
        ensures seeks { Seeks self.old self.new C.cell }
        ensures claims { Claims self.old self.new C.cell place result }
    {
        self.draft::<C>(table, content);
        let found = self.exchange(table, place);
        if found == 0 {
            Claim::Own(self.last())
        } else {
            Claim::Taken(Handle(found as u32))
        }
    }

    /// Looks into the bucket at a place of the path, and publishes a row there if it is empty.
    fn claim<C: Sought>(&mut self, table: &Table<M>, content: Content, place: u32) -> Claim
        requires of { IsOf self.old table.now }
        requires current { IsCurrent self.old.view }
        requires place { place < table.now.layout.buckets }
        requires path { IsOnPath self.old.view C.cell content place }
        ensures seeks { Seeks self.old self.new C.cell }
        ensures claims { Claims self.old self.new C.cell place result }
    {
        let found = self.load_bucket::<C>(table, place);
        if found != 0 {
            return Claim::Taken(Handle(found as u32));
        }
        if self.published() == self.quota() {
            return Claim::Full;
        }
        self.publish::<C>(table, content, place)
    }

    /// Tries one place of the path; None where it has the row of another cell.
    fn try_place<C: Sought>(
        &mut self,
        table: &Table<M>,
        content: Content,
        place: u32,
    ) -> Option<Result<Handle, Full>>
        requires of { IsOf self.old table.now }
        requires current { IsCurrent self.old.view }
        requires place { place < table.now.layout.buckets }
        requires path { IsOnPath self.old.view C.cell content place }
        ensures seeks { Seeks self.old self.new C.cell }
        ensures answers { MatchOption result (PassesBy self.old self.new content place) (λ answer. Answers self.old self.new C.cell answer) }
    {
        match self.claim::<C>(table, content, place) {
            Claim::Full => Some(Err(Full)),
            Claim::Own(handle) => Some(Ok(handle)),
            Claim::Taken(handle) => {
                if self.content_of(table, handle.0 - 1) == content {
                    Some(Ok(handle))
                } else {
                    None
                }
            }
        }
    }

    /// The handle of the sought cell, given by the three words of its row.
    ///
    /// # Errors
    ///
    /// Full, where the cell was found absent and all rows of the pass are used.
    pub(crate) fn put<C: Sought>(
        &mut self,
        table: &Table<M>,
        content: Content,
    ) -> Result<Handle, Full>
        requires of { IsOf self.old table.now }
        requires fits { Fits self.old.view.layout (now self.old.view) C.cell content }
        ensures seeks { Seeks self.old self.new C.cell }
        ensures answers { Answers self.old self.new C.cell result }
    {
        let _rows = self.published();
        let places = table.layout().buckets;
        let home = home(content.tag, content.left, content.right, u64::from(places)) as u32;
        for steps in 0..places {
            let place = place_after(home, steps, places);
            if let Some(answer) = self.try_place::<C>(table, content, place) {
                return answer;
            }
        }
        unreachable!()
    }
}
