//! The table, its passes, and the steps that a pass makes.
ghost use Rattle.std.specs.Prelude.{◌≡◌, ℕ, ◌+◌, ◌*◌, ◌<◌, ◌≤◌, ◌^◌, [], length, IfOk};
ghost use Rattle.lrc_rule.specs.Layout.{IsLayout, IsBucketOrPart, bucket_at};
ghost use Rattle.lrc_rule.specs.Memo.{IsMemoPair, IsMemoWord, memo_load, memo_store, memo_clear};
ghost use Rattle.lrc_rule.specs.Views.{now, next, opening_view};
ghost use Rattle.lrc_rule.specs.Steps.{IsCurrent, Loads, Notes, Stores, Exchanges, Memoes, left_of, right_of};
ghost use Rattle.lrc_store.specs.Cells.{CellTree};
ghost use Rattle.lrc_store.specs.Standing.{IsSound};
ghost use Rattle.lrc_table.specs.Standings.{standing};
ghost use Rattle.lrc_table.specs.Passes.{IsOf, Reads, IsSought, IsReady, Meets};

use atomic_table::{Seat, Table as Words};
use lrc_rule::{
    Amount, ClearMemo, Cut, Draft, Key, Layout, Load, LoadMemo, Meet, Publish, Rules, Seek, Sense,
    Sought, StoreMemo, Viewed,
};
use lrc_store::{Handle, Meaning};
use std::alloc::{AllocError, Global};
use std::marker::{Brand, Model, PhantomData};

/// Cells that threads share.
#[derive(Drop)]
pub struct Table<M: Meaning> {
    words: Words<(), Viewed, Key<M>, Rules<M>, Global>,
    layout: Layout,
}

impl<M: Meaning> Model for Table<M> {
    ghost use Rattle.std.specs.Prelude.{◌≡◌};
    ghost use Rattle.lrc_rule.specs.Layout.{IsLayout, HasRoom};
    ghost use Rattle.lrc_store.specs.Standing.{IsSound};
    ghost use Rattle.lrc_table.specs.Standings.{standing};
    ghost use Rattle.lrc_table.specs.Passes.{TableView, coded_table_view};

    ghost Value = { TableView M };

    ghost coded = { coded_table_view M.code };

    ghost view = { λ a. record { id = a.words.shared.table_id; layout = a.layout; meaning = a.words.shared.key.meaning } };

    ghost invariant = { λ a. (a.words.shared.key.layout ≡ a.layout) × HasRoom a.layout a.words.shared.table_id.words × (a.words.shared.table_id.slots ≡ 0) × IsLayout a.layout };
}

/// What one thread knows of a table, and the rows that it may still publish. Every call takes the
/// table of the pass.
#[derive(Drop)]
pub struct Pass<M: Meaning> {
    seat: Seat<(), Viewed>,
    first: u32,
    quota: u32,
    count: u32,
    meaning: PhantomData<M>,
}

impl<M: Meaning> Model for Pass<M> {
    ghost use Rattle.lrc_store.specs.Standing.{IsSound};
    ghost use Rattle.lrc_table.specs.Standings.{standing};
    ghost use Rattle.lrc_table.specs.Passes.{PassView, coded_pass_view, IsPass};

    ghost Value = { PassView };

    ghost coded = { coded_pass_view };

    ghost view = { λ a. record { table = a.seat.table_id; view = a.seat.me.0 } };

    ghost invariant = { λ a. IsPass a.seat.me.0 a.seat.me.1 a.first a.quota a.count };
}

impl<M: Meaning + Drop> Table<M> {
    /// An empty table for this many sessions, from 1 to 64, with this many rows for each, and this
    /// many memo words: at most 16,777,216 of either in all. The pass owns all rows.
    ///
    /// # Errors
    ///
    /// Want of memory.
    pub fn new(
        alloc: Global,
        meaning: M,
        sessions: u32,
        rows: u32,
        memo: u32,
    ) -> Result<(Table<M>, Pass<M>), AllocError>
        requires some_session { 1 ≤ sessions }
        requires sessions { sessions ≤ 64 }
        requires some_row { 1 ≤ rows }
        requires rows { sessions * rows ≤ 2 ^ 24 }
        requires some_memo { 1 ≤ memo }
        requires memo { memo ≤ 2 ^ 24 }
        ensures table { IfOk result (λ made. (made.0.meaning ≡ meaning) × (made.0.layout.rows ≡ sessions * rows) × (made.0.layout.memo ≡ memo) × IsLayout made.0.layout) }
        ensures pass { IfOk result (λ made. (made.1.table ≡ made.0.id) × (made.1.view ≡ opening_view made.0.layout)) }
    {
        let layout = Layout::of(sessions * rows, memo);
        let zeros = vec![in alloc; 0; layout.size()]?;
        let (words, seat) = Words::of_words(alloc, zeros.as_slice(), &Key { layout, meaning })?;
        let pass = Pass {
            seat,
            first: 0,
            quota: layout.rows,
            count: 0,
            meaning: PhantomData,
        };
        Ok((Table { words, layout }, pass))
    }
}

impl<M: Meaning> Table<M> {
    /// Where the words lie.
    pub(crate) fn layout(&self) -> Layout
        ensures value { result ≡ self.now.layout }
        ensures layout { IsLayout self.now.layout }
    {
        self.layout
    }
}

impl<M: Meaning> Pass<M> {
    /// How many rows this pass published.
    pub fn published(&self) -> u32
        ensures count { result ≡ length self.now.view.owned.made }
        ensures current { IsCurrent self.now.view }
        ensures layout { IsLayout self.now.view.layout }
        ensures sound { IsSound (standing self.now.view) }
    {
        self.count
    }

    /// How many rows this pass may publish in all.
    pub fn quota(&self) -> u32
        ensures { result ≡ self.now.view.owned.quota }
    {
        self.quota
    }

    /// The handle of the last row that it published, or of the row before its first.
    pub(crate) fn last(&self) -> Handle
        ensures { result.0 ≡ next self.now.view }
    {
        Handle(self.first + self.count)
    }

    /// Loads a bucket or a part of a row.
    pub(crate) fn load(&mut self, table: &Table<M>, word: usize) -> u64
        requires of { IsOf self.old table.now }
        requires word { IsBucketOrPart table.now.layout word }
        ensures reads { Reads self.old self.new }
        ensures found { Loads self.old.view self.new.view word result }
    {
        table.words.shared.load::<Load>(&mut self.seat, word)
    }

    /// Loads the bucket at a place where the sought cell's row may be; where it is empty, the cell is
    /// noted to be absent.
    pub(crate) fn load_bucket<C: Sought>(&mut self, table: &Table<M>, place: u32) -> u64
        requires of { IsOf self.old table.now }
        requires place { place < table.now.layout.buckets }
        requires sought { IsSought self.old.view C.cell place }
        ensures table { self.new.table ≡ self.old.table }
        ensures loads { Loads self.old.view self.new.view (bucket_at self.new.view.layout place) result }
        ensures notes { Notes self.old.view self.new.view C.cell result }
        ensures small { result < 2 ^ 32 }
    {
        table
            .words
            .shared
            .load::<Seek<C>>(&mut self.seat, table.layout.bucket(place))
    }

    /// Stores a part of the next row, from 0 to 3, behind those that are stored.
    pub(crate) fn draft_part(&mut self, table: &Table<M>, part: usize, value: u64)
        requires of { IsOf self.old table.now }
        requires part { part < 4 }
        requires behind { part ≤ length self.old.view.learned.draft }
        requires room { length self.old.view.owned.made < self.old.view.owned.quota }
        ensures table { self.new.table ≡ self.old.table }
        ensures stores { Stores self.old.view self.new.view part value }
    {
        let word = table.layout.part(self.first + self.count, part);
        table
            .words
            .shared
            .store::<Draft>(&mut self.seat, word, value)
    }

    /// Exchanges the bucket at the place, if it is empty, for the next row, and answers the word that
    /// was found.
    pub(crate) fn exchange(&mut self, table: &Table<M>, place: u32) -> u64
        requires of { IsOf self.old table.now }
        requires place { place < table.now.layout.buckets }
        requires ready { IsReady self.old.view place }
        requires room { length self.old.view.owned.made < self.old.view.owned.quota }
        ensures table { self.new.table ≡ self.old.table }
        ensures exchanges { Exchanges self.old.view self.new.view (bucket_at self.new.view.layout place) result }
        ensures small { result < 2 ^ 32 }
    {
        let next = u64::from(self.first + self.count) + 1;
        let word = table.layout.bucket(place);
        let found = table
            .words
            .shared
            .compare_exchange::<Publish>(&mut self.seat, word, 0, next);
        if found == 0 {
            self.count += 1;
        }
        found
    }

    /// Loads the memo word at a place.
    pub(crate) fn load_word<W: Sense>(&mut self, table: &Table<M>, place: u32) -> u64
        requires of { IsOf self.old table.now }
        requires place { place < table.now.layout.memo }
        requires allows { (call outcome : CellTree) → M.allows table.now.meaning call outcome → W.allows call outcome }
        requires reach { W.reach ≡ M.reach table.now.meaning }
        ensures table { self.new.table ≡ self.old.table }
        ensures step { Memoes self.old.view self.new.view (memo_load place result) }
        ensures word { IsMemoWord W.allows W.reach self.new.view.layout (now self.new.view) result }
    {
        table
            .words
            .shared
            .load::<LoadMemo<W>>(&mut self.seat, table.layout.memo_word(place))
    }

    /// Stores the word of a pair, which the meaning allows, in the memo word at a place.
    pub(crate) fn store_word(&mut self, table: &Table<M>, place: u32, word: u64)
        requires of { IsOf self.old table.now }
        requires place { place < table.now.layout.memo }
        requires pair { IsMemoPair (M.allows table.now.meaning) (M.reach table.now.meaning) self.old.view.layout (now self.old.view) word }
        ensures table { self.new.table ≡ self.old.table }
        ensures step { Memoes self.old.view self.new.view (memo_store place word) }
    {
        table
            .words
            .shared
            .store::<StoreMemo>(&mut self.seat, table.layout.memo_word(place), word)
    }

    /// Stores 0 in the memo word at a place.
    pub(crate) fn clear_word(&mut self, table: &Table<M>, place: u32)
        requires of { IsOf self.old table.now }
        requires place { place < table.now.layout.memo }
        ensures table { self.new.table ≡ self.old.table }
        ensures step { Memoes self.old.view self.new.view (memo_clear place) }
    {
        table
            .words
            .shared
            .store::<ClearMemo>(&mut self.seat, table.layout.memo_word(place), 0)
    }

    /// Gives so many of its last rows to a new pass.
    fn cut<A: Amount>(&mut self, table: &Table<M>, quota: u32) -> Pass<M>
        requires of { IsOf self.old table.now }
        requires unused { quota + length self.old.view.owned.made ≤ self.old.view.owned.quota }
        requires amount { A.amount ≡ quota }
        ensures kept { (self.new.table ≡ self.old.table) × (self.new.view ≡ left_of quota self.old.view) }
        ensures given { (result.table ≡ self.old.table) × (result.view ≡ right_of quota self.old.view) }
    {
        let seat = table.words.shared.split_seat::<Cut<A>>(&mut self.seat);
        self.quota -= quota;
        Pass {
            seat,
            first: self.first + self.quota,
            quota,
            count: 0,
            meaning: PhantomData,
        }
    }

    /// A new pass, which knows what this one knows, and owns so many of the rows that this one has
    /// not used.
    pub fn split(&mut self, table: &Table<M>, quota: u32) -> Pass<M>
        requires of { IsOf self.old table.now }
        requires unused { quota + length self.old.view.owned.made ≤ self.old.view.owned.quota }
        ensures kept { (self.new.table ≡ self.old.table) × (self.new.view ≡ left_of quota self.old.view) }
        ensures given { (result.table ≡ self.old.table) × (result.view ≡ right_of quota self.old.view) }
    {
        self.cut::<Brand>(table, quota)
    }

    /// Takes in what another pass knows.
    pub(crate) fn take_in(&mut self, table: &Table<M>, other: Pass<M>)
        requires of { IsOf self.old table.now }
        requires other_of { IsOf other table.now }
        ensures { Meets self.old other self.new }
    {
        let Pass {
            seat,
            first: _,
            quota: _,
            count: _,
            meaning: _,
        } = other;
        table.words.shared.join_seat::<Meet>(&mut self.seat, seat);
        let first = table.layout.bucket(0);
        let _ = table.words.shared.load::<Load>(&mut self.seat, first);
    }
}
