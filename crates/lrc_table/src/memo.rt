//! The steps of a pass on memo words, in the words of a store.
ghost use Rattle.std.specs.Prelude.{◌≡◌, ◌<◌, ◌≤◌, ◌++◌, [], ◌∷◌};
ghost use Rattle.lrc_store.specs.Cells.{IsWithin};
ghost use Rattle.lrc_store.specs.Standing.{IsKnown, Told, meant};
ghost use Rattle.lrc_store.specs.Words.{Reads};
ghost use Rattle.lrc_rule.specs.Memo.{pair_word, memo_load, memo_store, memo_clear};
ghost use Rattle.lrc_table.specs.Memo.{IsKnownWord};
ghost use Rattle.lrc_table.specs.Passes.{IsOf};
ghost use Rattle.lrc_table.specs.Standings.{standing};

use crate::table::{Pass, Table};
use lrc_store::{Handle, Meaning};
use std::marker::Brand;

/// The word of a call and its result.
fn pair(call: Handle, outcome: Handle) -> u64
    ensures { result ≡ pair_word call.0 outcome.0 }
{
    u64::from(call.0) * (1 << 32) + u64::from(outcome.0)
}

impl<M: Meaning> Table<M> {
    /// How many memo words there are.
    pub fn memo_words(&self) -> u32
        ensures count { result ≡ self.now.layout.memo }
        ensures some { 1 ≤ result }
    {
        self.layout().memo
    }
}

impl<M: Meaning> Pass<M> {
    /// Loads the memo word at a place, which is below the number of memo words. The word is 0, or the
    /// handles of a call and its result, both known then: the meaning allows the pair, and what it
    /// reaches is in the table for good.
    pub fn load_memo(&mut self, table: &Table<M>, place: u32) -> u64
        requires of { IsOf self.old table.now }
        requires place { place < table.now.layout.memo }
        ensures of { IsOf self.new table.now }
        ensures reads { Reads (standing self.old.view) (standing self.new.view) }
        ensures notes { self.new.view.learned.notes ≡ self.old.view.learned.notes }
        ensures step { self.new.view.learned.memo_steps ≡ self.old.view.learned.memo_steps ++ memo_load place result ∷ [] }
        ensures word { IsKnownWord (M.allows table.now.meaning) (M.reach table.now.meaning) (standing self.new.view) result }
    {
        let _rows = self.published();
        self.load_word::<Brand>(table, place)
    }

    /// Stores the handles of a call and its result in the memo word at a place, which is below the
    /// number of memo words. The meaning allows the pair, and what it reaches is in the table for
    /// good.
    pub fn store_memo(&mut self, table: &Table<M>, place: u32, call: Handle, outcome: Handle)
        requires of { IsOf self.old table.now }
        requires place { place < table.now.layout.memo }
        requires call_known { IsKnown (standing self.old.view) call.0 }
        requires outcome_known { IsKnown (standing self.old.view) outcome.0 }
        requires allowed { M.allows table.now.meaning (meant (standing self.old.view) call.0) (meant (standing self.old.view) outcome.0) }
        requires reached { Told (standing self.old.view).seen (IsWithin (M.reach table.now.meaning (meant (standing self.old.view) call.0) (meant (standing self.old.view) outcome.0))) }
        ensures of { IsOf self.new table.now }
        ensures reads { Reads (standing self.old.view) (standing self.new.view) }
        ensures notes { self.new.view.learned.notes ≡ self.old.view.learned.notes }
        ensures step { self.new.view.learned.memo_steps ≡ self.old.view.learned.memo_steps ++ memo_store place (pair_word call.0 outcome.0) ∷ [] }
    {
        let _rows = self.published();
        self.store_word(table, place, pair(call, outcome));
    }

    /// Stores 0 in the memo word at a place, which is below the number of memo words.
    pub fn clear_memo(&mut self, table: &Table<M>, place: u32)
        requires of { IsOf self.old table.now }
        requires place { place < table.now.layout.memo }
        ensures of { IsOf self.new table.now }
        ensures reads { Reads (standing self.old.view) (standing self.new.view) }
        ensures notes { self.new.view.learned.notes ≡ self.old.view.learned.notes }
        ensures step { self.new.view.learned.memo_steps ≡ self.old.view.learned.memo_steps ++ memo_clear place ∷ [] }
    {
        let _rows = self.published();
        self.clear_word(table, place);
    }
}
