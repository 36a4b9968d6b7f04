ghost use Rattle.std.specs.Prelude.{◌≡◌, ◌+◌, ◌-◌, ◌^◌, min, ◌<◌, ◌≤◌, ◌%◌, ◌++◌, [], ◌∷◌, MatchOption, ℕ};
ghost use Rattle.lrc_store.specs.Cells.{CellTree, number, pair, IsWithin};
ghost use Rattle.lrc_store.specs.Standing.{IsKnown, Told, meant};
ghost use Rattle.lrc_store.specs.Words.{Puts, Reads, Stays, Shows, Recalls, Remembers};
ghost use Rattle.lrc_rule.specs.Memo.{pair_word, memo_load, memo_store, memo_clear};
ghost use Rattle.lrc_table.specs.Passes.{TableView, IsOf};
ghost use Rattle.lrc_table.specs.Memo.{IsKnownWord};
ghost use Rattle.lrc_table.specs.Standings.{NotesOnly, NotesNone, IsNoted, standing};
ghost use Rattle.lrc_memo.specs.Shared.{shared_standing, LiesIn, Names, NamesNot, Answers};

use lrc_rule::place;
use lrc_store::{Cell, Full, Handle, Meaning, Recall, Store};
use lrc_table::{Pass, Table};
use std::marker::Model;

/// A pass of a shared table as a store. A result that it finds is one that the meaning allows for
/// the call, whoever remembered it; what was remembered may be overwritten at any moment.
#[derive(Drop)]
pub struct SharedStore<'a, M: Meaning> {
    table: &'a Table<M>,
    pass: Pass<M>,
    missed: u64,
}

impl<'a, M: Meaning> Model for SharedStore<'a, M> {
    ghost use Rattle.lrc_memo.specs.Shared.{Shared, coded_shared};
    ghost use Rattle.lrc_table.specs.Passes.{IsOf};

    ghost Value = { Shared M };

    ghost coded = { coded_shared M.code };

    ghost view = { λ a. record { pass = a.pass; table = a.table.now; missed = a.missed } };

    ghost invariant = { λ a. IsOf a.pass a.table.now };
}

/// The result that the word pairs with the call.
#[tactic(auto, using(crate::proofs::Recalling::names_not_zero, crate::proofs::Recalling::names_not_other))]
fn outcome_in(word: u64, call: Handle) -> Option<Handle>
    ensures { MatchOption result (NamesNot call.0 word) (λ handle. Names call.0 handle.0 word) }
{
    if word == 0 {
        return None;
    }
    if word / (1 << 32) != u64::from(call.0) {
        return None;
    }
    let outcome = word % (1 << 32);
    Some(Handle(outcome as u32))
}

impl<'a, M: Meaning> SharedStore<'a, M> {
    /// A store over this pass of the table, which has missed nothing yet.
    pub fn new(table: &'a Table<M>, pass: Pass<M>) -> SharedStore<'a, M>
        requires { IsOf pass table.now }
        ensures parts { (result.pass ≡ pass) × (result.table ≡ table.now) }
        ensures missed { result.missed ≡ 0 }
        ensures lies { LiesIn (shared_standing result) table.now }
    {
        SharedStore {
            table,
            pass,
            missed: 0,
        }
    }

    /// The pass, with what it knows and made by now.
    pub fn into_pass(self) -> Pass<M>
        ensures pass { result ≡ self.entry.pass }
        ensures of { IsOf result self.entry.table }
        ensures of_equal { (table : TableView M) → LiesIn (shared_standing self.entry) table → IsOf result table }
    {
        let SharedStore {
            table: _,
            pass,
            missed: _,
        } = self;
        pass
    }

    /// Stores 0 in the memo word at the place, counted round where there are fewer.
    pub fn evict(&mut self, place: u64)
        ensures reads { Reads (shared_standing self.old) (shared_standing self.new) }
        ensures notes { self.new.pass.view.learned.notes ≡ self.old.pass.view.learned.notes }
        ensures step { self.new.pass.view.learned.memo_steps ≡ self.old.pass.view.learned.memo_steps ++ memo_clear (place % self.old.table.layout.memo) ∷ [] }
        ensures same_table { self.new.table ≡ self.old.table }
    {
        let place = (place % u64::from(self.table.memo_words())) as u32;
        self.pass.clear_memo(self.table, place);
    }

    /// Counts a recall that found nothing.
    fn count_miss(&mut self)
        ensures kept { (self.new.pass ≡ self.old.pass) × (self.new.table ≡ self.old.table) }
        ensures missed { self.new.missed ≡ min (self.old.missed + 1) (2 ^ 64 - 1) }
    {
        self.missed = self.missed.saturating_add(1);
    }

    /// The word at the place of a call.
    fn word_of(&mut self, call: Handle) -> u64
        ensures reads { Reads (shared_standing self.old) (shared_standing self.new) }
        ensures notes { self.new.pass.view.learned.notes ≡ self.old.pass.view.learned.notes }
        ensures step { self.new.pass.view.learned.memo_steps ≡ self.old.pass.view.learned.memo_steps ++ memo_load (call.0 % self.old.table.layout.memo) result ∷ [] }
        ensures word { IsKnownWord (M.allows self.old.table.meaning) (M.reach self.old.table.meaning) (standing self.new.pass.view) result }
        ensures same_table { self.new.table ≡ self.old.table }
    {
        let words = self.table.memo_words();
        self.pass.load_memo(self.table, place(call, words))
    }
}

impl<'a, N: Meaning> Store for SharedStore<'a, N> {
    type M = N;

    ghost state = { λ s. shared_standing s };

    ghost meaning = { λ s. s.table.meaning };

    fn int(&mut self, value: i64) -> Result<Handle, Full>
        ensures puts { Puts (shared_standing self.old) (shared_standing self.new) (number value) result }
        ensures notes { NotesOnly self.old.pass.view self.new.pass.view (number value) }
        ensures noted { IsNoted self.old.pass.view self.new.pass.view (number value) result }
        ensures unnoted { NotesNone self.old.pass.view self.new.pass.view result }
        ensures no_step { self.new.pass.view.learned.memo_steps ≡ self.old.pass.view.learned.memo_steps }
        ensures same_table { self.new.table ≡ self.old.table }
        ensures same_meaning { self.new.table.meaning ≡ self.old.table.meaning }
    {
        self.pass.int(self.table, value)
    }

    fn cell(&mut self, tag: u32, left: Handle, right: Handle) -> Result<Handle, Full>
        requires tag_from { 1 ≤ tag }
        requires tag_to { tag ≤ 65535 }
        requires left_known { IsKnown (shared_standing self.old) left.0 }
        requires right_known { IsKnown (shared_standing self.old) right.0 }
        ensures puts { let s = shared_standing self.old in Puts s (shared_standing self.new) (pair tag (meant s left.0) (meant s right.0)) result }
        ensures notes { let s = shared_standing self.old in NotesOnly self.old.pass.view self.new.pass.view (pair tag (meant s left.0) (meant s right.0)) }
        ensures noted { let s = shared_standing self.old in IsNoted self.old.pass.view self.new.pass.view (pair tag (meant s left.0) (meant s right.0)) result }
        ensures unnoted { NotesNone self.old.pass.view self.new.pass.view result }
        ensures no_step { self.new.pass.view.learned.memo_steps ≡ self.old.pass.view.learned.memo_steps }
        ensures same_table { self.new.table ≡ self.old.table }
        ensures same_meaning { self.new.table.meaning ≡ self.old.table.meaning }
    {
        self.pass.cell(self.table, tag, left, right)
    }

    fn look(&mut self, handle: Handle) -> Cell
        requires { IsKnown (shared_standing self.old) handle.0 }
        ensures shows { Shows (shared_standing self.new) result (meant (shared_standing self.old) handle.0) }
        ensures reads { Reads (shared_standing self.old) (shared_standing self.new) }
        ensures notes { self.new.pass.view.learned.notes ≡ self.old.pass.view.learned.notes }
        ensures no_step { self.new.pass.view.learned.memo_steps ≡ self.old.pass.view.learned.memo_steps }
        ensures same_table { self.new.table ≡ self.old.table }
        ensures same_meaning { self.new.table.meaning ≡ self.old.table.meaning }
    {
        self.pass.look(self.table, handle)
    }

    fn same(&self, left: Handle, right: Handle) -> bool {
        self.pass.same(left, right)
    }

    fn recall(&mut self, call: Handle) -> Recall
        requires { IsKnown (shared_standing self.old) call.0 }
        ensures stays { Stays (shared_standing self.old) (shared_standing self.new) }
        ensures same_memo { (shared_standing self.new).memo ≡ (shared_standing self.old).memo }
        ensures answers { let s = shared_standing self.old in Recalls (N.allows self.old.table.meaning) (N.reach self.old.table.meaning) s (shared_standing self.new) (meant s call.0) result }
        ensures notes { self.new.pass.view.learned.notes ≡ self.old.pass.view.learned.notes }
        ensures step { (word : ℕ) × (self.new.pass.view.learned.memo_steps ≡ self.old.pass.view.learned.memo_steps ++ memo_load (call.0 % self.old.table.layout.memo) word ∷ []) × Answers call.0 word result }
        ensures same_table { self.new.table ≡ self.old.table }
        ensures same_meaning { self.new.table.meaning ≡ self.old.table.meaning }
    {
        let word = self.word_of(call);
        match outcome_in(word, call) {
            Some(outcome) => Recall::Found(outcome),
            None => {
                self.count_miss();
                Recall::Missed(word)
            }
        }
    }

    fn remember(&mut self, call: Handle, outcome: Handle)
        requires call_known { IsKnown (shared_standing self.old) call.0 }
        requires outcome_known { IsKnown (shared_standing self.old) outcome.0 }
        requires allowed { let s = shared_standing self.old in N.allows self.old.table.meaning (meant s call.0) (meant s outcome.0) }
        requires reached { let s = shared_standing self.old in Told s.seen (IsWithin (N.reach self.old.table.meaning (meant s call.0) (meant s outcome.0))) }
        ensures stays { Stays (shared_standing self.old) (shared_standing self.new) }
        ensures same_missed { (shared_standing self.new).missed ≡ (shared_standing self.old).missed }
        ensures gains { let s = shared_standing self.old in Remembers s.memo (shared_standing self.new).memo (meant s call.0) (meant s outcome.0) }
        ensures notes { self.new.pass.view.learned.notes ≡ self.old.pass.view.learned.notes }
        ensures step { self.new.pass.view.learned.memo_steps ≡ self.old.pass.view.learned.memo_steps ++ memo_store (call.0 % self.old.table.layout.memo) (pair_word call.0 outcome.0) ∷ [] }
        ensures same_table { self.new.table ≡ self.old.table }
        ensures same_meaning { self.new.table.meaning ≡ self.old.table.meaning }
    {
        let place = place(call, self.table.memo_words());
        self.pass.store_memo(self.table, place, call, outcome);
    }

    fn forget(&mut self, place: u64)
        ensures reads { Reads (shared_standing self.old) (shared_standing self.new) }
        ensures notes { self.new.pass.view.learned.notes ≡ self.old.pass.view.learned.notes }
        ensures step { self.new.pass.view.learned.memo_steps ≡ self.old.pass.view.learned.memo_steps ++ memo_clear (place % self.old.table.layout.memo) ∷ [] }
        ensures same_table { self.new.table ≡ self.old.table }
        ensures same_meaning { self.new.table.meaning ≡ self.old.table.meaning }
    {
        self.evict(place);
    }

    fn published(&self) -> u32 {
        self.pass.published()
    }

    fn quota(&self) -> u32 {
        self.pass.quota()
    }

    fn missed(&self) -> u64 {
        self.missed
    }
}
