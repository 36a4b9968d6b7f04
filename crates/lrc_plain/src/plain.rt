ghost use Rattle.std.specs.Prelude.{◌≡◌, ◌+◌, ◌-◌, ◌<◌, ◌≤◌, ◌^◌, ◌↔◌, [], length, min, slice_set, vec_len, IfOk, IfErr, OnErr, IsErr, IsTrue, MatchOption};
ghost use Rattle.lrc_store.specs.Cells.{CellTree, number, pair, IsWithin};
ghost use Rattle.lrc_store.specs.Standing.{Standing, IsSound, IsKnown, Told, meant};
ghost use Rattle.lrc_store.specs.Words.{Puts, Reads, Stays, Shows, Finds, Recalls, Remembers};
ghost use Rattle.lrc_plain.specs.Shelf.{at, IsShelf, IsPlaced, IsFullOf};
ghost use Rattle.lrc_plain.specs.Rows.{whole, IsFor, IsOver};
ghost use Rattle.lrc_plain.specs.Plain.{state_of, meaning_of, outcome, IsMemo, IsNew, IsFullAt};
ghost use Rattle.lrc_plain.specs.Recalled.{IsMissedAtZero, IsMissing};

use crate::rows::Rows;
use lrc_store::{Cell, Full, Handle, Meaning, NoMeaning, Recall, Store};
use std::alloc::{AllocError, Global};
use std::marker::Model;

/// A store of cells for one owner. It forgets nothing, and all its memory is taken when it is made.
#[derive(Drop)]
pub struct PlainStore<M: Meaning> {
    rows: Rows,
    // For each row the handle of the result that is remembered for its cell, or 0.
    outcomes: Vec<u32>,
    missed: u64,
    meaning: M,
}

impl<M: Meaning> Model for PlainStore<M> {
    ghost use Rattle.lrc_plain.specs.Plain.{Plain, coded_plain, IsMemo};

    ghost Value = { Plain M };

    ghost coded = { coded_plain M.code };

    ghost view = { λ a. record { shelf = a.rows; outcomes = a.outcomes.items; missed = a.missed; meaning = a.meaning } };

    ghost invariant = { λ a. IsMemo (M.allows a.meaning) (M.reach a.meaning) a.rows a.outcomes.items };
}

impl PlainStore<NoMeaning> {
    /// An empty store with this many rows, from 1 to 16,777,216, that remembers nothing.
    ///
    /// # Errors
    ///
    /// Want of memory.
    pub fn new(alloc: Global, rows: u32) -> Result<PlainStore<NoMeaning>, AllocError>
        requires some { 1 ≤ rows }
        requires limit { rows ≤ 2 ^ 24 }
        ensures { IfOk result (λ store. IsNew (state_of store) rows) }
    {
        PlainStore::with_meaning(alloc, NoMeaning, rows)
    }
}

impl<M: Meaning + Drop> PlainStore<M> {
    /// An empty store with this many rows, from 1 to 16,777,216, that remembers what the meaning
    /// allows.
    ///
    /// # Errors
    ///
    /// Want of memory.
    pub fn with_meaning(alloc: Global, meaning: M, rows: u32) -> Result<PlainStore<M>, AllocError>
        requires some { 1 ≤ rows }
        requires limit { rows ≤ 2 ^ 24 }
        ensures { IfOk result (λ store. IsNew (state_of store) rows × (meaning_of store ≡ meaning)) }
    {
        Ok(PlainStore {
            rows: Rows::new(alloc, rows)?,
            outcomes: vec![in alloc; 0; rows as usize]?,
            missed: 0,
            meaning,
        })
    }
}

impl<M: Meaning> PlainStore<M> {
    /// The handle of the cell, which is in a row then.
    #[inline(always)]
    fn put(&mut self, cell: Cell) -> Result<Handle, Full>
        requires { IsFor (length self.old.shelf.cells) cell }
        ensures puts { Puts (state_of self.old) (state_of self.new) (whole self.old.shelf.cells cell) result }
        ensures exact { IsErr result ↔ IsFullAt (state_of self.old) (whole self.old.shelf.cells cell) }
        ensures same_meaning { meaning_of self.new ≡ meaning_of self.old }
    {
        self.rows.put(cell)
    }

    /// How many rows there are.
    fn len(&self) -> u32
        ensures count { result ≡ length self.now.shelf.cells }
        ensures memo { IsMemo (M.allows self.now.meaning) (M.reach self.now.meaning) self.now.shelf self.now.outcomes }
    {
        self.rows.len()
    }

    /// The outermost form of the cell that the handle stands for.
    fn form_of(&self, handle: Handle) -> Cell
        requires { handle.0 ≤ length self.now.shelf.cells }
        ensures cell { whole self.now.shelf.cells result ≡ at self.now.shelf.cells handle.0 }
        ensures known { IsOver (length self.now.shelf.cells) result }
    {
        self.rows.look(handle)
    }

    /// The number of the handle that is kept for a call, or 0.
    fn kept_for(&self, call: Handle) -> u32
        requires { call.0 ≤ length self.now.shelf.cells }
        ensures value { result ≡ outcome self.now.outcomes call.0 }
        ensures memo { IsMemo (M.allows self.now.meaning) (M.reach self.now.meaning) self.now.shelf self.now.outcomes }
    {
        if call == Handle::NIL {
            0
        } else {
            self.outcomes[call.0 as usize - 1]
        }
    }

    /// The handle of the remembered result of a call.
    fn outcome_of(&self, call: Handle) -> Option<Handle>
        requires { IsKnown (state_of self.now) call.0 }
        ensures { let s = state_of self.now in MatchOption result (IsMissing s (meant s call.0)) (λ outcome. Finds (M.allows self.now.meaning) (M.reach self.now.meaning) s s (meant s call.0) (meant s outcome.0) outcome.0) }
    {
        let kept = self.kept_for(call);
        if kept == 0 { None } else { Some(Handle(kept)) }
    }
}

/// The count of misses after one more, up to the type's last value.
fn one_more(missed: u64) -> u64
    ensures { result ≡ min (missed + 1) (2 ^ 64 - 1) }
{
    missed.saturating_add(1)
}

/// Writes the handle of a result for a call, which is not nil.
fn write_outcome(outcomes: &mut Vec<u32>, call: Handle, outcome: Handle)
    requires some { 1 ≤ call.0 }
    requires within { call.0 ≤ vec_len outcomes.old }
    ensures { outcomes.new.items ≡ slice_set outcomes.old.items (call.0 - 1) outcome.0 }
{
    outcomes[call.0 as usize - 1] = outcome.0;
}

impl<N: Meaning> Store for PlainStore<N> {
    type M = N;

    ghost state = { state_of };

    ghost meaning = { meaning_of };

    fn int(&mut self, value: i64) -> Result<Handle, Full>
        ensures puts { Puts (state_of self.old) (state_of self.new) (number value) result }
        ensures exact { IsErr result ↔ IsFullAt (state_of self.old) (number value) }
        ensures same_meaning { meaning_of self.new ≡ meaning_of self.old }
    {
        self.put(Cell::Number(value))
    }

    fn cell(&mut self, tag: u32, left: Handle, right: Handle) -> Result<Handle, Full>
        requires left_known { IsKnown (state_of self.old) left.0 }
        requires right_known { IsKnown (state_of self.old) right.0 }
        ensures puts { let s = state_of self.old in Puts s (state_of self.new) (pair tag (meant s left.0) (meant s right.0)) result }
        ensures exact { let s = state_of self.old in IsErr result ↔ IsFullAt s (pair tag (meant s left.0) (meant s right.0)) }
        ensures same_meaning { meaning_of self.new ≡ meaning_of self.old }
    {
        self.put(Cell::Pair(tag, left, right))
    }

    fn look(&mut self, handle: Handle) -> Cell {
        self.form_of(handle)
    }

    fn same(&self, left: Handle, right: Handle) -> bool {
        let _rows = self.len();
        left == right
    }

    fn recall(&mut self, call: Handle) -> Recall
        requires { IsKnown (state_of self.old) call.0 }
        ensures stays { Stays (state_of self.old) (state_of self.new) }
        ensures same_memo { (state_of self.new).memo ≡ (state_of self.old).memo }
        ensures answers { let s = state_of self.old in Recalls (N.allows (meaning_of self.old)) (N.reach (meaning_of self.old)) s (state_of self.new) (meant s call.0) result }
        ensures zero { IsMissedAtZero result }
        ensures same_meaning { meaning_of self.new ≡ meaning_of self.old }
    {
        match self.outcome_of(call) {
            Some(outcome) => Recall::Found(outcome),
            None => {
                self.missed = one_more(self.missed);
                Recall::Missed(0)
            }
        }
    }

    fn remember(&mut self, call: Handle, outcome: Handle) {
        write_outcome(&mut self.outcomes, call, outcome);
    }

    fn forget(&mut self, place: u64) {
        let _ = place;
    }

    fn published(&self) -> u32 {
        self.len()
    }

    fn quota(&self) -> u32 {
        self.rows.quota()
    }

    fn missed(&self) -> u64 {
        self.missed
    }
}
