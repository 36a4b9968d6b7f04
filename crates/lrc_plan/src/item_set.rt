ghost use Rattle.std.specs.Prelude.{◌≡◌, ℕ, ◌+◌, ◌<◌, ◌≤◌, ◌↔◌, ◌⊎◌, IsTrue, IfOk, All, Contains, [], length, slice_index_or, slice_set, true};
ghost use Rattle.lrc_plan_meaning.specs.declared.Bound as sequence;
ghost use Rattle.lrc_plan_meaning.specs.declared.Bound.TheVariants as b;
ghost use Rattle.lrc_plan.specs.ItemSets.{row_of, holds, HasRoom, HasRoomFor};

use crate::visit_table::VisitTable;
use lrc_base::{List, Memory};
use lrc_plan_meaning::Bound;
use sqlite_items::at;
use std::alloc::Global;
use std::marker::Model;

/// A set of the items of one production. Only [`ItemSet::new`] takes memory.
#[derive(Debug, Drop)]
pub struct ItemSet {
    /// A flag for each occurrence.
    values: List<bool>,
    /// For each symbol the flags of its bindings.
    kids: Vec<VisitTable>,
}

impl Model for ItemSet {
    ghost use Rattle.lrc_plan.specs.ItemSets.{Flags};

    ghost Value = { Flags };

    ghost view = { λ s. record { values = s.values; kids = s.kids.items } };
}

impl ItemSet {
    /// The empty set, with room for the values of so many occurrences, and for the bindings of symbols
    /// that have so many visits. The error is want of memory.
    #[tactic(auto, using(crate::proofs::SetLemmas::none_held))]
    pub fn new(alloc: Global, occurrences: usize, visits: &[u32]) -> Result<ItemSet, Memory>
        ensures empty { IfOk result (λ s. (x : sequence.Bound) → ¬ IsTrue (holds s x)) }
        ensures room { IfOk result (λ s. HasRoomFor s occurrences visits.now) }
    {
        let mut kids = Vec::new(alloc);
        'symbols: for count in visits {
            kids.push(VisitTable::new(alloc, *count)?)?;
        }
        Ok(ItemSet {
            values: List::from_vec(vec![in alloc; false; occurrences]?),
            kids,
        })
    }

    /// Whether the item is in the set.
    #[tactic(auto, using(crate::proofs::AtLemmas::past_default))]
    pub fn has(&self, item: Bound) -> bool
        ensures { result ≡ holds self.now item }
    {
        match item {
            Bound::Value(occurrence) => match at(self.values.as_slice(), occurrence as usize) {
                Some(flag) => *flag,
                None => false,
            },
            Bound::Kid(symbol, from, to) => match at(&self.kids, symbol as usize) {
                Some(table) => table.has(from, to),
                None => false,
            },
        }
    }

    /// Puts an item into the set.
    pub fn insert(&mut self, item: Bound)
        requires { HasRoom self.old item }
        ensures items { (x : sequence.Bound) → IsTrue (holds self.new x) ↔ (IsTrue (holds self.old x) ⊎ (x ≡ item)) }
        ensures room { (x : sequence.Bound) → HasRoom self.old x → HasRoom self.new x }
    {
        match item {
            Bound::Value(occurrence) => self.values.set(occurrence as usize, true),
            Bound::Kid(symbol, from, to) => self.insert_kid(symbol, from, to),
        }
    }

    /// Puts the binding of a symbol between two of its visits into the set.
    fn insert_kid(&mut self, symbol: u32, from: u32, to: u32)
        requires { HasRoom self.old (b.Kid symbol from to) }
        ensures { self.new ≡ record self.old { kids = slice_set self.old.kids symbol (slice_set (slice_index_or self.old.kids symbol []) from (slice_set (row_of self.old.kids symbol from) to true)) } }
    {
        self.kids[symbol as usize].set(from, to);
    }

    /// Puts some items into the set.
    pub fn insert_all(&mut self, items: &[Bound])
        requires { All (HasRoom self.old) items.now }
        ensures items { (x : sequence.Bound) → IsTrue (holds self.new x) ↔ (IsTrue (holds self.old x) ⊎ Contains items.now x) }
        ensures room { (x : sequence.Bound) → HasRoom self.old x → HasRoom self.new x }
    {
        'items: for item in items {
            self.insert(*item);
        }
    }
}
